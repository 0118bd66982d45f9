// A text without its last line feed.
ghost use Rattle.std.specs.Prelude.{◌≡◌};
ghost use Rattle.text.specs.Lines.{unended as without_end};

pub fn unended(text: &[u8]) -> &[u8]
    ensures { result.now ≡ without_end text.now }
{
    text.strip_suffix(b"\n").unwrap_or(text)
}
