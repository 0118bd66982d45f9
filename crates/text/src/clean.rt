// Clean lines: words of visible bytes between single spaces.
ghost use Rattle.std.specs.Prelude.{◌≡◌};
ghost use Rattle.std.specs.List.{list_all};
ghost use Rattle.text.specs.Clean.{visible, clean_word, clean};

use crate::line::Words;

fn all_visible(word: &[u8]) -> bool
    ensures { result ≡ list_all visible word.now }
{
    word.iter().all(u8::is_ascii_graphic)
}

fn is_clean_word(word: &[u8]) -> bool
    ensures { result ≡ clean_word word.now }
{
    !word.is_empty() && all_visible(word)
}

// Whether the line is not empty, and has single spaces between words of visible bytes.
pub fn is_clean(line: &[u8]) -> bool
    ensures { result ≡ clean line.now }
{
    Words::of(line).all(is_clean_word)
}
