// Making a name of a text.
ghost use Rattle.std.specs.Prelude.{◌≡◌, true, false, string_bytes, MatchOption};
ghost use Rattle.std.specs.List.{list_all};
ghost use Rattle.text.specs.NameForms.{name_byte, name_form};
ghost use Rattle.text.specs.Names.{name_bytes};

use crate::name::Name;

const MOST_LETTERS: usize = 16;

fn is_name_byte(b: &u8) -> bool
    ensures { result ≡ name_byte b.now }
{
    matches!(b, b'a'..=b'z' | b'0'..=b'9')
}

fn all_name_bytes(bytes: &[u8]) -> bool
    ensures { result ≡ list_all name_byte bytes.now }
{
    bytes.iter().all(is_name_byte)
}

fn is_name(bytes: &[u8]) -> bool
    ensures { result ≡ name_form bytes.now }
{
    (1..=MOST_LETTERS).contains(&bytes.len()) && all_name_bytes(bytes)
}

impl Name {
    // The name that the text is, if it is one.
    pub fn new(text: String) -> Option<Name>
        ensures { MatchOption result (name_form (string_bytes text) ≡ false) (λ name. (name_form (string_bytes text) ≡ true) × (name_bytes name ≡ string_bytes text)) }
    {
        // Not by `then`: its closure would have to be told what was asked.
        if is_name(text.as_bytes()) {
            Some(Name { text })
        } else {
            None
        }
    }

    pub fn as_str(&self) -> &str
        ensures { result.now ≡ name_bytes self.now }
    {
        self.text.as_str()
    }
}
