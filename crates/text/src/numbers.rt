// Numbers as they are written: at most six digits, of which the first is 0 only in 0 itself.
ghost use Rattle.std.specs.Prelude.{◌≡◌, ℕ, ◌<◌, true, decimal, MatchOption, ◌≢◌};
ghost use Rattle.std.specs.Char.{is_ascii_digit};
ghost use Rattle.std.specs.List.{list_all};
ghost use Rattle.std.specs.Str.Parse.{digits_value};
ghost use Rattle.text.specs.Numbers.{number_limit};
ghost use Rattle.text.specs.inner.Digits.{number_form};

const MOST_DIGITS: usize = 6;

// The number that the word writes.
pub fn number(word: &[u8]) -> Option<u32>
    ensures { MatchOption result ((n : ℕ) → n < number_limit → word.now ≢ decimal n) (λ n. (n < number_limit) × (word.now ≡ decimal n)) }
{
    if !is_number(word) {
        return None;
    }
    Some(value(word))
}

fn all_digits(word: &[u8]) -> bool
    ensures { result ≡ list_all is_ascii_digit word.now }
{
    word.iter().all(u8::is_ascii_digit)
}

fn is_number(word: &[u8]) -> bool
    ensures { result ≡ number_form word.now }
{
    (1..=MOST_DIGITS).contains(&word.len())
        && all_digits(word)
        && (word.len() == 1 || word[0] != b'0')
}

// One pass over the digits: `parse` takes a text, and would go over the word twice more.
fn value(word: &[u8]) -> u32
    requires { number_form word.now ≡ true }
    ensures { result ≡ digits_value 10 word.now }
{
    let mut n = 0;
    for b in word {
        n = 10 * n + u32::from(*b - b'0');
    }
    n
}
