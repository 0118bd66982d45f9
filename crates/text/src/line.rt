// The words of a line, one after another.
ghost use Rattle.std.specs.Prelude.{◌≡◌};
ghost use Rattle.std.specs.Iterator.{YieldsFirstRef, item_count};
ghost use Rattle.text.specs.Words.{words, words_left, joined};

// What is left of a line to read. No word at all is left behind the last word, while behind a last space
// an empty word is left. The library's `split` gives the same words; the `next` of a type of our own
// promises them by `words_left`, which is what each reader of a line cites.
#[derive(Clone, Copy)]
pub struct Words<'a>(pub Option<&'a [u8]>);

impl<'a> Words<'a> {
    pub fn of(line: &'a [u8]) -> Words<'a>
        ensures words { words_left result ≡ words line.now }
        ensures line { joined (words_left result) ≡ line.now }
    {
        Words(Some(line))
    }
}

impl<'a> Iterator for Words<'a> {
    type Item = &'a [u8];

    ghost next_gives = { YieldsFirstRef words_left };

    ghost remaining = { item_count words_left };

    fn next(&mut self) -> Option<&'a [u8]> {
        let rest = self.0?;
        let Some(space) = rest.iter().position(|b| *b == b' ') else {
            self.0 = None;
            return Some(rest);
        };
        self.0 = Some(&rest[space + 1..]);
        Some(&rest[..space])
    }
}
