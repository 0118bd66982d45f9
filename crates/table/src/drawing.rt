// A list of words, read as a table. What it draws need not be lawful yet.
ghost use Rattle.std.specs.Prelude.{◌≡◌, ◌≤◌, slice_index};
ghost use Rattle.watch.specs.Sizes.{sizes_of};
ghost use Rattle.watch.specs.Watchers.{most_marks};
ghost use Rattle.table.specs.Drawings.{drawn};

use watch::Sizes;

// The list, with its sizes at hand.
#[derive(Clone, Copy)]
pub struct Drawing<'a> {
    pub(crate) words: &'a [u16],
    pub(crate) sizes: Sizes,
    ghost sized: { sizes ≡ sizes_of (drawn words.now) },
    ghost few_marks: { sizes.marks ≤ most_marks },
}

// The word at a place, 0 behind the end.
fn word(words: &[u16], place: usize) -> u16
    ensures { result ≡ slice_index words.now place }
{
    words.get(place).copied().unwrap_or(0)
}

impl Drawing<'_> {
    // The next state, as it is drawn.
    pub(crate) fn next(self, state: u16, letter: u16) -> u16
        ensures { result ≡ (drawn self.entry.words.now).next state letter }
    {
        if state >= self.sizes.states || letter >= self.sizes.letters {
            return 0;
        }
        let states = usize::from(self.sizes.states);
        let row = 3 + states + usize::from(state) * usize::from(self.sizes.letters);
        word(self.words, row + usize::from(letter))
    }

    // The set of marks, as it is drawn.
    pub(crate) fn shown(self, state: u16) -> u16
        ensures { result ≡ (drawn self.entry.words.now).shown state }
    {
        if state >= self.sizes.states {
            return 0;
        }
        word(self.words, 3 + usize::from(state))
    }
}
