// Whether a drawing shows what a watcher must, asked of every state, whether it can be reached or not.
ghost use Rattle.std.specs.Prelude.{ℕ, ◌<◌, Decides};
ghost use Rattle.table.specs.Drawings.{drawn, StateLawful, LetterLawful};

use crate::drawing::Drawing;

impl Drawing<'_> {
    // Whether the letter leads to a state of the table that shows every mark of this one.
    fn letter_is_lawful(self, state: u16, letter: u16) -> bool
        ensures { Decides result (LetterLawful (drawn self.entry.words.now) state letter) }
    {
        let next = self.next(state, letter);
        let set = self.shown(state);
        next < self.sizes.states && set & self.shown(next) == set
    }

    // Whether the state shows a set of the table's marks, and each letter is lawful.
    fn state_is_lawful(self, state: u16) -> bool
        ensures { Decides result (StateLawful (drawn self.entry.words.now) state) }
    {
        let beyond = 1u16 << self.sizes.marks;
        self.shown(state) < beyond
            && (0..self.sizes.letters).all(|letter| self.letter_is_lawful(state, letter))
    }

    // Whether each state is lawful.
    pub(crate) fn is_lawful(self) -> bool
        ensures { Decides result ((s : ℕ) → s < (drawn self.entry.words.now).states → StateLawful (drawn self.entry.words.now) s) }
    {
        (0..self.sizes.states).all(|state| self.state_is_lawful(state))
    }
}
