// The table's type, and the table as a watcher.
ghost use Rattle.std.specs.Prelude.{◌≡◌, ℕ, ◌<◌};
ghost use Rattle.watch.specs.Watchers.{Lawful};
ghost use Rattle.watch.specs.Sizes.{sizes_of};
ghost use Rattle.table.specs.Drawings.{drawn};
ghost use mathlib.Core.Logic.{∥∥₁_elim};
ghost use Rattle.watch.proofs.Uniqueness.{lawful_unique};

use crate::drawing::Drawing;
use std::alloc::Global;
use watch::{MarkSet, Sizes, Watcher};

// The state that a drawn table starts in.
const START: u16 = 0;

// The list as it came, with its sizes at hand. The blank table has an empty list.
#[derive(Drop)]
pub struct Table {
    pub(crate) words: Vec<u16>,
    pub(crate) sizes: Sizes,
    ghost sized: { sizes ≡ sizes_of (drawn words.items) },
    ghost lawful: { ∥ Lawful (drawn words.items) ∥₁ },
}

impl Table {
    fn drawing(&self) -> Drawing<'_>
        ensures { result.words.now ≡ self.now.words.items }
    {
        Drawing {
            words: self.words.as_slice(),
            sizes: self.sizes,
        }
    }
}

impl Watcher for Table {
    ghost watching = { λ t. drawn t.words.items };

    ghost lawful = { λ t. ∥∥₁_elim t.lawful (lawful_unique (drawn t.words.items)) (λ law. law) };

    fn sizes(&self) -> Sizes {
        self.sizes
    }

    fn start(&self) -> u16 {
        START
    }

    fn next(&self, state: u16, letter: u16) -> u16 {
        self.drawing().next(state, letter)
    }

    fn shown(&self, state: u16) -> MarkSet {
        // The laws say that the set fits, so there is no failure that `try_from` could tell of.
        MarkSet {
            bits: self.drawing().shown(state) as u8,
        }
    }
}
