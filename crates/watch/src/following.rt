// Following a watcher along the letters of an evening.
ghost use Rattle.std.specs.Prelude.{◌≡◌, ℕ, ◌<◌, ◌⊎◌};
ghost use Rattle.watch.specs.Runs.{Run, Holds};
ghost use Rattle.watch.specs.Following.{Stray, Follows};

use crate::marks::MarkSet;
use crate::watcher::Watcher;

// Where a watcher stands after a step: its state, and the marks that the state shows.
#[derive(Clone, Copy, PartialEq, Eq, Debug)]
pub struct Passed {
    pub state: u16,
    pub shown: MarkSet,
}

// The place of the first letter that is beyond the alphabet.
pub fn stray(letters: &[u16], count: u16) -> Option<usize>
    ensures { Stray count letters.now result }
{
    letters.iter().position(|letter| *letter >= count)
}

// Follows the watcher along the letters and writes where it stands after each step, for as many steps as
// both slices have; answers the marks that appeared on the way. A letter beyond the alphabet is refused by
// its place, and then nothing is written.
pub fn follow<W: Watcher>(
    watcher: &W,
    letters: &[u16],
    stands: &mut [Passed],
) -> Result<MarkSet, usize>
    ensures followed { Follows (W.watching watcher.now) letters.now stands.old stands.new result }
    ensures others { (i : ℕ) → (i ≡ 0) ⊎ ((W.watching watcher.now).marks < i) → (run : Run) → Holds (W.watching watcher.now) run i }
{
    if let Some(place) = stray(letters, watcher.sizes().letters) {
        return Err(place);
    }
    let mut state = watcher.start();
    let count = letters.len().min(stands.len());
    // By place: a proof knows nothing of the elements that are written through a `zip` with `iter_mut`.
    for (place, letter) in letters[..count].iter().enumerate() {
        state = watcher.next(state, *letter);
        stands[place] = Passed {
            state,
            shown: watcher.shown(state),
        };
    }
    Ok(watcher.shown(state))
}
