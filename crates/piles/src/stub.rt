// The stub: what a pile is that was built despite a no.
ghost use Rattle.std.specs.Prelude.{◌≡◌};
ghost use Rattle.watch.specs.Watchers.{Watching};
ghost use Rattle.watch.specs.Sizes.{sizes_of};
ghost use Rattle.piles.specs.Stubs.{stub};

use watch::Sizes;

// One state and one mark, and the events of the watcher below.
pub(crate) fn stub_sizes(below: Sizes) -> Sizes
    ensures { (w : Watching) → below ≡ sizes_of w → result ≡ sizes_of (stub w) }
{
    Sizes {
        states: 1,
        marks: 1,
        ..below
    }
}
