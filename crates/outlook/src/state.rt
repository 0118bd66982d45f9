// A state of a watcher, as the search holds it.
ghost use Rattle.std.specs.Prelude.{◌<◌};

#[derive(Clone, Copy)]
pub(crate) struct State {
    pub(crate) number: u16,
    ghost within: { number < 16384 },
}

// For the unused places of a path. A struct with a ghost field derives no default.
impl Default for State {
    fn default() -> State {
        State { number: 0 }
    }
}
