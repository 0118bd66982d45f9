// How the states of a computed watcher hang together.

#[derive(Clone, Copy)]
pub enum Shape {
    // Each letter leads to the next state; the last state stays.
    Up,
    // Each letter leads to the state below; state 0 stays.
    Down,
    // Each letter leads to the next state, and from the last to state 0.
    Round,
    // As up, but the last letter leads one back.
    Back,
    // The letters lead all over the states.
    Mixed,
    // As mixed, but two rare letters in turn lead to the last state, which stays.
    Late,
}
