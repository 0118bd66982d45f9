// The moves of the automata, on what the tests and the count of a row are in one step. The states below a limit count;
// at the limit and above, the row is settled and the state stays. A state is a number, since it is a digit of a sheet's state.
ghost use Rattle.std.specs.Prelude.{◌≡◌, ◌≤◌};
ghost use Rattle.rows.specs.Moves.{after_move, answer_move, during_move, most_move, until_move, within_move};

// 0 waits, 1 is kept, 2 is broken.
pub(crate) fn until_move(a: bool, b: bool, state: u32) -> u32
    ensures { result ≡ until_move a b state }
{
    if state >= 1 {
        state
    } else if b {
        1
    } else if a {
        0
    } else {
        2
    }
}

// Up to n the state is the number of steps so far; n + 1 is kept, n + 2 is broken.
pub(crate) fn after_move(n: u16, a: bool, state: u32) -> u32
    ensures { result ≡ after_move n a state }
{
    let at = u32::from(n);
    if state > at {
        state
    } else if state < at {
        state + 1
    } else if a {
        at + 1
    } else {
        at + 2
    }
}

// Below n the state is the number of steps so far; n is kept, n + 1 is broken.
pub(crate) fn within_move(n: u16, a: bool, state: u32) -> u32
    ensures { result ≡ within_move n a state }
{
    let end = u32::from(n);
    if state >= end {
        state
    } else if a {
        end
    } else if state + 1 < end {
        state + 1
    } else {
        end + 1
    }
}

// Below n the state is the number of steps so far; n is kept, n + 1 is broken.
pub(crate) fn during_move(n: u16, a: bool, state: u32) -> u32
    ensures { result ≡ during_move n a state }
{
    let end = u32::from(n);
    if state >= end {
        state
    } else if a {
        state + 1
    } else {
        end + 1
    }
}

// Up to l the state is the sum so far; l + 1 is kept, l + 2 is broken. The step with b still counts.
pub(crate) fn most_move(l: u16, count: u16, b: bool, state: u32) -> u32
    ensures { result ≡ most_move l count b state }
{
    let most = u32::from(l);
    if state > most {
        return state;
    }
    let sum = state + u32::from(count);
    if sum > most {
        most + 2
    } else if b {
        most + 1
    } else {
        sum
    }
}

// Below n the state is the number of steps that the oldest unanswered a has waited; n is broken.
pub(crate) fn answer_move(n: u16, a: bool, b: bool, state: u32) -> u32
    ensures { result ≡ answer_move n a b state }
{
    if state >= u32::from(n) {
        state
    } else if b {
        0
    } else if a || state > 0 {
        state + 1
    } else {
        0
    }
}
