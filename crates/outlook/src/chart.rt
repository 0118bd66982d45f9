// What can still come of a run, state by state.
use crate::tables::MOST_STATES;

#[derive(Drop)]
pub struct Outlook {
    // From the state some endless run comes to rest at good marks.
    pub keepable: [bool; MOST_STATES],
    // From the state some endless run comes to rest at marks that are not good.
    pub breakable: [bool; MOST_STATES],
}
