// What is put to the check, and what an accepted outcome states.
use market::schedule::Schedule;

/// The participants of a list, and the schedule that an outcome gives each; both are lent.
// Two slices: the check has to refuse a list with another number of schedules than participants.
#[derive(Drop)]
pub struct Scheduled<'a, K> {
    pub(crate) participants: &'a [K],
    pub(crate) schedules: &'a [Schedule],
}

/// The lists in their order, each of any kind. The check names them by position, as the sheet names
/// its lists.
#[derive(Drop)]
pub struct Lists<'a, A, B, C> {
    pub(crate) ordinary: Scheduled<'a, A>,
    pub(crate) whole: Scheduled<'a, B>,
    pub(crate) corridors: Scheduled<'a, C>,
}

/// What an accepted outcome costs, and what its participants forgo together, in money units.
#[derive(Clone, Copy, PartialEq, Eq, Debug)]
pub struct Accepted {
    pub cost: i64,
    pub forgone: i64,
}
