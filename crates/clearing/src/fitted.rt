// Lists that fit, as the size check gives them: what follows that check is asked of these.
ghost use Rattle.std.specs.Prelude.{◌≡◌, ◌≤◌, length};
ghost use Rattle.limits.specs.Limits.{list_limit};

use market::schedule::Schedule;
use names::lists::ListName;

// A list with its name: no longer than a list may be, and with a schedule for each participant. It
// is not `Scheduled`, which callers make and which may not fit. Its slices are two, as they are lent.
#[derive(Drop)]
pub(crate) struct Fitted<'a, K> {
    pub(crate) name: ListName,
    pub(crate) participants: &'a [K],
    pub(crate) schedules: &'a [Schedule],
    ghost few: { length participants.now ≤ list_limit },
    ghost even: { length schedules.now ≡ length participants.now },
}

// The lists in their order, each of which fits. They are not `Lists`, whose lists may not.
#[derive(Drop)]
pub(crate) struct FittedLists<'a, A, B, C> {
    pub(crate) ordinary: Fitted<'a, A>,
    pub(crate) whole: Fitted<'a, B>,
    pub(crate) corridors: Fitted<'a, C>,
}
