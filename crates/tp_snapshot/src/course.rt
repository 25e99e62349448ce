//! The parts of a plan in a snapshot.
use tp_machine::Sheet;
use tp_schedule::{Acts, Points, SheetId};

/// The actions of a plan and their points.
#[derive(Drop)]
pub(crate) struct TimedActs {
    pub acts: Acts,
    pub points: Points,
}

/// Whose plan it is: the copy, what is wanted of its sheet, and whether it is whole.
#[derive(Clone, Copy, PartialEq, Eq, Debug)]
pub(crate) struct Owner {
    pub sheet: SheetId,
    pub want: Sheet,
    pub whole: bool,
}
