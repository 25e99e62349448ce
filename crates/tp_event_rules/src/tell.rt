//! What a move of the clock tells.
use tp_base::Tick;
use tp_machine::{ActId, LocId};
use tp_schedule::SheetId;

/// What a move of the clock tells, by numbers: a plan has ended, or an action is released. Actions count from 1.
#[derive(Clone, Copy, PartialEq, Eq, Debug)]
pub enum Tell {
    Done {
        sheet: SheetId,
        place: LocId,
        at: Tick,
    },
    Release {
        sheet: SheetId,
        act: u32,
        action: ActId,
        start: Tick,
        end: Tick,
    },
}
