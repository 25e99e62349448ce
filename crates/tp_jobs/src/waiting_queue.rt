//! Looking for copies among those that wait.
ghost use Rattle.std.specs.Prelude.{◌≡◌, ◌<◌, ◌≤◌, length, slice_get, remove, drop, find, option_map, Some, All, AllPairs, IsSome};
ghost use Rattle.std.specs.List.{position_or_len};
ghost use Rattle.tp_schedule.specs.Plans.{is_before};
ghost use Rattle.tp_jobs.specs.Backlogs.{WaitsBefore, IsOfJob};
ghost use Rattle.tp_jobs.specs.WaitingCopies.{find_waiting, has_waiting, without_waiting};
ghost use Rattle.tp_jobs.specs.NextTry.{is_open};

use crate::blocked::Blocked;
use crate::parts::{Job, WaitingCopy};
use std::collections::VecDeque;
use tp_machine::LocId;
use tp_schedule::{SheetId, is_earlier};

/// The place of the first copy that waits behind this one, by a binary search.
pub(crate) fn place_behind(waiting: &VecDeque<WaitingCopy>, copy: SheetId) -> usize
    requires { AllPairs WaitsBefore waiting.now.items }
    ensures place { result ≡ position_or_len (λ w. is_before copy w.sheet) waiting.now.items }
    ensures within { result ≤ length waiting.now.items }
{
    waiting.partition_point(|other| !is_earlier(copy, other.sheet))
}

/// The place of a copy that waits.
pub(crate) fn place_of(waiting: &VecDeque<WaitingCopy>, copy: SheetId) -> usize
    requires in_order { AllPairs WaitsBefore waiting.now.items }
    requires waits { IsSome (find_waiting copy waiting.now.items) }
    ensures place { slice_get waiting.now.items result ≡ find_waiting copy waiting.now.items }
    ensures within { result < length waiting.now.items }
    ensures without { remove waiting.now.items result ≡ without_waiting copy waiting.now.items }
{
    place_behind(waiting, copy) - 1
}

/// The first of the copies from this place on whose line is not blocked.
pub(crate) fn first_open(
    waiting: &VecDeque<WaitingCopy>,
    from: usize,
    jobs: &[Job],
    blocked: &Blocked,
) -> Option<SheetId>
    requires place { from ≤ length waiting.now.items }
    requires jobs { All (IsOfJob jobs.now) waiting.now.items }
    ensures { result ≡ option_map (λ w. w.sheet)
        (find (is_open jobs.now blocked.now) (drop from waiting.now.items)) }
{
    for copy in waiting.range(from..) {
        let tray = jobs[copy.sheet.job as usize].tray;
        if !blocked.contains(tray) {
            return Some(copy.sheet);
        }
    }
    None
}

/// Whether one of the copies is of a job for the tray.
pub(crate) fn has_copy_for(waiting: &VecDeque<WaitingCopy>, jobs: &[Job], tray: LocId) -> bool
    requires { All (IsOfJob jobs.now) waiting.now.items }
    ensures { result ≡ has_waiting jobs.now waiting.now.items tray }
{
    for copy in waiting {
        let own = jobs[copy.sheet.job as usize].tray;
        if own.0 == tray.0 {
            return true;
        }
    }
    false
}
