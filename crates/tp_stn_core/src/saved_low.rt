//! What a mark saves, and when a mark is due.
ghost use Rattle.std.specs.Prelude.{◌≡◌, ℕ, ◌<◌, ◌≤◌, length, take, drop, slice_index, IsTrue, vec_capacity};
ghost use Rattle.tp_stn_core.specs.Saved.{is_due, saved_after, newest_after, restored, relinked};

use crate::marks::PlainMark;
use tp_base::PointId;

/// A lower bound before it rose, and where the one that was saved before it for its point stands, counted from 1, or 0.
#[derive(Clone, Copy)]
pub(crate) struct SavedLow {
    pub(crate) point: PointId,
    pub(crate) low: u32,
    pub(crate) older: usize,
}

/// Whether a point's lower bound was not saved since the newest mark in force, if there is one.
fn is_due(marks: &[PlainMark], newest: usize) -> bool
    ensures { result ≡ is_due marks.now newest }
{
    match marks.last() {
        None => false,
        Some(mark) => newest <= mark.saved,
    }
}

/// Saves the lower bound that a point had, once for each mark. `newest` says for each point where its last one stands,
/// counted from 1.
pub(crate) fn save(
    saved: &mut Vec<SavedLow>,
    newest: &mut [usize],
    marks: &[PlainMark],
    point: PointId,
    low: u32,
)
    requires known { point.0 < length newest.old }
    requires capacity { IsTrue (is_due marks.now (slice_index newest.old point.0))
        → length saved.old.items < vec_capacity saved.old }
    ensures saved { saved.new.items ≡ saved_after marks.now saved.old.items newest.old point low }
    ensures newest { newest.new ≡ newest_after marks.now saved.old.items newest.old point }
    ensures capacity { vec_capacity saved.old ≤ vec_capacity saved.new }
{
    let at = point.0 as usize;
    let older = newest[at];
    if is_due(marks, older) {
        saved.push_reserved(SavedLow { point, low, older });
        newest[at] = saved.len();
    }
}

/// Puts back what was saved after the first `to`, the last first, for the points that are still there.
pub(crate) fn put_back(saved: &mut Vec<SavedLow>, lows: &mut [u32], newest: &mut [usize], to: usize)
    requires len { length newest.old ≡ length lows.old }
    requires to { to ≤ length saved.old.items }
    ensures lows { lows.new ≡ restored (drop to saved.old.items) lows.old }
    ensures newest { newest.new ≡ relinked (drop to saved.old.items) newest.old }
    ensures saved { saved.new.items ≡ take to saved.old.items }
    ensures capacity { vec_capacity saved.new ≡ vec_capacity saved.old }
{
    'back: while saved.len() > to {
        let Some(last) = saved.pop() else {
            unreachable!()
        };
        let at = last.point.0 as usize;
        if at < lows.len() {
            lows[at] = last.low;
            newest[at] = last.older;
        }
    }
}
