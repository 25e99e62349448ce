//! Raising a lower bound.
ghost use Rattle.std.specs.Prelude.{◌≡◌, ℕ, ◌<◌, ◌≤◌, length, slice_index};
ghost use Rattle.tp_stn_undo.specs.States.{lows_of};
ghost use Rattle.tp_stn_undo.specs.Saved.{restored};
ghost use Rattle.tp_stn_undo.specs.Flags.{AreKnown, AreBelow, IsSameSave};
ghost use Rattle.tp_stn_undo.specs.RaisedBounds.{Lifts};

use crate::changes::Changes;
use crate::point_state::PointState;
use crate::waiting::Waiting;
use tp_base::PointId;

/// Raises the lower bound of a point, and its time where that is below.
pub(crate) fn lift(
    point: PointId,
    low: u32,
    states: &mut [PointState],
    waiting: &mut Waiting,
    changes: &mut Changes,
)
    requires known { point.0 < length states.old }
    requires more { slice_index (lows_of states.old) point.0 ≤ low }
    requires waits { length states.old ≤ length waiting.old.flags }
    requires capacity { length states.old ≤ changes.old.capacity }
    ensures lifts { Lifts states.old states.new point.0 low waiting.old.flags waiting.new.flags }
    ensures back { restored changes.new.entries states.new
        ≡ restored changes.old.entries states.old }
    ensures known { AreKnown (length states.old) changes.old.entries
        → AreKnown (length states.old) changes.new.entries }
    ensures waiting { AreBelow (length states.old) waiting.old.points
        → AreBelow (length states.old) waiting.new.points }
    ensures waits { length waiting.new.flags ≡ length waiting.old.flags }
    ensures same { IsSameSave changes.old changes.new }
{
    let at = point.0 as usize;
    let state = states[at];
    changes.note(point, &state);
    if low <= state.time {
        states[at] = PointState {
            low,
            time: state.time,
            cause: state.cause,
        };
        return;
    }
    states[at] = PointState {
        low,
        time: low,
        cause: 0,
    };
    waiting.push(point.0);
}
