//! A change is saved for the marks in force.
ghost use Rattle.std.specs.Prelude.{◌≡◌, ℕ, ◌≤◌, List, [], length};
ghost use Rattle.tp_stn_undo.specs.declared.point_state.PointState.{PointState};
ghost use Rattle.tp_stn_undo.specs.declared.link.Link.{Link};
ghost use Rattle.tp_stn_undo.specs.Saved.{restored};
ghost use Rattle.tp_stn_undo.specs.Marks.{past_of};
ghost use Rattle.tp_stn_undo.specs.Stacks.{IsStack, CanSave};
ghost use Rattle.tp_stn_undo.specs.Flags.{AreKnown};

use crate::changes::Changes;
use crate::marks::LiveMark;

/// Saves what the points were before a change for the newest mark, and ends the change.
pub(crate) fn save_changes(marks: &[LiveMark], changes: &mut Changes)
    requires ready { CanSave marks.now changes.old }
    ensures stack { (count edges : ℕ) → AreKnown count changes.old.entries
        → IsStack marks.now changes.old.older count edges changes.old.capacity
        → IsStack marks.now changes.new.older count edges changes.old.capacity }
    ensures past { (states : List PointState) (caps : List ℕ) (links : List Link) (edges : ℕ)
        → IsStack marks.now changes.old.older (length states) edges changes.old.capacity
        → past_of marks.now changes.new.older states caps links
        ≡ past_of marks.now changes.old.older (restored changes.old.entries states) caps links }
    ensures none { changes.new.entries ≡ [] }
    ensures capacity { changes.new.capacity ≡ changes.old.capacity }
    ensures most { changes.new.most ≡ changes.old.most }
{
    match marks.last() {
        Some(mark) => changes.keep(mark.saved),
        None => changes.clear(),
    }
}
