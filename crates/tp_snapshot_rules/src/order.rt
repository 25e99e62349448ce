//! Copies in their order.
ghost use Rattle.std.specs.Prelude.{◌↔◌, AllPairs, IsTrue, map};
ghost use Rattle.tp_snapshot_rules.specs.Rules.{AreInOrder, AreOfOthers, WaitsBefore};

use crate::plans::is_same_sheet;
use tp_jobs::WaitRow;
use tp_schedule::{Plan, is_earlier};

/// Whether the plans stand in the order of copies, no copy twice.
pub fn are_in_order(plans: &[Plan]) -> bool
    ensures { IsTrue result ↔ AreInOrder plans.now }
{
    'plans: for at in 1..plans.len() {
        let before = at - 1;
        if !is_earlier(plans[before].sheet, plans[at].sheet) {
            return false;
        }
    }
    true
}

/// Whether the copies that wait stand in the order of copies, no copy twice.
pub(crate) fn are_waiting_in_order(waiting: &[WaitRow]) -> bool
    ensures { IsTrue result ↔ AllPairs WaitsBefore waiting.now }
{
    'waiting: for at in 1..waiting.len() {
        let before = at - 1;
        if !is_earlier(waiting[before].sheet, waiting[at].sheet) {
            return false;
        }
    }
    true
}

/// Whether no two copies that wait are of one sheet.
pub(crate) fn are_waiting_apart(waiting: &[WaitRow]) -> bool
    requires { AllPairs WaitsBefore waiting.now }
    ensures { IsTrue result ↔ AllPairs AreOfOthers (map (λ w. w.sheet) waiting.now) }
{
    'waiting: for at in 1..waiting.len() {
        let before = at - 1;
        if is_same_sheet(waiting[before].sheet, waiting[at].sheet) {
            return false;
        }
    }
    true
}
