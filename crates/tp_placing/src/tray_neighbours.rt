//! The two plans next to an ask in its line.
ghost use Rattle.std.specs.Prelude.{◌≡◌, ◌+◌, ◌^◌, ◌<◌, ◌≤◌, ◌++◌, AllPairs, length, vec_len, vec_capacity};
ghost use Rattle.tp_schedule.specs.Plans.{IsEarlier, is_before};
ghost use Rattle.tp_constraints.specs.Gaps.{is_in_line};
ghost use Rattle.tp_constraints.specs.Numbers.{table_of};
ghost use Rattle.tp_placing.specs.Edges.{edge_to, end_edges, end_if, first_end, first_of, is_ahead, is_behind, last_end};
ghost use Rattle.tp_placing.specs.LoadedBoard.{AreFirsts};

use crate::kept_edges::add_line;
use tp_base::{Edge, PointId};
use tp_schedule::{Ask, Goal, Kind, Plan, SheetId};

/// Whether the plan is whole and goes to the tray that is the goal.
pub(crate) fn goes_along(goal: Goal, plan: &Plan) -> bool
    ensures { result ≡ is_in_line goal plan.now }
{
    match (goal, plan.kind, plan.goal) {
        (Goal::Tray(tray), Kind::Whole, Goal::Tray(other)) => tray.0 == other.0,
        _ => false,
    }
}

fn comes_before(one: SheetId, other: SheetId) -> bool
    ensures { result ≡ is_before one other }
{
    one.job < other.job
        || (one.job == other.job
            && (one.number < other.number || (one.number == other.number && one.copy < other.copy)))
}

/// Whether the plan is of the asked copy's line, and of an earlier copy.
fn is_ahead(ask: &Ask, plan: &Plan) -> bool
    ensures { result ≡ is_ahead ask.entry.now plan.now }
{
    goes_along(ask.goal, plan) && comes_before(plan.sheet, ask.sheet)
}

/// Whether the plan is of the asked copy's line, and of a later copy.
fn is_behind(ask: &Ask, plan: &Plan) -> bool
    ensures { result ≡ is_behind ask.entry.now plan.now }
{
    goes_along(ask.goal, plan) && comes_before(ask.sheet, plan.sheet)
}

/// The end, if it is wanted.
fn end_if(wanted: bool, end: PointId) -> Option<PointId>
    ensures { result ≡ end_if wanted end }
{
    if wanted { Some(end) } else { None }
}

/// The first of two that is there.
fn first_of(one: Option<PointId>, other: Option<PointId>) -> Option<PointId>
    ensures { result ≡ first_of one other }
{
    match one {
        Some(end) => Some(end),
        None => other,
    }
}

/// The last points of the plans next to the asked copy in its line: of the last one ahead of it, and of the first one behind.
/// Looks at the plans from the last one to that which is ahead.
pub(crate) fn ends_beside(
    plans: &[Plan],
    firsts: &[PointId],
    ask: &Ask,
) -> (Option<PointId>, Option<PointId>)
    requires in_order { AllPairs IsEarlier plans.now }
    requires firsts { AreFirsts 0 plans.now firsts.now }
    requires few { length (table_of plans.now) < 2 ^ 32 }
    ensures ahead { result.0 ≡ last_end (is_ahead ask.entry.now) plans.now firsts.now }
    ensures behind { result.1 ≡ first_end (is_behind ask.entry.now) plans.now firsts.now }
{
    let mut left = plans.len();
    let mut behind = None;
    'back: while left > 0 {
        left -= 1;
        let plan = &plans[left];
        let end = PointId(firsts[left].0 + plan.acts.len());
        if is_ahead(ask, plan) {
            return (Some(end), behind);
        }
        behind = first_of(end_if(is_behind(ask, plan), end), behind);
    }
    (None, behind)
}

/// Adds that the asked copy's end comes after this end, if there is one.
fn add_ahead(edges: &mut Vec<Edge>, ahead: Option<PointId>, end: PointId)
    requires space { vec_len edges.old < vec_capacity edges.old }
    ensures added { edges.new.items ≡ edges.old.items ++ edge_to ahead end }
    ensures capacity { vec_capacity edges.old ≤ vec_capacity edges.new }
{
    match ahead {
        Some(before) => add_line(edges, before, Some(end)),
        None => {}
    }
}

/// Writes the edges between the asked copy's end, which is this point, and the plans next to it in its line, in place of what
/// was there. The others of the line follow from them, since each plan of a line ends before the next one.
pub(crate) fn line_edges(
    edges: &mut Vec<Edge>,
    plans: &[Plan],
    firsts: &[PointId],
    ask: &Ask,
    end: PointId,
)
    requires in_order { AllPairs IsEarlier plans.now }
    requires firsts { AreFirsts 0 plans.now firsts.now }
    requires few { length (table_of plans.now) < 2 ^ 32 }
    requires capacity { 2 ≤ vec_capacity edges.old }
    ensures edges { edges.new.items ≡ end_edges ask.entry.now plans.now firsts.now end }
    ensures capacity { vec_capacity edges.old ≤ vec_capacity edges.new }
{
    edges.clear();
    let (ahead, behind) = ends_beside(plans, firsts, ask);
    add_ahead(edges, ahead, end);
    add_line(edges, end, behind);
}
