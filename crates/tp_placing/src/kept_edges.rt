//! The edges of a schedule that is loaded, which its own ticks keep: the durations of its actions, and the order in which the
//! plans of a line end.
ghost use Rattle.std.specs.Prelude.{◌≡◌, ◌+◌, ◌<◌, ◌≤◌, ◌^◌, ◌++◌, length, vec_len, vec_capacity};
ghost use Rattle.tp_machine.specs.ModuleUse.{action_at};
ghost use Rattle.tp_constraints.specs.Gaps.{is_same_line};
ghost use Rattle.tp_placing.specs.Edges.{line_edge};
ghost use Rattle.tp_placing.specs.LoadedNet.{act_edges, acts_edges, lines_edges, next_end, plans_edges, point_count};

use crate::causes::LINE;
use crate::edges::{edge_between, lasting};
use crate::tray_neighbours::goes_along;
use tp_base::{Edge, PointId};
use tp_machine::{ActId, Machine};
use tp_schedule::{Kind, Plan};

/// Adds the duration of an action that starts at the point.
fn add_act(edges: &mut Vec<Edge>, machine: &Machine, from: u32, act: ActId)
    requires space { vec_len edges.old + length (act_edges (action_at machine.now act.0) from)
        ≤ vec_capacity edges.old }
    requires fits { from + 1 < 2 ^ 32 }
    ensures added { edges.new.items
        ≡ edges.old.items ++ act_edges (action_at machine.now act.0) from }
    ensures space { vec_capacity edges.old ≤ vec_capacity edges.new }
{
    match machine.actions.as_slice().get(usize::from(act.0)) {
        Some(action) => {
            let [forward, back] = lasting(action, PointId(from), PointId(from + 1));
            edges.push_reserved(forward);
            edges.push_reserved(back);
        }
        None => {}
    }
}

/// Adds the durations of actions, of which the first starts at the point.
pub(crate) fn add_acts(edges: &mut Vec<Edge>, machine: &Machine, from: u32, acts: &[ActId])
    requires space { vec_len edges.old + length (acts_edges machine.now from acts.now)
        ≤ vec_capacity edges.old }
    requires fits { from + length acts.now < 2 ^ 32 }
    ensures added { edges.new.items ≡ edges.old.items ++ acts_edges machine.now from acts.now }
    ensures space { vec_capacity edges.old ≤ vec_capacity edges.new }
{
    let mut start = from;
    for act in acts {
        add_act(edges, machine, start, *act);
        start += 1;
    }
}

/// Adds the durations of plans, whose points stand one plan after another.
pub(crate) fn add_durations(edges: &mut Vec<Edge>, machine: &Machine, plans: &[Plan])
    requires space { vec_len edges.old + length (plans_edges machine.now 0 plans.now)
        ≤ vec_capacity edges.old }
    requires fits { point_count plans.now < 2 ^ 32 }
    ensures added { edges.new.items ≡ edges.old.items ++ plans_edges machine.now 0 plans.now }
    ensures space { vec_capacity edges.old ≤ vec_capacity edges.new }
{
    let mut first = 0;
    for plan in plans {
        add_acts(edges, machine, first, plan.acts.as_slice());
        first = first + plan.acts.len() + 1;
    }
}

/// Whether both plans are whole and go to one tray.
pub(crate) fn are_in_line(plan: &Plan, other: &Plan) -> bool
    ensures { result ≡ is_same_line plan.now other.now }
{
    plan.kind == Kind::Whole && goes_along(plan.goal, other)
}

/// The end of the next plan of the plan's line, where the points of the later plans begin at a number.
fn end_of_next(plan: &Plan, from: u32, later: &[Plan]) -> Option<PointId>
    requires fits { from + point_count later.now < 2 ^ 32 }
    ensures { result ≡ next_end plan.now from later.now }
{
    let mut first = from;
    for other in later {
        let end = first + other.acts.len();
        if are_in_line(plan, other) {
            return Some(PointId(end));
        }
        first = end + 1;
    }
    None
}

/// Adds that a plan ends before the next one of its line, if there is one.
pub(crate) fn add_line(edges: &mut Vec<Edge>, end: PointId, next: Option<PointId>)
    requires space { vec_len edges.old + length (line_edge end next) ≤ vec_capacity edges.old }
    ensures added { edges.new.items ≡ edges.old.items ++ line_edge end next }
    ensures space { vec_capacity edges.old ≤ vec_capacity edges.new }
{
    match next {
        Some(next) => edges.push_reserved(edge_between(end, next, 1, LINE)),
        None => {}
    }
}

/// Adds that plans end before the next ones of their lines.
pub(crate) fn add_lines(edges: &mut Vec<Edge>, plans: &[Plan])
    requires space { vec_len edges.old + length (lines_edges 0 plans.now)
        ≤ vec_capacity edges.old }
    requires fits { point_count plans.now < 2 ^ 32 }
    ensures added { edges.new.items ≡ edges.old.items ++ lines_edges 0 plans.now }
    ensures space { vec_capacity edges.old ≤ vec_capacity edges.new }
{
    let mut first = 0;
    for (at, plan) in plans.iter().enumerate() {
        let end = first + plan.acts.len();
        let next = end_of_next(plan, end + 1, &plans[at + 1..]);
        add_line(edges, PointId(end), next);
        first = end + 1;
    }
}
