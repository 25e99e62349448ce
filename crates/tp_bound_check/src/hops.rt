//! What hops say.
ghost use Rattle.std.specs.Prelude.{◌≡◌, ℕ, ◌+◌, ◌<◌, ◌≤◌, ◌-◌, [], ◌∷◌, ◌++◌, Some, None, option_copied, Option, List};
ghost use Rattle.tp_constraints.specs.Gaps.{slot_gap, anchor_spot};
ghost use Rattle.tp_schedule.specs.Plans.{plan_of};
ghost use Rattle.tp_schedule.specs.Spots as spots;
ghost use Rattle.tp_bound_laws.specs.Chains.{arrival_at, arrival_in, arrival_of, duration_gap, is_next_arrival, least_gap, line_gap, most_gap};
ghost use Rattle.tp_bound_check.specs.Ranges.{IsShort, least_by, most_by};
ghost use Rattle.std.specs.Prelude.{IfSome, suc, ◌==◌};
ghost use Rattle.std.specs.Prelude.{pos, ◌+ℤ◌, ◌-ℤ◌};
ghost use Rattle.tp_machine.specs.Limits.{longest};
ghost use Rattle.tp_bound_check.specs.Points.{HasOffsets, IsWeight, copy_in};
ghost use Rattle.tp_machine.specs.Modes.{gap_between};
ghost use Rattle.tp_schedule.specs.Choices.{Choice};
ghost use Rattle.tp_schedule.specs.declared.parts.Plan.{Plan};

use crate::act_length::{ActLength, range_of};
use crate::branch::Branch;
use crate::points::{Gap, Point, Slot};
use crate::sheets::Sheets;
use crate::tree_names::act_from;
use std::marker::Model;
use tp_machine::{Anchor, HoldRule, LocId, Machine, gap_between};
use tp_schedule::{Ask, Goal, Kind, Plan, SheetId, is_earlier};

fn least_gap(from: Point, to: Point, range: Option<ActLength>) -> Option<Gap>
    requires { IfSome range IsShort }
    ensures { result ≡ least_by from to range }
{
    match range {
        Some(range) => Some(Gap {
            from,
            to,
            weight: i64::from(range.least),
        }),
        None => None,
    }
}

fn most_gap(from: Point, to: Point, range: Option<ActLength>) -> Option<Gap>
    requires { IfSome range IsShort }
    ensures { result ≡ most_by from to range }
{
    match range {
        Some(range) => Some(Gap {
            from,
            to,
            weight: -i64::from(range.most),
        }),
        None => None,
    }
}

/// Whether the second number is the next.
fn is_next(at: u32, next: u32) -> bool
    ensures { result ≡ (next == suc at) }
{
    u64::from(next) == u64::from(at) + 1
}

fn kept_gap(machine: &Machine, plans: &Sheets, from: Point, to: Point, copy: SheetId) -> Option<Gap>
    requires from { copy_in from ≡ Some copy }
    requires to { copy_in to ≡ Some copy }
    ensures { (branch : List Choice) → result
        ≡ duration_gap machine.now plans.now branch from to }
{
    if is_next(from.at(), to.at()) {
        least_gap(
            from,
            to,
            range_of(machine, act_from(plans, copy, from.at())),
        )
    } else if is_next(to.at(), from.at()) {
        most_gap(from, to, range_of(machine, act_from(plans, copy, to.at())))
    } else {
        None
    }
}

fn own_gap(machine: &Machine, branch: &Branch, from: Point, to: Point) -> Option<Gap>
    requires from { copy_in from ≡ None }
    requires to { copy_in to ≡ None }
    ensures { (plans : List Plan) → result ≡ duration_gap machine.now plans branch.now.x.choices
        from to }
{
    if is_next(to.at(), from.at()) {
        least_gap(from, to, range_of(machine, branch.act(to.at())))
    } else if is_next(from.at(), to.at()) {
        most_gap(from, to, range_of(machine, branch.act(from.at())))
    } else {
        None
    }
}

/// From a point to the next of the same plan, or back.
pub(crate) fn duration_gap(
    machine: &Machine,
    plans: &Sheets,
    branch: &Branch,
    from: Point,
    to: Point,
) -> Option<Gap>
    ensures { result ≡ duration_gap machine.now plans.now branch.now.x.choices from to }
{
    match (from.copy(), to.copy()) {
        (Some(copy), Some(other)) => {
            if copy == other {
                kept_gap(machine, plans, from, to, copy)
            } else {
                None
            }
        }
        (None, None) => own_gap(machine, branch, from, to),
        _ => None,
    }
}

/// A copy that ends at a tray.
#[derive(Drop)]
struct Arrival {
    copy: SheetId,
    tray: LocId,
}

impl Model for Arrival {
    ghost use Rattle.tp_bound_laws.specs.Chains as chains;

    ghost Value = { chains.Arrival };

    ghost view = { λ a. record { copy = a.copy; tray = a.tray.0 } };
}

fn arrival_at(copy: SheetId, goal: Goal) -> Option<Arrival>
    ensures { result ≡ arrival_at copy goal }
{
    match goal {
        Goal::Tray(tray) => Some(Arrival { copy, tray }),
        Goal::Purge => None,
    }
}

fn arrival_in(at: u32, plan: Option<&Plan>) -> Option<Arrival>
    ensures { result ≡ arrival_in at (option_copied plan.entry) }
{
    match plan {
        Some(plan) => {
            if plan.kind == Kind::Whole && at == plan.acts.len() {
                arrival_at(plan.sheet, plan.goal)
            } else {
                None
            }
        }
        None => None,
    }
}

fn arrival_of(ask: &Ask, plans: &Sheets, point: Point) -> Option<Arrival>
    ensures { result ≡ arrival_of ask.entry.now plans.now point }
{
    match point.copy() {
        Some(copy) => arrival_in(point.at(), plans.plan_of(copy)),
        None => {
            if point.at() == 0 {
                arrival_at(ask.sheet, ask.goal)
            } else {
                None
            }
        }
    }
}

fn is_next_arrival(one: Option<Arrival>, other: Option<Arrival>) -> bool
    ensures { result ≡ is_next_arrival one other }
{
    match (one, other) {
        (Some(one), Some(other)) => one.tray == other.tray && is_earlier(one.copy, other.copy),
        _ => false,
    }
}

/// On one line a later copy ends at least a tick later.
pub(crate) fn line_gap(ask: &Ask, plans: &Sheets, from: Point, to: Point) -> Option<Gap>
    ensures { result ≡ line_gap ask.entry.now plans.now from to }
{
    if is_next_arrival(arrival_of(ask, plans, from), arrival_of(ask, plans, to)) {
        Some(Gap {
            from,
            to,
            weight: 1,
        })
    } else {
        None
    }
}

fn anchor_spot(anchor: Anchor, from: Point, to: Point) -> Point
    ensures { result ≡ anchor_spot anchor from to }
{
    match anchor {
        Anchor::Start => from,
        Anchor::End => to,
    }
}

fn weight(apart: u32, one: &HoldRule, other: &HoldRule) -> i64
    requires apart { apart ≤ longest }
    requires one { HasOffsets one.now }
    requires other { HasOffsets other.now }
    ensures weight { result ≡ (one.now.end_off -ℤ other.now.begin_off)
        +ℤ pos (gap_between apart one.now other.now) }
    ensures within { IsWeight result }
{
    let offsets = one.end_off as i64 - other.begin_off as i64;
    offsets + gap_between(apart, one, other) as i64
}

/// The one hold ends by the begin of the other, or the gap before it where their modes differ.
pub(crate) fn slot_gap(apart: u32, one: &Slot, other: &Slot) -> Gap
    requires { apart ≤ longest }
    ensures { result ≡ slot_gap apart one.now other.now }
{
    Gap {
        from: anchor_spot(one.rule.end, one.from, one.to),
        to: anchor_spot(other.rule.begin, other.from, other.to),
        weight: weight(apart, &one.rule, &other.rule),
    }
}
