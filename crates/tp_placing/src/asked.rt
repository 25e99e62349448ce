//! The plan of the asked copy, by the steps of a board.
ghost use Rattle.std.specs.Prelude.{◌≡◌, ℕ, suc, ◌+◌, ◌-◌, ◌^◌, ◌<◌, ◌≤◌, ◌++◌, AllPairs, length, take, Some, IsSomeAnd};
ghost use Rattle.tp_base.specs.Net.{IsLeast};
ghost use Rattle.tp_schedule.specs.Answers.{kept_acts, kept_of};
ghost use Rattle.tp_schedule.specs.Completions.{asked_plan, settled_ticks, total_of};
ghost use Rattle.tp_schedule.specs.Limits.{most_acts, most_plan_points};
ghost use Rattle.tp_schedule.specs.Plans.{IsEarlier, IsFormed};
ghost use Rattle.tp_schedule.specs.Spots.{Ticks};
ghost use Rattle.tp_schedule.specs.Spots.Spot.{kept};
ghost use Rattle.tp_schedule.specs.Times.{ticks_from, timed_by};
ghost use Rattle.tp_constraints.specs.Numbers.{table_of};
ghost use Rattle.tp_constraints.specs.Suffixes.{Suffix};
ghost use Rattle.tp_placing.specs.Boards.{suffix_after};
ghost use Rattle.tp_placing.specs.LoadedBoard.{AreFirsts, board_table};
ghost use Rattle.tp_placing.specs.Commits.{AreLeastTicks, back_from, opened};

use crate::parts::{Change, Step};
use crate::schedule_times::times_from;
use tp_base::{Network, PointId};
use tp_schedule::{Acts, Ask, Kind, Plan, Points, SheetId, copy_place};

/// The actions that a copy has in the plans.
fn acts_so_far(plans: &[Plan], copy: SheetId) -> Acts
    requires { AllPairs IsEarlier plans.now }
    ensures { result ≡ kept_acts copy plans.now }
{
    match copy_place(plans, copy) {
        Some(place) => plans[place].acts.copy(),
        None => Acts::new(),
    }
}

/// The least times of their starts.
fn starts_so_far<N: Network>(net: &N, plans: &[Plan], firsts: &[PointId], copy: SheetId) -> Points
    requires in_order { AllPairs IsEarlier plans.now }
    requires firsts { AreFirsts 0 plans.now firsts.now }
    requires known { length (table_of plans.now) ≤ length (N.reading.net net.now).lows }
    requires fits { length (table_of plans.now) < 2 ^ 32 }
    ensures times { (t : Ticks)
        → AreLeastTicks (N.reading.net net.now) (table_of plans.now) t → result
        ≡ ticks_from (λ i. t (kept copy i)) 0 (length (kept_acts copy plans.now)) }
    ensures count { length result ≡ length (kept_acts copy plans.now) }
{
    match copy_place(plans, copy) {
        Some(place) => times_from(net, firsts[place], plans[place].acts.len()),
        None => Points::new(),
    }
}

/// Adds the actions that the steps opened, the last first, up to so many in all.
fn add_opened(acts: &mut Acts, steps: &[Step], most: u32)
    requires few { most ≤ most_acts }
    requires more { length acts.old ≤ most }
    ensures { acts.new ≡ take most (acts.old ++ opened steps.now) }
{
    for step in steps.iter().rev() {
        if let Change::Action { act, .. } = step.change
            && acts.len() < most
        {
            acts.push(act);
        }
    }
}

/// Adds the least times of a point and of so many before it, from that point back.
fn add_back<N: Network>(points: &mut Points, net: &N, first: PointId, count: u32)
    requires few { length points.old + count < most_plan_points }
    requires known { first.0 < length (N.reading.net net.now).lows }
    requires within { count ≤ first.0 }
    ensures times { (sol : ℕ → ℕ) → IsLeast (N.reading.net net.now) sol
        → points.new ≡ points.old
        ++ ticks_from (back_from sol first.0) 0 (suc count) }
    ensures count { length points.new ≡ length points.old + suc count }
{
    for at in 0..count + 1 {
        points.push(net.earliest(PointId(first.0 - at)));
    }
}

/// The own actions of the asked copy: how many were opened, and the point where the newest of them starts.
#[derive(Clone, Copy)]
pub(crate) struct OwnActs {
    pub(crate) count: u32,
    pub(crate) start: PointId,
}

/// The asked copy's plan by the steps, which opened these actions, at its least times.
pub(crate) fn plan_by_steps<N: Network>(
    net: &N,
    plans: &[Plan],
    firsts: &[PointId],
    ask: &Ask,
    steps: &[Step],
    own: OwnActs,
) -> Plan
    requires in_order { AllPairs IsEarlier plans.now }
    requires firsts { AreFirsts 0 plans.now firsts.now }
    requires kept { length (kept_acts ask.now.sheet plans.now) ≡ kept_of ask.now }
    requires few { kept_of ask.now + own.count ≤ most_acts }
    requires some { 0 < own.count }
    requires opened { IsSomeAnd (suffix_after steps.now) (λ x. length x.choices ≡ own.count) }
    requires start { own.start.0 ≡ length (table_of plans.now) + own.count }
    requires known { own.start.0 < length (N.reading.net net.now).lows }
    ensures plan { (t : Ticks) (x : Suffix) → suffix_after steps.now ≡ Some x
        → AreLeastTicks (N.reading.net net.now) (board_table plans.now (Some x)) t → result
        ≡ timed_by (settled_ticks ask.entry.now (total_of ask.entry.now x.choices) t)
        (asked_plan plans.now ask.entry.now x.choices) }
    ensures formed { IsFormed result }
    ensures sheet { result.sheet ≡ ask.entry.now.sheet }
{
    let mut acts = acts_so_far(plans, ask.sheet);
    let released = acts.len();
    add_opened(&mut acts, steps, released + own.count);
    let mut points = starts_so_far(net, plans, firsts, ask.sheet);
    add_back(&mut points, net, own.start, own.count);
    Plan {
        sheet: ask.sheet,
        name: ask.name,
        want: ask.want,
        goal: ask.goal,
        kind: Kind::Whole,
        acts,
        points,
        released,
    }
}
