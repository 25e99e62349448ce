//! A board that goes on to another moment: its plans are released further, and the bounds of their points move.
ghost use Rattle.std.specs.Prelude.{◌≡◌, ℕ, ◌+◌, ◌<◌, ◌≤◌, ◌^◌, [], flat_map, length, slice_index, false, true, All, IfSome, vec_capacity};
ghost use Rattle.tp_base.specs.Net.{IsLeast};
ghost use Rattle.tp_base.specs.Readings.{IsSameSize};
ghost use Rattle.tp_schedule.specs.PlannerAnswers.{last_tick};
ghost use Rattle.tp_schedule.specs.Plans.{IsFormed, point, with_released};
ghost use Rattle.tp_constraints.specs.Gaps.{low_of};
ghost use Rattle.tp_placing.specs.Boards.{past_of};
ghost use Rattle.tp_placing.specs.Loaded.{CanLoad, IsLoaded};
ghost use Rattle.tp_placing.specs.LoadedNet.{caps_of, lows_of, point_count};
ghost use Rattle.tp_placing.specs.ClockMove.{AreFurther, IsFurther, with_bounds_from};
ghost use Rattle.tp_placing.specs.Settled.{AreSettled};
ghost use Rattle.tp_placing.specs.LoadedBoard.{IsMadeFor};

use crate::board::Board;
use crate::kept_plans::is_live;
use crate::kept_points::{highest, lowest};
use crate::schedule_times::are_settled;
use tp_base::{Network, PointId, Tick};
use tp_machine::Machine;
use tp_schedule::{Plan, Schedule};

/// How many actions of a plan are to be released: all where it is over, or as many as in the schedule, if the copy has a plan
/// there.
fn released_in(schedule: &Schedule, plan: &Plan, live: bool) -> u32 {
    if !live {
        return plan.acts.len();
    }
    match schedule.find(plan.sheet) {
        Some(at) => schedule.plan_at(at).released,
        None => 0,
    }
}

/// Whether the actions from a number on, which are not released, begin after a tick.
fn begins_after(plan: &Plan, released: u32, floor: Tick) -> bool
    requires formed { IsFormed plan.now }
    requires rise { (i : ℕ) → i < length plan.now.acts
        → point plan.now i < point plan.now (i + 1) }
    ensures { result ≡ true → (i : ℕ) → released ≤ i → i < length plan.now.acts
        → floor < point plan.now i }
{
    released >= plan.acts.len() || floor < plan.points.get(released)
}

/// Whether a plan can be released so far: as far as before or further, and all that is not released then begins late enough.
fn can_release(plan: &Plan, machine: &Machine, released: u32, now: Tick) -> bool
    requires formed { IsFormed plan.now }
    requires rise { (i : ℕ) → i < length plan.now.acts
        → point plan.now i < point plan.now (i + 1) }
    requires fits { now + machine.now.lead < 2 ^ 32 }
    ensures { result ≡ true
        → IsFurther machine.now now plan.now (with_released released plan.now) }
{
    if released < plan.released || released > plan.acts.len() {
        return false;
    }
    begins_after(plan, released, now + machine.lead)
}

/// Releases each plan as far as the schedule tells, or whole where it is over at the moment. Answers whether that is further than
/// before, whether all that is not released begins late enough, and whether no more than half of the plans are over.
fn release_all(plans: &mut Vec<Plan>, machine: &Machine, schedule: &Schedule, now: Tick) -> bool
    requires formed { All IsFormed plans.old.items }
    requires rise { All (λ p. (i : ℕ) → i < length p.acts → point p i < point p (i + 1))
        plans.old.items }
    requires fits { now + machine.now.lead < 2 ^ 32 }
    ensures further { result ≡ true
        → AreFurther machine.now now plans.old.items plans.new.items }
    ensures space { vec_capacity plans.old ≤ vec_capacity plans.new }
{
    let mut over = 0;
    for at in 0..plans.len() {
        let plan = &plans[at];
        let live = is_live(machine, now, plan);
        if !live {
            over += 1;
        }
        let released = released_in(schedule, plan, live);
        if !can_release(plan, machine, released, now) {
            return false;
        }
        plans[at].released = released;
    }
    over <= plans.len() - over
}

/// Moves the bounds of a plan's points, whose first one this is, where its times are within them. Answers whether they are.
fn move_plan<N: Network>(net: &mut N, plan: &Plan, first: u32, floor: Tick, horizon: Tick) -> bool
    requires formed { IsFormed plan.now }
    requires known { first + (length plan.now.acts + 1) ≤ length (N.reading.net net.old).lows }
    requires caps { length (N.reading.net net.old).caps ≡ length (N.reading.net net.old).lows }
    requires fits { first + (length plan.now.acts + 1) < 2 ^ 32 }
    requires floor { floor + 1 < 2 ^ 32 }
    requires unmarked { N.reading.past net.old ≡ [] }
    requires more { (i : ℕ) → i ≤ length plan.now.acts
        → slice_index (N.reading.net net.old).lows (first + i)
        ≤ low_of floor (λ _. false) plan.now i }
    ensures moved { result ≡ true → N.reading.net net.new ≡ with_bounds_from first
        (lows_of floor plan.now) (caps_of horizon plan.now) (N.reading.net net.old) }
    ensures least { (x : ℕ → ℕ) → IsLeast (N.reading.net net.old) x
        → IsLeast (N.reading.net net.new) x }
    ensures past { N.reading.past net.new ≡ [] }
    ensures same_size { IsSameSize N.reading net.old net.new }
{
    for at in 0..plan.acts.len() + 1 {
        let low = lowest(plan, at, floor);
        let cap = highest(plan, at, horizon);
        let point = PointId(first + at);
        let time = net.earliest(point);
        if time < low || cap < time {
            return false;
        }
        net.set_bounds(point, low, cap);
    }
    true
}

/// Moves the bounds of all points of plans, where their times are within them. Answers whether they are.
fn move_points<N: Network>(net: &mut N, plans: &[Plan], floor: Tick, horizon: Tick) -> bool
    requires formed { All IsFormed plans.now }
    requires known { point_count plans.now ≡ length (N.reading.net net.old).lows }
    requires caps { length (N.reading.net net.old).caps ≡ length (N.reading.net net.old).lows }
    requires fits { point_count plans.now < 2 ^ 32 }
    requires floor { floor + 1 < 2 ^ 32 }
    requires unmarked { N.reading.past net.old ≡ [] }
    requires more { (i : ℕ) → i < point_count plans.now
        → slice_index (N.reading.net net.old).lows i
        ≤ slice_index (flat_map (lows_of floor) plans.now) i }
    ensures lows { result ≡ true
        → (N.reading.net net.new).lows ≡ flat_map (lows_of floor) plans.now }
    ensures caps { result ≡ true
        → (N.reading.net net.new).caps ≡ flat_map (caps_of horizon) plans.now }
    ensures edges { result ≡ true
        → (N.reading.net net.new).edges ≡ (N.reading.net net.old).edges }
    ensures least { (x : ℕ → ℕ) → IsLeast (N.reading.net net.old) x
        → IsLeast (N.reading.net net.new) x }
    ensures past { N.reading.past net.new ≡ [] }
    ensures same_size { IsSameSize N.reading net.old net.new }
{
    let mut first = 0;
    for plan in plans {
        if !move_plan(net, plan, first, floor, horizon) {
            return false;
        }
        first = first + plan.acts.len() + 1;
    }
    true
}

impl<N: Network> Board<N> {
    /// Goes on to a later moment, where all plans stand where they stood and can be released further. Answers whether the
    /// board is loaded with them as they are then.
    pub(crate) fn move_to(
        &mut self,
        machine: &Machine,
        schedule: &Schedule,
        before: Tick,
        now: Tick,
    ) -> bool
        requires made { IsMadeFor self.old.made_for machine.now }
        requires later { before ≤ now }
        requires last_tick { now ≤ last_tick }
        requires can { CanLoad machine.now before self.old.plans }
        requires loaded { IsLoaded machine.now before self.old.plans
            (N.reading.net self.old.net) self.old.orders.orders self.old.held self.old.firsts
            self.old.causes }
        requires closed { self.old.steps ≡ [] }
        requires unmarked { past_of N.reading self.old ≡ [] }
        ensures made { self.new.made_for ≡ self.old.made_for }
        ensures can { result ≡ true → CanLoad machine.now now self.new.plans }
        ensures loaded { result ≡ true → IsLoaded machine.now now self.new.plans
            (N.reading.net self.new.net) self.new.orders.orders self.new.held self.new.firsts
            self.new.causes }
        ensures settled { result ≡ true → self.new.settled ≡ true
            → AreSettled machine.now now self.new.plans }
        ensures points { result ≡ true
            → point_count self.new.plans ≡ point_count self.old.plans }
        ensures last { self.new.last ≡ self.old.last }
        ensures closed { self.new.steps ≡ [] }
        ensures past { past_of N.reading self.new ≡ [] }
        ensures marks { N.reading.max_marks self.new.net ≡ N.reading.max_marks self.old.net }
    {
        let floor = now + machine.lead;
        if !release_all(&mut self.plans, machine, schedule, now) {
            return false;
        }
        if !move_points(&mut self.net, &self.plans, floor, now + machine.window) {
            return false;
        }
        self.settled = are_settled(&self.net, &self.plans, &self.firsts);
        true
    }
}
