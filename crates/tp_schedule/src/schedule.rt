//! Schedules: the live plans, in the order of their copies.
ghost use Rattle.std.specs.Prelude.{◌≡◌, ◌+◌, ◌^◌, ◌<◌, ◌≤◌, ◌↔◌, [], length, filter, set, slice_get, Some, None, IsTrue, IsSome, IsSomeAnd, OnOk, IfOk, position};

use crate::copies::{copy_place, place_of, plan_in, write_plan};
use crate::hold_order::holds_by_time;
use crate::holders::{count_holders, count_live, is_plan_live};
use crate::outage_spread::is_spread;
use crate::parts::{Hold, Kind, Plan, SheetId};
use crate::series::Points;
use std::alloc::Global;
use std::marker::Model;
use tp_base::{Memory, Tick};
use tp_machine::{Machine, ResId};

/// The plans of copies, in the order of copies, past ones included.
pub struct Schedule {
    plans: Vec<Plan>,
}

// What becomes of its parts is proved here, once for all who let go of one.
impl Drop for Schedule {
    fn drop(self) {
        let Schedule { plans: _ } = self;
    }
}

// Clauses see the plans, and for how many more there is memory.
impl Model for Schedule {
    ghost use Rattle.std.specs.Prelude.{◌-◌, ◌<◌, ◌^◌, min, vec_len, vec_capacity};
    ghost use Rattle.tp_schedule.specs.Timetables.{IsOrdered, Timetable};

    ghost Value = { Timetable };

    ghost view = { λ s. record {
      plans = s.plans.items;
      spare = min (vec_capacity s.plans) (2 ^ 32 - 1) - vec_len s.plans;
    } };

    ghost invariant = { λ s. (vec_len s.plans < 2 ^ 32) × IsOrdered s.plans.items };
}

impl Schedule {
    ghost use Rattle.tp_schedule.specs.Timetables.{IsOrdered};
    ghost use Rattle.tp_schedule.specs.Plans.{IsFormed, is_same_copy, plan_of, put_plan, change_plan, cut_to, with_points, with_released, without};
    ghost use Rattle.tp_schedule.specs.Holders.{held};
    ghost use Rattle.tp_schedule.specs.Legality.{IsLegal, IsSpreadAt};
    ghost use Rattle.tp_schedule.specs.LivePlans.{is_live, live_count};
    ghost use Rattle.tp_schedule.specs.Spots.{order_of};

    pub fn new(alloc: Global) -> Schedule
        ensures empty { result.plans ≡ [] }
    {
        Schedule {
            plans: Vec::new(alloc),
        }
    }

    /// Makes sure of memory for one more plan.
    pub fn reserve(&mut self) -> Result<(), Memory>
        requires { length self.old.plans + 1 < 2 ^ 32 }
        ensures plans { self.new.plans ≡ self.old.plans }
        ensures spare { self.old.spare ≤ self.new.spare }
        ensures room { OnOk result (0 < self.new.spare) }
    {
        self.plans.reserve(1)?;
        Ok(())
    }

    pub fn copy(&self, alloc: Global) -> Result<Schedule, Memory>
        ensures { IfOk result (λ copy. copy.plans ≡ self.now.plans) }
    {
        let mut plans = Vec::with_capacity(alloc, self.plans.len())?;
        for plan in &self.plans {
            plans.push(plan.copy())?;
        }
        Ok(Schedule { plans })
    }

    /// Every schedule has its plans in the order of copies, each in its form. The call does nothing.
    pub fn ordered(&self)
        ensures ordered { IsOrdered self.now.plans }
        ensures fits { length self.now.plans < 2 ^ 32 }
    {
        // For the prover: brings what every value keeps.
        let _ = &self.plans;
    }

    pub fn len(&self) -> u32
        ensures len { result ≡ length self.now.plans }
    {
        self.plans.len() as u32
    }

    pub fn plan_at(&self, at: u32) -> &Plan
        requires { at < length self.now.plans }
        ensures plan { slice_get self.now.plans at ≡ Some result.now }
        ensures formed { IsFormed result.now }
    {
        &self.plans[at as usize]
    }

    /// The place of the copy's plan.
    pub fn find(&self, sheet: SheetId) -> Option<u32>
        ensures { result ≡ position (λ p. is_same_copy p.sheet sheet) self.now.plans }
    {
        let at = copy_place(self.plans.as_slice(), sheet)?;
        Some(at as u32)
    }

    /// Takes one spare plan. Memory is never wanted.
    pub fn put(&mut self, plan: Plan)
        requires formed { IsFormed plan }
        requires new_copy { plan_of plan.sheet self.old.plans ≡ None }
        requires room { 0 < self.old.spare }
        ensures plans { self.new.plans ≡ put_plan plan self.old.plans }
        ensures spare { self.new.spare + 1 ≡ self.old.spare }
    {
        let at = place_of(self.plans.as_slice(), plan.sheet);
        match self.plans.insert(at, plan) {
            Ok(()) => {}
            Err(_) => unreachable!(),
        }
    }

    pub fn replace(&mut self, plan: Plan)
        requires formed { IsFormed plan }
        requires planned { IsSome (plan_of plan.sheet self.old.plans) }
        ensures plans { self.new.plans ≡ change_plan plan.sheet (λ _. plan) self.old.plans }
        ensures spare { self.new.spare ≡ self.old.spare }
    {
        write_plan(&mut self.plans, plan);
    }

    pub fn set_points(&mut self, sheet: SheetId, points: &Points)
        requires planned { IsSomeAnd (plan_of sheet self.old.plans)
            (λ p. length points.now ≡ length p.points) }
        ensures plans { self.new.plans ≡ change_plan sheet
            (with_points points.now) self.old.plans }
        ensures spare { self.new.spare ≡ self.old.spare }
    {
        let mut plan = plan_in(self.plans.as_slice(), sheet).copy();
        plan.points = points.copy();
        write_plan(&mut self.plans, plan);
    }

    /// The first `count` actions of the copy's plan are released, and no others.
    pub fn freeze(&mut self, sheet: SheetId, count: u32)
        requires planned { IsSomeAnd (plan_of sheet self.old.plans)
            (λ p. count ≤ length p.acts) }
        ensures plans { self.new.plans ≡ change_plan sheet (with_released count) self.old.plans }
        ensures spare { self.new.spare ≡ self.old.spare }
    {
        let mut plan = plan_in(self.plans.as_slice(), sheet).copy();
        plan.released = count;
        write_plan(&mut self.plans, plan);
    }

    /// The first `count` actions of the plan at the place are released, and no others.
    pub fn freeze_at(&mut self, at: u32, count: u32)
        requires planned { IsSomeAnd (slice_get self.old.plans at) (λ p. count ≤ length p.acts) }
        ensures plans { IsSomeAnd (slice_get self.old.plans at)
            (λ p. self.new.plans ≡ set self.old.plans at (with_released count p)) }
        ensures spare { self.new.spare ≡ self.old.spare }
    {
        self.plans[at as usize].released = count;
    }

    /// The copy's plan becomes a front of its first `kept` actions, all of them released.
    pub fn cut(&mut self, sheet: SheetId, kept: u32)
        requires some { 1 ≤ kept }
        requires planned { IsSomeAnd (plan_of sheet self.old.plans) (λ p. kept ≤ length p.acts) }
        ensures plans { self.new.plans ≡ change_plan sheet (cut_to kept) self.old.plans }
        ensures spare { self.new.spare ≡ self.old.spare }
    {
        let mut plan = plan_in(self.plans.as_slice(), sheet).copy();
        plan.kind = Kind::Front;
        plan.acts.cut_to(kept);
        plan.points.cut_to(kept + 1);
        plan.released = kept;
        write_plan(&mut self.plans, plan);
    }

    /// The copy's plan goes. Its memory stays, as room for another.
    pub fn withdraw(&mut self, sheet: SheetId)
        requires planned { IsSome (plan_of sheet self.old.plans) }
        ensures plans { self.new.plans ≡ without sheet self.old.plans }
        ensures spare { self.new.spare + length self.new.plans
            ≡ self.old.spare + length self.old.plans }
    {
        self.plans.retain(|plan| plan.sheet != sheet);
    }

    /// The plans go that are not live at the moment: no point of theirs and no hold's end with its gap is above it. Their
    /// memory stays, as room for others.
    pub fn forget(&mut self, machine: &Machine, now: Tick)
        ensures plans { self.new.plans ≡ filter (is_live machine.now now) self.old.plans }
        ensures spare { self.new.spare + length self.new.plans
            ≡ self.old.spare + length self.old.plans }
    {
        self.plans.retain(|plan| is_plan_live(machine, now, plan));
    }

    fn is_held_once(&self, machine: &Machine, resource: ResId, at: Tick) -> bool
        ensures { IsTrue result ↔ (length (held machine.now self.now.plans resource.0 at) ≤ 1) }
    {
        let mut holders: u64 = 0;
        for plan in &self.plans {
            let points = plan.points.as_slice();
            holders += count_holders(machine, resource, at, plan.acts.as_slice(), points);
        }
        holders <= 1
    }

    /// Whether at most one action holds the resource at the tick, and none holds it in another mode at a tick that differs
    /// by at most its gap. Looks at all plans.
    pub fn legal_at(&self, machine: &Machine, resource: ResId, at: Tick) -> bool
        ensures { IsTrue result ↔ ((length (held machine.now self.now.plans resource.0 at) ≤ 1)
            × IsSpreadAt machine.now self.now.plans resource.0 at) }
    {
        let once = self.is_held_once(machine, resource, at);
        let spread = is_spread(machine, self.plans.as_slice(), resource, at);
        once && spread
    }

    /// The holds on the resource by their times. Takes time by the square of their number.
    pub fn order_of(
        &self,
        alloc: Global,
        machine: &Machine,
        resource: ResId,
    ) -> Result<Vec<Hold>, Memory>
        requires legal { IsLegal machine.now self.now.plans }
        ensures { IfOk result (λ holds. holds.items
            ≡ order_of machine.now self.now.plans resource.0) }
    {
        holds_by_time(alloc, machine, resource, self.plans.as_slice())
    }

    /// How many plans are live: a point of them, or a hold's end with its gap, is above the moment.
    pub fn live(&self, machine: &Machine, now: Tick) -> u32
        ensures { result ≡ live_count machine.now now self.now.plans }
    {
        count_live(machine, now, self.plans.as_slice()) as u32
    }
}
