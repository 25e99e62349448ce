//! The points of plans as they stand, noted in one list: a later schedule beside them shows which plans moved.

ghost use Rattle.std.specs.Prelude.{◌≡◌, ◌<◌, ◌+◌, ◌++◌, ◌∷◌, [], length, sum_by, slice_get, Some, IfNone, IfOk, IfSome, OnOk};
ghost use Rattle.tp_schedule.specs.Plans.{without};
ghost use Rattle.tp_event_records.specs.RecordNames.{IsNotLast, is_of, others, points_of};

use std::alloc::Global;
use std::marker::Model;
use tp_base::{Memory, Tick};
use tp_schedule::{Plan, Schedule, SheetId};

/// Where the points of a plan stand among the ticks.
#[derive(Clone, Copy)]
pub(crate) struct PlanSpan {
    from: usize,
    till: usize,
}

/// The points of plans, plan after plan.
#[derive(Drop)]
pub struct Times {
    ticks: Vec<Tick>,
    spans: Vec<PlanSpan>,
}

// Clauses see the points of each plan.
impl Model for Times {
    ghost use Rattle.std.specs.Prelude.{ℕ, List, map, All};
    ghost use Rattle.tp_event_records.specs.Spans.{IsWithin, ticks_at};

    ghost Value = { List (List ℕ) };

    ghost view = { λ s. map (ticks_at s.ticks.items) s.spans.items };

    ghost invariant = { λ s. All (IsWithin s.ticks.items) s.spans.items };
}

impl Times {
    /// The points of the schedule's plans, but for those of the copy's plan where one is named.
    pub fn of(alloc: Global, schedule: &Schedule, asked: Option<SheetId>) -> Result<Times, Memory>
        ensures { IfOk result (λ times. times ≡ points_of (others asked schedule.now.plans)) }
    {
        let mut times = Times {
            ticks: Vec::with_capacity(alloc, count_points(schedule))?,
            spans: Vec::with_capacity(alloc, schedule.len() as usize)?,
        };
        'plans: for at in 0..schedule.len() {
            let plan = schedule.plan_at(at);
            if !is_of(asked, plan) {
                times.push(plan)?;
            }
        }
        Ok(times)
    }

    /// The points of all plans of the schedule, by those of the plans but the copy's: `None` where the copy's plan is not the
    /// last one.
    pub fn with_plan_of(
        mut self,
        schedule: &Schedule,
        copy: SheetId,
    ) -> Result<Option<Times>, Memory>
        requires others { self ≡ points_of (without copy schedule.now.plans) }
        ensures all { IfOk result (λ times. IfSome times (λ t. t
            ≡ points_of schedule.now.plans)) }
        ensures none { IfOk result (λ times. IfNone times (IsNotLast copy schedule.now.plans)) }
    {
        schedule.ordered();
        let Some(at) = schedule.find(copy) else {
            return Ok(Some(self));
        };
        if at + 1 < schedule.len() {
            return Ok(None);
        }
        self.push(schedule.plan_at(at))?;
        Ok(Some(self))
    }

    /// Adds the points of a plan behind the others.
    fn push(&mut self, plan: &Plan) -> Result<(), Memory>
        ensures { OnOk result (self.new ≡ self.old ++ plan.now.points ∷ []) }
    {
        let from = self.ticks.len();
        self.ticks.extend_from_slice(plan.points.as_slice())?;
        self.spans.push(PlanSpan {
            from,
            till: self.ticks.len(),
        })?;
        Ok(())
    }

    /// How many plans there are.
    pub(crate) fn len(&self) -> usize
        ensures { result ≡ length self.now }
    {
        self.spans.len()
    }

    /// The points of a plan by its place.
    pub(crate) fn get(&self, place: usize) -> &[Tick]
        requires { place < length self.now }
        ensures { slice_get self.now place ≡ Some result.now }
    {
        let span = self.spans[place];
        &self.ticks[span.from..span.till]
    }
}

/// Whether the plan is the copy's, where one is named.
pub(crate) fn is_of(copy: Option<SheetId>, plan: &Plan) -> bool
    ensures { result ≡ is_of copy plan.now }
{
    match copy {
        Some(sheet) => plan.sheet == sheet,
        None => false,
    }
}

/// How many points all plans have.
fn count_points(schedule: &Schedule) -> usize
    ensures { result ≡ sum_by length (points_of schedule.now.plans) }
{
    let mut count = 0;
    'plans: for at in 0..schedule.len() {
        count += schedule.plan_at(at).points.len() as usize;
    }
    count
}
