//! What is asked of one plan or one copy.
ghost use Rattle.std.specs.Prelude.{◌≡◌};
ghost use Rattle.tp_schedule.specs.Plans.{is_front, point};
ghost use Rattle.tp_event_rules.specs.StateInvariants.{is_same_sheet};
ghost use Rattle.tp_event_rules.specs.Lines.{is_job_broken};
ghost use Rattle.tp_event_rules.specs.Moments.{is_to_tray, is_tray_plan};

use tp_base::Tick;
use tp_jobs::JobRow;
use tp_schedule::{Goal, Kind, Plan, SheetId};

/// A point of the plan, and 0 where it has none of this number.
pub(crate) fn point_at(plan: &Plan, at: u32) -> Tick
    ensures { result ≡ point plan.now at }
{
    match plan.points.as_slice().get(at as usize) {
        Some(point) => *point,
        None => 0,
    }
}

pub(crate) fn is_front(plan: &Plan) -> bool
    ensures { result ≡ is_front plan.now.kind }
{
    match plan.kind {
        Kind::Front => true,
        Kind::Whole => false,
    }
}

pub(crate) fn is_to_tray(goal: Goal) -> bool
    ensures { result ≡ is_to_tray goal }
{
    match goal {
        Goal::Tray(_) => true,
        Goal::Purge => false,
    }
}

/// Whether it is a whole plan to its tray.
pub(crate) fn is_tray_plan(plan: &Plan) -> bool
    ensures { result ≡ is_tray_plan plan.now }
{
    !is_front(plan) && is_to_tray(plan.goal)
}

pub(crate) fn is_same_sheet(one: SheetId, other: SheetId) -> bool
    ensures { result ≡ is_same_sheet one other }
{
    one.job == other.job && one.number == other.number
}

pub(crate) fn is_job_broken(jobs: &[JobRow], job: u32) -> bool
    ensures { result ≡ is_job_broken jobs.now job }
{
    match jobs.get(job as usize) {
        Some(job) => job.broken,
        None => false,
    }
}
