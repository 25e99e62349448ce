//! What is left of the plans.

ghost use Rattle.std.specs.Prelude.{◌≡◌, ◌+◌, ◌<◌, ◌≤◌, ◌++◌, length, drop, set, take, slice_get};
ghost use Rattle.std.specs.Prelude.{IsSomeAnd, IsTrue};
ghost use Rattle.tp_schedule.specs.declared.parts.Plan.{Plan};
ghost use Rattle.tp_event_rules.specs.Fates.{Fate as Befalls, is_cut_by, left_by, left_of, to_purge};
ghost use Rattle.tp_event_rules.specs.Moments.{front_of, started_count};
ghost use Rattle.tp_replan.specs.Meanings.{AreCutStarted, AreFates, meant};

use crate::fate::Fate;
use crate::moments::started_count;
use tp_base::Tick;
use tp_schedule::{Goal, Schedule};

/// The plan at the place becomes the front that ends with the running action.
fn cut_at(schedule: &mut Schedule, at: u32, now: Tick)
    requires started { IsSomeAnd (slice_get schedule.old.plans at) (λ p.
        1 ≤ started_count now p) }
    ensures { IsSomeAnd (slice_get schedule.old.plans at) (λ p.
        schedule.new.plans ≡ set schedule.old.plans at (front_of now p)) }
{
    schedule.ordered();
    let plan = schedule.plan_at(at);
    let sheet = plan.sheet;
    let kept = started_count(plan, now);
    schedule.cut(sheet, kept);
}

/// The goal of the plan at the place is a purge from now on.
pub(crate) fn purge_at(schedule: &mut Schedule, at: u32)
    requires there { at < length schedule.old.plans }
    ensures { IsSomeAnd (slice_get schedule.old.plans at) (λ p.
        schedule.new.plans ≡ set schedule.old.plans at (to_purge p)) }
{
    schedule.ordered();
    let mut plan = schedule.plan_at(at).copy();
    plan.goal = Goal::Purge;
    schedule.replace(plan);
}

/// The plan at the place goes.
fn withdraw_at(schedule: &mut Schedule, at: u32)
    requires there { at < length schedule.old.plans }
    ensures { schedule.new.plans ≡ take at schedule.old.plans ++ drop
        (at + 1) schedule.old.plans }
{
    schedule.ordered();
    let sheet = schedule.plan_at(at).sheet;
    schedule.withdraw(sheet);
}

/// The plan at the place becomes what the fate leaves of it. No other plan changes.
fn leave_one(schedule: &mut Schedule, at: u32, now: Tick, fate: Fate)
    requires there { at < length schedule.old.plans }
    requires started { IsSomeAnd (slice_get schedule.old.plans at) (λ p.
        IsTrue (is_cut_by (meant fate)) → 1 ≤ started_count now p) }
    ensures before { take at schedule.new.plans ≡ take at schedule.old.plans }
    ensures left { IsSomeAnd (slice_get schedule.old.plans at) (λ p. drop at schedule.new.plans
        ≡ left_of now p (meant fate) ++ drop (at + 1) schedule.old.plans) }
{
    match fate {
        Fate::Stays => {}
        Fate::Lost | Fate::Cut => cut_at(schedule, at, now),
        Fate::Purged | Fate::Replaced => {
            cut_at(schedule, at, now);
            purge_at(schedule, at);
        }
        Fate::Withdrawn | Fate::Dropped => withdraw_at(schedule, at),
    }
}

/// Each plan becomes what its fate leaves of it. The last is the first to change, so that no place moves before its turn.
pub(crate) fn leave_all(schedule: &mut Schedule, now: Tick, fates: &[Fate])
    requires each { length fates.now ≡ length schedule.old.plans }
    requires started { AreCutStarted now schedule.old.plans fates.now }
    ensures { (rule : Plan → Befalls) → AreFates rule schedule.old.plans fates.now
        → schedule.new.plans ≡ left_by rule now schedule.old.plans }
{
    let mut at = schedule.len();
    'leave: while at > 0 {
        at -= 1;
        leave_one(schedule, at, now, fates[at as usize]);
    }
}
