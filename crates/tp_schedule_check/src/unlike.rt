//! Whether the plans of two schedules are the same but for points that may move.
ghost use Rattle.std.specs.Prelude.{◌≡◌, ◌≤◌, ◌↔◌, [], IsTrue, MatchOption, drop, length};
ghost use Rattle.tp_schedule.specs.Answers.{unmoved};
ghost use Rattle.tp_schedule.specs.Plans.{IsFormed};
ghost use Rattle.tp_schedule_check.specs.Alike.{AreAlike, IsAlike, IsUnfixed, IsSameCopy, IsSameCourse, IsUnlike, IsUnlikePlan, KeepsPoints, others};

use crate::early::{is_exempt, is_fixed};
use crate::plans::are_same_acts;
use tp_base::Tick;
use tp_schedule::{Plan, Schedule, SheetId};

/// Why the plans of two schedules are not the same but for points that may move.
#[derive(Clone, Copy, PartialEq, Eq)]
pub enum Unlike {
    /// A plan is more than moved, or only one of them has it.
    Changed,
    /// Point `at` of the copy's plan was fixed at `stood`, and now stands elsewhere.
    Moved {
        sheet: SheetId,
        at: u32,
        stood: Tick,
        stands: Tick,
    },
}

fn is_same_copy(one: &Plan, other: &Plan) -> bool
    ensures { IsTrue result ↔ IsSameCopy one.now other.now }
{
    other.sheet == one.sheet && other.name == one.name && other.want == one.want
}

fn is_same_course(one: &Plan, other: &Plan) -> bool
    ensures { IsTrue result ↔ IsSameCourse one.now other.now }
{
    other.goal == one.goal && other.kind == one.kind && other.released == one.released
}

/// Whether both are the same but for their points.
fn is_same_way(one: &Plan, other: &Plan) -> bool
    ensures { IsTrue result ↔ (unmoved other.now ≡ unmoved one.now) }
{
    if !is_same_copy(one, other) {
        return false;
    }
    if !is_same_course(one, other) {
        return false;
    }
    are_same_acts(one.acts.as_slice(), other.acts.as_slice())
}

/// The first fixed point of a plan at which the other plan, which is at least as long, stands elsewhere.
pub(crate) fn find_unfixed(plan: &Plan, other: &Plan) -> Option<Unlike>
    requires formed { IsFormed plan.now }
    requires other_formed { IsFormed other.now }
    requires long { length plan.now.acts ≤ length other.now.acts }
    ensures { MatchOption result (KeepsPoints plan.now other.now) (IsUnfixed plan.now other.now) }
{
    'points: for at in 0..plan.acts.len() + 1 {
        let stood = plan.points.get(at);
        let stands = other.points.get(at);
        let fixed = is_fixed(plan, at);
        if fixed && stood != stands {
            return Some(Unlike::Moved {
                sheet: plan.sheet,
                at,
                stood,
                stands,
            });
        }
    }
    None
}

/// Why the other plan is not the same but for points that may move.
fn unlike_of(plan: &Plan, other: &Plan) -> Option<Unlike>
    requires formed { IsFormed plan.now }
    requires other_formed { IsFormed other.now }
    ensures { MatchOption result (IsAlike plan.now other.now) (IsUnlikePlan plan.now other.now) }
{
    if is_same_way(plan, other) {
        find_unfixed(plan, other)
    } else {
        Some(Unlike::Changed)
    }
}

/// Whether no plan from a place on is another copy's.
fn are_passed(schedule: &Schedule, from: u32, asked: Option<SheetId>) -> bool
    requires { from ≤ length schedule.now.plans }
    ensures { IsTrue result ↔ (others asked (drop from schedule.now.plans) ≡ []) }
{
    'plans: for at in from..schedule.len() {
        if !is_exempt(asked, schedule.plan_at(at)) {
            return false;
        }
    }
    true
}

/// Why the plans of the second schedule are not those of the first but for points that may move; None exactly where they are.
/// The asked copy is passed over in both.
pub fn find_unlike(before: &Schedule, after: &Schedule, asked: Option<SheetId>) -> Option<Unlike>
    ensures { MatchOption result
        (AreAlike (others asked before.now.plans) (others asked after.now.plans))
        (IsUnlike (others asked before.now.plans) (others asked after.now.plans)) }
{
    let mut from = 0;
    let mut to = 0;
    'plans: while from < before.len() && to < after.len() {
        let old = before.plan_at(from);
        let new = after.plan_at(to);
        if is_exempt(asked, old) {
            from += 1;
        } else if is_exempt(asked, new) {
            to += 1;
        } else {
            match unlike_of(old, new) {
                Some(unlike) => return Some(unlike),
                None => {}
            }
            from += 1;
            to += 1;
        }
    }
    let left = are_passed(before, from, asked);
    let more = are_passed(after, to, asked);
    if left && more {
        None
    } else {
        Some(Unlike::Changed)
    }
}
