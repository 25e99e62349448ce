//! The order of copies, and a copy looked up among plans.
ghost use Rattle.std.specs.Prelude.{◌≡◌, ◌<◌, AllPairs, length, position, unwrap_or, vec_len, vec_capacity, IfSome, IsSome, Some};
ghost use Rattle.tp_schedule.specs.Plans.{IsEarlier, change_plan, is_before, is_same_copy, plan_of};

use crate::parts::{Plan, SheetId};

/// Whether the one copy stands before the other in the order of copies.
pub fn is_earlier(one: SheetId, other: SheetId) -> bool
    ensures { result ≡ is_before one other }
{
    one.job < other.job
        || (one.job == other.job
            && (one.number < other.number || (one.number == other.number && one.copy < other.copy)))
}

/// Where a plan of the copy goes in the order of copies, by a binary search.
pub(crate) fn place_of(plans: &[Plan], copy: SheetId) -> usize
    requires { AllPairs IsEarlier plans.now }
    ensures { result ≡ unwrap_or (position (λ q. is_before copy q.sheet) plans.now)
        (length plans.now) }
{
    plans.partition_point(|other| !is_earlier(copy, other.sheet))
}

/// The place of the plan of the copy, by a binary search.
pub fn copy_place(plans: &[Plan], copy: SheetId) -> Option<usize>
    requires in_order { AllPairs IsEarlier plans.now }
    ensures place { result ≡ position (λ p. is_same_copy p.sheet copy) plans.now }
    ensures within { IfSome result (λ at. at < length plans.now) }
{
    let at = plans.partition_point(|other| is_earlier(other.sheet, copy));
    if at < plans.len() && plans[at].sheet == copy {
        Some(at)
    } else {
        None
    }
}

/// The plan of the copy.
pub(crate) fn plan_in(plans: &[Plan], copy: SheetId) -> &Plan
    requires in_order { AllPairs IsEarlier plans.now }
    requires planned { IsSome (plan_of copy plans.now) }
    ensures { plan_of copy plans.now ≡ Some result.now }
{
    match copy_place(plans, copy) {
        Some(at) => &plans[at],
        None => unreachable!(),
    }
}

/// The plan takes the place of its copy's plan.
pub(crate) fn write_plan(plans: &mut Vec<Plan>, plan: Plan)
    requires in_order { AllPairs IsEarlier plans.old.items }
    requires planned { IsSome (plan_of plan.sheet plans.old.items) }
    ensures plans { plans.new.items ≡ change_plan plan.sheet (λ _. plan) plans.old.items }
    ensures len { vec_len plans.new ≡ vec_len plans.old }
    ensures capacity { vec_capacity plans.new ≡ vec_capacity plans.old }
{
    if let Some(at) = copy_place(plans.as_slice(), plan.sheet) {
        plans[at] = plan;
    }
}
