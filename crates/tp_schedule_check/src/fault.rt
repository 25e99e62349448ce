//! Whether a schedule answers an ask, or has its times settled.
ghost use Rattle.std.specs.Prelude.{◌≡◌, ◌≤◌, ◌↔◌, IfOk, IfSome, IsNone};
ghost use Rattle.tp_schedule.specs.Legality.{IsLegal};
ghost use Rattle.tp_schedule.specs.PlannerAnswers.{IsSettled, last_tick};
ghost use Rattle.tp_schedule.specs.Plans.{IsFormed};
ghost use Rattle.tp_schedule_check.specs.Faults.{HasPlans, IsAnswerFault, IsAnswered, IsAskedFault, IsGoodPlan, IsPlanFault, IsPlansFault, IsRight, IsSettlingFault, exempt_of};

use crate::asked::answers_ask;
use crate::plans::plan_of;
use crate::times::{Wanted, find_in_times};
use crate::unlike::{Unlike, find_unfixed, find_unlike};
use crate::{Clash, Early, Parting, PlanPoint};
use std::alloc::Global;
use tp_base::{Memory, Tick};
use tp_machine::Machine;
use tp_schedule::{Ask, Plan, Schedule, SheetId};

/// Why a schedule is no answer, or has no settled times.
#[derive(Clone, Copy, PartialEq, Eq)]
pub enum Fault {
    /// The asked copy has no plan that answers the ask.
    Asked,
    /// What had to stay is not as it was.
    Unlike(Unlike),
    /// It is not legal.
    Clash(Clash),
    /// A start is not above now + lead.
    Floor(PlanPoint),
    /// A point is above now + window.
    Horizon(PlanPoint),
    /// Holds stand in another order.
    Order(Parting),
    /// A point could stand earlier.
    Early(Early),
}

/// What is wrong with the plan that the asked copy has in the second schedule, at this place.
fn find_in_plan(machine: &Machine, ask: &Ask, before: &Schedule, plan: &Plan) -> Option<Fault>
    requires { IsFormed plan.now }
    ensures right { IsNone result ↔ IsGoodPlan machine.now before.now.plans
        ask.entry.now plan.now }
    ensures fault { IfSome result
        (IsPlanFault machine.now before.now.plans ask.entry.now plan.now) }
{
    if !answers_ask(machine, before, ask, plan) {
        return Some(Fault::Asked);
    }
    match plan_of(before, ask.sheet) {
        Some(front) => match find_unfixed(front, plan) {
            Some(unlike) => Some(Fault::Unlike(unlike)),
            None => None,
        },
        None => None,
    }
}

/// What is wrong with what the second schedule has of the asked copy.
fn find_in_asked(machine: &Machine, ask: &Ask, before: &Schedule, after: &Schedule) -> Option<Fault>
    ensures right { IsNone result
        ↔ IsAnswered machine.now before.now.plans ask.entry.now after.now.plans }
    ensures fault { IfSome result
        (IsAskedFault machine.now before.now.plans ask.entry.now after.now.plans) }
{
    match plan_of(after, ask.sheet) {
        Some(plan) => find_in_plan(machine, ask, before, plan),
        None => Some(Fault::Asked),
    }
}

/// What is wrong with the plans of the second schedule, whatever its times.
fn find_in_plans(machine: &Machine, ask: &Ask, before: &Schedule, after: &Schedule) -> Option<Fault>
    ensures right { IsNone result
        ↔ HasPlans machine.now before.now.plans ask.entry.now after.now.plans }
    ensures fault { IfSome result
        (IsPlansFault machine.now before.now.plans ask.entry.now after.now.plans) }
{
    match find_in_asked(machine, ask, before, after) {
        Some(fault) => Some(fault),
        None => match find_unlike(before, after, Some(ask.sheet)) {
            Some(unlike) => Some(Fault::Unlike(unlike)),
            None => None,
        },
    }
}

/// The copy whose new starts have no floors: an asked one in flight.
fn exempt_of(ask: &Ask) -> Option<SheetId>
    ensures { result ≡ exempt_of ask.entry.now }
{
    if 0 < ask.origin.kept() {
        Some(ask.sheet)
    } else {
        None
    }
}

/// Why the second schedule is no alternative to the first with least times that answers the ask; None exactly where it is one.
/// Takes time in proportion to the plans, points and holds and their sort.
pub fn find_fault(
    alloc: Global,
    machine: &Machine,
    ask: &Ask,
    before: &Schedule,
    after: &Schedule,
) -> Result<Option<Fault>, Memory>
    requires moment { ask.now.now ≤ last_tick }
    requires legal { IsLegal machine.now before.now.plans }
    ensures right { IfOk result (λ found. IsNone found
        ↔ IsRight machine.now before.now.plans ask.entry.now after.now.plans) }
    ensures fault { IfOk result (λ found. IfSome found
        (IsAnswerFault machine.now before.now.plans ask.entry.now after.now.plans)) }
{
    after.ordered();
    match find_in_plans(machine, ask, before, after) {
        Some(fault) => return Ok(Some(fault)),
        None => {}
    }
    let wanted = Wanted {
        moment: ask.now,
        asked: Some(*ask),
        exempt: exempt_of(ask),
    };
    find_in_times(alloc, machine, &wanted, before, after)
}

/// Why the second schedule is not the first with its times settled at the moment; None exactly where it is. Takes time in
/// proportion to the plans, points and holds and their sort.
pub fn find_unsettled(
    alloc: Global,
    machine: &Machine,
    now: Tick,
    before: &Schedule,
    after: &Schedule,
) -> Result<Option<Fault>, Memory>
    requires moment { now ≤ last_tick }
    requires legal { IsLegal machine.now before.now.plans }
    ensures right { IfOk result (λ found. IsNone found
        ↔ IsSettled machine.now now before.now.plans after.now.plans) }
    ensures fault { IfOk result (λ found. IfSome found
        (IsSettlingFault machine.now now before.now.plans after.now.plans)) }
{
    after.ordered();
    match find_unlike(before, after, None) {
        Some(unlike) => return Ok(Some(Fault::Unlike(unlike))),
        None => {}
    }
    let wanted = Wanted {
        moment: now,
        asked: None,
        exempt: None,
    };
    find_in_times(alloc, machine, &wanted, before, after)
}
