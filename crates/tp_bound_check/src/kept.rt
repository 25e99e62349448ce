//! The live part of a schedule, and the orders of its holds.
ghost use Rattle.std.specs.Prelude.{◌≡◌, ◌||◌, ◌++◌, ◌∷◌, [], IfOk, OnOk, if◌then◌else◌};
ghost use Rattle.tp_bound_check.specs.Stands.{AreOrders};
ghost use Rattle.tp_schedule.specs.LivePlans.{is_live};
ghost use Rattle.tp_schedule.specs.Plans.{is_same_copy};
ghost use Rattle.tp_schedule.specs.Timetables.{IsOrdered};
ghost use Rattle.tp_bound_laws.specs.Claims.{live_part};

use crate::begin_order::kept_order;
use crate::orders::Order;
use crate::sheets::Sheets;
use std::alloc::Global;
use tp_base::Memory;
use tp_machine::{Machine, ResId, machine_law};
use tp_schedule::{Ask, Plan, Schedule, is_plan_live};

fn is_kept(machine: &Machine, ask: &Ask, plan: &Plan) -> bool
    ensures { result ≡ (is_live machine.now ask.entry.now.now plan.now
        || is_same_copy plan.now.sheet ask.entry.now.sheet) }
{
    is_plan_live(machine, ask.now, plan) || plan.sheet == ask.sheet
}

fn keep(kept: &mut Vec<Plan>, machine: &Machine, ask: &Ask, plan: &Plan) -> Result<(), Memory>
    ensures { OnOk result (kept.new.items ≡ (if is_live machine.entry.now ask.entry.now.now
        plan.entry.now || is_same_copy plan.entry.now.sheet ask.entry.now.sheet then kept.old.items
        ++ plan.entry.now ∷ [] else kept.old.items)) }
{
    if is_kept(machine, ask, plan) {
        kept.push(plan.copy())?;
    }
    Ok(())
}

fn keep_all(
    alloc: Global,
    machine: &Machine,
    ask: &Ask,
    schedule: &Schedule,
) -> Result<Vec<Plan>, Memory>
    ensures { IfOk result (λ plans. plans.items ≡ live_part machine.now ask.entry.now
        schedule.now.plans) }
{
    let mut kept = Vec::new(alloc);
    'plans: for at in 0..schedule.len() {
        keep(&mut kept, machine, ask, schedule.plan_at(at))?;
    }
    Ok(kept)
}

/// The plans that are live, and the asked copy's front.
fn live_plans(
    alloc: Global,
    machine: &Machine,
    ask: &Ask,
    schedule: &Schedule,
) -> Result<Vec<Plan>, Memory>
    ensures plans { IfOk result (λ plans. plans.items ≡ live_part machine.now ask.entry.now
        schedule.now.plans) }
    ensures ordered { IfOk result (λ plans. IsOrdered plans.items) }
{
    schedule.ordered();
    keep_all(alloc, machine, ask, schedule)
}

/// The plans that are live and the asked copy's front, as a table to look plans up in.
pub(crate) fn live_part(
    alloc: Global,
    machine: &Machine,
    ask: &Ask,
    schedule: &Schedule,
) -> Result<Sheets, Memory>
    ensures plans { IfOk result (λ plans. plans ≡ live_part machine.now ask.entry.now
        schedule.now.plans) }
    ensures ordered { IfOk result IsOrdered }
{
    let plans = live_plans(alloc, machine, ask, schedule)?;
    Sheets::new(alloc, plans)
}

/// The orders of the holds of the plans, resource by resource.
pub(crate) fn kept_orders(
    alloc: Global,
    machine: &Machine,
    plans: &[Plan],
) -> Result<Vec<Order>, Memory>
    requires { IsOrdered plans.now }
    ensures { IfOk result (λ orders. AreOrders machine.now plans.now orders.items) }
{
    machine_law(machine);
    let mut orders = Vec::new(alloc);
    'resources: for at in 0..machine.resources.len() as u16 {
        let slots = kept_order(alloc, machine, ResId(at), plans)?;
        orders.push(Order::new(alloc, slots)?)?;
    }
    Ok(orders)
}
