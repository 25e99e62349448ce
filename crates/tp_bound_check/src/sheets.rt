//! The kept plans, looked up by their copies and by the names of their jobs.
ghost use Rattle.std.specs.Prelude.{◌≡◌, IfOk, map, option_copied};
ghost use Rattle.tp_bound_check.specs.Keys.{copy_key, plan_key};
ghost use Rattle.tp_schedule.specs.Plans.{plan_of};
ghost use Rattle.tp_bound_laws.specs.Chains.{plan_named};

use crate::index::{SheetKey, StartKey, places_of, sheet_key, start_key};
use crate::points::Point;
use std::alloc::Global;
use std::collections::HashMap;
use std::marker::Model;
use tp_base::Memory;
use tp_schedule::{Plan, SheetId, SheetName};

/// Plans, with the places of their copies and of their names.
#[derive(Drop)]
pub(crate) struct Sheets {
    plans: Vec<Plan>,
    by_copy: HashMap<StartKey, usize>,
    by_name: HashMap<SheetKey, usize>,
}

impl Model for Sheets {
    ghost use Rattle.std.specs.Prelude.{List};
    ghost use Rattle.std.specs.HashMap.{get};
    ghost use Rattle.tp_bound_check.specs.Keys.{AreByCopy, AreByName};
    ghost use Rattle.tp_schedule.specs.declared.parts.Plan.{Plan};

    ghost Value = { List Plan };

    ghost view = { λ s. s.plans.items };

    ghost invariant = { λ s. AreByCopy (get ⟦<StartKey as PartialEq>⟧.eq s.by_copy) s.plans.items
        × AreByName (get ⟦<SheetKey as PartialEq>⟧.eq s.by_name) s.plans.items };
}

/// The first point of the copy's plan, by which the plan is looked up.
fn copy_key(copy: SheetId) -> StartKey
    ensures { result ≡ copy_key copy }
{
    start_key(Point::kept(copy, 0))
}

fn name_key(plan: &Plan) -> SheetKey
    ensures { result ≡ plan_key plan.now }
{
    SheetKey {
        job: plan.name,
        number: plan.sheet.number,
        copy: plan.sheet.copy,
    }
}

fn copy_keys(alloc: Global, plans: &[Plan]) -> Result<Vec<StartKey>, Memory>
    ensures { IfOk result (λ keys. keys.items ≡ map (λ p. copy_key p.sheet) plans.now) }
{
    Ok(
        plans
            .iter()
            .map(|plan| copy_key(plan.sheet))
            .collect(alloc)?,
    )
}

fn name_keys(alloc: Global, plans: &[Plan]) -> Result<Vec<SheetKey>, Memory>
    ensures { IfOk result (λ keys. keys.items ≡ map plan_key plans.now) }
{
    Ok(plans.iter().map(|plan| name_key(plan)).collect(alloc)?)
}

impl Sheets {
    pub(crate) fn new(alloc: Global, plans: Vec<Plan>) -> Result<Sheets, Memory>
        ensures { IfOk result (λ sheets. sheets ≡ plans.items) }
    {
        let copies = copy_keys(alloc, plans.as_slice())?;
        let names = name_keys(alloc, plans.as_slice())?;
        let by_copy = places_of(alloc, copies.as_slice())?;
        let by_name = places_of(alloc, names.as_slice())?;
        Ok(Sheets {
            plans,
            by_copy,
            by_name,
        })
    }

    pub(crate) fn as_slice(&self) -> &[Plan]
        ensures { result.now ≡ self.now }
    {
        self.plans.as_slice()
    }

    /// The plan of a copy.
    pub(crate) fn plan_of(&self, copy: SheetId) -> Option<&Plan>
        ensures { option_copied result ≡ plan_of copy self.now }
    {
        match self.by_copy.get(&copy_key(copy)) {
            Some(at) => Some(&self.plans[*at]),
            None => None,
        }
    }

    /// The plan of a copy by the name of its job.
    pub(crate) fn plan_named(&self, name: &SheetName) -> Option<&Plan>
        ensures { option_copied result ≡ plan_named name.now self.now }
    {
        match self.by_name.get(&sheet_key(name)) {
            Some(at) => Some(&self.plans[*at]),
            None => None,
        }
    }
}
