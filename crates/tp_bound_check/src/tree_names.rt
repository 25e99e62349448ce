//! Plans, points and actions by their names in a tree.
ghost use Rattle.std.specs.Prelude.{◌≡◌, ℕ, ◌+◌, ◌<◌, ◌≤◌, [], ◌∷◌, slice_get, Some, None, position, option_copied, Option};
ghost use Rattle.std.specs.Str.{bytes_eq};
ghost use Rattle.tp_schedule.specs.Plans.{plan_of};
ghost use Rattle.tp_bound_laws.specs.Chains.{acts_in, own_start, point_in, spot_of, start_in, start_of};
ghost use Rattle.tp_bounds.specs.declared.hops.TreePoint.{TreePoint};
ghost use Rattle.tp_bounds.specs.declared.hops.TreeHold.{TreeHold};

use crate::points::Point;
use crate::sheets::Sheets;
use tp_base::Name;
use tp_bounds::{TreeHold, TreePoint};
use tp_machine::{ActId, Machine, Resource};
use tp_schedule::{Plan, SheetId};

/// A point of a plan.
fn point_in(at: u32, plan: Option<&Plan>) -> Option<Point>
    ensures { result ≡ point_in at (option_copied plan.entry) }
{
    match plan {
        Some(plan) if at <= plan.acts.len() => Some(Point::kept(plan.sheet, at)),
        _ => None,
    }
}

/// The point where an action of a plan starts, the first being action 1.
fn start_in(act: u32, plan: Option<&Plan>) -> Option<Point>
    ensures { result ≡ start_in act (option_copied plan.entry) }
{
    match plan {
        Some(plan) if 1 <= act && act <= plan.acts.len() => Some(Point::kept(plan.sheet, act - 1)),
        _ => None,
    }
}

/// The point of this name, where so many choices were made.
pub(crate) fn spot_of(plans: &Sheets, count: u32, point: &TreePoint) -> Option<Point>
    ensures { result ≡ spot_of plans.now count point.now }
{
    match point {
        TreePoint::Own(at) => {
            if *at <= count {
                Some(Point::own(*at))
            } else {
                None
            }
        }
        TreePoint::Kept { sheet, at } => point_in(*at, plans.plan_named(sheet)),
    }
}

fn own_start(count: u32, at: u32) -> Option<Point>
    ensures { result ≡ own_start count at }
{
    if 1 <= at && at <= count {
        Some(Point::own(at))
    } else {
        None
    }
}

/// The point where the action of this name starts.
pub(crate) fn start_of(plans: &Sheets, count: u32, hold: &TreeHold) -> Option<Point>
    ensures { result ≡ start_of plans.now count hold.now }
{
    match hold {
        TreeHold::Own(at) => own_start(count, *at),
        TreeHold::Kept { sheet, act } => start_in(*act, plans.plan_named(sheet)),
    }
}

/// The action that runs from a point of a copy's plan.
pub(crate) fn act_from(plans: &Sheets, copy: SheetId, at: u32) -> Option<ActId>
    ensures { result ≡ slice_get (acts_in (plan_of copy plans.now)) at }
{
    match plans.plan_of(copy) {
        Some(plan) if at < plan.acts.len() => Some(plan.acts.get(at)),
        _ => None,
    }
}

/// The place of the resource of this name.
pub(crate) fn resource_of(resources: &[Resource], name: &Name) -> Option<usize>
    ensures { result ≡ position (λ r. bytes_eq r.name name.now) resources.now }
{
    resources.iter().position(|resource| resource.name == *name)
}
