//! Orders of resources with the holds of a branch.
ghost use Rattle.std.specs.Prelude.{◌≡◌, ◌+◌, ◌*◌, ◌<◌, ◌≤◌, ◌^◌, length, map, Some, IfOk, All};
ghost use Rattle.tp_machine.specs.Limits.{most_act_holds};
ghost use Rattle.tp_bound_check.specs.Branches.{newest_in};
ghost use Rattle.tp_bound_check.specs.Founds.{IsBelow, IsTrack, found_in, track_of};
ghost use Rattle.tp_bound_check.specs.Keys.{start_key};
ghost use Rattle.tp_bound_check.specs.Links.{ends_of};
ghost use Rattle.tp_bound_check.specs.Points.{HasOffsets};
ghost use Rattle.tp_bound_check.specs.Stands.{AreOrders, IsPart, order_until};
ghost use Rattle.tp_constraints.specs.Suffixes.{order_in};
ghost use Rattle.tp_machine.specs.ModuleUse.{action_at};
ghost use Rattle.tp_schedule.specs.Choices.{Choice};
ghost use Rattle.tp_schedule.specs.Holders.{holds_of_act};
ghost use Rattle.tp_schedule.specs.Spots.{slot_order};
ghost use Rattle.tp_schedule.specs.Timetables.{IsOrdered};
ghost use Rattle.tp_bound_laws.specs.Places.{next_rule};

use crate::act_length::action_of;
use crate::branch::Branch;
use crate::found::{Ends, Found, Leg, Part, Track};
use crate::index::{StartKey, places_of, start_key};
use crate::links::Links;
use crate::points::{Point, Slot};
use crate::rows::Rows;
use crate::sheets::Sheets;
use std::alloc::Global;
use std::collections::HashMap;
use std::marker::Model;
use tp_base::Memory;
use tp_machine::{ActId, HoldRule, Machine, machine_law};

/// The order of a resource, with the places of its holds by the points where their actions start.
#[derive(Drop)]
pub(crate) struct Order {
    slots: Vec<Slot>,
    by_start: HashMap<StartKey, usize>,
}

impl Model for Order {
    ghost use Rattle.std.specs.Prelude.{List, ◌<◌, ◌^◌, vec_len};
    ghost use Rattle.std.specs.HashMap.{get};
    ghost use Rattle.tp_bound_check.specs.Keys.{AreByStart};
    ghost use Rattle.tp_schedule.specs.Spots as spots;

    ghost Value = { List spots.Slot };

    ghost view = { λ o. o.slots.items };

    ghost invariant = { λ o. (vec_len o.slots < 2 ^ 32) × AreByStart
        (get ⟦<StartKey as PartialEq>⟧.eq o.by_start) o.slots.items };
}

/// The points where the actions of the holds start.
fn start_keys(alloc: Global, slots: &[Slot]) -> Result<Vec<StartKey>, Memory>
    ensures { IfOk result (λ keys. keys.items ≡ map (λ s. start_key s.from) slots.now) }
{
    Ok(
        slots
            .iter()
            .map(|slot| start_key(slot.from))
            .collect(alloc)?,
    )
}

impl Order {
    /// An order of fewer than 2^32 holds. More would want more memory than there is.
    pub(crate) fn new(alloc: Global, slots: Vec<Slot>) -> Result<Order, Memory>
        ensures { IfOk result (λ order. order ≡ slots.items) }
    {
        let keys = start_keys(alloc, slots.as_slice())?;
        let by_start = places_of(alloc, keys.as_slice())?;
        if slots.len() < 1 << 32 {
            Ok(Order { slots, by_start })
        } else {
            Err(Memory)
        }
    }

    /// How many holds it has.
    pub(crate) fn len(&self) -> u64
        ensures len { result ≡ length self.now }
        ensures few { result < 2 ^ 32 }
    {
        self.slots.len() as u64
    }

    /// The hold of the action that starts at the point.
    pub(crate) fn found(&self, start: Point) -> Option<Found>
        ensures found { result ≡ found_in start self.now }
        ensures below { IsBelow (length self.now) result }
    {
        match self.by_start.get(&start_key(start)) {
            Some(at) => Some(Found {
                at: *at as u64,
                slot: self.slots[*at],
            }),
            None => None,
        }
    }
}

/// What a tree is checked against.
#[derive(Clone, Copy)]
pub(crate) struct CheckScene<'a> {
    pub(crate) rows: Rows<'a>,
    pub(crate) plans: &'a Sheets,
    pub(crate) orders: &'a [Order],
    pub(crate) ends: &'a Links,
    pub(crate) limit: i64,
    pub(crate) ghost ordered: { IsOrdered plans.now },
    pub(crate) ghost in_order: { AreOrders rows.machine.now plans.now orders.now },
    pub(crate) ghost ending: { ends.now.locations.items ≡ ends_of rows.machine.now },
}

/// The holds of the action.
pub(crate) fn holds_of(machine: &Machine, act: ActId) -> &[HoldRule]
    ensures holds { result.now ≡ holds_of_act (action_at machine.now act.0) }
    ensures offsets { All HasOffsets result.now }
    ensures few { length result.now ≤ most_act_holds }
{
    machine_law(machine);
    match action_of(machine, act) {
        Some(action) => action.holds.as_slice(),
        None => &[],
    }
}

/// The next rule of a branch is one of the machine's. The call does nothing.
pub(crate) fn rule_law(machine: &Machine, branch: &Branch, rule: HoldRule)
    requires next { next_rule machine.now branch.now.x ≡ Some rule }
    ensures offsets { HasOffsets rule }
    ensures known { rule.resource.0 < length machine.now.resources }
    ensures few { (c : Choice) → newest_in branch.now.x.choices ≡ Some c
        → length c.places < most_act_holds }
    ensures some { 0 < length branch.now.x.choices }
{
    machine_law(machine);
}

impl<'a> CheckScene<'a> {
    /// The kept order of a resource: its length, and where the holds of two actions stand in it.
    fn kept_track(&self, resource: u16, ends: &Ends) -> Track
        requires { resource < length self.now.rows.machine.now.resources }
        ensures order { result ≡ track_of ends.now.before ends.now.after
            (slot_order self.now.rows.machine.now self.now.plans.now resource) }
        ensures track { IsTrack result }
        ensures few { result.len < 2 ^ 32 }
    {
        let order = &self.orders[usize::from(resource)];
        Track {
            len: order.len(),
            before: order.found(ends.before),
            after: order.found(ends.after),
        }
    }

    /// The track of the order with the holds of more choices, up to so many.
    pub(crate) fn track_from(
        &self,
        branch: &Branch,
        resource: u16,
        ends: &Ends,
        part: Part,
        count: u32,
    ) -> Track
        requires count { count ≤ length branch.now.x.choices }
        requires more { part.count ≤ count }
        requires part { IsPart self.now.rows.machine.now self.now.plans.now branch.now resource
            ends.now part }
        ensures order { result ≡ track_of ends.now.before ends.now.after
            (order_until self.now.rows.machine.now self.now.plans.now branch.now resource count) }
        ensures track { IsTrack result }
        ensures few { result.len < 2 ^ 32 + 4 * count }
    {
        // For the prover: brings length choices ≤ 64.
        let _most = branch.count();
        let mut track = part.track;
        'choices: for at in part.count..count {
            let Some(act) = branch.act(at) else {
                unreachable!()
            };
            let leg = Leg {
                from: Point::own(at + 1),
                to: Point::own(at),
            };
            let rules = holds_of(self.rows.machine, act);
            track = track.put_places(ends, resource, &leg, rules, branch.places(at));
        }
        track
    }

    /// The track of the order with the holds of so many choices, the oldest first.
    pub(crate) fn part(&self, branch: &Branch, resource: u16, ends: &Ends, count: u32) -> Part
        requires known { resource < length self.now.rows.machine.now.resources }
        requires count { count ≤ length branch.now.x.choices }
        ensures part { IsPart self.now.rows.machine.now self.now.plans.now branch.now resource
            ends.now result }
        ensures count { result.count ≡ count }
    {
        let kept = Part {
            track: self.kept_track(resource, ends),
            count: 0,
        };
        Part {
            track: self.track_from(branch, resource, ends, kept, count),
            count,
        }
    }

    /// The track of the order with all holds of the branch.
    pub(crate) fn whole_track(
        &self,
        branch: &Branch,
        resource: u16,
        ends: &Ends,
        part: Part,
    ) -> Track
        requires count { part.count ≤ length branch.now.x.choices }
        requires part { IsPart self.now.rows.machine.now self.now.plans.now branch.now resource
            ends.now part }
        ensures order { result ≡ track_of ends.now.before ends.now.after
            (order_in self.now.rows.machine.now self.now.plans.now branch.now.x resource) }
        ensures track { IsTrack result }
        ensures few { result.len < 2 ^ 33 }
    {
        self.track_from(branch, resource, ends, part, branch.count())
    }

    /// How many holds an order has with all those of the branch.
    pub(crate) fn length(&self, branch: &Branch, resource: u16) -> u64
        requires { resource < length self.now.rows.machine.now.resources }
        ensures { result ≡ length (order_in self.now.rows.machine.now self.now.plans.now
            branch.now.x resource) }
    {
        let end = Point::own(0);
        let ends = Ends {
            before: end,
            after: end,
        };
        let part = self.part(branch, resource, &ends, branch.count());
        part.track.len
    }
}
