//! Whether the holds of a schedule stand in the orders of another one, and where not, where the orders part.
ghost use Rattle.std.specs.Prelude.{◌≡◌, ◌↔◌, IfOk, IsTrue, MatchOption, filter, not, slice_get};
ghost use Rattle.tp_schedule.specs.Legality.{IsLegal};
ghost use Rattle.tp_schedule_check.specs.Holds.{slot_of};
ghost use Rattle.tp_schedule_check.specs.OrderDifferences.{AreOrdersKept, IsCommon, IsFirstParting, IsParting, first_resource, hold_on, is_new_of};

use crate::held::{NumberedHold, sorted_holds};
use std::alloc::Global;
use tp_base::Memory;
use tp_machine::{Machine, ResId};
use tp_schedule::{Ask, Hold, Schedule};

/// Where the orders of a resource part: behind holds that are the same in both, the one order has `stood` and the other one
/// `stands`, of which one may be missing.
#[derive(Clone, Copy, PartialEq, Eq, Debug)]
pub struct Parting {
    pub resource: ResId,
    pub stood: Option<Hold>,
    pub stands: Option<Hold>,
}

/// Whether the hold is no new one of the asked copy.
fn is_old(asked: &Option<Ask>, held: &NumberedHold) -> bool
    ensures { result ≡ not (is_new_of asked.now (slot_of held.now)) }
{
    match asked {
        Some(ask) => held.hold.sheet != ask.sheet || held.hold.act <= ask.origin.kept(),
        None => true,
    }
}

fn is_same(one: &NumberedHold, other: &NumberedHold) -> bool
    ensures { IsTrue result ↔ (slot_of one.now ≡ slot_of other.now) }
{
    one.rule == other.rule && one.hold == other.hold && one.at == other.at
}

/// The hold, if there is one and it is on the resource.
fn hold_on(resource: ResId, held: Option<NumberedHold>) -> Option<Hold>
    ensures { result ≡ hold_on resource held }
{
    match held {
        Some(held) if held.rule.resource == resource => Some(held.hold),
        _ => None,
    }
}

/// The resource of the hold that comes first in the order of resources.
fn first_resource(stood: Option<NumberedHold>, stands: Option<NumberedHold>) -> Option<ResId>
    ensures { result ≡ first_resource stood stands }
{
    match (stood, stands) {
        (None, None) => None,
        (Some(held), None) | (None, Some(held)) => Some(held.rule.resource),
        (Some(one), Some(other)) => {
            if other.rule.resource.0 < one.rule.resource.0 {
                Some(other.rule.resource)
            } else {
                Some(one.rule.resource)
            }
        }
    }
}

/// How many holds both lists begin with.
fn count_common(before: &[NumberedHold], after: &[NumberedHold]) -> usize
    ensures { IsCommon before.now after.now result }
{
    let mut at = 0;
    'holds: while at < before.len() && at < after.len() {
        if !is_same(&before[at], &after[at]) {
            return at;
        }
        at += 1;
    }
    at
}

fn held_at(holds: &[NumberedHold], at: usize) -> Option<NumberedHold>
    ensures { result ≡ slice_get holds.now at }
{
    holds.get(at).copied()
}

/// Where sorted holds part.
fn first_parting(before: &[NumberedHold], after: &[NumberedHold]) -> Option<Parting>
    ensures { IsFirstParting before.now after.now result }
{
    let at = count_common(before, after);
    let stood = held_at(before, at);
    let stands = held_at(after, at);
    match first_resource(stood, stands) {
        Some(resource) => Some(Parting {
            resource,
            stood: hold_on(resource, stood),
            stands: hold_on(resource, stands),
        }),
        None => None,
    }
}

/// The holds without the new ones of the asked copy.
fn old_holds(
    alloc: Global,
    holds: &[NumberedHold],
    asked: &Option<Ask>,
) -> Result<Vec<NumberedHold>, Memory>
    ensures { IfOk result (λ old. old.items
        ≡ filter (λ h. not (is_new_of asked.entry.now (slot_of h))) holds.now) }
{
    let mut old = Vec::new(alloc);
    'holds: for at in 0..holds.len() {
        if is_old(asked, &holds[at]) {
            old.push(holds[at])?;
        }
    }
    Ok(old)
}

/// The first resource on which the holds of the second schedule, less the new ones of the asked copy, don't stand in the
/// order of the first; None exactly where they do on each. Takes time in proportion to the holds and their sort.
pub fn find_parting(
    alloc: Global,
    machine: &Machine,
    asked: Option<Ask>,
    before: &Schedule,
    after: &Schedule,
) -> Result<Option<Parting>, Memory>
    requires before { IsLegal machine.now before.now.plans }
    requires after { IsLegal machine.now after.now.plans }
    ensures { IfOk result (λ found. MatchOption found
        (AreOrdersKept machine.now asked before.now.plans after.now.plans)
        (IsParting machine.now asked before.now.plans after.now.plans)) }
{
    let stood = sorted_holds(alloc, machine, before)?;
    let stand = sorted_holds(alloc, machine, after)?;
    let old = old_holds(alloc, stand.as_slice(), &asked)?;
    Ok(first_parting(stood.as_slice(), old.as_slice()))
}
