//! The tree that shows an answer.
ghost use Rattle.std.specs.Prelude.{◌≡◌, [], ◌∷◌, length, Some, IfErr, OnOk};
ghost use Rattle.tp_schedule.specs.Answers.{IsAsked};
ghost use Rattle.tp_schedule.specs.Legality.{IsLegal};
ghost use Rattle.tp_bound_laws.specs.Claims.{IsTold};
ghost use Rattle.tp_log_planner.specs.Failures.{Denies, failure_of, is_stop};
ghost use Rattle.tp_log_planner.specs.Reasons.{IfStop, IsFrom, IsTreeReason, reason_in};
ghost use Rattle.tp_log_planner.specs.DueTrees.{BeginsWithTree, IsTreeItem};

use crate::failure::{Failure, FoundReason, Reason};
use std::alloc::Global;
use tp_bound_check::check_bound;
use tp_bound_laws::{Claim, TreeFlaw, flawless_trees_are_bound};
use tp_log::Item;
use tp_machine::Machine;
use tp_schedule::{Ask, Schedule};

/// Why there is no answer where a tree has the flaw.
fn failure_of(flaw: TreeFlaw) -> Failure
    ensures { result ≡ failure_of flaw }
{
    match flaw {
        TreeFlaw::Memory => Failure::Memory,
        _ => Failure::Stop(FoundReason {
            left: 0,
            reason: Reason::Tree(flaw),
        }),
    }
}

/// The failure as one of the first of `left` items.
fn from(failure: Failure, left: usize) -> Failure
    ensures stops { is_stop result ≡ is_stop failure }
    ensures from { IfStop (IsFrom left (λ reason. Some reason ≡ reason_in failure)) result }
{
    match failure {
        Failure::Memory => Failure::Memory,
        Failure::Stop(found) => Failure::Stop(FoundReason {
            left,
            reason: found.reason,
        }),
    }
}

/// Looks at the tree that is due as this item.
fn check_item(
    alloc: Global,
    machine: &Machine,
    before: &Schedule,
    ask: &Ask,
    claim: Claim,
    item: &Item,
) -> Result<(), Failure>
    ensures shown { OnOk result (IsTreeItem machine.now before.now.plans ask.entry.now claim
        item.now) }
    ensures told { OnOk result (IsLegal machine.now before.now.plans
        → IsAsked machine.now before.now.plans ask.entry.now
        → IsTold machine.now before.now.plans ask.entry.now claim) }
    ensures refused { IfErr result (Denies (IsTreeItem machine.now before.now.plans ask.entry.now
        claim item.now)) }
    ensures why { IfErr result (IfStop (λ left. IsTreeReason machine.now before.now.plans
        ask.entry.now claim (item.now ∷ []))) }
{
    flawless_trees_are_bound();
    match item {
        Item::Tree(tree) => match check_bound(alloc, machine, before, ask, claim, tree) {
            Ok(()) => Ok(()),
            Err(flaw) => Err(failure_of(flaw)),
        },
        _ => Err(Failure::Stop(FoundReason {
            left: 0,
            reason: Reason::Due,
        })),
    }
}

/// Looks at the tree that is due as the first item.
pub(crate) fn take_tree(
    alloc: Global,
    machine: &Machine,
    before: &Schedule,
    ask: &Ask,
    claim: Claim,
    items: &[Item],
) -> Result<(), Failure>
    ensures shown { OnOk result (BeginsWithTree machine.now before.now.plans ask.entry.now claim
        items.now) }
    ensures told { OnOk result (IsLegal machine.now before.now.plans
        → IsAsked machine.now before.now.plans ask.entry.now
        → IsTold machine.now before.now.plans ask.entry.now claim) }
    ensures refused { IfErr result (Denies (BeginsWithTree machine.now before.now.plans
        ask.entry.now claim items.now)) }
    ensures why { IfErr result (IfStop (IsFrom (length items.now) (IsTreeReason machine.now
        before.now.plans ask.entry.now claim items.now))) }
{
    match items {
        [item, ..] => match check_item(alloc, machine, before, ask, claim, item) {
            Ok(()) => Ok(()),
            Err(failure) => Err(from(failure, items.len())),
        },
        [] => Err(Failure::Stop(FoundReason {
            left: 0,
            reason: Reason::Due,
        })),
    }
}
