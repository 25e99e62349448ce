//! Whether an event's records and trees are those of its turn.

ghost use Rattle.std.specs.Prelude.{◌≡◌, ◌↔◌, ◌+◌, ◌≤◌, ◌⊎◌, ℕ, [], IfOk, IfSome, IsNone, IsSome, MatchOption, Some, drop, length};
ghost use Rattle.tp_log_check.specs.Gathered.{ArePlain};
ghost use Rattle.tp_log_check.specs.Causes.{IsDueOrStops};
ghost use Rattle.tp_log_check.specs.EventEntry.{entry, trees_in};
ghost use Rattle.tp_log_check.specs.Lawful.{AreInPlaces, HasNoTurn, LeadsTo};
ghost use Rattle.tp_log_check.specs.FirstDifference.{IsOffAt, PartsAt, items_before};
ghost use Rattle.tp_log_laws.specs.AcceptedEntries.{IsAccepted};
ghost use Rattle.tp_run_laws.specs.Proved.{records_in};
ghost use Rattle.tp_event_rules.specs.LiveStates.{seen};
ghost use Rattle.tp_event_rules.specs.Ready.{CanTakeEvents, KeepsStock, last_copy};

use crate::first_difference::{find_parting, find_tree};
use std::alloc::Global;
use tp_base::Memory;
use tp_event_rules::LiveState;
use tp_event_turn::{take_event, turns_keep_stock};
use tp_log::Item;
use tp_log_laws::{lawful_turns_are_accepted, told_turns_are_whole};
use tp_log_planner::{Reason, Told, WrongItem};
use tp_machine::Machine;
use tp_schedule::{Halt, Record};
use tp_script::Event;

fn due(item: usize) -> WrongItem
    ensures item { result.item ≡ item }
    ensures reason { result.reason ≡ Reason.Due }
{
    WrongItem {
        item,
        reason: Reason::Due,
    }
}

/// What is wrong where the turn was done.
fn judge_done(notes: &[Record], items: &[Item], at: usize) -> Option<WrongItem>
    requires { at ≤ length items.now }
    ensures right { IsNone result
        ↔ ((notes.now ≡ records_in items.now) × (trees_in (drop at items.now) ≡ [])) }
    ensures due { IfSome result (λ stop. (stop.reason ≡ Reason.Due)
        × IsOffAt notes.now items.now at stop.item) }
{
    match find_parting(notes, items) {
        None => match find_tree(items, at) {
            None => None,
            Some(tree) => Some(due(tree)),
        },
        Some(item) => match find_tree(items, at) {
            None => Some(due(item)),
            Some(tree) => {
                if tree < item {
                    Some(due(tree))
                } else {
                    Some(due(item))
                }
            }
        },
    }
}

/// What is wrong where the turn stopped: a record before that is not the one that is due, or what the planner stopped for.
fn judge_stopped(notes: &[Record], told: &Told) -> Option<WrongItem>
    ensures some { 1 ≤ told.now.stops → IsSome result }
    ensures why { IfSome result (λ stop. ((stop.reason ≡ Reason.Due)
        × PartsAt notes.now (items_before told.now) stop.item)
        ⊎ ((told.now.stop ≡ Some stop) × (notes.now ≡ records_in (items_before told.now)))) }
{
    let next = told.next();
    match find_parting(notes, &told.items()[..next]) {
        Some(item) => Some(due(item)),
        None => told.stop(),
    }
}

/// Does the turn of the event with the answers that its items tell, and returns what is wrong: nothing exactly where a lawful log may tell
/// these items of it. After want of memory, or where something is
/// wrong, nothing is known of the state, but its lines keep their mark.
pub(crate) fn judge(
    alloc: Global,
    machine: &Machine,
    state: &mut LiveState,
    event: &Event,
    told: &mut Told,
) -> Result<Option<WrongItem>, Memory>
    requires can { CanTakeEvents machine.now last_copy (seen state.old) }
    requires stocked { KeepsStock machine.now last_copy (seen state.old) }
    requires begins { told.old.at ≡ 0 }
    ensures accepted { IfOk result (λ found. IsNone found
        → IsAccepted machine.now (seen state.old)
        (entry event.now told.old.items) (seen state.new)) }
    ensures only { IfOk result (λ found. MatchOption found
        (LeadsTo machine.now (seen state.old) event.now told.old.items (seen state.new))
        (λ stop. HasNoTurn machine.now (seen state.old) event.now told.old.items)) }
    ensures why { IfOk result (λ found. IfSome found
        (IsDueOrStops machine.now (seen state.old) event.now told.old.items)) }
    ensures places { IfOk result (λ found. IsNone found → ArePlain told.old.items
        → AreInPlaces told.old.items) }
    ensures kept { IfOk result (λ found. IsNone found → (copies : ℕ)
        → CanTakeEvents machine.now copies (seen state.old)
        → CanTakeEvents machine.now (copies + 1) (seen state.new)) }
    ensures stocked { IfOk result (λ found. IsNone found → (events : ℕ)
        → KeepsStock machine.now events (seen state.old)
        → KeepsStock machine.now (events + 1) (seen state.new)) }
    ensures items { told.new.items ≡ told.old.items }
    ensures marked { state.new.lines.kept ≡ state.old.lines.kept }
{
    lawful_turns_are_accepted();
    told_turns_are_whole::<Told>();
    turns_keep_stock::<Told>();
    let mut notes = Vec::new(alloc);
    match take_event(alloc, machine, state, told, event, &mut notes) {
        Ok(()) => Ok(judge_done(notes.as_slice(), told.items(), told.at())),
        Err(Halt::Stopped) => Ok(judge_stopped(notes.as_slice(), told)),
        Err(Halt::Memory) => Err(Memory),
    }
}
