//! The event that is under way looked at, and the state as it was where something is wrong.

ghost use Rattle.std.specs.Prelude.{◌≡◌, ◌+◌, ℕ, IfOk, IfSome, OnErr, IsNone, MatchOption};
ghost use Rattle.tp_log_check.specs.Gathered.{ArePlain, IsSame};
ghost use Rattle.tp_log_check.specs.Causes.{IsDueOrStops, TellWholeTurn};
ghost use Rattle.tp_log_check.specs.EventEntry.{entry};
ghost use Rattle.tp_log_check.specs.Lawful.{AreInPlaces, HasNoTurn, LeadsTo};
ghost use Rattle.tp_log_laws.specs.AcceptedEntries.{IsAccepted};
ghost use Rattle.tp_event_rules.specs.LiveStates.{seen};
ghost use Rattle.tp_event_rules.specs.Ready.{CanTakeEvents, KeepsStock, last_copy};

use crate::Pending;
use crate::judgement::judge;
use std::alloc::Global;
use std::mem;
use tp_base::Memory;
use tp_event_rules::LiveState;
use tp_log_planner::{Told, WrongItem};
use tp_machine::Machine;

/// Does the turn of the event that is under way, and returns what is wrong with its records and trees. Where something is, or memory is
/// wanting, the state is as before.
pub(crate) fn look(
    alloc: Global,
    machine: &Machine,
    state: &mut LiveState,
    pending: &mut Pending,
) -> Result<Option<WrongItem>, Memory>
    requires can { CanTakeEvents machine.now last_copy (seen state.old) }
    requires stocked { KeepsStock machine.now last_copy (seen state.old) }
    ensures accepted { IfOk result (λ found. MatchOption found
        (IsAccepted machine.now (seen state.old)
        (entry pending.old.event pending.old.items.items) (seen state.new))
        (λ stop. seen state.new ≡ seen state.old)) }
    ensures only { IfOk result (λ found. MatchOption found
        (LeadsTo machine.now (seen state.old) pending.old.event pending.old.items.items
        (seen state.new))
        (λ stop. HasNoTurn machine.now (seen state.old) pending.old.event
        pending.old.items.items)) }
    ensures why { IfOk result (λ found. IfSome found (IsDueOrStops machine.now
        (seen state.old) pending.old.event pending.old.items.items)) }
    ensures places { IfOk result (λ found. IsNone found
        → ArePlain pending.old.items.items → AreInPlaces pending.old.items.items) }
    ensures kept { IfOk result (λ found. IsNone found → (copies : ℕ)
        → CanTakeEvents machine.now copies (seen state.old)
        → CanTakeEvents machine.now (copies + 1) (seen state.new)) }
    ensures stocked { IfOk result (λ found. IsNone found → (events : ℕ)
        → KeepsStock machine.now events (seen state.old)
        → KeepsStock machine.now (events + 1) (seen state.new)) }
    ensures memory { OnErr result (seen state.new ≡ seen state.old) }
    ensures same { IsSame pending.old pending.new }
{
    let before = state.remember(alloc)?;
    let items = mem::replace(&mut pending.items, Vec::new(alloc));
    let mut told = Told::new(alloc, items);
    match judge(alloc, machine, state, &pending.event, &mut told) {
        Ok(None) => {
            pending.items = told.give_back();
            Ok(None)
        }
        Ok(Some(stop)) => {
            pending.items = told.give_back();
            state.go_back(before);
            Ok(Some(stop))
        }
        Err(error) => {
            pending.items = told.give_back();
            state.go_back(before);
            Err(error)
        }
    }
}

/// Does the turn of the event that is under way by its records and trees so far, and returns what is wrong with them. The state is as before,
/// whatever the answer.
pub(crate) fn look_off(
    alloc: Global,
    machine: &Machine,
    state: &mut LiveState,
    pending: &mut Pending,
) -> Result<Option<WrongItem>, Memory>
    requires can { CanTakeEvents machine.now last_copy (seen state.old) }
    requires stocked { KeepsStock machine.now last_copy (seen state.old) }
    ensures why { IfOk result (λ found. IfSome found (IsDueOrStops machine.now
        (seen state.old) pending.old.event pending.old.items.items)) }
    ensures right { IfOk result (λ found. IsNone found → TellWholeTurn machine.now
        (seen state.old) pending.old.event pending.old.items.items) }
    ensures stays { seen state.new ≡ seen state.old }
    ensures same { IsSame pending.old pending.new }
{
    let before = state.remember(alloc)?;
    let items = mem::replace(&mut pending.items, Vec::new(alloc));
    let mut told = Told::new(alloc, items);
    let found = judge(alloc, machine, state, &pending.event, &mut told);
    pending.items = told.give_back();
    state.go_back(before);
    found
}
