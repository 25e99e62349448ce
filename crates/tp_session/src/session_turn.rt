//! The turn of one event, with its text.

ghost use Rattle.std.specs.Prelude.{◌≡◌, ◌+◌, ◌++◌, ℕ, List, [], OnOk, OnErr};
ghost use Rattle.tp_run_laws.specs.Wholes.{TellsTurn};
ghost use Rattle.tp_script.specs.Printed.{IsEchoed};
ghost use Rattle.tp_search.specs.Engines.{Serves};
ghost use Rattle.tp_session.specs.Kept.{KeepsSound};
ghost use Rattle.tp_event_rules.specs.LiveStates.{seen};
ghost use Rattle.tp_event_rules.specs.Ready.{CanTakeEvents, KeepsStock, last_copy};

use crate::laws::engines_answer_alone;
use crate::turn_text::{records_law, tell};
use crate::turns_keep_sound;
use std::alloc::Global;
use tp_base::{Memory, Network};
use tp_event_rules::LiveState;
use tp_event_turn::{take_event, turns_keep_stock};
use tp_machine::Machine;
use tp_run_laws::{live_turns_are_whole, shown_trees_have_lines, turns_have_lines};
use tp_script::Event;
use tp_search::Engine;

/// Takes the event, and appends the text of its turn. After `Memory` nothing is known of the state, but its lines keep their
/// mark, and the text is as before.
pub(crate) fn take_turn<N: Network>(
    alloc: Global,
    machine: &Machine,
    state: &mut LiveState,
    engine: &mut Engine<N>,
    event: &Event,
    text: &mut Vec<u8>,
) -> Result<(), Memory>
    requires serves { Serves N.reading engine.old machine.now }
    requires can { CanTakeEvents machine.now last_copy (seen state.old) }
    requires stocked { KeepsStock machine.now last_copy (seen state.old) }
    requires echoed { IsEchoed event.now }
    requires no_trees { engine.old.trees ≡ [] }
    ensures told { OnOk result ((told : List ℕ)
        × TellsTurn machine.now engine.old.work.nodes engine.old.bounds event.now
        (seen state.old) told (seen state.new)
        × (text.new.items ≡ text.old.items ++ told)) }
    ensures kept { OnOk result ((copies : ℕ) → CanTakeEvents machine.now copies (seen state.old)
        → CanTakeEvents machine.now (copies + 1) (seen state.new)) }
    ensures stocked { OnOk result ((events : ℕ) → KeepsStock machine.now events (seen state.old)
        → KeepsStock machine.now (events + 1) (seen state.new)) }
    ensures sound { OnOk result (KeepsSound machine.now (seen state.old)
        → KeepsSound machine.now (seen state.new)) }
    ensures text { OnErr result (text.new.items ≡ text.old.items) }
    ensures marked { state.new.lines.kept ≡ state.old.lines.kept }
    ensures nodes { engine.new.work.nodes ≡ engine.old.work.nodes }
    ensures bounds { engine.new.bounds ≡ engine.old.bounds }
    ensures serves { Serves N.reading engine.new machine.now }
{
    engines_answer_alone::<N>();
    live_turns_are_whole::<Engine<N>>();
    turns_have_lines::<Engine<N>>();
    shown_trees_have_lines::<Engine<N>>();
    turns_keep_stock::<Engine<N>>();
    turns_keep_sound::<Engine<N>>();
    let mut notes = Vec::new(alloc);
    match take_event(alloc, machine, state, engine, event, &mut notes) {
        Ok(()) => {
            records_law(notes.as_slice());
            tell(event, notes.as_slice(), engine.trees(), text)
        }
        Err(_) => Err(Memory),
    }
}
