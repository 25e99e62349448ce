//! The events of a script, taken one after another by a planner.
ghost use Rattle.std.specs.Prelude.{◌+◌, ◌≤◌, IfOk, OnOk};
ghost use Rattle.tp_script.specs.Printed.{IsEchoed};
ghost use Rattle.tp_event_rules.specs.LiveStates.{seen};
ghost use Rattle.tp_event_rules.specs.Ready.{CanTakeEvents, KeepsStock};

use std::alloc::Global;
use std::test::Fail;
use tp_event_rules::LiveState;
use tp_event_turn::{empty_state_can_begin, take_event, turns_keep_stock};
use tp_machine::Machine;
use tp_schedule::Planner;
use tp_script::{Event, LineFault, read_printed};
use tp_words::{first_line, without_newline};

/// The longest line and the most lines of a row's script.
const MOST_BYTES: usize = 4096;

const MOST_LINES: u32 = 1000;

fn event_of(alloc: Global, line: &[u8]) -> Result<Event, Fail>
    ensures { IfOk result IsEchoed }
{
    let Some(words) = without_newline(line) else {
        return Err(Fail::from("a line without its end"));
    };
    if words.len() > MOST_BYTES {
        return Err(Fail::from("a longer line than a row has"));
    }
    match read_printed(alloc, words) {
        Ok(event) => Ok(event),
        Err(LineFault::Syntax) => Ok(Event::Bad),
        Err(LineFault::Memory) => Err(Fail::from("memory")),
    }
}

/// Takes the event of a line, behind so many lines.
fn take_line<P: Planner>(
    alloc: Global,
    machine: &Machine,
    state: &mut LiveState,
    planner: &mut P,
    line: &[u8],
    taken: u32,
) -> Result<(), Fail>
    requires served { P.serves planner.old machine.now }
    requires can { CanTakeEvents machine.now taken (seen state.old) }
    requires stocked { KeepsStock machine.now taken (seen state.old) }
    requires few { taken ≤ 1000 }
    ensures served { OnOk result (P.serves planner.new machine.now) }
    ensures can { OnOk result (CanTakeEvents machine.now (taken + 1) (seen state.new)) }
    ensures stocked { OnOk result (KeepsStock machine.now (taken + 1) (seen state.new)) }
{
    turns_keep_stock::<P>();
    let event = event_of(alloc, line)?;
    let mut notes = Vec::new(alloc);
    match take_event(alloc, machine, state, planner, &event, &mut notes) {
        Ok(()) => Ok(()),
        Err(_) => Err(Fail::from("memory")),
    }
}

/// Takes the events of a script, one after another.
pub(crate) fn take_script<P: Planner>(
    alloc: Global,
    machine: &Machine,
    planner: &mut P,
    script: &[u8],
) -> Result<(), Fail>
    requires { P.serves planner.old machine.now }
{
    empty_state_can_begin();
    let mut state = LiveState::new(alloc);
    let mut rest = script;
    let mut taken = 0;
    'lines: while !rest.is_empty() {
        if taken == MOST_LINES {
            return Err(Fail::from("more lines than a row has"));
        }
        let (line, more) = first_line(rest);
        take_line(alloc, machine, &mut state, planner, line, taken)?;
        taken += 1;
        rest = more;
    }
    Ok(())
}
