//! A case answered by a session with bounds, and its log read back and counted.

ghost use Rattle.std.specs.Prelude.{◌≡◌, ℕ, ◌+◌, ◌≤◌, true, [], List, All, Option, length, unwrap_or, IfOk, OnOk};
ghost use Rattle.tp_log.specs.Logs.{IsLog, log_text};
ghost use Rattle.tp_log.specs.declared.item.Item.{Item};
ghost use Rattle.tp_machine.specs.declared.machine.Machine.{Machine};
ghost use Rattle.tp_script.specs.Printed.{IsEchoed};
ghost use Rattle.tp_session.specs.Sessions.{Tells, start_of};
ghost use Rattle.tp_soak.specs.SoakCounts.{counts_of};
ghost use Rattle.tp_soak.specs.Summaries.{IsAtStart, IsCountedRun, IsLogText, IsSummary};
ghost use Rattle.tp_stream.specs.Tellers.{TellsAll, most_events};

use crate::record_counts::RecordCounts;
use crate::summary::put_summary;
use crate::{Case, soak_case};
use std::alloc::Global;
use tp_base::Memory;
use tp_log::read_log_line;
use tp_machine::Machine;
use tp_script::{Event, LineFault};
use tp_session::{Session, Settings, sessions_are_lawful};
use tp_words::first_line;

/// The most bytes of a line that is read.
const LINE_BYTES: usize = 4_294_967_294;

/// Answers the events in turn. The session keeps the text of all.
fn answer_all(session: &mut Session, events: &[Event]) -> Result<(), Memory>
    requires few { session.old.answered + length events.now ≤ most_events }
    requires clear { session.old.text ≡ [] }
    requires echoed { All IsEchoed events.now }
    ensures { OnOk result (TellsAll Tells session.old.standing events.now session.new.text
        session.new.standing) }
{
    for event in events {
        session.event(event)?;
    }
    Ok(())
}

/// Reads the text of a log line by line, and counts what it tells. A line of 4 GB or more counts as want of memory.
fn count_text(alloc: Global, text: &[u8]) -> Result<RecordCounts, Memory>
    requires { IsLogText text.now }
    ensures { (items : List Item) → IsLog items → text.now ≡ log_text items
        → IfOk result (λ counts. counts ≡ counts_of items) }
{
    let mut counts = RecordCounts::none();
    let mut rest = text;
    'lines: while !rest.is_empty() {
        let (line, more) = first_line(rest);
        if line.len() > LINE_BYTES {
            return Err(Memory);
        }
        match read_log_line(alloc, line) {
            Ok(told) => counts = counts.with(&told),
            Err(LineFault::Memory) => return Err(Memory),
            // No line of a log is off the grammar.
            Err(LineFault::Syntax) => unreachable!(),
        }
        rest = more;
    }
    Ok(counts)
}

/// Answers the events by a session at its start, and counts what its log tells.
fn count_log(alloc: Global, session: &mut Session, events: &[Event]) -> Result<RecordCounts, Memory>
    requires few { session.old.answered + length events.now ≤ most_events }
    requires clear { session.old.text ≡ [] }
    requires echoed { All IsEchoed events.now }
    requires begins { IsAtStart session.old.standing }
    ensures { (machine : Machine) (budget : Option ℕ)
        → session.old.standing ≡ start_of machine budget true
        → IfOk result (IsCountedRun machine (unwrap_or budget machine.budget) events.now) }
{
    sessions_are_lawful();
    answer_all(session, events)?;
    count_text(alloc, session.text())
}

/// Answers the events on the machine, with bounds, and counts what the log tells.
fn count_run(
    alloc: Global,
    machine: Machine,
    budget: Option<u32>,
    events: &[Event],
) -> Result<RecordCounts, Memory>
    requires few { length events.now ≤ most_events }
    requires echoed { All IsEchoed events.now }
    ensures { IfOk result (IsCountedRun machine (unwrap_or budget machine.budget) events.now) }
{
    let settings = Settings {
        budget,
        bounds: true,
    };
    match Session::new(alloc, machine, settings) {
        Ok(mut session) => {
            let counts = count_log(alloc, &mut session, events);
            drop(session);
            counts
        }
        Err(error) => Err(error),
    }
}

/// Answers the events of the case on its machine, and counts what the log tells.
fn count_case(alloc: Global, case: Case, budget: Option<u32>) -> Result<RecordCounts, Memory>
    requires few { length case.events.items ≤ most_events }
    requires echoed { All IsEchoed case.events.items }
    ensures { IfOk result (IsCountedRun case.machine (unwrap_or budget case.machine.budget)
        case.events.items) }
{
    let Case { machine, events } = case;
    count_run(alloc, machine, budget, &events)
}

/// Makes the case of a number, answers its events on its machine, with bounds and by this budget or else the machine's, and
/// gives the line, with its LF, of what its log tells. The counts come from reading the log's text line by line.
pub fn soak(alloc: Global, arg: u32, budget: Option<u32>) -> Result<Vec<u8>, Memory>
    ensures { IfOk result (λ line. IsSummary arg budget line.items) }
{
    let case = soak_case(alloc, arg)?;
    let counts = count_case(alloc, case, budget)?;
    let mut line = Vec::new(alloc);
    put_summary(&mut line, arg, &counts)?;
    Ok(line)
}
