//! The line of an event or of a record.
ghost use Rattle.std.specs.Prelude.{◌≡◌, ◌≢◌, ◌+◌, ◌<◌, ◌^◌, ℕ, List, ◌∷◌, ◌++◌, length, MatchOption, OnOk, OnErr};
ghost use Rattle.tp_words.specs.Parts.{parts_at};
ghost use Rattle.tp_script.specs.EventReaders.{Gives};
ghost use Rattle.tp_log.specs.RecordReaders.{record_of};
ghost use Rattle.tp_log.specs.Grammar.{echo_text};
ghost use Rattle.tp_log.specs.LogLines.{ReadsPlain};

use crate::log_line::LogLine;
use crate::record_reader::read_record;
use std::alloc::Global;
use tp_base::Memory;
use tp_schedule::Record;
use tp_script::{Event, LineFault, print_event, read_printed};
use tp_words::{parts, without_newline};

/// Appends the echo of an event: a line of `> ` and the event as printed, with its LF. After `Memory`
/// the buffer is as before.
pub fn print_echo(event: &Event, out: &mut Vec<u8>) -> Result<(), Memory>
    ensures printed { OnOk result (out.new.items ≡ out.old.items ++ echo_text event.now) }
    ensures memory { OnErr result (out.new.items ≡ out.old.items) }
{
    let mut text = Vec::new(*out.allocator());
    text.extend_from_slice(b"> ")?;
    print_event(event, &mut text)?;
    text.push(b'\n')?;
    out.extend_from_slice(&text)?;
    Ok(())
}

/// What stands behind the mark of an echo.
fn echoed(text: &[u8]) -> Option<&[u8]>
    ensures { MatchOption result ((event : List ℕ) → text.now ≢ 62 ∷ 32 ∷ event)
        (λ event. text.now ≡ 62 ∷ 32 ∷ event.now) }
{
    match text {
        [b'>', b' ', event @ ..] => Some(event),
        _ => None,
    }
}

fn read_words(alloc: Global, text: &[u8]) -> Result<Record, LineFault>
    requires { length text.now + 1 < 2 ^ 32 }
    ensures { Gives result (record_of (parts_at 32 text.now)) }
{
    let words = parts(alloc, text, b' ')?;
    read_record(alloc, &words)
}

/// The event or record of one line, given with its LF. `Syntax` where it is none.
pub(crate) fn read_plain(alloc: Global, line: &[u8]) -> Result<LogLine, LineFault>
    requires { length line.now + 1 < 2 ^ 32 }
    ensures { ReadsPlain line.now result }
{
    let Some(text) = without_newline(line) else {
        return Err(LineFault::Syntax);
    };
    match echoed(text) {
        Some(event) => match read_printed(alloc, event) {
            Ok(event) => Ok(LogLine::Event(event)),
            Err(fault) => Err(fault),
        },
        None => match read_words(alloc, text) {
            Ok(rec) => Ok(LogLine::Note(rec)),
            Err(fault) => Err(fault),
        },
    }
}
