//! A script answered line by line.

ghost use Rattle.std.specs.Prelude.{◌≡◌, ◌+◌, ◌<◌, ◌≤◌, ◌^◌, ◌-◌, ℕ, [], length, OnOk, IfOk, IfErr, IsErrOf};
ghost use Rattle.tp_outside.specs.Outside.{Rises, IsCounted};
ghost use Rattle.tp_stream.specs.Scripts.{AnswersLine, IsStopped, IsTaken, ReadsEvent};
ghost use Rattle.tp_stream.specs.Takes.{IsAtEnd};
ghost use Rattle.tp_stream.specs.declared.stop.Stop.{Stop};
ghost use Rattle.tp_stream.specs.Tellers.{most_events};

use crate::Teller;
use crate::input_loop::stream;
use crate::limits::Limits;
use crate::stop::{Refusal, Stop};
use crate::taker::LineTaker;
use std::alloc::Global;
use tp_base::Memory;
use tp_outside::{Sink, Source};
use tp_script::{Event, LineFault, read_line};

/// How long a script may be: a line has at most 4,096 bytes without its LF, and there are at most 1,000,000.
pub const SCRIPT_LIMITS: Limits = Limits {
    bytes: 4096,
    lines: 1_000_000,
};

/// The event of a line, `Bad` off the grammar. None for a blank line or a comment.
fn read_event_of(alloc: Global, line: &[u8]) -> Result<Option<Event>, Memory>
    requires { length line.now + 1 < 2 ^ 32 }
    ensures { IfOk result (ReadsEvent line.now) }
{
    match read_line(alloc, line) {
        Ok(Some(event)) => Ok(Some(event)),
        Ok(None) => Ok(None),
        Err(LineFault::Syntax) => Ok(Some(Event::Bad)),
        Err(LineFault::Memory) => Err(Memory),
    }
}

/// A teller of events that answers the lines of a script.
#[derive(Drop)]
struct Scripted<T: Teller> {
    alloc: Global,
    teller: T,
}

impl<T: Teller> LineTaker for Scripted<T> {
    ghost State = { T.State };

    ghost state = { λ s. T.state s.teller };

    ghost text = { λ s. T.text s.teller };

    ghost room = { λ s. most_events - T.answered s.teller };

    ghost answers = { AnswersLine T.tells };

    ghost refuses = { λ s line. ⊥ };

    fn take_line(&mut self, line: &[u8]) -> Result<(), Refusal> {
        match read_event_of(self.alloc, line) {
            Ok(Some(event)) => match self.teller.event(&event) {
                Ok(()) => Ok(()),
                Err(_) => Err(Refusal::Memory),
            },
            Ok(None) => Ok(()),
            Err(_) => Err(Refusal::Memory),
        }
    }

    fn text(&self) -> &[u8] {
        self.teller.text()
    }

    fn clear_text(&mut self) {
        self.teller.clear_text();
    }
}

/// Answers the events of a script, and writes each answer before the next line is handled. Lines have at most 4,096 bytes
/// without their LF, and there are at most 1,000,000; blank lines and comments are passed over. Gives the teller back as the last
/// event left it.
pub fn answer_script<T: Teller + Drop, S: Source, K: Sink>(
    alloc: Global,
    teller: T,
    source: &mut S,
    sink: &mut K,
) -> Result<T, Stop>
    requires fresh { T.answered teller ≡ 0 }
    requires clear { T.text teller ≡ [] }
    // The script is answered whole, and the source was read to its end.
    ensures all { IfOk result (λ t. IsTaken T.tells (T.state teller) (S.left source.old)
        (K.taken sink.old) (T.state t) (S.left source.new) (K.taken sink.new)) }
    ensures end { OnOk result (IsAtEnd (S.left source.old) (S.left source.new)) }
    // Else its first lines are answered, up to the cause.
    ensures stops { IfErr result (λ stop. IsStopped T.tells (T.state teller) (S.left source.old)
        (K.taken sink.old) stop (S.left source.new) (K.taken sink.new)) }
    ensures source { IsErrOf result Stop.Source
        → Rises (S.faults source.old) (S.faults source.new) }
    ensures sink { IsErrOf result Stop.Sink → Rises (K.faults sink.old) (K.faults sink.new) }
    ensures source_counted { IsCounted (S.faults source.old) (S.faults source.new) }
    ensures sink_counted { IsCounted (K.faults sink.old) (K.faults sink.new) }
{
    let mut scripted = Scripted { alloc, teller };
    match stream(alloc, &mut scripted, source, sink, SCRIPT_LIMITS) {
        Ok(()) => Ok(scripted.teller),
        Err(stop) => Err(stop),
    }
}
