//! A checker to which lines are fed.

ghost use Rattle.std.specs.Prelude.{◌≡◌, ◌↔◌, ◌+◌, ◌∷◌, [], Some, true, IsTrue, if◌then◌else◌};
ghost use Rattle.tp_log_check.specs.Sizes.{IsPastSizes, begins_event, events_in};
ghost use Rattle.tp_log_check.specs.TakenLines.{Answers, LogState};

use crate::rejection::Rejection;
use crate::{Flaw, LogChecker};
use tp_stream::{LineTaker, Refusal};

/// The most bytes of a log.
const MOST_BYTES: u64 = 1_000_000_000_000_000_000;

/// The most lines of events.
const MOST_EVENTS: u64 = 1_000_000;

/// A checker to which the lines of a log are fed. A line that is refused has a text, and one that is taken has none: so lines are
/// fed up to the first text that is to be written.
#[derive(Drop)]
pub(crate) struct Checked {
    pub(crate) checker: LogChecker,
    /// Of the lines that were taken.
    pub(crate) bytes: u64,
    /// Why the last line is refused.
    pub(crate) found: Option<Rejection>,
    /// Whether that is still to be reported.
    pub(crate) telling: bool,
}

fn begins_event(line: &[u8]) -> bool
    ensures { result ≡ begins_event line.now }
{
    match line {
        [first, second, ..] => *first == b'>' && *second == b' ',
        _ => false,
    }
}

/// Whether a log is too long with this line, which has so many bytes with it, and so many lines of events before it.
fn is_past_sizes(bytes: u64, events: u32, line: &[u8]) -> bool
    ensures { IsTrue result ↔ IsPastSizes bytes (events + events_in line.now) }
{
    bytes > MOST_BYTES || u64::from(events) + u64::from(begins_event(line)) > MOST_EVENTS
}

impl Checked {
    fn refuse(&mut self, cause: Rejection)
        ensures { self.new ≡ record self.old { found = Some cause; telling = true } }
    {
        self.found = Some(cause);
        self.telling = true;
    }
}

impl LineTaker for Checked {
    ghost State = { LogState };

    ghost state = { λ s. record { checker = s.checker; bytes = s.bytes; found = s.found } };

    ghost text = { λ s. if s.telling then 33 ∷ [] else [] };

    ghost room = { λ s. 1000000000000000001 };

    ghost answers = { Answers };

    ghost refuses = { λ s line. ⊥ };

    fn take_line(&mut self, line: &[u8]) -> Result<(), Refusal> {
        let bytes = self.bytes.saturating_add(line.len() as u64);
        if is_past_sizes(bytes, self.checker.events(), line) {
            self.refuse(Rejection::Log);
            return Ok(());
        }
        match self.checker.feed(line) {
            Ok(()) => {
                self.bytes = bytes;
                Ok(())
            }
            Err(Flaw::Memory) => Err(Refusal::Memory),
            Err(flaw) => {
                self.refuse(Rejection::Flaw(flaw));
                Ok(())
            }
        }
    }

    fn text(&self) -> &[u8] {
        if self.telling { b"!" } else { b"" }
    }

    fn clear_text(&mut self) {
        self.telling = false;
    }
}
