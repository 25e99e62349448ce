//! A log looked at line by line.

ghost use Rattle.std.specs.Prelude.{◌≡◌, ◌≢◌, ◌+◌, ◌<◌, ◌^◌, ◌++◌, ◌∷◌, [], List, Some, None, Err, false, OnOk, OnErr, IfOk, IfErr, IfSome, IsNone, IsSome, length};
ghost use Rattle.std.specs.Bool.{MatchBool};
ghost use Rattle.std.specs.List.{All};
ghost use Rattle.tp_log_check.specs.Heights.{heights};
ghost use Rattle.tp_log.specs.LogLines.{IsLogLine, is_event, log_line_text};
ghost use Rattle.tp_log.specs.declared.log_line.LogLine.{LogLine};
ghost use Rattle.tp_log.specs.declared.log_line.LogLine.TheVariants.{Event as EventLine};
ghost use Rattle.tp_log_check.specs.Causes.{HasCause, IsBehind, flaw_at};
ghost use Rattle.tp_log_check.specs.FlawLines.{IsOffOr, LiesAt, LiesBehind, LiesInLast};
ghost use Rattle.tp_log_check.specs.declared.flaw.Flaw.{Flaw};
ghost use Rattle.tp_log_check.specs.declared.flaw.Flaw.TheVariants.{Memory as WantsMemory};
ghost use Rattle.tp_script.specs.Printed.{IsEchoed};

use crate::event_check::{look, look_off};
use crate::flaw::Flaw;
use crate::flaw_lines::flaw_of;
use crate::{Counts, Pending};
use std::alloc::Global;
use std::marker::Model;
use tp_base::Memory;
use tp_event_rules::LiveState;
use tp_event_turn::empty_state_can_begin;
use tp_log::{LogLine, read_log_line};
use tp_log_planner::WrongItem;
use tp_machine::Machine;
use tp_script::{Event, LineFault};

/// Looks at a log with bounds line by line. It keeps the live part of the state after the events that were looked at, and the
/// records and trees of the last event so far. What a budget says is taken on trust.
pub struct LogChecker {
    alloc: Global,
    machine: Machine,
    state: LiveState,
    pending: Option<Pending>,
    events: u32,
    lines: u64,
    counts: Counts,
    flaw: Option<Flaw>,
}

// What becomes of its parts is proved here, once for all who let go of one.
impl Drop for LogChecker {
    fn drop(self) {
        let LogChecker {
            alloc: _,
            machine: _,
            state: _,
            pending: _,
            events: _,
            lines: _,
            counts: _,
            flaw: _,
        } = self;
    }
}

/// What is wrong with the records and trees of the event before a line that is off the grammar.
fn flaw_before(pending: &Pending, found: Option<WrongItem>) -> Option<Flaw>
    ensures known { IfSome result (λ flaw. flaw ≢ WantsMemory) }
    ensures is { IfSome result (λ flaw.
        pending.now.line + 1 + heights pending.now.items.items < 2 ^ 64
        → (stop : WrongItem) × (found ≡ Some stop)
        × (flaw ≡ flaw_at pending.now.line pending.now.items.items stop)) }
    ensures lies { IfSome result (λ flaw.
        pending.now.line + 1 + heights pending.now.items.items < 2 ^ 64
        → LiesBehind pending.now.line
        (pending.now.line + 1 + heights pending.now.items.items) flaw) }
    ensures behind { IsNone result → IfSome found (IsBehind pending.now.items.items) }
{
    match found {
        Some(stop) => {
            if stop.item < pending.items.len() {
                Some(flaw_of(&pending.items, pending.line, stop))
            } else {
                None
            }
        }
        None => None,
    }
}

impl Model for LogChecker {
    ghost use Rattle.std.specs.Prelude.{option_map};
    ghost use Rattle.tp_log_check.specs.CheckerState.{AreWithin, CanGoOn, CheckerValue, underway};
    ghost use Rattle.tp_event_rules.specs.LiveStates.{seen};

    ghost Value = { CheckerValue };

    ghost view = { λ c. record {
      machine = c.machine;
      state = seen c.state;
      under = option_map underway c.pending;
      events = c.events;
      lines = c.lines;
      counts = c.counts;
      flaw = c.flaw;
    } };

    ghost invariant = { λ c. CanGoOn c.machine (seen c.state) c.pending c.events
        × AreWithin c.lines c.counts };
}

impl LogChecker {
    ghost use Rattle.tp_log.specs.LogLines.{AreInOrder};
    ghost use Rattle.tp_log_check.specs.CheckerState.{HasRead, HasTaken, IsAcceptedLog, events_in, most_events};
    ghost use Rattle.tp_log_check.specs.Lawful.{EndEvent, IsLawfulLog};

    /// Before the first line of a log of the machine.
    pub fn new(alloc: Global, machine: Machine) -> Result<LogChecker, Memory>
        ensures read { IfOk result (λ c. HasRead c []) }
        ensures machine { IfOk result (λ c. c.machine ≡ machine) }
        ensures flawless { IfOk result (λ c. c.flaw ≡ None) }
        ensures none { IfOk result (λ c. c.events ≡ 0) }
    {
        empty_state_can_begin();
        Ok(LogChecker {
            alloc,
            machine,
            state: LiveState::new(alloc),
            pending: None,
            events: 0,
            lines: 0,
            counts: Counts::none(),
            flaw: None,
        })
    }

    /// How many lines of events were fed.
    pub fn events(&self) -> u32
        ensures { result ≡ self.now.events }
    {
        self.events
    }

    /// Ends the event that is under way. If its records or trees are wrong, the flaw is kept. After `Memory` all is as before.
    fn end_event(&mut self) -> Result<(), Flaw>
        ensures taken { OnOk result ((told : List LogLine) → HasTaken self.old told
            → HasTaken self.new told) }
        ensures refused { IfErr result (λ flaw. flaw ≢ WantsMemory → (told more : List LogLine)
            → HasTaken self.old told → EndEvent more
            → IsLawfulLog self.old.machine (told ++ more) → ⊥) }
        ensures lies { IfErr result (λ flaw. flaw ≢ WantsMemory → (told : List LogLine)
            → HasTaken self.old told → length told + 1 < 2 ^ 64 → LiesInLast told flaw) }
        ensures why { IfErr result (λ flaw. flaw ≢ WantsMemory → (told : List LogLine)
            → HasTaken self.old told → length told + 1 < 2 ^ 64 → HasCause self.old flaw) }
        ensures ended { OnOk result (self.new.under ≡ None) }
        ensures machine { self.new.machine ≡ self.old.machine }
        ensures events { self.new.events ≡ self.old.events }
        ensures lines { self.new.lines ≡ self.old.lines }
        ensures counts { self.new.counts ≡ self.old.counts }
        ensures flawless { OnOk result (self.new.flaw ≡ self.old.flaw) }
        ensures memory { IfErr result (λ flaw. flaw ≡ WantsMemory → self.new ≡ self.old) }
        ensures kept { IfErr result (λ flaw. flaw ≢ WantsMemory
            → self.new.flaw ≡ Some flaw) }
    {
        let Some(mut pending) = self.pending.take() else {
            return Ok(());
        };
        let Ok(ended) = pending.end() else {
            self.pending = Some(pending);
            return Err(Flaw::Memory);
        };
        match look(self.alloc, &self.machine, &mut self.state, &mut pending) {
            Ok(None) => Ok(()),
            Ok(Some(stop)) => {
                let flaw = flaw_of(&pending.items, pending.line, stop);
                self.flaw = Some(flaw);
                Err(flaw)
            }
            Err(_) => {
                pending.reopen(ended);
                self.pending = Some(pending);
                Err(Flaw::Memory)
            }
        }
    }

    /// Begins an event on this line, once the one that is under way is ended.
    fn begin(&mut self, line: u64, event: Event) -> Result<(), Flaw>
        requires few { self.old.events < most_events }
        requires echoed { IsEchoed event }
        ensures taken { OnOk result ((told : List LogLine) → HasTaken self.old told
            → line ≡ length told + 1 → HasTaken self.new (told ++ EventLine event ∷ [])) }
        ensures refused { IfErr result (λ flaw. flaw ≢ WantsMemory → (told more : List LogLine)
            → HasTaken self.old told
            → IsLawfulLog self.old.machine (told ++ EventLine event ∷ more) → ⊥) }
        ensures lies { IfErr result (λ flaw. flaw ≢ WantsMemory → (told : List LogLine)
            → HasTaken self.old told → line ≡ length told + 1 → LiesInLast told flaw) }
        ensures why { IfErr result (λ flaw. flaw ≢ WantsMemory → (told : List LogLine)
            → HasTaken self.old told → line ≡ length told + 1 → HasCause self.old flaw) }
        ensures begun { OnOk result (IsSome self.new.under) }
        ensures machine { self.new.machine ≡ self.old.machine }
        ensures events { OnOk result (self.new.events ≡ self.old.events + 1) }
        ensures lines { self.new.lines ≡ self.old.lines }
        ensures counts { self.new.counts ≡ self.old.counts }
        ensures flawless { OnOk result (self.new.flaw ≡ self.old.flaw) }
        ensures memory { IfErr result (λ flaw. flaw ≡ WantsMemory → self.new ≡ self.old) }
        ensures kept { IfErr result (λ flaw. flaw ≢ WantsMemory
            → self.new.flaw ≡ Some flaw) }
    {
        match self.end_event() {
            Ok(()) => {
                self.pending = Some(Pending::new(self.alloc, line, event));
                self.events += 1;
                Ok(())
            }
            Err(flaw) => Err(flaw),
        }
    }

    /// Notes that the line is off the grammar, or what is wrong before it. Or memory is wanting, and all is as before.
    fn end_off(&mut self, line: u64) -> Flaw
        ensures lies { result ≢ WantsMemory → (told : List LogLine) → HasTaken self.old told
            → length told + 1 < 2 ^ 64 → IsOffOr told line result }
        ensures why { result ≢ WantsMemory → (told : List LogLine) → HasTaken self.old told
            → length told + 1 < 2 ^ 64 → HasCause self.old result }
        ensures memory { result ≡ WantsMemory → self.new ≡ self.old }
        ensures machine { self.new.machine ≡ self.old.machine }
        ensures kept { result ≢ WantsMemory → self.new.flaw ≡ Some result }
    {
        let Some(mut pending) = self.pending.take() else {
            let flaw = Flaw::Text { line };
            self.flaw = Some(flaw);
            return flaw;
        };
        match look_off(self.alloc, &self.machine, &mut self.state, &mut pending) {
            Ok(found) => match flaw_before(&pending, found) {
                Some(flaw) => {
                    self.flaw = Some(flaw);
                    flaw
                }
                None => {
                    let flaw = Flaw::Text { line };
                    self.flaw = Some(flaw);
                    flaw
                }
            },
            Err(_) => {
                self.pending = Some(pending);
                Flaw::Memory
            }
        }
    }

    /// Adds a line to those of the event that is under way, or returns false if it may not stand there. After `Memory`
    /// all is as before.
    fn add(&mut self, told: LogLine) -> Result<bool, Memory>
        requires line { IsLogLine told }
        requires plain { is_event told ≡ false }
        ensures taken { IfOk result (λ stands. MatchBool stands ((before : List LogLine)
            → HasTaken self.old before → HasTaken self.new (before ++ told ∷ []))
            (self.new ≡ self.old)) }
        ensures refused { IfOk result (λ stands. MatchBool stands (Unit {0})
            ((before : List LogLine) → HasTaken self.old before
            → (self.old.under ≡ None → before ≡ [])
            → AreInOrder (before ++ told ∷ []) → ⊥)) }
        ensures begun { IfOk result (λ stands. MatchBool stands
            (IsSome self.new.under) (Unit {0})) }
        ensures memory { OnErr result (self.new ≡ self.old) }
        ensures machine { self.new.machine ≡ self.old.machine }
        ensures events { self.new.events ≡ self.old.events }
        ensures lines { self.new.lines ≡ self.old.lines }
        ensures counts { self.new.counts ≡ self.old.counts }
        ensures flawless { self.new.flaw ≡ self.old.flaw }
    {
        let Some(pending) = &mut self.pending else {
            return Ok(false);
        };
        pending.add(told)
    }

    /// Takes a line in the grammar.
    fn take(&mut self, line: u64, told: LogLine) -> Result<(), Flaw>
        requires few { self.old.events < most_events }
        requires line { IsLogLine told }
        ensures taken { OnOk result ((before : List LogLine) → HasTaken self.old before
            → line ≡ length before + 1 → HasTaken self.new (before ++ told ∷ [])) }
        ensures refused { IfErr result (λ flaw. flaw ≢ WantsMemory
            → (before more : List LogLine)
            → HasTaken self.old before → (self.old.under ≡ None → before ≡ [])
            → IsLawfulLog self.old.machine (before ++ told ∷ more) → ⊥) }
        ensures lies { IfErr result (λ flaw. flaw ≢ WantsMemory → (before : List LogLine)
            → HasTaken self.old before → (self.old.under ≡ None → before ≡ [])
            → line ≡ length before + 1 → All IsLogLine before → AreInOrder before
            → LiesAt before (log_line_text told) flaw) }
        ensures why { IfErr result (λ flaw. flaw ≢ WantsMemory → (before : List LogLine)
            → HasTaken self.old before → line ≡ length before + 1 → HasCause self.old flaw) }
        ensures begun { OnOk result (IsSome self.new.under) }
        ensures machine { self.new.machine ≡ self.old.machine }
        ensures events { OnOk result (self.new.events ≡ self.old.events + events_in told) }
        ensures lines { OnOk result (self.new.lines ≡ self.old.lines) }
        ensures counts { OnOk result (self.new.counts ≡ self.old.counts) }
        ensures flawless { OnOk result (self.new.flaw ≡ self.old.flaw) }
        ensures memory { IfErr result (λ flaw. flaw ≡ WantsMemory → self.new ≡ self.old) }
        ensures kept { IfErr result (λ flaw. flaw ≢ WantsMemory
            → self.new.flaw ≡ Some flaw) }
    {
        match told {
            LogLine::Event(event) => self.begin(line, event),
            other => match self.add(other) {
                Ok(true) => Ok(()),
                Ok(false) => Err(self.end_off(line)),
                Err(_) => Err(Flaw::Memory),
            },
        }
    }

    /// Takes the log's next line, given with its LF. An event is checked when the next event's line comes, or a line off the
    /// grammar. With a flaw other than `Memory` no lawful log begins with the lines so far. After `Memory` all is as before; after any other
    /// flaw each later call answers it again.
    pub fn feed(&mut self, line: &[u8]) -> Result<(), Flaw>
        requires few { self.old.events < most_events }
        requires short { length line.now + 1 < 2 ^ 32 }
        ensures read { OnOk result ((told : LogLine) × IsLogLine told
            × (line.now ≡ log_line_text told) ×
            ((before : List LogLine) → HasRead self.old before
            → HasRead self.new (before ++ told ∷ []))) }
        ensures events { OnOk result ((told : LogLine) × (line.now ≡ log_line_text told)
            × (self.new.events ≡ self.old.events + events_in told)) }
        ensures refused { IfErr result (λ flaw. flaw ≢ WantsMemory
            → (before more : List LogLine)
            → (told : LogLine) → HasRead self.old before → line.now ≡ log_line_text told
            → IsLawfulLog self.old.machine (before ++ told ∷ more) → ⊥) }
        ensures lies { IfErr result (λ flaw. flaw ≢ WantsMemory → (before : List LogLine)
            → HasRead self.old before → LiesAt before line.now flaw) }
        ensures why { IfErr result (λ flaw. flaw ≢ WantsMemory → (before : List LogLine)
            → HasRead self.old before → HasCause self.old flaw) }
        ensures machine { self.new.machine ≡ self.old.machine }
        ensures memory { IfErr result (λ flaw. flaw ≡ WantsMemory → self.new ≡ self.old) }
        ensures kept { IfErr result (λ flaw. flaw ≢ WantsMemory
            → self.new.flaw ≡ Some flaw) }
        ensures again { (flaw : Flaw) → self.old.flaw ≡ Some flaw → result ≡ Err flaw }
    {
        if let Some(flaw) = self.flaw {
            return Err(flaw);
        }
        // The line behind the last one has a number too.
        if self.lines == u64::MAX - 1 {
            return Err(Flaw::Memory);
        }
        let number = self.lines + 1;
        match read_log_line(self.alloc, line) {
            Err(LineFault::Memory) => Err(Flaw::Memory),
            Err(LineFault::Syntax) => Err(self.end_off(number)),
            Ok(told) => {
                let counts = self.counts.with(&told);
                match self.take(number, told) {
                    Ok(()) => {
                        self.lines = number;
                        self.counts = counts;
                        Ok(())
                    }
                    Err(flaw) => Err(flaw),
                }
            }
        }
    }

    /// Ends the log. With a flaw other than `Memory` it is no lawful one. After `Memory` all is as before; after any other flaw each later call answers it again.
    pub fn finish(&mut self) -> Result<Counts, Flaw>
        ensures lawful { IfOk result (λ counts. (told : List LogLine) → HasRead self.old told
            → IsAcceptedLog self.old.machine told counts) }
        ensures refused { IfErr result (λ flaw. flaw ≢ WantsMemory → (told : List LogLine)
            → HasRead self.old told → IsLawfulLog self.old.machine told → ⊥) }
        ensures lies { IfErr result (λ flaw. flaw ≢ WantsMemory → (told : List LogLine)
            → HasRead self.old told → LiesInLast told flaw) }
        ensures why { IfErr result (λ flaw. flaw ≢ WantsMemory → (told : List LogLine)
            → HasRead self.old told → HasCause self.old flaw) }
        ensures memory { IfErr result (λ flaw. flaw ≡ WantsMemory → self.new ≡ self.old) }
        ensures kept { IfErr result (λ flaw. flaw ≢ WantsMemory
            → self.new.flaw ≡ Some flaw) }
        ensures again { (flaw : Flaw) → self.old.flaw ≡ Some flaw → result ≡ Err flaw }
    {
        if let Some(flaw) = self.flaw {
            return Err(flaw);
        }
        match self.end_event() {
            Ok(()) => Ok(self.counts),
            Err(flaw) => Err(flaw),
        }
    }
}
