//! A log looked at to its end, or up to what is wrong with it.

ghost use Rattle.std.specs.Prelude.{◌≡◌, List, ℕ, [], Some, false, IfOk, IfErr, IfSome, IsErrOf, OnOk};
ghost use Rattle.tp_log.specs.declared.log_line.LogLine.{LogLine};
ghost use Rattle.tp_log_check.specs.CheckerState.{HasRead, IsAcceptedLog};
ghost use Rattle.tp_outside.specs.Outside.{IsCounted, Rises};
ghost use Rattle.tp_log_check.specs.Ends.{EndsFor, IsAcceptedFrom, IsFresh, IsTakenFrom, StopsFrom};
ghost use Rattle.tp_log_check.specs.declared.rejection.Rejection.{Rejection};

use crate::checked::Checked;
use crate::quiet::Quiet;
use crate::rejection::Rejection;
use crate::{Counts, Flaw, LogChecker};
use std::alloc::Global;
use tp_machine::Machine;
use tp_outside::Source;
use tp_stream::{Limits, Stop, stream};

/// The most bytes of a line, without its LF, and the most lines: each has a byte.
const LOG_LIMITS: Limits = Limits {
    bytes: 4_194_304,
    lines: 1_000_000_000_000_000_001,
};

/// Feeds the lines of the source to a checker, up to the first that is refused.
fn feed_all<S: Source>(
    alloc: Global,
    checked: &mut Checked,
    source: &mut S,
) -> Result<(), Rejection>
    requires fresh { IsFresh checked.old.checker }
    requires none { checked.old.bytes ≡ 0 }
    requires clear { checked.old.telling ≡ false }
    ensures taken { OnOk result (IsTakenFrom checked.old.checker.machine (S.left source.old)
        (S.left source.new) checked.new.checker) }
    ensures end { OnOk result (IfSome (S.left source.old) (λ _. S.left source.new ≡ Some [])) }
    ensures stops { IfErr result (StopsFrom checked.old.checker.machine (S.left source.old)
        (S.left source.new)) }
    ensures source { IsErrOf result Rejection.Source
        → Rises (S.faults source.old) (S.faults source.new) }
    ensures counted { IsCounted (S.faults source.old) (S.faults source.new) }
{
    match stream(alloc, checked, source, &mut Quiet, LOG_LIMITS) {
        Ok(()) => Ok(()),
        Err(Stop::Memory) => Err(Rejection::Memory),
        Err(Stop::Source) => Err(Rejection::Source),
        Err(Stop::Line(n)) => Err(Rejection::Line(n)),
        Err(Stop::Sink) => match checked.found {
            Some(cause) => Err(cause),
            // The counts were found.
            None => unreachable!(),
        },
        // No line is refused without a text, and each line has a byte.
        Err(Stop::Refused) => unreachable!(),
        Err(Stop::Lines) => unreachable!(),
    }
}

/// Ends the log of which the checker took all lines.
fn finish(checker: &mut LogChecker) -> Result<Counts, Rejection>
    ensures accepted { IfOk result (λ counts. (told : List LogLine)
        → HasRead checker.old told → IsAcceptedLog checker.old.machine told counts) }
    ensures ends { IfErr result (EndsFor checker.old) }
{
    match checker.finish() {
        Ok(counts) => Ok(counts),
        Err(Flaw::Memory) => Err(Rejection::Memory),
        Err(flaw) => Err(Rejection::Flaw(flaw)),
    }
}

/// Ends the log of which all lines were taken.
fn end(mut checked: Checked) -> Result<Counts, Rejection>
    ensures accepted { IfOk result (λ counts. (told : List LogLine)
        → HasRead checked.checker told → IsAcceptedLog checked.checker.machine told counts) }
    ensures ends { IfErr result (EndsFor checked.checker) }
{
    finish(&mut checked.checker)
}

/// Reads the source to its end and looks at its lines as those of a log of the machine with bounds, up to the first thing that is
/// wrong. For each line that is the source, then its length, then the length of the log, then what it tells. What a budget says
/// is taken on trust.
pub fn check_log<S: Source>(
    alloc: Global,
    machine: Machine,
    source: &mut S,
) -> Result<Counts, Rejection>
    ensures accepted { IfOk result (IsAcceptedFrom machine (S.left source.old)
        (S.left source.new)) }
    ensures end { OnOk result (IfSome (S.left source.old) (λ _. S.left source.new ≡ Some [])) }
    // Else the first lines were taken, up to the cause.
    ensures stops { IfErr result (StopsFrom machine (S.left source.old) (S.left source.new)) }
    ensures source { IsErrOf result Rejection.Source
        → Rises (S.faults source.old) (S.faults source.new) }
    ensures counted { IsCounted (S.faults source.old) (S.faults source.new) }
{
    let Ok(checker) = LogChecker::new(alloc, machine) else {
        return Err(Rejection::Memory);
    };
    let mut checked = Checked {
        checker,
        bytes: 0,
        found: None,
        telling: false,
    };
    match feed_all(alloc, &mut checked, source) {
        Ok(()) => end(checked),
        Err(cause) => Err(cause),
    }
}
