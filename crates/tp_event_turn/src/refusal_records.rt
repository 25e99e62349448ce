//! The records of events that are refused.

ghost use Rattle.std.specs.Prelude.{◌≡◌, ◌++◌, ◌∷◌, [], IsSomeAnd, OnOk, IfErr};
ghost use Rattle.tp_release.specs.Refused.{clock_cause};
ghost use Rattle.tp_schedule.specs.declared.parts.Halt.TheVariants.{Memory as WantsMemory};
ghost use Rattle.tp_schedule.specs.declared.records.Record.TheVariants.{Refused};
ghost use Rattle.tp_event_rules.specs.Refusals.{job_cause};

use tp_jobs::JobFault;
use tp_release::AdvanceFault;
use tp_schedule::{Cause, Halt, Record};

/// Notes why an event is refused.
pub(crate) fn tell_refused(cause: Cause, notes: &mut Vec<Record>) -> Result<(), Halt>
    ensures told { OnOk result (notes.new.items ≡ notes.old.items ++ Refused cause ∷ []) }
    ensures memory { IfErr result (λ halt. halt ≡ WantsMemory) }
{
    match notes.push(Record::Refused { cause }) {
        Ok(()) => Ok(()),
        Err(_) => Err(Halt::Memory),
    }
}

/// Notes why a job is refused. Want of memory is no cause, and is passed on.
pub(crate) fn tell_job_refused(fault: JobFault, notes: &mut Vec<Record>) -> Result<(), Halt>
    ensures told { OnOk result (IsSomeAnd (job_cause fault)
        (λ cause. notes.new.items ≡ notes.old.items ++ Refused cause ∷ [])) }
    ensures memory { IfErr result (λ halt. halt ≡ WantsMemory) }
{
    let cause = match fault {
        JobFault::Memory => return Err(Halt::Memory),
        JobFault::UnknownTray(name) => Cause::Tray(name),
        JobFault::UnknownMedia(name) => Cause::Media(name),
        JobFault::TwiceNamed(name) => Cause::Named(name),
        JobFault::TooManyWaiting { .. } => Cause::Waiting,
    };
    tell_refused(cause, notes)
}

/// Notes why a move of the clock is refused. Want of memory is no cause, and is passed on.
pub(crate) fn tell_clock_refused(fault: AdvanceFault, notes: &mut Vec<Record>) -> Result<(), Halt>
    ensures told { OnOk result (IsSomeAnd (clock_cause fault)
        (λ cause. notes.new.items ≡ notes.old.items ++ Refused cause ∷ [])) }
    ensures memory { IfErr result (λ halt. halt ≡ WantsMemory) }
{
    let cause = match fault {
        AdvanceFault::Memory => return Err(Halt::Memory),
        AdvanceFault::ClockBack { now } => Cause::Back(now),
        AdvanceFault::ClockEnd => Cause::End,
    };
    tell_refused(cause, notes)
}
