//! The breaking of a job.

ghost use Rattle.std.specs.Prelude.{◌≡◌, ◌<◌, ◌++◌, ◌==◌, ◌∷◌, [], drop, length, map, filter, not};
ghost use Rattle.std.specs.Prelude.{All, AllPairs, IsSome, IfOk, OnOk, if◌then◌else◌};
ghost use Rattle.tp_jobs.specs.WaitingCopies.{find_waiting, without_waiting};
ghost use Rattle.tp_schedule.specs.declared.parts.Plan.{Plan};
ghost use Rattle.tp_schedule.specs.declared.records.Record.TheVariants.{Drop};
ghost use Rattle.tp_event_rules.specs.FallBacks.{job_break};
ghost use Rattle.tp_event_rules.specs.Fates.{Fate as Befalls};
ghost use Rattle.tp_event_rules.specs.Labels.{label};
ghost use Rattle.tp_event_rules.specs.Lines.{is_of_job};
ghost use Rattle.tp_event_rules.specs.LiveStates.{seen};
ghost use Rattle.tp_event_rules.specs.Seen.{HasNextCopy};
ghost use Rattle.tp_replan.specs.Meanings.{AreFates, IsKnown, Leads, StandsBefore};
ghost use Rattle.tp_replan.specs.Meanings.{is_copy_next, told_by_copy};
ghost use Rattle.tp_replan.specs.Open.{CanFall};

use crate::copy_labels::{job_name, label};
use crate::fate::Fate;
use crate::fate_effects::befall;
use crate::fate_records::tell_fate;
use crate::fate_rules::fates_in_break;
use std::alloc::Global;
use tp_base::Memory;
use tp_event_rules::LiveState;
use tp_jobs::{Blocked, Lines};
use tp_schedule::{Record, Schedule, SheetId, is_earlier};

/// Notes that a copy which waited is gone.
fn tell_drop(lines: &Lines, copy: SheetId, notes: &mut Vec<Record>) -> Result<(), Memory>
    requires { copy.job < length lines.now.jobs }
    ensures { OnOk result (notes.new.items
        ≡ notes.old.items ++ Drop (label lines.now.jobs copy) ∷ []) }
{
    let sheet = label(lines, copy);
    notes.push(Record::Drop { sheet })?;
    Ok(())
}

/// Whether the records of a copy which waited stand before those of the plan at the place.
fn is_copy_next(copies: &[SheetId], next: usize, schedule: &Schedule, at: u32) -> bool
    ensures { result ≡ is_copy_next (drop next copies.now) (drop at schedule.now.plans) }
{
    if next >= copies.len() {
        return false;
    }
    if at >= schedule.len() {
        return true;
    }
    !is_earlier(schedule.plan_at(at).sheet, copies[next])
}

/// Appends the records of the copies which waited, and of all plans, in the order of copies.
fn tell_by_copy(
    state: &LiveState,
    copies: &[SheetId],
    fates: &[Fate],
    notes: &mut Vec<Record>,
) -> Result<(), Memory>
    requires each { length fates.now ≡ length state.now.schedule.plans }
    requires known { All (IsKnown state.now.lines.jobs) state.now.schedule.plans }
    requires next { All (λ p. HasNextCopy p.sheet) state.now.schedule.plans }
    requires of_jobs { All (λ c. c.job < length state.now.lines.jobs) copies.now }
    requires in_order { AllPairs StandsBefore copies.now }
    ensures { OnOk result ((rule : Plan → Befalls)
        → AreFates rule state.now.schedule.plans fates.now
        → notes.new.items ≡ notes.old.items
        ++ told_by_copy state.now.lines.jobs state.now.moment
        rule copies.now state.now.schedule.plans) }
{
    state.schedule.ordered();
    let mut next = 0;
    let mut at = 0;
    for _turn in 0..copies.len() + state.schedule.len() as usize {
        if is_copy_next(copies, next, &state.schedule, at) {
            tell_drop(&state.lines, copies[next], notes)?;
            next += 1;
        } else {
            let fate = fates[at as usize];
            let plan = state.schedule.plan_at(at);
            tell_fate(&state.lines, state.moment, plan, fate, notes)?;
            at += 1;
        }
    }
    Ok(())
}

/// Takes the copy where it is of the job. It then waits no more.
fn take_one(
    lines: &mut Lines,
    job: u32,
    copy: SheetId,
    copies: &mut Vec<SheetId>,
) -> Result<(), Memory>
    requires { IsSome (find_waiting copy lines.old.waiting) }
    ensures copies { OnOk result (copies.new.items
        ≡ copies.old.items ++ (if copy.job == job then copy ∷ [] else [])) }
    ensures lines { OnOk result (lines.new ≡ record lines.old {
      waiting = if copy.job == job
          then without_waiting copy lines.old.waiting
          else lines.old.waiting;
    }) }
    ensures marked { lines.new.kept ≡ lines.old.kept }
{
    if copy.job == job {
        copies.push(copy)?;
        lines.taken(copy);
    }
    Ok(())
}

/// Takes the copies of the job that wait, in their order.
fn take_job(alloc: Global, lines: &mut Lines, job: u32) -> Result<Vec<SheetId>, Memory>
    ensures copies { IfOk result (λ copies.
        copies.items ≡ map (λ w. w.sheet) (filter (is_of_job job) lines.old.waiting)) }
    ensures lines { OnOk result (lines.new ≡ record lines.old {
      waiting = filter (λ w. not (is_of_job job w)) lines.old.waiting;
    }) }
    ensures marked { lines.new.kept ≡ lines.old.kept }
{
    lines.kept();
    let none = Blocked::none();
    let mut copies = Vec::new(alloc);
    let mut last = None;
    for _turn in 0..lines.waiting() {
        if let Some(copy) = lines.next_to_try(last, &none) {
            take_one(lines, job, copy, &mut copies)?;
            last = Some(copy);
        }
    }
    Ok(copies)
}

/// The job breaks: its copies that wait or are unstarted are gone, those on their way are to be purged, and those that are
/// entering are delivered.
///
/// After an error nothing is known of the state, so that the caller drops it, and notes may have come.
pub(crate) fn break_job(
    alloc: Global,
    state: &mut LiveState,
    job: u32,
    notes: &mut Vec<Record>,
) -> Result<(), Memory>
    requires job { job < length state.old.lines.jobs }
    requires can { CanFall (seen state.old) [] }
    ensures leads { OnOk result (Leads (job_break job (seen state.old))
        notes.old.items notes.new.items (seen state.new)) }
    ensures marked { state.new.lines.kept ≡ state.old.lines.kept }
{
    state.schedule.ordered();
    state.lines.kept();
    let name = job_name(&state.lines, job);
    let fates = fates_in_break(alloc, state, job)?;
    let copies = take_job(alloc, &mut state.lines, job)?;
    notes.push(Record::Broken { job: name })?;
    tell_by_copy(state, copies.as_slice(), fates.as_slice(), notes)?;
    befall(alloc, state, fates.as_slice())?;
    state.lines.break_job(job);
    Ok(())
}
