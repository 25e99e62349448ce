//! The fall-back of a copy that cannot reach its tray in its turn.

ghost use Rattle.std.specs.Prelude.{◌≡◌, ◌+◌, ◌<◌, ◌≤◌, [], length, None, IsTrue, OnOk};
ghost use Rattle.tp_jobs.specs.Backlogs.{next_copy};
ghost use Rattle.tp_jobs.specs.WaitingCopies.{find_waiting};
ghost use Rattle.tp_event_rules.specs.FallBacks.{fall_back, fall_back_unless_broken, later_fall_back};
ghost use Rattle.tp_event_rules.specs.FallBacks.{next_waits};
ghost use Rattle.tp_event_rules.specs.LiveStates.{seen};
ghost use Rattle.tp_event_rules.specs.Seen.{HasNextCopy};
ghost use Rattle.tp_event_rules.specs.States.{for_each};
ghost use Rattle.tp_replan.specs.Meanings.{Leads};
ghost use Rattle.tp_replan.specs.Open.{CanFall, most_waiting};
ghost use Rattle.tp_replan.specs.Displacement.{CanAllFall, IsDisplaced};

use crate::copy_labels::{is_job_broken, label};
use crate::displaced::Displaced;
use crate::fate_effects::befall;
use crate::fate_records::tell_fates;
use crate::fate_rules::{fates_in_fall_back, is_line_entering};
use crate::job_break::break_job;
use std::alloc::Global;
use tp_base::Memory;
use tp_event_rules::LiveState;
use tp_schedule::{Record, SheetId};

/// The later copies of the line make way for the copy: an unstarted one is withdrawn, and one on its way is replaced.
fn make_way(
    alloc: Global,
    state: &mut LiveState,
    copy: SheetId,
    notes: &mut Vec<Record>,
) -> Result<(), Memory>
    requires copy { copy.job < length state.old.lines.jobs }
    requires can { CanFall (seen state.old) [] }
    ensures leads { OnOk result (Leads (later_fall_back copy (seen state.old))
        notes.old.items notes.new.items (seen state.new)) }
    ensures marked { state.new.lines.kept ≡ state.old.lines.kept }
{
    state.schedule.ordered();
    let fates = fates_in_fall_back(alloc, state, copy)?;
    tell_fates(state, fates.as_slice(), notes)?;
    befall(alloc, state, fates.as_slice())?;
    Ok(())
}

/// The next copy of the displaced one's sheet waits, if one is to.
fn wait_next(
    state: &mut LiveState,
    displaced: &Displaced,
    notes: &mut Vec<Record>,
) -> Result<(), Memory>
    requires known { displaced.now.sheet.job < length state.old.lines.jobs }
    requires next { HasNextCopy displaced.now.sheet }
    requires new_copy { IsTrue displaced.now.again
        → find_waiting (next_copy displaced.now.sheet) state.old.lines.waiting ≡ None }
    requires room { IsTrue displaced.now.again
        → length state.old.lines.waiting + 1 ≤ most_waiting }
    ensures leads { OnOk result (Leads (next_waits displaced.now (seen state.old))
        notes.old.items notes.new.items (seen state.new)) }
    ensures marked { state.new.lines.kept ≡ state.old.lines.kept }
{
    if displaced.again {
        let copy = state.lines.again(displaced.sheet, displaced.want)?;
        let sheet = label(&state.lines, copy);
        notes.push(Record::Again { sheet })?;
    }
    Ok(())
}

/// The fall-back of a displaced copy. The job breaks where a later copy of the line is entering; else the next copy of the sheet
/// waits, if one is to, and the later copies of the line make way.
///
/// After an error nothing is known of the state, so that the caller drops it, and notes may have come.
pub(crate) fn fall_back(
    alloc: Global,
    state: &mut LiveState,
    displaced: &Displaced,
    notes: &mut Vec<Record>,
) -> Result<(), Memory>
    requires { IsDisplaced (seen state.old) displaced.now }
    ensures leads { OnOk result (Leads (fall_back (seen state.old) displaced.now)
        notes.old.items notes.new.items (seen state.new)) }
    ensures marked { state.new.lines.kept ≡ state.old.lines.kept }
{
    let copy = displaced.sheet;
    if is_line_entering(state, copy) {
        break_job(alloc, state, copy.job, notes)?;
    } else {
        wait_next(state, displaced, notes)?;
        make_way(alloc, state, copy, notes)?;
    }
    Ok(())
}

/// Lets the displaced copy fall back, unless its job is broken.
fn fall_back_unless_broken(
    alloc: Global,
    state: &mut LiveState,
    displaced: &Displaced,
    notes: &mut Vec<Record>,
) -> Result<(), Memory>
    requires { IsDisplaced (seen state.old) displaced.now }
    ensures leads { OnOk result (Leads (fall_back_unless_broken (seen state.old) displaced.now)
        notes.old.items notes.new.items (seen state.new)) }
    ensures marked { state.new.lines.kept ≡ state.old.lines.kept }
{
    if !is_job_broken(&state.lines, displaced.sheet.job) {
        fall_back(alloc, state, displaced, notes)?;
    }
    Ok(())
}

/// The fall-back of each displaced copy, in their order, unless its job broke meanwhile.
///
/// After an error nothing is known of the state, so that the caller drops it, and notes may have come.
pub(crate) fn fall_back_all(
    alloc: Global,
    state: &mut LiveState,
    copies: &[Displaced],
    notes: &mut Vec<Record>,
) -> Result<(), Memory>
    requires { CanAllFall copies.now (seen state.old) }
    ensures leads { OnOk result
        (Leads (for_each fall_back_unless_broken copies.now (seen state.old))
        notes.old.items notes.new.items (seen state.new)) }
    ensures marked { state.new.lines.kept ≡ state.old.lines.kept }
{
    for at in 0..copies.len() {
        fall_back_unless_broken(alloc, state, &copies[at], notes)?;
    }
    Ok(())
}
