//! Whether a schedule is legal, and where not, what clashes.
ghost use Rattle.std.specs.Prelude.{◌≡◌, ◌↔◌, All, AllPairs, IfOk, IfSome, IsNone, IsTrue, MatchOption, find};
ghost use Rattle.tp_schedule.specs.Legality.{IsLegal};
ghost use Rattle.tp_schedule.specs.Plans.{IsEarlier, IsTimedPlan};
ghost use Rattle.tp_schedule_check.specs.Clashes.{AreHoldsApart, IsClash, IsNotTimed, is_late};
ghost use Rattle.tp_schedule_check.specs.Holds.{AreClear, AreNeighbours, free_at, overlaps};

use crate::held::{NumberedHold, free_at, sorted_holds};
use crate::line_ends::{PlanEnd, line_pairs};
use crate::timed::is_timed_plan;
use std::alloc::Global;
use tp_base::{Memory, Tick};
use tp_machine::Machine;
use tp_schedule::{Hold, Schedule, SheetId};

/// What two points of a schedule, or one plan of it, break.
#[derive(Clone, Copy, PartialEq, Eq, Debug)]
pub enum Clash {
    /// The copy's plan is no timed plan.
    NotTimed {
        sheet: SheetId,
    },
    /// Two holds of one resource: the earlier one is over at `free`, with the gap behind it where the modes differ, and the
    /// later one begins at `begin`, before that.
    Overlap {
        earlier: Hold,
        later: Hold,
        free: i64,
        begin: i64,
    },
    /// Two copies of a tray's line: the later one in the order of copies does not end after the earlier one.
    OutOfLine {
        earlier: SheetId,
        later: SheetId,
        end: Tick,
        later_end: Tick,
    },
}

/// The first copy whose plan is no timed plan.
fn find_untimed(machine: &Machine, schedule: &Schedule) -> Option<SheetId>
    ensures { MatchOption result (All (IsTimedPlan machine.now) schedule.now.plans)
        (IsNotTimed machine.now schedule.now.plans) }
{
    'plans: for at in 0..schedule.len() {
        let plan = schedule.plan_at(at);
        if !is_timed_plan(machine, plan) {
            return Some(plan.sheet);
        }
    }
    None
}

fn do_overlap(machine: &Machine, one: &NumberedHold, other: &NumberedHold) -> bool
    ensures { result ≡ overlaps machine.now one.now other.now }
{
    let late = other.begin < free_at(machine, one, other);
    one.rule.resource == other.rule.resource && late
}

/// The first two neighbours that overlap.
fn find_overlap(machine: &Machine, holds: &[NumberedHold]) -> Option<(NumberedHold, NumberedHold)>
    ensures { MatchOption result (AreClear machine.now holds.now)
        (λ pair. AreNeighbours holds.now pair.0 pair.1
        × IsTrue (overlaps machine.now pair.0 pair.1)) }
{
    'holds: for at in 1..holds.len() {
        let one = holds[at - 1];
        let other = holds[at];
        if do_overlap(machine, &one, &other) {
            return Some((one, other));
        }
    }
    None
}

fn find_late(pairs: &[(PlanEnd, PlanEnd)]) -> Option<(PlanEnd, PlanEnd)>
    ensures { result ≡ find is_late pairs.now }
{
    pairs
        .iter()
        .copied()
        .find(|pair| pair.1.tick <= pair.0.tick)
}

fn overlap_of(machine: &Machine, one: &NumberedHold, other: &NumberedHold) -> Clash
    ensures { result ≡ Clash.Overlap one.now.hold other.now.hold
        (free_at machine.now one.now other.now) other.now.begin }
{
    Clash::Overlap {
        earlier: one.hold,
        later: other.hold,
        free: free_at(machine, one, other),
        begin: other.begin,
    }
}

/// What clashes in the lines of timed plans whose holds lie apart.
fn find_in_lines(
    alloc: Global,
    machine: &Machine,
    schedule: &Schedule,
) -> Result<Option<Clash>, Memory>
    requires in_order { AllPairs IsEarlier schedule.now.plans }
    requires timed { All (IsTimedPlan machine.now) schedule.now.plans }
    requires apart { AreHoldsApart machine.now schedule.now.plans }
    ensures legal { IfOk result (λ found. IsNone found
        ↔ IsLegal machine.now schedule.now.plans) }
    ensures clash { IfOk result (λ found. IfSome found (IsClash machine.now schedule.now.plans)) }
{
    let pairs = line_pairs(alloc, schedule)?;
    match find_late(pairs.as_slice()) {
        Some(pair) => Ok(Some(Clash::OutOfLine {
            earlier: pair.0.sheet,
            later: pair.1.sheet,
            end: pair.0.tick,
            later_end: pair.1.tick,
        })),
        None => Ok(None),
    }
}

/// What clashes between timed plans.
fn find_between(
    alloc: Global,
    machine: &Machine,
    schedule: &Schedule,
) -> Result<Option<Clash>, Memory>
    requires in_order { AllPairs IsEarlier schedule.now.plans }
    requires timed { All (IsTimedPlan machine.now) schedule.now.plans }
    ensures legal { IfOk result (λ found. IsNone found
        ↔ IsLegal machine.now schedule.now.plans) }
    ensures clash { IfOk result (λ found. IfSome found (IsClash machine.now schedule.now.plans)) }
{
    let holds = sorted_holds(alloc, machine, schedule)?;
    match find_overlap(machine, holds.as_slice()) {
        Some(pair) => Ok(Some(overlap_of(machine, &pair.0, &pair.1))),
        None => find_in_lines(alloc, machine, schedule),
    }
}

/// What clashes in the schedule, or None exactly where it is legal. The first plan that is no timed plan comes first, then
/// holds that overlap, then the lines of trays. Takes time in proportion to the holds and their sort.
pub fn find_clash(
    alloc: Global,
    machine: &Machine,
    schedule: &Schedule,
) -> Result<Option<Clash>, Memory>
    ensures legal { IfOk result (λ found. IsNone found
        ↔ IsLegal machine.now schedule.now.plans) }
    ensures clash { IfOk result (λ found. IfSome found (IsClash machine.now schedule.now.plans)) }
{
    schedule.ordered();
    match find_untimed(machine, schedule) {
        Some(sheet) => Ok(Some(Clash::NotTimed { sheet })),
        None => find_between(alloc, machine, schedule),
    }
}
