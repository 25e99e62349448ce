//! Schedules on DUO that are looked at as a whole: legal, within their bounds and least, or not.
ghost use Rattle.std.specs.Prelude.{◌≡◌, length, None};
ghost use Rattle.tp_schedule.specs.Answers.{KeepsFloors};
ghost use Rattle.tp_schedule.specs.Legality.{IsLegal};
ghost use Rattle.tp_schedule_check.specs.Early.{is_exempt};

use crate::machines::{DUO, machine_of};
use crate::schedules::{FIRST, SECOND, pair_on_duo, plan_of, sheet_of};
use std::alloc::Global;
use std::process::Abort;
use std::test::Fail;
use tp_base::Tick;
use tp_machine::{Machine, ResId, Want};
use tp_schedule::{Hold, Schedule};
use tp_schedule_check::{
    Clash, Early, Misfit, Parting, PlanPoint, find_below_floor, find_clash, find_early,
    find_misfit, find_parting, find_past_horizon, is_timed_plan,
};

/// The verdict on a schedule: what clashes, or else what breaks floor or horizon at 0, or else what could stand earlier.
#[derive(Clone, Copy, PartialEq, Eq)]
enum FirstFault {
    Clash(Clash),
    Bound(PlanPoint),
    Early(Option<Early>),
}

fn told_of_bounded(
    alloc: Global,
    machine: &Machine,
    schedule: &Schedule,
) -> Result<FirstFault, Fail>
    requires legal { IsLegal machine.now schedule.now.plans }
    requires floors { KeepsFloors machine.now 0 (is_exempt None) schedule.now.plans }
{
    match find_past_horizon(machine, 0, schedule) {
        Some(point) => Ok(FirstFault::Bound(point)),
        None => Ok(FirstFault::Early(find_early(alloc, machine, 0, None, schedule)?)),
    }
}

fn told_of_legal(alloc: Global, machine: &Machine, schedule: &Schedule) -> Result<FirstFault, Fail>
    requires { IsLegal machine.now schedule.now.plans }
{
    match find_below_floor(machine, 0, None, schedule) {
        Some(point) => Ok(FirstFault::Bound(point)),
        None => told_of_bounded(alloc, machine, schedule),
    }
}

fn told_of(alloc: Global, machine: &Machine, schedule: &Schedule) -> Result<FirstFault, Fail> {
    let found = find_clash(alloc, machine, schedule)?;
    match found {
        Some(clash) => Ok(FirstFault::Clash(clash)),
        None => told_of_legal(alloc, machine, schedule),
    }
}

/// What prints the second sheet, the points of its plan, and the verdict.
type DecidingRow = (u16, (Tick, Tick, Tick, Tick), FirstFault);

fn overlap(act: u32, free: i64, begin: i64) -> FirstFault {
    FirstFault::Clash(Clash::Overlap {
        earlier: Hold { sheet: SECOND, act },
        later: Hold { sheet: FIRST, act },
        free,
        begin,
    })
}

fn point_of_second(at: u32, tick: Tick) -> FirstFault {
    FirstFault::Bound(PlanPoint {
        sheet: SECOND,
        at,
        tick,
    })
}

fn rows() -> [DecidingRow; 7] {
    let early = Early {
        sheet: SECOND,
        at: 2,
        given: 15,
        earlier: 14,
    };
    let line = Clash::OutOfLine {
        earlier: FIRST,
        later: SECOND,
        end: 16,
        later_end: 14,
    };
    let slow = Clash::NotTimed { sheet: SECOND };
    [
        (1, (3, 5, 14, 17), FirstFault::Early(None)),
        (1, (3, 5, 15, 18), FirstFault::Early(Some(early))),
        // The first engine takes at least 9 ticks.
        (1, (3, 5, 13, 17), FirstFault::Clash(slow)),
        // The second engine has both sheets.
        (2, (3, 5, 11, 17), overlap(2, 11, 7)),
        // The second sheet comes first.
        (1, (0, 2, 11, 14), FirstFault::Clash(line)),
        // A start below now + lead is too early, and an end past now + window too late.
        (1, (2, 4, 13, 17), point_of_second(0, 2)),
        (1, (180, 182, 191, 201), point_of_second(3, 201)),
    ]
}

fn rows_are_told(rt: &impl Abort, alloc: Global, machine: &Machine) -> Result<(), Fail> {
    for (print, at, told) in rows() {
        let schedule = pair_on_duo(alloc, &[0, print, 3], &[at.0, at.1, at.2, at.3])?;
        let found = told_of(alloc, machine, &schedule)?;
        assert!(rt; found == told);
    }
    Ok(())
}

/// Whether a plan of a sheet by print2 is timed at these points.
fn is_timed(machine: &Machine, points: &[Tick]) -> Result<bool, Fail>
    requires { length points.now ≡ 4 }
{
    let want = sheet_of(Want::Mono, Want::Blank)?;
    let plan = plan_of(FIRST, want, 3, &[0, 2, 3], points)?;
    Ok(is_timed_plan(machine, &plan))
}

/// The first action of a sheet by print2 that does not last within its durations.
fn misfit_at(machine: &Machine, points: &[Tick]) -> Result<Option<Misfit>, Fail>
    requires { length points.now ≡ 4 }
{
    let want = sheet_of(Want::Mono, Want::Blank)?;
    let plan = plan_of(FIRST, want, 3, &[0, 2, 3], points)?;
    Ok(find_misfit(machine, &plan))
}

/// The number of an action, how long it lasts, and what that breaks.
fn misfit(act: u32, lasts: i64, limit: u32) -> Option<Misfit> {
    Some(Misfit { act, lasts, limit })
}

fn plans_are_timed(rt: &impl Abort, machine: &Machine) -> Result<(), Fail> {
    assert!(rt; is_timed(machine, &[3, 5, 13, 16])?);
    // The second engine takes at most 8 ticks.
    assert!(rt; !is_timed(machine, &[3, 5, 14, 17])?);
    assert!(rt; misfit_at(machine, &[3, 5, 13, 16])?.is_none());
    assert!(rt; misfit_at(machine, &[3, 5, 14, 17])? == misfit(2, 9, 8));
    assert!(rt; misfit_at(machine, &[3, 5, 10, 13])? == misfit(2, 5, 6));
    assert!(rt; misfit_at(machine, &[3, 8, 14, 12])? == misfit(1, 5, 4));
    assert!(rt; misfit_at(machine, &[3, 5, 13, 10])? == misfit(3, -3, 3));
    Ok(())
}

/// Where the orders of one pair of sheets part from those of another, of which both are legal.
fn parting_of(
    alloc: Global,
    machine: &Machine,
    one: &Schedule,
    other: &Schedule,
) -> Result<Option<Parting>, Fail>
    requires one { IsLegal machine.now one.now.plans }
    requires other { IsLegal machine.now other.now.plans }
{
    Ok(find_parting(alloc, machine, None, one, other)?)
}

/// The same for two pairs, or a failure where one of them is not legal.
fn parting_between(
    alloc: Global,
    machine: &Machine,
    one: &Schedule,
    other: &Schedule,
) -> Result<Option<Parting>, Fail> {
    match find_clash(alloc, machine, one)? {
        None => {}
        Some(_) => return Err(Fail::from("the first pair is not legal")),
    }
    match find_clash(alloc, machine, other)? {
        None => parting_of(alloc, machine, one, other),
        Some(_) => Err(Fail::from("the second pair is not legal")),
    }
}

fn orders_are_compared(rt: &impl Abort, alloc: Global, machine: &Machine) -> Result<(), Fail> {
    // The second sheet by print1 is fed first, and may be moved; or it is fed second.
    let first = pair_on_duo(alloc, &[0, 1, 3], &[3, 5, 14, 17])?;
    let moved = pair_on_duo(alloc, &[0, 1, 3], &[3, 5, 15, 18])?;
    let second = pair_on_duo(alloc, &[0, 1, 3], &[7, 9, 18, 21])?;
    assert!(rt; parting_between(alloc, machine, &first, &moved)?.is_none());
    let parting = Parting {
        resource: ResId(2),
        stood: Some(Hold {
            sheet: SECOND,
            act: 1,
        }),
        stands: Some(Hold {
            sheet: FIRST,
            act: 1,
        }),
    };
    assert!(rt; parting_between(alloc, machine, &first, &second)? == Some(parting));
    Ok(())
}

fn look_at_duo(rt: &impl Abort, alloc: Global, duo: &Machine) -> Result<(), Fail> {
    plans_are_timed(rt, duo)?;
    orders_are_compared(rt, alloc, duo)?;
    rows_are_told(rt, alloc, duo)
}

#[test]
fn whole_schedules_on_duo(rt: HostRuntime) -> Result<(), Fail> {
    let duo = machine_of(rt.alloc(), DUO.as_bytes())?;
    let looked = look_at_duo(&rt, rt.alloc(), &duo);
    drop(duo);
    looked
}
