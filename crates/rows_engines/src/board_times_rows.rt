//! The times that a board tells of a plan that it holds, and the network that it lends.
ghost use Rattle.tp_placing.specs.LoadedBoard.{IsMadeFor};
ghost use Rattle.tp_schedule.specs.PlannerAnswers.{CanAsk, CanPlanOn};

use crate::by_hand::board_for;
use crate::engine_rows::{MONO, ask_sheet, engine_for, first_tray_ask};
use crate::laid_ways::is_askable;
use rows_machine::machines::{DUO, machine_of};
use std::alloc::Global;
use std::process::Abort;
use std::test::Fail;
use tp_base::{Network, Tick, Undo};
use tp_machine::Machine;
use tp_placing::Board;
use tp_schedule::{Ask, Planner, Schedule, is_plan_live};

/// The times of the plan of three actions that stands first in the schedule.
fn times_of_first<N: Network>(
    board: &mut Board<N>,
    machine: &Machine,
    schedule: &Schedule,
    ask: &Ask,
) -> Result<[Tick; 4], Fail>
    requires made { IsMadeFor board.old.made_for machine.now }
    requires can_ask { CanAsk machine.now schedule.now.plans ask.now }
{
    if schedule.len() == 0 {
        return Err(Fail::from("nothing is planned"));
    }
    let plan = schedule.plan_at(0);
    if plan.acts.len() != 3 || !is_plan_live(machine, ask.now, plan) {
        return Err(Fail::from("another plan stands first"));
    }
    let sheet = plan.sheet;
    board.load(machine, schedule, ask);
    let mut times = [0; 4];
    'points: for at in 0..4 {
        times[at] = board.time_of(sheet, at as u32);
    }
    Ok(times)
}

/// Has the first sheet planned, and tells the times of its plan as a board holds it for the second one.
fn times_held<P: Planner, N: Network>(
    planner: &mut P,
    board: &mut Board<N>,
    machine: &Machine,
    schedule: &mut Schedule,
) -> Result<[Tick; 4], Fail>
    requires served { P.serves planner.old machine.now }
    requires made { IsMadeFor board.old.made_for machine.now }
    requires plan_on { CanPlanOn machine.now 0 schedule.old.plans }
{
    ask_sheet(planner, machine, schedule, 1, MONO)?;
    let ask = first_tray_ask(machine, 2, MONO)?;
    if !is_askable(machine, schedule, &ask) {
        return Err(Fail::from("the ask doesn't fit the schedule"));
    }
    times_of_first(board, machine, schedule, &ask)
}

/// The times of the first sheet's plan, and how many marks of the network are spare then.
fn told_on<P: Planner, N: Network>(
    alloc: Global,
    planner: &mut P,
    board: &mut Board<N>,
    machine: &Machine,
) -> Result<([Tick; 4], u32), Fail>
    requires served { P.serves planner.old machine.now }
    requires made { IsMadeFor board.old.made_for machine.now }
{
    let mut schedule = Schedule::new(alloc);
    let times = times_held(planner, board, machine, &mut schedule);
    drop(schedule);
    Ok((times?, board.net().spare_marks()))
}

fn told_by_board(alloc: Global, machine: &Machine) -> Result<([Tick; 4], u32), Fail> {
    let mut engine = engine_for(alloc, machine, false)?;
    let told = match board_for(alloc, machine) {
        Ok(mut board) => {
            let told = told_on(alloc, &mut engine, &mut board, machine);
            drop(board);
            told
        }
        Err(error) => Err(error),
    };
    drop(engine);
    told
}

fn told_on_duo(alloc: Global) -> Result<([Tick; 4], u32), Fail> {
    let machine = machine_of(alloc, DUO.as_bytes())?;
    let told = told_by_board(alloc, &machine);
    drop(machine);
    told
}

// A loaded board tells the points of the plan that it holds, and leaves all marks of its network.
#[test]
fn times_of_a_held_plan(rt: HostRuntime) -> Result<(), Fail> {
    let told = told_on_duo(rt.alloc())?;
    assert!(rt; told == ([3, 5, 11, 14], 330));
    Ok(())
}
