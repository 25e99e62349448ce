//! A planner that is asked and settles on the machine DUO, and the trial of a plan.
ghost use Rattle.std.specs.Prelude.{◌≡◌, ◌<◌, ◌≤◌, [], IfOk, List, OnOk};
ghost use Rattle.tp_placing.specs.LoadedBoard.{IsMadeFor};
ghost use Rattle.tp_schedule.specs.PlannerAnswers.{CanAsk, CanPlanOn, IsOpenGoal};
ghost use Rattle.tp_schedule.specs.declared.parts.Origin.TheVariants.{Feeder};
ghost use Rattle.tp_schedule.specs.declared.parts.Plan.{Plan};
ghost use Rattle.tp_search.specs.Workspaces.{IsFor, StaysFor};
ghost use Rattle.rows_engines.specs.ReadyBoard.{IsReady};

use crate::by_hand::{ask_for, board_for, goal_of, name_of};
use crate::laid_ways::is_askable;
use crate::planned_rows::points_of;
use crate::search_rows::work_for;
use rows_machine::machines::{DUO, machine_of};
use std::alloc::Global;
use std::process::Abort;
use std::test::Fail;
use tp_base::{Network, Tick, Undo};
use tp_machine::{Machine, Want};
use tp_placing::Board;
use tp_schedule::{Ask, Planner, Reply, Schedule};
use tp_search::{Engine, Workspace, plan};
use tp_stn_core::PlainNet;

/// A print on the front alone.
pub(crate) const MONO: (Want, Want) = (Want::Mono, Want::Blank);

pub(crate) fn engine_for(
    alloc: Global,
    machine: &Machine,
    bounds: bool,
) -> Result<Engine<PlainNet>, Fail>
    ensures { IfOk result
        (λ engine. ⟦<Engine<PlainNet> as Planner>⟧.serves engine machine.now) }
{
    match PlainNet::new(alloc, 16_642, 100_000, 330) {
        Ok(net) => match Engine::new(alloc, machine, net, 1000, bounds) {
            Ok(engine) => Ok(engine),
            Err(_) => Err(Fail::from("memory")),
        },
        Err(_) => Err(Fail::from("memory")),
    }
}

/// The ask for a new copy of the sheet of this number, with these prints on front and back, to the first tray.
pub(crate) fn first_tray_ask(
    machine: &Machine,
    number: u32,
    prints: (Want, Want),
) -> Result<Ask, Fail>
    ensures now { IfOk result (λ ask. ask.now ≡ 0) }
    ensures new { IfOk result (λ ask. ask.origin ≡ Feeder) }
    ensures goal { IfOk result (λ ask. IsOpenGoal machine.now [] ask ask.goal) }
{
    let (name, media) = (name_of(b"j1")?, name_of(b"plain")?);
    let goal = goal_of(machine)?;
    let mut ask = ask_for(name, media, goal, number);
    ask.want.front = prints.0;
    ask.want.back = prints.1;
    Ok(ask)
}

/// Asks for the sheet of this number on a schedule with one live plan or none.
pub(crate) fn ask_sheet<P: Planner>(
    planner: &mut P,
    machine: &Machine,
    schedule: &mut Schedule,
    number: u32,
    prints: (Want, Want),
) -> Result<Reply, Fail>
    requires served { P.serves planner.old machine.now }
    requires plan_on { CanPlanOn machine.now 0 schedule.old.plans }
    ensures served { OnOk result (P.serves planner.new machine.now) }
    ensures plan_on { OnOk result (CanPlanOn machine.now 0 schedule.new.plans) }
{
    let ask = first_tray_ask(machine, number, prints)?;
    if !is_askable(machine, schedule, &ask) {
        return Err(Fail::from("the ask doesn't fit the schedule"));
    }
    match planner.ask(machine, schedule, &ask) {
        Ok(reply) => Ok(reply),
        Err(_) => Err(Fail::from("memory")),
    }
}

/// Settles the times at the moment 0.
fn settle_all<P: Planner>(
    planner: &mut P,
    machine: &Machine,
    schedule: &mut Schedule,
) -> Result<(), Fail>
    requires served { P.serves planner.old machine.now }
    requires plan_on { CanPlanOn machine.now 0 schedule.old.plans }
{
    if schedule.live(machine, 0) > 256 {
        return Err(Fail::from("too many copies are live"));
    }
    match planner.settle(machine, schedule, 0) {
        Ok(()) => Ok(()),
        Err(_) => Err(Fail::from("memory")),
    }
}

/// The replies to two asks on an empty schedule, and the points: of the first plan, of both plans, and of both once they are settled.
fn told_on<P: Planner>(
    planner: &mut P,
    machine: &Machine,
    schedule: &mut Schedule,
) -> Result<([Reply; 2], [[Tick; 4]; 5]), Fail>
    requires served { P.serves planner.old machine.now }
    requires plan_on { CanPlanOn machine.now 0 schedule.old.plans }
{
    let one = ask_sheet(planner, machine, schedule, 1, MONO)?;
    let alone = points_of(schedule, 1, 0)?;
    let other = ask_sheet(planner, machine, schedule, 2, MONO)?;
    let [first, second] = [points_of(schedule, 2, 0)?, points_of(schedule, 2, 1)?];
    settle_all(planner, machine, schedule)?;
    let settled = [points_of(schedule, 2, 0)?, points_of(schedule, 2, 1)?];
    let points = [alone, first, second, settled[0], settled[1]];
    Ok(([one, other], points))
}

fn told_in_turn<P: Planner>(
    alloc: Global,
    planner: &mut P,
    machine: &Machine,
) -> Result<([Reply; 2], [[Tick; 4]; 5]), Fail>
    requires { P.serves planner.old machine.now }
{
    let mut schedule = Schedule::new(alloc);
    let told = told_on(planner, machine, &mut schedule);
    drop(schedule);
    told
}

/// The end of the earliest plan, which is then abandoned.
fn tried_end<N: Network>(
    board: &mut Board<N>,
    work: &mut Workspace,
    machine: &Machine,
    ask: &Ask,
) -> Result<Tick, Fail>
    requires work { IsFor work.old machine.now }
    requires ready { (plans : List Plan)
        × IsReady N.reading board.old machine.now plans ask.now }
    ensures work { StaysFor machine.now work.old work.new }
    ensures ready { (plans : List Plan)
        → IsReady N.reading board.old machine.now plans ask.entry.now
        → OnOk result (IsReady N.reading board.new machine.now plans
        ask.entry.now) }
{
    match plan(board, work, machine, ask) {
        Ok(trial) => {
            let end = trial.end();
            trial.abandon();
            Ok(end)
        }
        Err(_) => Err(Fail::from("there is no plan")),
    }
}

/// Commits the earliest plan.
fn commit_plan<N: Network>(
    board: &mut Board<N>,
    work: &mut Workspace,
    machine: &Machine,
    schedule: &mut Schedule,
    ask: &Ask,
) -> Result<(), Fail>
    requires work { IsFor work.old machine.now }
    requires ready { IsReady N.reading board.old machine.now
        schedule.old.plans ask.now }
    requires spare { 0 < schedule.old.spare }
{
    match plan(board, work, machine, ask) {
        Ok(trial) => {
            trial.commit(machine, schedule);
            Ok(())
        }
        Err(_) => Err(Fail::from("there is no plan")),
    }
}

/// The end that a trial of the ask tells, and the points of the plan that a second one commits.
fn tried_twice<N: Network>(
    board: &mut Board<N>,
    work: &mut Workspace,
    machine: &Machine,
    schedule: &mut Schedule,
    ask: &Ask,
) -> Result<(Tick, [Tick; 4]), Fail>
    requires work { IsFor work.old machine.now }
    requires made { IsMadeFor board.old.made_for machine.now }
    requires can_ask { CanAsk machine.now schedule.old.plans ask.now }
    requires spare { 0 < schedule.old.spare }
{
    board.load(machine, schedule, ask);
    let end = tried_end(board, work, machine, ask)?;
    commit_plan(board, work, machine, schedule, ask)?;
    Ok((end, points_of(schedule, 1, 0)?))
}

/// The end and the points of the first sheet's plan on an empty schedule.
fn first_on<N: Network>(
    board: &mut Board<N>,
    work: &mut Workspace,
    machine: &Machine,
    schedule: &mut Schedule,
) -> Result<(Tick, [Tick; 4]), Fail>
    requires work { IsFor work.old machine.now }
    requires made { IsMadeFor board.old.made_for machine.now }
    requires empty { schedule.old.plans ≡ [] }
{
    let ask = first_tray_ask(machine, 1, MONO)?;
    match schedule.reserve() {
        Ok(()) => {}
        Err(_) => return Err(Fail::from("memory")),
    }
    tried_twice(board, work, machine, schedule, &ask)
}

fn first_tried<N: Network>(
    alloc: Global,
    board: &mut Board<N>,
    machine: &Machine,
) -> Result<(Tick, [Tick; 4]), Fail>
    requires made { IsMadeFor board.old.made_for machine.now }
{
    let mut work = work_for(alloc, machine, 1000)?;
    let mut schedule = Schedule::new(alloc);
    let tried = first_on(board, &mut work, machine, &mut schedule);
    drop(schedule);
    drop(work);
    tried
}

/// The replies and the points in turn, and how many marks of the board are spare then.
fn told_by_engine(
    alloc: Global,
    machine: &Machine,
) -> Result<([Reply; 2], [[Tick; 4]; 5], u32), Fail> {
    let mut engine = engine_for(alloc, machine, false)?;
    let told = told_in_turn(alloc, &mut engine, machine);
    let spare = engine.board().spare_marks();
    drop(engine);
    let (replies, points) = told?;
    Ok((replies, points, spare))
}

fn told_on_duo(alloc: Global) -> Result<([Reply; 2], [[Tick; 4]; 5], u32), Fail> {
    let machine = machine_of(alloc, DUO.as_bytes())?;
    let told = told_by_engine(alloc, &machine);
    drop(machine);
    told
}

fn tried_by_board(alloc: Global, machine: &Machine) -> Result<(Tick, [Tick; 4]), Fail> {
    let mut board = board_for(alloc, machine)?;
    let tried = first_tried(alloc, &mut board, machine);
    drop(board);
    tried
}

fn tried_on_duo(alloc: Global) -> Result<(Tick, [Tick; 4]), Fail> {
    let machine = machine_of(alloc, DUO.as_bytes())?;
    let tried = tried_by_board(alloc, &machine);
    drop(machine);
    tried
}

// The second sheet is fed ahead of the first, which gives way. All points are as early as they can be, so the times settle where
// they stand. That leaves no mark on the board, which has all marks of its network but one.
#[test]
fn asked_and_settled(rt: HostRuntime) -> Result<(), Fail> {
    let told = told_on_duo(rt.alloc())?;
    let (moved, second) = ([5, 7, 13, 16], [3, 5, 14, 17]);
    let points = [[3, 5, 11, 14], moved, second, moved, second];
    assert!(rt; told == ([Reply::Planned; 2], points, 329));
    Ok(())
}

// A trial tells the end of the first sheet's plan. It leaves nothing on the board, from which the same plan is committed.
#[test]
fn tried_and_committed(rt: HostRuntime) -> Result<(), Fail> {
    let tried = tried_on_duo(rt.alloc())?;
    assert!(rt; tried == (14, [3, 5, 11, 14]));
    Ok(())
}
