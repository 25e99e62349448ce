//! Moves of the clock on a schedule of one plan: the records, and whether the plan stays.
ghost use Rattle.std.specs.Prelude.{◌≡◌, ◌≤◌, [], IfOk, OnOk};
ghost use Rattle.tp_placing.specs.LoadedBoard.{IsMadeFor};
ghost use Rattle.tp_schedule.specs.Answers.{KeepsFloors};
ghost use Rattle.tp_schedule.specs.Legality.{IsLegal};
ghost use Rattle.tp_schedule.specs.PlannerAnswers.{CanPlanOn, IsOpenGoal, none_exempt};
ghost use Rattle.tp_schedule.specs.declared.parts.Origin.TheVariants.{Feeder};
ghost use Rattle.tp_search.specs.Workspaces.{IsFor};

use crate::records::name_of;
use rows_machine::machines::{DUO, TAIL, machine_of};
use std::alloc::Global;
use std::process::Abort;
use std::test::Fail;
use tp_base::{Network, Tick};
use tp_machine::{ActId, Face, LocId, Machine, Outs, Sheet, Want};
use tp_placing::Board;
use tp_release::{AdvanceFault, Tell, advance};
use tp_schedule::{Ask, Empties, Goal, Origin, Reply, Schedule, SheetId};
use tp_search::{Workspace, answer};
use tp_stn_undo::LiveNet;

const FIRST: SheetId = SheetId {
    job: 0,
    number: 1,
    copy: 1,
};

fn board_for(alloc: Global, machine: &Machine) -> Result<Board<LiveNet>, Fail>
    ensures made { IfOk result (λ board. IsMadeFor board.made_for machine.now) }
    ensures marks { IfOk result (λ board. board.net.max_marks ≡ 330) }
{
    match LiveNet::new(alloc, 16_642, 100_000, 330) {
        Ok(net) => match Board::new(alloc, machine, net) {
            Ok(board) => Ok(board),
            Err(_) => Err(Fail::from("memory")),
        },
        Err(_) => Err(Fail::from("memory")),
    }
}

/// The ask for the first sheet of plain media to the machine's first tray, at the moment 0.
fn first_ask(machine: &Machine, front: Want) -> Result<Ask, Fail>
    ensures now { IfOk result (λ ask. ask.now ≡ 0) }
    ensures new { IfOk result (λ ask. ask.origin ≡ Feeder) }
    ensures goal { IfOk result (λ ask. IsOpenGoal machine.now [] ask ask.goal) }
{
    let (name, media) = (name_of(b"j1")?, name_of(b"plain")?);
    if machine.trays.len() == 0 {
        return Err(Fail::from("the tray is lost"));
    }
    Ok(Ask {
        sheet: FIRST,
        name,
        want: Sheet {
            media,
            front,
            back: Want::Blank,
            face: Face::Front,
        },
        goal: Goal::Tray(*machine.trays.get(0)),
        origin: Origin::Feeder,
        outs: Outs(0),
        empty: Empties::none(),
        now: 0,
    })
}

fn work_for(alloc: Global, machine: &Machine) -> Result<Workspace, Fail>
    ensures { IfOk result (λ work. IsFor work machine.now) }
{
    match Workspace::new(alloc, machine, 100) {
        Ok(work) => Ok(work),
        Err(_) => Err(Fail::from("memory")),
    }
}

/// Plans the asked copy on an empty schedule.
fn plan_alone<N: Network>(
    work: &mut Workspace,
    board: &mut Board<N>,
    machine: &Machine,
    schedule: &mut Schedule,
    ask: &Ask,
) -> Result<(), Fail>
    requires work { IsFor work.old machine.now }
    requires made { IsMadeFor board.old.made_for machine.now }
    requires empty { schedule.old.plans ≡ [] }
    requires now { ask.now.now ≡ 0 }
    requires new { ask.now.origin ≡ Feeder }
    requires goal { IsOpenGoal machine.now [] ask.now ask.now.goal }
    ensures { OnOk result (CanPlanOn machine.now 0 schedule.new.plans) }
{
    match schedule.reserve() {
        Ok(()) => {}
        Err(_) => return Err(Fail::from("memory")),
    }
    match answer(work, board, machine, schedule, ask) {
        Reply::Planned => Ok(()),
        _ => Err(Fail::from("no plan is found")),
    }
}

/// Plans the first sheet on an empty schedule.
fn plan_first<N: Network>(
    alloc: Global,
    board: &mut Board<N>,
    machine: &Machine,
    schedule: &mut Schedule,
    front: Want,
) -> Result<(), Fail>
    requires made { IsMadeFor board.old.made_for machine.now }
    requires empty { schedule.old.plans ≡ [] }
    ensures { OnOk result (CanPlanOn machine.now 0 schedule.new.plans) }
{
    let ask = first_ask(machine, front)?;
    let mut work = work_for(alloc, machine)?;
    let planned = plan_alone(&mut work, board, machine, schedule, &ask);
    drop(work);
    planned
}

fn plan_on_board(
    alloc: Global,
    machine: &Machine,
    schedule: &mut Schedule,
    front: Want,
) -> Result<(), Fail>
    requires { schedule.old.plans ≡ [] }
    ensures { OnOk result (CanPlanOn machine.now 0 schedule.new.plans) }
{
    let mut board = board_for(alloc, machine)?;
    let planned = plan_first(alloc, &mut board, machine, schedule, front);
    drop(board);
    planned
}

/// Moves the clock to the moments in turn, and gathers the records.
fn told_in_turn(
    alloc: Global,
    machine: &Machine,
    schedule: &mut Schedule,
    moments: &[Tick],
) -> Result<Vec<Tell>, Fail>
    requires legal { IsLegal machine.now schedule.old.plans }
    requires floors { KeepsFloors machine.now 0 none_exempt schedule.old.plans }
{
    let mut told = Vec::new(alloc);
    let mut now = 0;
    for to in moments {
        match advance(alloc, machine, schedule, now, *to) {
            Ok(mut tells) => told.append(&mut tells)?,
            Err(_) => return Err(Fail::from("the clock is not moved")),
        }
        now = *to;
    }
    Ok(told)
}

/// The records as the clock moves to the moments in turn, and how many plans are then left.
fn told_until(
    alloc: Global,
    machine: &Machine,
    planned: &Schedule,
    moments: &[Tick],
) -> Result<(Vec<Tell>, u32), Fail>
    requires { CanPlanOn machine.now 0 planned.now.plans }
{
    match planned.copy(alloc) {
        Ok(mut schedule) => {
            let told = told_in_turn(alloc, machine, &mut schedule, moments);
            let left = schedule.len();
            drop(schedule);
            Ok((told?, left))
        }
        Err(_) => Err(Fail::from("memory")),
    }
}

fn release(act: u32, action: u16, start: Tick, end: Tick) -> Tell {
    Tell::Release {
        sheet: FIRST,
        act,
        action: ActId(action),
        start,
        end,
    }
}

fn done(loc: u16, at: Tick) -> Tell {
    Tell::Done {
        sheet: FIRST,
        place: LocId(loc),
        at,
    }
}

/// What a clock is moved on: a machine text, and what the first sheet's front wants. Then all records, and those as the clock moves
/// to moments in turn how much of it, and how many plans are left.
#[derive(Clone, Copy)]
struct Moved<'a> {
    machine: &'static str,
    front: Want,
    told: &'a [Tell],
    moves: &'a [(&'a [Tick], usize, u32)],
}

/// Moves the clock on the planned schedule.
fn look_at_moves(
    rt: &impl Abort,
    alloc: Global,
    machine: &Machine,
    planned: &Schedule,
    row: Moved<'_>,
) -> Result<(), Fail>
    requires { CanPlanOn machine.now 0 planned.now.plans }
{
    for (moments, many, left) in row.moves {
        let (told, plans) = told_until(alloc, machine, planned, *moments)?;
        let (wanted, _) = row.told.split_at_checked(*many).ok_or("less is told")?;
        assert!(rt; told.as_slice() == wanted, "{moments:?}");
        assert!(rt; plans == *left, "{moments:?}");
    }
    Ok(())
}

fn look_at_planned(
    rt: &impl Abort,
    alloc: Global,
    machine: &Machine,
    schedule: &mut Schedule,
    row: Moved<'_>,
) -> Result<(), Fail>
    requires { schedule.old.plans ≡ [] }
{
    plan_on_board(alloc, machine, schedule, row.front)?;
    look_at_moves(rt, alloc, machine, schedule, row)
}

fn look_on(rt: &impl Abort, alloc: Global, machine: &Machine, row: Moved<'_>) -> Result<(), Fail> {
    let mut schedule = Schedule::new(alloc);
    let looked = look_at_planned(rt, alloc, machine, &mut schedule, row);
    drop(schedule);
    looked
}

fn look_at(rt: &impl Abort, alloc: Global, row: Moved<'_>) -> Result<(), Fail> {
    let machine = machine_of(alloc, row.machine.as_bytes())?;
    let looked = look_on(rt, alloc, &machine, row);
    drop(machine);
    looked
}

#[test]
fn the_clock_step_by_step_and_in_one_go(rt: HostRuntime) -> Result<(), Fail> {
    let told = [
        release(1, 0, 3, 5),
        release(2, 2, 5, 11),
        release(3, 3, 11, 14),
        done(3, 14),
    ];
    let moves: [(&[Tick], usize, u32); 7] = [
        (&[0], 0, 1),
        (&[2], 1, 1),
        (&[2, 5], 2, 1),
        (&[2, 5, 11], 3, 1),
        (&[2, 5, 11, 14], 4, 0),
        (&[13], 3, 1),
        (&[20], 4, 0),
    ];
    let row = Moved {
        machine: DUO,
        front: Want::Mono,
        told: &told,
        moves: &moves,
    };
    look_at(&rt, rt.alloc(), row)
}

#[test]
fn a_hold_outlasts_its_plan(rt: HostRuntime) -> Result<(), Fail> {
    let told = [release(1, 0, 3, 5), release(2, 1, 5, 8), done(2, 8)];
    let moves: [(&[Tick], usize, u32); 4] = [
        (&[8], 3, 1),
        (&[8, 9], 3, 1),
        (&[8, 10], 3, 0),
        (&[10], 3, 0),
    ];
    let row = Moved {
        machine: TAIL,
        front: Want::Blank,
        told: &told,
        moves: &moves,
    };
    look_at(&rt, rt.alloc(), row)
}

/// Why the clock is not moved, on an empty schedule.
fn fault_of(alloc: Global, machine: &Machine, now: Tick, to: Tick) -> Option<AdvanceFault> {
    let mut schedule = Schedule::new(alloc);
    match advance(alloc, machine, &mut schedule, now, to) {
        Ok(_) => None,
        Err(fault) => Some(fault),
    }
}

const LAST: Tick = 1_000_000_000;

const REFUSED: [(Tick, Tick, Option<AdvanceFault>); 5] = [
    (5, 4, Some(AdvanceFault::ClockBack { now: 5 })),
    (5, 5, None),
    (0, LAST, None),
    (LAST, 1_000_000_001, Some(AdvanceFault::ClockEnd)),
    (
        LAST,
        999_999_999,
        Some(AdvanceFault::ClockBack { now: LAST }),
    ),
];

#[test]
fn moments_that_are_refused(rt: HostRuntime) -> Result<(), Fail> {
    let machine = machine_of(rt.alloc(), DUO.as_bytes())?;
    for (now, to, wanted) in REFUSED {
        let fault = fault_of(rt.alloc(), &machine, now, to);
        assert!(rt; fault == wanted, "{now} {to}");
    }
    drop(machine);
    Ok(())
}
