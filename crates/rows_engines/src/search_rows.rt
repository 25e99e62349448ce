//! Asks on the machine DUO that are answered by a search: how soon, where engines are out, and with few nodes.
ghost use Rattle.std.specs.Prelude.{◌≡◌, ◌≤◌, [], IfOk, OnOk};
ghost use Rattle.tp_placing.specs.LoadedBoard.{IsMadeFor};
ghost use Rattle.tp_schedule.specs.PlannerAnswers.{CanPlanOn, IsOpenGoal};
ghost use Rattle.tp_schedule.specs.declared.parts.Origin.TheVariants.{Feeder};
ghost use Rattle.tp_search.specs.Workspaces.{IsFor};

use crate::by_hand::{ask_for, goal_of, name_of};
use crate::laid_ways::is_askable;
use crate::planned_rows::points_of;
use std::alloc::Global;
use std::process::Abort;
use std::test::Fail;
use tp_base::{Network, Tick};
use tp_machine::{Machine, Outs};
use tp_placing::Board;
use tp_schedule::{Ask, Reply, Schedule};
use tp_search::{Workspace, answer};

pub(crate) fn work_for(alloc: Global, machine: &Machine, nodes: u32) -> Result<Workspace, Fail>
    ensures made { IfOk result (λ work. IsFor work machine.now) }
    ensures nodes { IfOk result (λ work. work.nodes ≡ nodes) }
{
    match Workspace::new(alloc, machine, nodes) {
        Ok(work) => Ok(work),
        Err(_) => Err(Fail::from("memory")),
    }
}

/// The ask for a new copy of the sheet of this number to the first tray, where these modules are out.
fn ask_without(machine: &Machine, number: u32, outs: Outs) -> Result<Ask, Fail>
    ensures now { IfOk result (λ ask. ask.now ≡ 0) }
    ensures new { IfOk result (λ ask. ask.origin ≡ Feeder) }
    ensures outs { IfOk result (λ ask. ask.outs ≡ outs) }
    ensures goal { IfOk result (λ ask. IsOpenGoal machine.now [] ask ask.goal) }
{
    let (name, media) = (name_of(b"j1")?, name_of(b"plain")?);
    let goal = goal_of(machine)?;
    let mut ask = ask_for(name, media, goal, number);
    ask.outs = outs;
    Ok(ask)
}

/// Searches for a plan of a new copy on a schedule with one live plan or none.
fn answer_new<N: Network>(
    work: &mut Workspace,
    board: &mut Board<N>,
    machine: &Machine,
    schedule: &mut Schedule,
    ask: &Ask,
) -> Result<Reply, Fail>
    requires work { IsFor work.old machine.now }
    requires made { IsMadeFor board.old.made_for machine.now }
    requires plan_on { CanPlanOn machine.now ask.now.now schedule.old.plans }
    requires new { ask.now.origin ≡ Feeder }
    requires goal { IsOpenGoal machine.now [] ask.now ask.now.goal }
    ensures work { IsFor work.new machine.now }
    ensures made { IsMadeFor board.new.made_for machine.now }
    ensures plan_on { OnOk result (CanPlanOn machine.now ask.entry.now.now schedule.new.plans) }
{
    if !is_askable(machine, schedule, ask) {
        return Err(Fail::from("the ask doesn't fit the schedule"));
    }
    match schedule.reserve() {
        Ok(()) => {}
        Err(_) => return Err(Fail::from("memory")),
    }
    Ok(answer(work, board, machine, schedule, ask))
}

/// Searches for a plan of the sheet of this number, where these modules are out.
fn answer_sheet<N: Network>(
    work: &mut Workspace,
    board: &mut Board<N>,
    machine: &Machine,
    schedule: &mut Schedule,
    number: u32,
    outs: Outs,
) -> Result<Reply, Fail>
    requires work { IsFor work.old machine.now }
    requires made { IsMadeFor board.old.made_for machine.now }
    requires plan_on { CanPlanOn machine.now 0 schedule.old.plans }
    ensures work { IsFor work.new machine.now }
    ensures made { IsMadeFor board.new.made_for machine.now }
    ensures plan_on { OnOk result (CanPlanOn machine.now 0 schedule.new.plans) }
{
    let ask = ask_without(machine, number, outs)?;
    answer_new(work, board, machine, schedule, &ask)
}

/// Searches for a plan of the sheet of this number with so many nodes, where these modules are out.
fn answer_with<N: Network>(
    alloc: Global,
    board: &mut Board<N>,
    machine: &Machine,
    schedule: &mut Schedule,
    asked: (u32, u32, Outs),
) -> Result<Reply, Fail>
    requires made { IsMadeFor board.old.made_for machine.now }
    requires plan_on { CanPlanOn machine.now 0 schedule.old.plans }
    ensures made { IsMadeFor board.new.made_for machine.now }
    ensures plan_on { OnOk result (CanPlanOn machine.now 0 schedule.new.plans) }
{
    let (number, nodes, outs) = asked;
    let mut work = work_for(alloc, machine, nodes)?;
    let reply = answer_sheet(&mut work, board, machine, schedule, number, outs);
    drop(work);
    reply
}

/// The first sheet's reply on an empty schedule, with so many nodes and where these modules are out, and the schedule then.
fn first_answered<N: Network>(
    alloc: Global,
    board: &mut Board<N>,
    machine: &Machine,
    nodes: u32,
    outs: Outs,
) -> Result<(Reply, Schedule), Fail>
    requires made { IsMadeFor board.old.made_for machine.now }
    ensures made { IsMadeFor board.new.made_for machine.now }
    ensures plan_on { IfOk result (λ answered. CanPlanOn machine.now 0 answered.1.plans) }
{
    let mut schedule = Schedule::new(alloc);
    match answer_with(alloc, board, machine, &mut schedule, (1, nodes, outs)) {
        Ok(reply) => Ok((reply, schedule)),
        Err(fail) => {
            drop(schedule);
            Err(fail)
        }
    }
}

/// The points of the one plan, the second sheet's reply, and the points of both plans then.
fn points_with_second<N: Network>(
    alloc: Global,
    board: &mut Board<N>,
    machine: &Machine,
    schedule: &mut Schedule,
) -> Result<(Reply, [[Tick; 4]; 3]), Fail>
    requires made { IsMadeFor board.old.made_for machine.now }
    requires plan_on { CanPlanOn machine.now 0 schedule.old.plans }
    ensures made { IsMadeFor board.new.made_for machine.now }
{
    let alone = points_of(schedule, 1, 0)?;
    let reply = answer_with(alloc, board, machine, schedule, (2, 1000, Outs(0)))?;
    let points = [
        alone,
        points_of(schedule, 2, 0)?,
        points_of(schedule, 2, 1)?,
    ];
    Ok((reply, points))
}

/// The points of the first plan, and of both once the second sheet is planned.
fn points_in_turn<N: Network>(
    alloc: Global,
    board: &mut Board<N>,
    machine: &Machine,
) -> Result<([Reply; 2], [[Tick; 4]; 3]), Fail>
    requires made { IsMadeFor board.old.made_for machine.now }
    ensures made { IsMadeFor board.new.made_for machine.now }
{
    let (one, mut schedule) = first_answered(alloc, board, machine, 1000, Outs(0))?;
    let told = points_with_second(alloc, board, machine, &mut schedule);
    drop(schedule);
    let (other, points) = told?;
    Ok(([one, other], points))
}

/// The end of the one plan, if there is one.
fn end_of(schedule: &Schedule) -> Result<Option<Tick>, Fail> {
    if schedule.len() == 0 {
        return Ok(None);
    }
    let [_, _, _, end] = points_of(schedule, 1, 0)?;
    Ok(Some(end))
}

/// The first sheet's reply, and the end of its plan if there is one.
fn first_end<N: Network>(
    alloc: Global,
    board: &mut Board<N>,
    machine: &Machine,
    nodes: u32,
    outs: Outs,
) -> Result<(Reply, Option<Tick>), Fail>
    requires made { IsMadeFor board.old.made_for machine.now }
    ensures made { IsMadeFor board.new.made_for machine.now }
{
    let (reply, schedule) = first_answered(alloc, board, machine, nodes, outs)?;
    let end = end_of(&schedule);
    drop(schedule);
    Ok((reply, end?))
}

/// The second sheet's reply with so many nodes, where the first is planned.
fn second_reply<N: Network>(
    alloc: Global,
    board: &mut Board<N>,
    machine: &Machine,
    nodes: u32,
) -> Result<Reply, Fail>
    requires made { IsMadeFor board.old.made_for machine.now }
    ensures made { IsMadeFor board.new.made_for machine.now }
{
    let (_, mut schedule) = first_answered(alloc, board, machine, 1000, Outs(0))?;
    let reply = answer_with(alloc, board, machine, &mut schedule, (2, nodes, Outs(0)));
    drop(schedule);
    reply
}

// Each sheet has one way that ends first. The first sheet takes the faster engine, from 3 to 14. The second takes the other
// engine and is fed ahead of the first, from 3 to 17, for which the first gives way; its other ways end at 19, 20 and 21.
pub(crate) fn earliest_in_turn<N: Network>(
    rt: &impl Abort,
    alloc: Global,
    board: &mut Board<N>,
    machine: &Machine,
) -> Result<(), Fail>
    requires made { IsMadeFor board.old.made_for machine.now }
    ensures made { IsMadeFor board.new.made_for machine.now }
{
    let told = points_in_turn(alloc, board, machine)?;
    let points = [[3, 5, 11, 14], [5, 7, 13, 16], [3, 5, 14, 17]];
    assert!(rt; told == ([Reply::Planned; 2], points));
    Ok(())
}

// The modules are FEED, ENG1, ENG2, OUT and DUMP, from bit 0 on. The first engine takes 9 ticks, the second 6.
pub(crate) fn modules_out<N: Network>(
    rt: &impl Abort,
    alloc: Global,
    board: &mut Board<N>,
    machine: &Machine,
) -> Result<(), Fail>
    requires made { IsMadeFor board.old.made_for machine.now }
    ensures made { IsMadeFor board.new.made_for machine.now }
{
    let rows = [
        (0b00001, Reply::Never, None),
        (0b00010, Reply::Planned, Some(14)),
        (0b00100, Reply::Planned, Some(17)),
        (0b00110, Reply::Never, None),
        (0b01000, Reply::Never, None),
        (0b10000, Reply::Planned, Some(14)),
    ];
    'rows: for (outs, reply, end) in rows {
        let told = first_end(alloc, board, machine, 1000, Outs(outs))?;
        assert!(rt; told == (reply, end), "{outs} out");
    }
    Ok(())
}

// The first sheet's feed starts at 3 at the soonest, and 11 ticks lead from there to the tray. So its goal has bound 14, and so
// have the way out, and the second engine with it; the first engine with it has 17. With no node the way out is refused as
// the goal is opened, with one or two nodes an engine is refused as the way out is opened: the bound is 14. Three nodes do,
// since the feed completes the second engine's list with that list's bound, and takes no node.
pub(crate) fn nodes_for_the_first<N: Network>(
    rt: &impl Abort,
    alloc: Global,
    board: &mut Board<N>,
    machine: &Machine,
) -> Result<(), Fail>
    requires made { IsMadeFor board.old.made_for machine.now }
    ensures made { IsMadeFor board.new.made_for machine.now }
{
    let rows = [
        (0, Reply::Spent { bound: 14 }, None),
        (1, Reply::Spent { bound: 14 }, None),
        (2, Reply::Spent { bound: 14 }, None),
        (3, Reply::Planned, Some(14)),
    ];
    'rows: for (nodes, reply, end) in rows {
        let told = first_end(alloc, board, machine, nodes, Outs(0))?;
        assert!(rt; told == (reply, end), "{nodes} nodes");
    }
    Ok(())
}

// The second sheet comes to its tray behind the first, which ends at 14 at the soonest. So its goal has bound 15, and so has the
// way out. With it the first engine has 17, and the second has 21 ahead of the first sheet and 20 behind it: four lists with
// choices in all. With fewer nodes one of them is refused as the goal or the way out is opened: the bound is 15. Four nodes do,
// since a feed ahead of the first sheet's completes the first engine's list with that list's bound, and takes no node.
pub(crate) fn nodes_for_the_second<N: Network>(
    rt: &impl Abort,
    alloc: Global,
    board: &mut Board<N>,
    machine: &Machine,
) -> Result<(), Fail>
    requires made { IsMadeFor board.old.made_for machine.now }
    ensures made { IsMadeFor board.new.made_for machine.now }
{
    let spent = Reply::Spent { bound: 15 };
    let rows = [
        (0, spent),
        (1, spent),
        (2, spent),
        (3, spent),
        (4, Reply::Planned),
    ];
    'rows: for (nodes, reply) in rows {
        let told = second_reply(alloc, board, machine, nodes)?;
        assert!(rt; told == reply, "{nodes} nodes");
    }
    Ok(())
}
