//! The board on the machine DUO, with an empty schedule.
ghost use Rattle.std.specs.Prelude.{◌≡◌, ◌+◌, ◌<◌, ◌≤◌, [], length, OnOk};
ghost use Rattle.tp_placing.specs.LoadedBoard.{IsMadeFor};
ghost use Rattle.tp_schedule.specs.PlannerAnswers.{IsOpenGoal};
ghost use Rattle.tp_schedule.specs.declared.parts.Ask.{Ask};
ghost use Rattle.rows_engines.specs.BoardAsk.{IsForNew, IsOpen};

use crate::by_hand::{FEED, OUT, PRINT1, PRINT2, ask_for, goal_of, name_of};
use std::alloc::Global;
use std::process::Abort;
use std::test::Fail;
use tp_base::{Late, Network, Tick};
use tp_machine::{ActId, Machine};
use tp_placing::Board;
use tp_schedule::{Goal, Schedule};

/// Loads an empty schedule, to be asked for a new copy to a goal.
fn load_for<N: Network>(
    alloc: Global,
    board: &mut Board<N>,
    machine: &Machine,
    goal: Goal,
) -> Result<(), Fail>
    requires made { IsMadeFor board.old.made_for machine.now }
    requires marks { N.reading.max_marks board.old.net ≡ 330 }
    requires goal { (ask : Ask) → IsOpenGoal machine.now [] ask goal }
    ensures made { OnOk result (IsMadeFor board.new.made_for machine.now) }
    ensures new { OnOk result (IsForNew N.reading board.new machine.now) }
    ensures closed { OnOk result (board.new.steps ≡ []) }
{
    let (name, media) = (name_of(b"j1")?, name_of(b"plain")?);
    let ask = ask_for(name, media, goal, 1);
    let schedule = Schedule::new(alloc);
    board.load(machine, &schedule, &ask);
    Ok(())
}

/// Loads an empty schedule, to be asked for a new copy to the first tray.
fn load<N: Network>(alloc: Global, board: &mut Board<N>, machine: &Machine) -> Result<(), Fail>
    requires made { IsMadeFor board.old.made_for machine.now }
    requires marks { N.reading.max_marks board.old.net ≡ 330 }
    ensures made { OnOk result (IsMadeFor board.new.made_for machine.now) }
    ensures new { OnOk result (IsForNew N.reading board.new machine.now) }
    ensures closed { OnOk result (board.new.steps ≡ []) }
{
    let goal = goal_of(machine)?;
    load_for(alloc, board, machine, goal)
}

/// Opens the goal, and tells the bound of the end.
fn open<N: Network>(board: &mut Board<N>, machine: &Machine, room: u32) -> Result<Tick, Fail>
    requires new { IsForNew N.reading board.old machine.now }
    requires closed { board.old.steps ≡ [] }
    ensures new { OnOk result (IsForNew N.reading board.new machine.now) }
    ensures open { OnOk result (IsOpen 2 board.new) }
{
    match board.open_goal(room) {
        Ok(()) => Ok(board.end_bound()),
        Err(Late) => Err(Fail::from("the goal is refused")),
    }
}

/// Opens an action before so many others, and places its hold first in its resource's order. Tells the bound of the end
/// before and after the hold is placed, and how long the order is then.
fn choose<N: Network>(
    board: &mut Board<N>,
    machine: &Machine,
    act: ActId,
    room: u32,
    others: u32,
) -> Result<(Tick, Tick, u32), Fail>
    requires new { IsForNew N.reading board.old machine.now }
    requires open { IsOpen (others + 2) board.old }
    requires few { others ≤ 50 }
    ensures new { OnOk result (IsForNew N.reading board.new machine.now) }
    ensures open { OnOk result (IsOpen (others + 3) board.new) }
{
    if u32::from(act.0) >= machine.actions.len() {
        return Err(Fail::from("the action is lost"));
    }
    let holds = &machine.actions.get(act.0 as u32).holds;
    if holds.len() == 0 {
        return Err(Fail::from("the hold is lost"));
    }
    let resource = holds.get(0).resource;
    match board.open_action(machine, act, room) {
        Ok(()) => {}
        Err(Late) => return Err(Fail::from("the action is refused")),
    }
    let opened = board.end_bound();
    match board.place(machine, 0, 0) {
        Ok(()) => {}
        Err(Late) => return Err(Fail::from("the place is refused")),
    }
    let placed = board.end_bound();
    if u32::from(resource.0) >= machine.resources.len() {
        return Err(Fail::from("the resource is lost"));
    }
    Ok((opened, placed, board.places(resource)))
}

/// The bound of the end on a way, given with its last action first, each with the room before it.
fn bound_of<N: Network>(
    alloc: Global,
    board: &mut Board<N>,
    machine: &Machine,
    way: &[(ActId, u32)],
) -> Result<Tick, Fail>
    requires made { IsMadeFor board.old.made_for machine.now }
    requires marks { N.reading.max_marks board.old.net ≡ 330 }
    requires few { length way.now ≤ 50 }
    ensures new { OnOk result (IsForNew N.reading board.new machine.now) }
{
    load(alloc, board, machine)?;
    let mut bound = open(board, machine, 11)?;
    for at in 0..way.len() {
        let (act, room) = way[at];
        let (opened, placed, _) = choose(board, machine, act, room, at as u32)?;
        bound = opened.max(placed);
    }
    Ok(bound)
}

/// The bounds by the faster engine and by the other one.
pub(crate) fn bounds<N: Network>(
    rt: &impl Abort,
    alloc: Global,
    board: &mut Board<N>,
    machine: &Machine,
) -> Result<(), Fail>
    requires made { IsMadeFor board.old.made_for machine.now }
    requires marks { N.reading.max_marks board.old.net ≡ 330 }
    ensures made { OnOk result (IsMadeFor board.new.made_for machine.now) }
    ensures marks { OnOk result (N.reading.max_marks board.new.net ≡ 330) }
{
    let first = bound_of(alloc, board, machine, &[(OUT, 8), (PRINT2, 2), (FEED, 0)])?;
    assert!(rt; first == 14);
    let other = bound_of(alloc, board, machine, &[(OUT, 8), (PRINT1, 2)])?;
    assert!(rt; other == 17);
    Ok(())
}
