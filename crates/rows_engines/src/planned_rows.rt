//! Plans that are committed on the machine DUO, one after the other.
ghost use Rattle.std.specs.Prelude.{◌≡◌, ◌≤◌, [], length, IfOk, OnOk};
ghost use Rattle.tp_placing.specs.LoadedBoard.{IsMadeFor};
ghost use Rattle.tp_routes.specs.Tables.{AreRooms, IsMadeFor as IsTableFor};
ghost use Rattle.tp_schedule.specs.Answers.{kept_of};
ghost use Rattle.tp_schedule.specs.PlannerAnswers.{CanPlanOn, IsOpenGoal};
ghost use Rattle.tp_schedule.specs.declared.parts.Origin.TheVariants.{Feeder};
ghost use Rattle.rows_engines.specs.LaidWays.{IsLaid};

use crate::by_hand::{FEED, OUT, PRINT1, PRINT2, ask_for, goal_of, name_of};
use crate::laid_ways::{
    LaidWay, begin, bound_with, bounds_where_late, follow, is_askable, lay, tried_at,
};
use std::alloc::Global;
use std::process::Abort;
use std::test::Fail;
use tp_base::{Network, Tick};
use tp_machine::{ActId, Machine, State};
use tp_placing::{Board, Refused};
use tp_routes::Rooms;
use tp_schedule::{Ask, Schedule};

/// The ask for a new copy of the sheet of this number to the first tray.
fn new_ask(machine: &Machine, number: u32) -> Result<Ask, Fail>
    ensures now { IfOk result (λ ask. ask.now ≡ 0) }
    ensures new { IfOk result (λ ask. ask.origin ≡ Feeder) }
    ensures goal { IfOk result (λ ask. IsOpenGoal machine.now [] ask ask.goal) }
{
    let (name, media) = (name_of(b"j1")?, name_of(b"plain")?);
    let goal = goal_of(machine)?;
    Ok(ask_for(name, media, goal, number))
}

/// Plans the sheet of this number by a way.
fn plan_sheet<N: Network>(
    board: &mut Board<N>,
    rooms: &mut Rooms,
    machine: &Machine,
    schedule: &mut Schedule,
    number: u32,
    way: &[(ActId, u32, u32)],
) -> Result<(), Fail>
    requires made { IsMadeFor board.old.made_for machine.now }
    requires table { IsTableFor rooms.old machine.now }
    requires plan_on { CanPlanOn machine.now 0 schedule.old.plans }
    requires few { length way.now ≤ 50 }
    ensures made { OnOk result (IsMadeFor board.new.made_for machine.now) }
    ensures table { OnOk result (IsTableFor rooms.new machine.now) }
    ensures plan_on { OnOk result (CanPlanOn machine.now 0 schedule.new.plans) }
{
    let ask = new_ask(machine, number)?;
    follow(board, rooms, machine, schedule, &ask, way)
}

/// A schedule with the first sheet's plan.
pub(crate) fn one_planned<N: Network>(
    alloc: Global,
    board: &mut Board<N>,
    rooms: &mut Rooms,
    machine: &Machine,
) -> Result<Schedule, Fail>
    requires made { IsMadeFor board.old.made_for machine.now }
    requires table { IsTableFor rooms.old machine.now }
    ensures made { OnOk result (IsMadeFor board.new.made_for machine.now) }
    ensures table { OnOk result (IsTableFor rooms.new machine.now) }
    ensures plan_on { IfOk result (λ schedule. CanPlanOn machine.now 0 schedule.plans) }
{
    let mut schedule = Schedule::new(alloc);
    let way = [(OUT, 8, 0), (PRINT2, 2, 0), (FEED, 0, 0)];
    plan_sheet(board, rooms, machine, &mut schedule, 1, &way)?;
    Ok(schedule)
}

/// The points of a plan of three actions, where there are so many plans.
pub(crate) fn points_of(schedule: &Schedule, count: u32, at: u32) -> Result<[Tick; 4], Fail> {
    if schedule.len() != count || at >= count {
        return Err(Fail::from("there are more plans or fewer"));
    }
    let points = &schedule.plan_at(at).points;
    if points.len() != 4 {
        return Err(Fail::from("there are more points or fewer"));
    }
    Ok([points.get(0), points.get(1), points.get(2), points.get(3)])
}

/// Plans the second sheet, and tells the points of both plans.
fn second_planned<N: Network>(
    board: &mut Board<N>,
    rooms: &mut Rooms,
    machine: &Machine,
    schedule: &mut Schedule,
) -> Result<[[Tick; 4]; 2], Fail>
    requires made { IsMadeFor board.old.made_for machine.now }
    requires table { IsTableFor rooms.old machine.now }
    requires plan_on { CanPlanOn machine.now 0 schedule.old.plans }
    ensures made { OnOk result (IsMadeFor board.new.made_for machine.now) }
    ensures table { OnOk result (IsTableFor rooms.new machine.now) }
    ensures plan_on { OnOk result (CanPlanOn machine.now 0 schedule.new.plans) }
{
    let way = [(OUT, 8, 1), (PRINT1, 2, 0), (FEED, 0, 0)];
    plan_sheet(board, rooms, machine, schedule, 2, &way)?;
    Ok([points_of(schedule, 2, 0)?, points_of(schedule, 2, 1)?])
}

/// The points of the first of two plans, settled alone.
fn first_settled<N: Network>(
    alloc: Global,
    board: &mut Board<N>,
    machine: &Machine,
    schedule: &Schedule,
) -> Result<[Tick; 4], Fail>
    requires made { IsMadeFor board.old.made_for machine.now }
    requires plan_on { CanPlanOn machine.now 0 schedule.now.plans }
    ensures { OnOk result (IsMadeFor board.new.made_for machine.now) }
{
    if schedule.len() != 2 {
        return Err(Fail::from("there are more plans or fewer"));
    }
    let mut alone = Schedule::new(alloc);
    match alone.reserve() {
        Ok(()) => {}
        Err(_) => return Err(Fail::from("memory")),
    }
    alone.put(schedule.plan_at(0).copy());
    board.settle(machine, &mut alone, 0);
    points_of(&alone, 1, 0)
}

/// The points of the first plan, of both with the second, and of the first where the second is gone.
fn points_in_turn<N: Network>(
    alloc: Global,
    board: &mut Board<N>,
    rooms: &mut Rooms,
    machine: &Machine,
    schedule: &mut Schedule,
) -> Result<[[Tick; 4]; 4], Fail>
    requires made { IsMadeFor board.old.made_for machine.now }
    requires table { IsTableFor rooms.old machine.now }
    requires plan_on { CanPlanOn machine.now 0 schedule.old.plans }
    ensures made { OnOk result (IsMadeFor board.new.made_for machine.now) }
    ensures table { OnOk result (IsTableFor rooms.new machine.now) }
{
    let first = points_of(schedule, 1, 0)?;
    let [moved, second] = second_planned(board, rooms, machine, schedule)?;
    let back = first_settled(alloc, board, machine, schedule)?;
    Ok([first, moved, second, back])
}

/// Lays the end of a way for the second sheet.
fn begun_behind<N: Network>(
    board: &mut Board<N>,
    rooms: &mut Rooms,
    machine: &Machine,
    schedule: &Schedule,
    way: &[(ActId, u32, u32)],
) -> Result<(Ask, State), Fail>
    requires made { IsMadeFor board.old.made_for machine.now }
    requires table { IsTableFor rooms.old machine.now }
    requires plan_on { CanPlanOn machine.now 0 schedule.now.plans }
    requires few { length way.now ≤ 50 }
    ensures table { OnOk result (IsTableFor rooms.new machine.now) }
    ensures rooms { IfOk result (λ begun. AreRooms machine.now begun.0 rooms.new.sums) }
    ensures kept { IfOk result (λ begun. kept_of begun.0 ≤ 10) }
    ensures laid { IfOk result
        (λ begun. IsLaid N.reading board.new machine.now begun.0 begun.1
        (length way.now)) }
{
    let ask = new_ask(machine, 2)?;
    if !is_askable(machine, schedule, &ask) {
        return Err(Fail::from("the ask doesn't fit the schedule"));
    }
    let goal = begin(board, rooms, machine, schedule, &ask, 11)?;
    let first = lay(board, rooms, machine, &ask, goal, way)?;
    Ok((ask, first))
}

/// Lays the end of a way for the second sheet, where the first is planned.
pub(crate) fn second_begun<N: Network>(
    alloc: Global,
    board: &mut Board<N>,
    rooms: &mut Rooms,
    machine: &Machine,
    way: &[(ActId, u32, u32)],
) -> Result<(Ask, State), Fail>
    requires made { IsMadeFor board.old.made_for machine.now }
    requires table { IsTableFor rooms.old machine.now }
    requires few { length way.now ≤ 50 }
    ensures table { OnOk result (IsTableFor rooms.new machine.now) }
    ensures rooms { IfOk result (λ begun. AreRooms machine.now begun.0 rooms.new.sums) }
    ensures kept { IfOk result (λ begun. kept_of begun.0 ≤ 10) }
    ensures laid { IfOk result
        (λ begun. IsLaid N.reading board.new machine.now begun.0 begun.1
        (length way.now)) }
{
    let schedule = one_planned(alloc, board, rooms, machine)?;
    let begun = begun_behind(board, rooms, machine, &schedule, way);
    drop(schedule);
    begun
}

/// The bounds of the second sheet's end on a way, and with each of two choices more.
fn bounds_of<N: Network>(
    alloc: Global,
    board: &mut Board<N>,
    rooms: &mut Rooms,
    machine: &Machine,
    way: &[(ActId, u32, u32)],
    choices: [(ActId, u32, u32); 2],
) -> Result<[Tick; 3], Fail>
    requires made { IsMadeFor board.old.made_for machine.now }
    requires table { IsTableFor rooms.old machine.now }
    requires few { length way.now ≤ 50 }
    ensures made { OnOk result (IsMadeFor board.new.made_for machine.now) }
    ensures table { OnOk result (IsTableFor rooms.new machine.now) }
{
    let (ask, first) = second_begun(alloc, board, rooms, machine, way)?;
    let bound = board.end_bound();
    let many = way.len() as u32;
    let laid = LaidWay { first, many };
    let [one, other] = choices;
    let with_one = bound_with(board, rooms, machine, &ask, laid, one)?;
    let with_other = bound_with(board, rooms, machine, &ask, laid, other)?;
    Ok([bound, with_one, with_other])
}

/// Two plans in turn, of which the second moves the first.
pub(crate) fn plans_in_turn<N: Network>(
    rt: &impl Abort,
    alloc: Global,
    board: &mut Board<N>,
    rooms: &mut Rooms,
    machine: &Machine,
) -> Result<(), Fail>
    requires made { IsMadeFor board.old.made_for machine.now }
    requires table { IsTableFor rooms.old machine.now }
    ensures made { OnOk result (IsMadeFor board.new.made_for machine.now) }
    ensures table { OnOk result (IsTableFor rooms.new machine.now) }
{
    let mut schedule = one_planned(alloc, board, rooms, machine)?;
    let points = points_in_turn(alloc, board, rooms, machine, &mut schedule);
    drop(schedule);
    let points = points?;
    let wanted = [
        [3, 5, 11, 14],
        [5, 7, 13, 16],
        [3, 5, 14, 17],
        [3, 5, 11, 14],
    ];
    assert!(rt; points == wanted);
    Ok(())
}

/// The second sheet's engines, and its feeds.
pub(crate) fn choices_of_the_second<N: Network>(
    rt: &impl Abort,
    alloc: Global,
    board: &mut Board<N>,
    rooms: &mut Rooms,
    machine: &Machine,
) -> Result<(), Fail>
    requires made { IsMadeFor board.old.made_for machine.now }
    requires table { IsTableFor rooms.old machine.now }
    ensures made { OnOk result (IsMadeFor board.new.made_for machine.now) }
    ensures table { OnOk result (IsTableFor rooms.new machine.now) }
{
    let engines = [(PRINT2, 2, 0), (PRINT2, 2, 1)];
    let bounds = bounds_of(alloc, board, rooms, machine, &[(OUT, 8, 1)], engines)?;
    assert!(rt; bounds == [15, 21, 20]);
    let way = [(OUT, 8, 1), (PRINT1, 2, 0)];
    let feeds = [(FEED, 0, 0), (FEED, 0, 1)];
    let bounds = bounds_of(alloc, board, rooms, machine, &way, feeds)?;
    assert!(rt; bounds == [17, 17, 19]);
    Ok(())
}

/// The bounds of the second sheet at its goal, on its way out, and once the first place there is refused.
pub(crate) fn place_before_the_first_is_late<N: Network>(
    rt: &impl Abort,
    alloc: Global,
    board: &mut Board<N>,
    rooms: &mut Rooms,
    machine: &Machine,
) -> Result<(), Fail>
    requires made { IsMadeFor board.old.made_for machine.now }
    requires table { IsTableFor rooms.old machine.now }
    ensures made { OnOk result (IsMadeFor board.new.made_for machine.now) }
    ensures table { OnOk result (IsTableFor rooms.new machine.now) }
{
    let (ask, state) = second_begun(alloc, board, rooms, machine, &[])?;
    let told = bounds_where_late(board, machine, &ask, state, OUT, 8)?;
    assert!(rt; told == ([15, 15, 15], 1));
    Ok(())
}

/// The second sheet's way out, tried from the end of the order: behind the first sheet, and at no place before.
pub(crate) fn places_from_the_end<N: Network>(
    rt: &impl Abort,
    alloc: Global,
    board: &mut Board<N>,
    rooms: &mut Rooms,
    machine: &Machine,
) -> Result<(), Fail>
    requires made { IsMadeFor board.old.made_for machine.now }
    requires table { IsTableFor rooms.old machine.now }
    ensures made { OnOk result (IsMadeFor board.new.made_for machine.now) }
    ensures table { OnOk result (IsTableFor rooms.new machine.now) }
{
    let (ask, state) = second_begun(alloc, board, rooms, machine, &[])?;
    let behind = tried_at(board, machine, &ask, state, (OUT, 8, 1))?;
    assert!(rt; behind == None);
    let (ask, state) = second_begun(alloc, board, rooms, machine, &[])?;
    let before = tried_at(board, machine, &ask, state, (OUT, 8, 0))?;
    assert!(rt; before == Some(Refused::UpToHere));
    Ok(())
}
