//! A copy in flight on the machine DUO, whose last action is planned behind its front.
ghost use Rattle.std.specs.Prelude.{OnOk, IfOk};
ghost use Rattle.tp_placing.specs.LoadedBoard.{IsMadeFor};
ghost use Rattle.tp_routes.specs.Tables.{IsMadeFor as IsTableFor};
ghost use Rattle.tp_schedule.specs.PlannerAnswers.{CanPlanOn};

use crate::by_hand::{OUT, goal_of};
use crate::in_flight::{one_flying, rest_of};
use crate::laid_ways::{begin, lay};
use crate::planned_rows::one_planned;
use crate::rooms_rows::state_at;
use std::alloc::Global;
use std::process::Abort;
use std::test::Fail;
use tp_base::{Late, Network, Tick};
use tp_machine::Machine;
use tp_placing::Board;
use tp_routes::Rooms;
use tp_schedule::{Origin, Schedule, is_start};

/// A schedule with the first sheet's front of two actions.
fn first_flying<N: Network>(
    alloc: Global,
    board: &mut Board<N>,
    rooms: &mut Rooms,
    machine: &Machine,
) -> Result<Schedule, Fail>
    requires made { IsMadeFor board.old.made_for machine.now }
    requires table { IsTableFor rooms.old machine.now }
    ensures made { OnOk result (IsMadeFor board.new.made_for machine.now) }
    ensures table { OnOk result (IsTableFor rooms.new machine.now) }
    ensures plan_on { IfOk result (λ flying. CanPlanOn machine.now 0 flying.plans) }
{
    let planned = one_planned(alloc, board, rooms, machine)?;
    let flying = one_flying(alloc, machine, &planned, 2);
    drop(planned);
    flying
}

/// Where the front ends, and the bound of the sheet's end where only the way out is left.
fn bound_behind_front<N: Network>(
    board: &mut Board<N>,
    rooms: &mut Rooms,
    machine: &Machine,
    flying: &Schedule,
) -> Result<(Origin, Tick), Fail>
    requires made { IsMadeFor board.old.made_for machine.now }
    requires table { IsTableFor rooms.old machine.now }
    requires plan_on { CanPlanOn machine.now 0 flying.now.plans }
    ensures made { OnOk result (IsMadeFor board.new.made_for machine.now) }
    ensures table { OnOk result (IsTableFor rooms.new machine.now) }
{
    let ask = rest_of(
        machine,
        flying,
        goal_of(machine)?,
        state_at(0, false, false),
    )?;
    let goal = begin(board, rooms, machine, flying, &ask, 3)?;
    let first = lay(board, rooms, machine, &ask, goal, &[(OUT, 0, 0)])?;
    if !is_start(machine, &ask, first) {
        return Err(Fail::from("the way doesn't begin at the front's end"));
    }
    match board.stop() {
        Ok(()) => Ok((ask.origin, board.end_bound())),
        Err(Late) => Err(Fail::from("the stop is refused")),
    }
}

pub(crate) fn way_out_behind_a_front<N: Network>(
    rt: &impl Abort,
    alloc: Global,
    board: &mut Board<N>,
    rooms: &mut Rooms,
    machine: &Machine,
) -> Result<(), Fail>
    requires made { IsMadeFor board.old.made_for machine.now }
    requires table { IsTableFor rooms.old machine.now }
    ensures made { OnOk result (IsMadeFor board.new.made_for machine.now) }
    ensures table { OnOk result (IsTableFor rooms.new machine.now) }
{
    let flying = first_flying(alloc, board, rooms, machine)?;
    let told = bound_behind_front(board, rooms, machine, &flying);
    drop(flying);
    let told = told?;
    let origin = Origin::Front {
        state: state_at(2, true, false),
        end: 11,
        kept: 2,
    };
    assert!(rt; told == (origin, 14));
    Ok(())
}
