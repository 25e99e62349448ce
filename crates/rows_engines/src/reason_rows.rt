//! Why the second of two sheets can't be where it is refused on the machine DUO, by name.
ghost use Rattle.std.specs.Prelude.{OnOk};
ghost use Rattle.tp_placing.specs.LoadedBoard.{IsMadeFor};
ghost use Rattle.tp_routes.specs.Tables.{IsMadeFor as IsTableFor};

use crate::by_hand::{OUT, name_of};
use crate::laid_ways::bounds_where_late;
use crate::named_reasons::{NamedChain, reason_by, reason_of};
use crate::planned_rows::second_begun;
use std::alloc::Global;
use std::process::Abort;
use std::test::Fail;
use tp_base::{Name, Network, Tick};
use tp_machine::{Machine, ResId};
use tp_placing::{Board, Grip, Spot, Why};
use tp_routes::Rooms;
use tp_schedule::SheetName;

const RT: ResId = ResId(3);

/// The first sheet of the job.
fn first_sheet(job: &Name) -> SheetName {
    SheetName {
        job: *job,
        number: 1,
        copy: 1,
    }
}

/// A point of the first sheet's plan.
fn first_point(job: &Name, at: u32) -> Spot {
    Spot::Kept {
        sheet: first_sheet(job),
        at,
    }
}

/// Why the second sheet can't come out before the first.
fn place_reason<N: Network>(
    alloc: Global,
    board: &mut Board<N>,
    rooms: &mut Rooms,
    machine: &Machine,
) -> Result<NamedChain, Fail>
    requires made { IsMadeFor board.old.made_for machine.now }
    requires table { IsTableFor rooms.old machine.now }
    ensures made { OnOk result (IsMadeFor board.new.made_for machine.now) }
    ensures table { OnOk result (IsTableFor rooms.new machine.now) }
{
    let (ask, state) = second_begun(alloc, board, rooms, machine, &[])?;
    bounds_where_late(board, machine, &ask, state, OUT, 8)?;
    reason_of(alloc, board)
}

/// Why the second sheet can't end by a tick.
fn end_reason<N: Network>(
    alloc: Global,
    board: &mut Board<N>,
    rooms: &mut Rooms,
    machine: &Machine,
    last: Tick,
) -> Result<NamedChain, Fail>
    requires made { IsMadeFor board.old.made_for machine.now }
    requires table { IsTableFor rooms.old machine.now }
{
    second_begun(alloc, board, rooms, machine, &[])?;
    reason_by(alloc, board, last)
}

/// Whether a reason is a circle of these two edges, wherever it is said to begin.
fn is_circle_of(reason: &NamedChain, one: (Why, Spot), other: (Why, Spot)) -> bool {
    match reason.edges.as_slice() {
        [first, second] => {
            reason.first.is_none()
                && ((*first == one && *second == other) || (*first == other && *second == one))
        }
        _ => false,
    }
}

pub(crate) fn late_place_is_a_circle<N: Network>(
    rt: &impl Abort,
    alloc: Global,
    board: &mut Board<N>,
    rooms: &mut Rooms,
    machine: &Machine,
) -> Result<(), Fail>
    requires made { IsMadeFor board.old.made_for machine.now }
    requires table { IsTableFor rooms.old machine.now }
    ensures made { OnOk result (IsMadeFor board.new.made_for machine.now) }
    ensures table { OnOk result (IsTableFor rooms.new machine.now) }
{
    let job = name_of(b"j1")?;
    let reason = place_reason(alloc, board, rooms, machine)?;
    let hold = Why::Resource {
        resource: RT,
        before: Grip::Own(1),
        after: Grip::Kept {
            sheet: first_sheet(&job),
            act: 3,
        },
    };
    let leads = (hold, first_point(&job, 3));
    assert!(rt; is_circle_of(&reason, leads, (Why::Line, Spot::Own(0))));
    Ok(())
}

/// The points of the first sheet's plan, then the second sheet's end, then the last tick.
fn chain_to_limit(job: &Name) -> [(Why, Spot); 5] {
    [
        (Why::Forward, first_point(job, 1)),
        (Why::Forward, first_point(job, 2)),
        (Why::Forward, first_point(job, 3)),
        (Why::Line, Spot::Own(0)),
        (Why::Limit, Spot::Limit),
    ]
}

pub(crate) fn late_end_is_a_chain<N: Network>(
    rt: &impl Abort,
    alloc: Global,
    board: &mut Board<N>,
    rooms: &mut Rooms,
    machine: &Machine,
) -> Result<(), Fail>
    requires made { IsMadeFor board.old.made_for machine.now }
    requires table { IsTableFor rooms.old machine.now }
{
    let job = name_of(b"j1")?;
    let reason = end_reason(alloc, board, rooms, machine, 14)?;
    assert!(rt; reason.first == Some(first_point(&job, 0)));
    assert!(rt; reason.edges.as_slice() == chain_to_limit(&job).as_slice());
    Ok(())
}
