//! The edges of a reason as hops of a tree.
ghost use Rattle.std.specs.Prelude.{◌≡◌, ◌+◌, ◌<◌, ◌++◌, All, IfNone, IfSome, OnOk, Some, length};
ghost use Rattle.tp_machine.specs.declared.machine.Machine.{Machine};
ghost use Rattle.tp_placing.specs.LoadedBoard.{Stands};
ghost use Rattle.tp_bound_make.specs.TellableReasons.{IsFirstUntold, IsKnownWhy, IsNameOf, IsTellable, IsTold, hold_by, tell, told_until, told_why};

use tp_base::{Edge, Memory, Network, PointId};
use tp_bounds::{Hop, Hops, TreeHold, TreePoint};
use tp_machine::Machine;
use tp_placing::{Board, Grip, Spot, Why};

fn hold_by(grip: Grip) -> TreeHold
    ensures { result ≡ hold_by grip }
{
    match grip {
        Grip::Own(choice) => TreeHold::Own(choice),
        Grip::Kept { sheet, act } => TreeHold::Kept { sheet, act },
    }
}

/// A point of the network by its name in a tree. The limit of a claimed end stands for the end.
pub(crate) fn point_by<N: Network>(board: &Board<N>, point: PointId) -> TreePoint
    requires stands { (m : Machine) × Stands N.reading board.now m }
    ensures { IsNameOf board.now.plans board.now.limit point result }
{
    match board.spot_of(point) {
        Spot::Own(number) => TreePoint::Own(number),
        Spot::Kept { sheet, at } => TreePoint::Kept { sheet, at },
        Spot::Limit => TreePoint::Own(0),
    }
}

/// What a tree tells of why an edge stands that leads to a point, or None of a stop and a limit.
fn hop_why(machine: &Machine, why: Why, to: TreePoint) -> Option<Hop>
    requires { IsKnownWhy machine.now why }
    ensures { result ≡ told_why machine.now why (Some to) }
{
    match why {
        Why::Forward => Some(Hop::Duration(to)),
        Why::Back => Some(Hop::Duration(to)),
        Why::Line => Some(Hop::Line(to)),
        Why::Resource {
            resource,
            before,
            after,
        } => Some(Hop::Resource {
            name: machine.resources.get(u32::from(resource.0)).name,
            before: hold_by(before),
            after: hold_by(after),
        }),
        Why::Stop => None,
        Why::Limit => None,
    }
}

/// What a tree tells of an edge, or None of a stop and a limit.
pub(crate) fn hop_by<N: Network>(board: &Board<N>, machine: &Machine, edge: Edge) -> Option<Hop>
    requires stands { Stands N.reading board.now machine.now }
    requires tellable { IsTellable machine.now board.now.plans board.now.causes board.now.limit
        edge }
    ensures { result ≡ tell machine.now board.now.plans board.now.causes edge }
{
    let why = board.why_of(edge);
    let to = point_by(board, edge.to);
    hop_why(machine, why, to)
}

/// Adds the hops of the edges up to the first that a tree can't tell.
pub(crate) fn put_hops<N: Network>(
    hops: &mut Hops,
    board: &Board<N>,
    machine: &Machine,
    edges: &[Edge],
) -> Result<(), Memory>
    requires stands { Stands N.reading board.now machine.now }
    requires tellable { All (IsTellable machine.now board.now.plans board.now.causes
        board.now.limit) edges.now }
    requires room { length hops.old + length edges.now < 4294967294 }
    ensures { OnOk result (hops.new ≡ hops.old ++ told_until (tell machine.now board.now.plans
        board.now.causes) edges.now) }
{
    'edges: for at in 0..edges.len() {
        match hop_by(board, machine, edges[at]) {
            Some(hop) => hops.push(hop)?,
            None => return Ok(()),
        }
    }
    Ok(())
}

/// The place of the first edge that a tree can't tell.
pub(crate) fn first_untold<N: Network>(
    board: &Board<N>,
    machine: &Machine,
    edges: &[Edge],
) -> Option<usize>
    requires stands { Stands N.reading board.now machine.now }
    requires tellable { All (IsTellable machine.now board.now.plans board.now.causes
        board.now.limit) edges.now }
    ensures some { IfSome result (IsFirstUntold (tell machine.now board.now.plans board.now.causes)
        edges.now) }
    ensures none { IfNone result (All (IsTold (tell machine.now board.now.plans board.now.causes))
        edges.now) }
{
    'edges: for at in 0..edges.len() {
        match hop_by(board, machine, edges[at]) {
            Some(_) => {}
            None => return Some(at),
        }
    }
    None
}
