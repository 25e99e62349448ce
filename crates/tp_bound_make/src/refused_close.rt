//! The close of a node whose branch a board refused, by the reason that its network gives.
ghost use Rattle.std.specs.Prelude.{◌<◌, ◌≡◌, ◌⊎◌, All, IfOk, length};
ghost use Rattle.tp_placing.specs.LoadedBoard.{Stands};
ghost use Rattle.tp_constraints.specs.Suffixes.{Suffix};
ghost use Rattle.tp_schedule.specs.Plans.{AreNamed};
ghost use Rattle.tp_bound_make.specs.Closes.{ClosesEnd, ClosesRefused, ClosesStop, IsEndRefused, IsRefused, IsStopRefused};
ghost use Rattle.tp_bound_make.specs.TellableReasons.{IsChainOf, IsCutOf, IsLoopOf, IsTellable, IsTellableReason, IsFirstUntold, IsTold, IsToldReason, tell};

use crate::hops::{first_untold, point_by, put_hops};
use std::alloc::Global;
use tp_base::{Edge, Memory, Network, PointId, Proof, Tick};
use tp_bounds::{Close, Hops};
use tp_machine::Machine;
use tp_placing::Board;

/// A chain of the edges up to the first that a tree can't tell: a limit ends it at the end of the
/// asked copy, and a stop at the first point of a stopped branch.
fn chain_of<N: Network>(
    alloc: Global,
    board: &Board<N>,
    machine: &Machine,
    first: PointId,
    edges: &[Edge],
) -> Result<Close, Memory>
    requires stands { Stands N.reading board.now machine.now }
    requires tellable { All (IsTellable machine.now board.now.plans board.now.causes
        board.now.limit) edges.now }
    requires few { length edges.now < 4294967294 }
    ensures { IfOk result (IsChainOf machine.now board.now.plans board.now.causes board.now.limit
        first edges.now) }
{
    let mut hops = Hops::new(alloc);
    put_hops(&mut hops, board, machine, edges)?;
    Ok(Close::Chain {
        first: point_by(board, first),
        hops,
    })
}

/// The loop of a circle of edges.
fn loop_of<N: Network>(
    alloc: Global,
    board: &Board<N>,
    machine: &Machine,
    edges: &[Edge],
) -> Result<Close, Memory>
    requires stands { Stands N.reading board.now machine.now }
    requires tellable { All (IsTellable machine.now board.now.plans board.now.causes
        board.now.limit) edges.now }
    requires few { length edges.now < 4294967294 }
    requires some { 0 < length edges.now }
    requires told { All (IsTold (tell machine.now board.now.plans board.now.causes)) edges.now }
    ensures { IfOk result (IsLoopOf machine.now board.now.plans board.now.causes board.now.limit
        edges.now) }
{
    let mut hops = Hops::new(alloc);
    put_hops(&mut hops, board, machine, edges)?;
    Ok(Close::Loop {
        first: point_by(board, edges[0].from),
        hops,
    })
}

/// The chain round a circle of edges from the end of the edge at this place, which is a stop.
fn cut_of<N: Network>(
    alloc: Global,
    board: &Board<N>,
    machine: &Machine,
    edges: &[Edge],
    at: usize,
) -> Result<Close, Memory>
    requires stands { Stands N.reading board.now machine.now }
    requires tellable { All (IsTellable machine.now board.now.plans board.now.causes
        board.now.limit) edges.now }
    requires few { length edges.now < 4294967294 }
    requires cut { IsFirstUntold (tell machine.now board.now.plans board.now.causes) edges.now at }
    ensures { IfOk result (IsCutOf machine.now board.now.plans board.now.causes board.now.limit
        edges.now) }
{
    let mut hops = Hops::new(alloc);
    put_hops(&mut hops, board, machine, &edges[at + 1..])?;
    put_hops(&mut hops, board, machine, &edges[..at])?;
    Ok(Close::Chain {
        first: point_by(board, edges[at].to),
        hops,
    })
}

/// The close of a circle: its loop, or where it leads through a stop, the chain from the front's
/// end round to the first point.
fn circle_of<N: Network>(
    alloc: Global,
    board: &Board<N>,
    machine: &Machine,
    edges: &[Edge],
) -> Result<Close, Memory>
    requires stands { Stands N.reading board.now machine.now }
    requires tellable { All (IsTellable machine.now board.now.plans board.now.causes
        board.now.limit) edges.now }
    requires few { length edges.now < 4294967294 }
    requires some { 0 < length edges.now }
    ensures { IfOk result (λ close. IsLoopOf machine.now board.now.plans board.now.causes
        board.now.limit edges.now close ⊎ IsCutOf machine.now board.now.plans board.now.causes
        board.now.limit edges.now close) }
{
    match first_untold(board, machine, edges) {
        None => loop_of(alloc, board, machine, edges),
        Some(stop) => cut_of(alloc, board, machine, edges, stop),
    }
}

/// Why no alternative goes through the branch that the board refused last.
pub(crate) fn close_of<N: Network>(
    alloc: Global,
    board: &Board<N>,
    machine: &Machine,
) -> Result<Close, Memory>
    requires stands { Stands N.reading board.now machine.now }
    requires reason { IsTellableReason N.refutes machine.now board.now }
    ensures { IfOk result (IsToldReason N.refutes machine.now board.now) }
{
    match board.reason() {
        Proof::Chain { first, edges } => chain_of(alloc, board, machine, first, edges),
        Proof::Circle { edges } => circle_of(alloc, board, machine, edges),
    }
}

/// Why no alternative goes through a branch that the board refused, and that is not stopped.
pub(crate) fn close_late<N: Network>(
    alloc: Global,
    board: &Board<N>,
    machine: &Machine,
) -> Result<Close, Memory>
    requires stands { Stands N.reading board.now machine.now }
    requires named { AreNamed board.now.plans }
    requires refused { (x : Suffix) × IsRefused N.refutes machine.now board.now x }
    ensures { IfOk result (ClosesRefused N.refutes machine.now board.now) }
{
    close_of(alloc, board, machine)
}

/// Why no alternative that goes through a branch ends by a tick, as the board refused last.
pub(crate) fn close_end<N: Network>(
    alloc: Global,
    board: &Board<N>,
    machine: &Machine,
    last: Tick,
) -> Result<Close, Memory>
    requires stands { Stands N.reading board.now machine.now }
    requires named { AreNamed board.now.plans }
    requires refused { (x : Suffix) × IsEndRefused N.refutes machine.now board.now x last }
    ensures { IfOk result (ClosesEnd N.refutes machine.now board.now last) }
{
    let _last = last;
    close_of(alloc, board, machine)
}

/// Why no alternative goes through the stop of the branch that the board carries.
pub(crate) fn close_stop<N: Network>(
    alloc: Global,
    board: &Board<N>,
    machine: &Machine,
) -> Result<Close, Memory>
    requires stands { Stands N.reading board.now machine.now }
    requires named { AreNamed board.now.plans }
    requires refused { (x : Suffix) × IsStopRefused N.refutes machine.now board.now x }
    ensures { IfOk result (ClosesStop N.refutes machine.now board.now) }
{
    close_of(alloc, board, machine)
}
