//! What a board tells of a refusal, by name.
ghost use Rattle.std.specs.Prelude.{◌≡◌, ◌<◌, IfOk, Some, IsSome, map};
ghost use Rattle.tp_machine.specs.declared.machine.Machine.{Machine};
ghost use Rattle.tp_placing.specs.Boards.{suffix_of};
ghost use Rattle.tp_placing.specs.LoadedBoard.{Stands};
ghost use Rattle.rows_engines.specs.NamedReasons.{AreNames, HaveCauses, IsTold, edge_name};

use std::alloc::Global;
use std::test::Fail;
use tp_base::{Edge, Network, Proof, Tick};
use tp_placing::{Board, Spot, Why};

/// The point where a chain begins, if it is one, and of each edge why it stands and the point that it leads to.
#[derive(Drop)]
pub(crate) struct NamedChain {
    pub(crate) first: Option<Spot>,
    pub(crate) edges: Vec<(Why, Spot)>,
}

/// The names of the edges.
fn edge_names<N: Network>(
    alloc: Global,
    board: &Board<N>,
    edges: &[Edge],
) -> Result<Vec<(Why, Spot)>, Fail>
    requires stands { (m : Machine) × Stands N.reading board.now m }
    requires causes { HaveCauses board.now edges.now }
    ensures { IfOk result (λ names. map Some names.items ≡ map (edge_name board.now) edges.now) }
{
    let mut names = Vec::new(alloc);
    'edges: for at in 0..edges.len() {
        let edge = edges[at];
        match names.push((board.why_of(edge), board.spot_of(edge.to))) {
            Ok(()) => {}
            Err(_) => return Err(Fail::from("memory")),
        }
    }
    Ok(names)
}

/// The names of the last refusal's reason.
pub(crate) fn reason_of<N: Network>(alloc: Global, board: &Board<N>) -> Result<NamedChain, Fail>
    requires stands { (m : Machine) × Stands N.reading board.now m }
    requires told { IsTold N.refutes board.now }
    ensures { IfOk result
        (λ reason. AreNames N.refutes board.now reason.first reason.edges.items) }
{
    match board.reason() {
        Proof::Chain { first, edges } => Ok(NamedChain {
            first: Some(board.spot_of(first)),
            edges: edge_names(alloc, board, edges)?,
        }),
        Proof::Circle { edges } => Ok(NamedChain {
            first: None,
            edges: edge_names(alloc, board, edges)?,
        }),
    }
}

/// Has the board refuse that the end comes by a tick, and tells the reason.
pub(crate) fn reason_by<N: Network>(
    alloc: Global,
    board: &mut Board<N>,
    last: Tick,
) -> Result<NamedChain, Fail>
    requires stands { (m : Machine) × Stands N.reading board.old m }
    requires open { IsSome (suffix_of board.old) }
    ensures { IfOk result
        (λ reason. AreNames N.refutes board.new reason.first reason.edges.items) }
{
    if board.end_bound() <= last {
        return Err(Fail::from("the end can come by then"));
    }
    board.refuse_end(last);
    reason_of(alloc, board)
}
