//! The trees that show that an ask has no alternative, or none that ends before a tick.
ghost use Rattle.std.specs.Prelude.{◌≡◌, ◌+◌, ◌≤◌, [], List, IfOk};
ghost use Rattle.tp_schedule.specs.Answers.{IsAlternative, NoneBefore};
ghost use Rattle.tp_schedule.specs.declared.parts.Plan.{Plan};
ghost use Rattle.tp_placing.specs.Boards.{past_of};
ghost use Rattle.tp_placing.specs.Commits.{IsLoadedFrom};
ghost use Rattle.tp_routes.specs.Tables.{KeepsRooms};
ghost use Rattle.tp_search.specs.Boards.{IsBack, IsReady};
ghost use Rattle.tp_search.specs.Workspaces.{IsFor, StaysFor};
ghost use Rattle.tp_bound_make.specs.RoomRows.{AreOrderedRows};
ghost use Rattle.tp_bound_laws.specs.Short.{IsShortTreeFor};
ghost use Rattle.tp_bound_laws.specs.declared.claim.Claim.TheVariants.{Earliest, Never};

use crate::workspace::Workspace;
use std::alloc::Global;
use tp_base::{Memory, Network, Tick};
use tp_bound_make::NotShown;
use tp_bounds::BoundTree;
use tp_machine::Machine;
use tp_placing::Board;
use tp_schedule::Ask;

/// A tree that shows that the ask for which the board is loaded, with no goal open and no mark in force, has no alternative,
/// which is so. Its room rows stand by locations, then F before B, then by front done, then by back done. No chain and no loop
/// passes a point twice, but for a loop's return. The board is as before, whatever the answer. Where memory runs out, the call
/// may be made again.
pub fn show_never<N: Network>(
    alloc: Global,
    work: &mut Workspace,
    board: &mut Board<N>,
    machine: &Machine,
    ask: &Ask,
) -> Result<BoundTree, Memory>
    requires work { IsFor work.old machine.now }
    requires loaded { (plans : List Plan)
        × (IsLoadedFrom machine.now plans ask.now board.old.plans
        × ((other : List Plan) → ¬ IsAlternative machine.now plans ask.now other)) }
    requires ready { IsReady N.reading board.old machine.now ask.now }
    requires unmarked { past_of N.reading board.old ≡ [] }
    ensures tree { (plans : List Plan)
        → IsLoadedFrom machine.now plans ask.entry.now board.old.plans
        → IfOk result (IsShortTreeFor machine.now plans ask.entry.now Never) }
    ensures rows { IfOk result (λ tree. AreOrderedRows machine.now ask.entry.now tree.rows) }
    ensures back { IsBack N.reading board.old board.new machine.now }
    ensures work { StaysFor machine.now work.old work.new }
    ensures rooms { KeepsRooms work.new.rooms machine.now }
{
    let horizon = ask.now + machine.window;
    match work.show(alloc, board, machine, ask, horizon) {
        Ok(tree) => Ok(tree),
        Err(NotShown::Memory) => Err(Memory),
        Err(NotShown::Early) => unreachable!(),
    }
}

/// A tree that shows that the ask for which the board is loaded, with no goal open and no mark in force, has no alternative that
/// ends before this tick, which is so. The board is as before, whatever the answer.
pub(crate) fn show_earliest<N: Network>(
    alloc: Global,
    work: &mut Workspace,
    board: &mut Board<N>,
    machine: &Machine,
    ask: &Ask,
    end: Tick,
) -> Result<BoundTree, Memory>
    requires work { IsFor work.old machine.now }
    requires loaded { (plans : List Plan)
        × IsLoadedFrom machine.now plans ask.now board.old.plans }
    requires none { NoneBefore machine.now board.old.plans ask.now end }
    requires some { 1 ≤ end }
    requires within { end ≤ ask.now.now + machine.now.window }
    requires ready { IsReady N.reading board.old machine.now ask.now }
    requires unmarked { past_of N.reading board.old ≡ [] }
    ensures tree { (plans : List Plan)
        → IsLoadedFrom machine.now plans ask.entry.now board.old.plans
        → IfOk result (IsShortTreeFor machine.now plans ask.entry.now (Earliest end)) }
    ensures rows { IfOk result (λ tree. AreOrderedRows machine.now ask.entry.now tree.rows) }
    ensures back { IsBack N.reading board.old board.new machine.now }
    ensures work { StaysFor machine.now work.old work.new }
    ensures rooms { KeepsRooms work.new.rooms machine.now }
{
    match work.show(alloc, board, machine, ask, end - 1) {
        Ok(tree) => Ok(tree),
        Err(NotShown::Memory) => Err(Memory),
        Err(NotShown::Early) => unreachable!(),
    }
}
