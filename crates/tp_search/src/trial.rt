//! The earliest plan of an ask on a board, before it is written into the schedule.
ghost use Rattle.std.specs.Prelude.{◌≡◌, ◌+◌, ◌<◌, ◌≤◌, [], false, List, None, Some, IfErr, IfOk, IsSome, IsSomeAnd};
ghost use Rattle.std.specs.Borrow.{RestsIfErr, sem};
ghost use Rattle.tp_machine.specs.declared.machine.Machine.{Machine as MachineValue};
ghost use Rattle.tp_schedule.specs.Answers.{IsLeast, follows_front};
ghost use Rattle.tp_schedule.specs.Plans.{plan_of, without};
ghost use Rattle.tp_schedule.specs.declared.parts.Plan.{Plan};
ghost use Rattle.tp_placing.specs.Boards.{BoardValue, past_of, suffix_of};
ghost use Rattle.tp_placing.specs.LoadedBoard.{Stands};
ghost use Rattle.tp_placing.specs.Commits.{IsHeldFrom, IsLoadedFrom, IsWrittenFor};
ghost use Rattle.tp_placing.specs.contracts.board.Board.{the_row};
ghost use Rattle.tp_routes.specs.Tables.{KeepsRooms};
ghost use Rattle.tp_search.specs.Boards.{IsBack};
ghost use Rattle.tp_search.specs.Trials.{EndsEarliest, IsEarliestTo, IsNoPlan, IsSameTrial, IsTrial, board_in, borrow_in, end_in};
ghost use Rattle.tp_search.specs.Workspaces.{IsFor, StaysFor};
ghost use Rattle.tp_bound_make.specs.RoomRows.{AreOrderedRows};
ghost use Rattle.tp_bound_laws.specs.Short.{IsShortTreeFor};
ghost use Rattle.tp_bound_laws.specs.declared.claim.Claim.TheVariants.{Earliest};

use crate::best_first::Outcome;
use crate::bound_trees::show_earliest;
use crate::replay::lay_again;
use crate::workspace::Workspace;
use std::alloc::Global;
use tp_base::{Mark, Memory, Network, Tick, Undo};
use tp_bounds::BoundTree;
use tp_machine::Machine;
use tp_placing::{Board, boards_have_marks, marks_keep_boards};
use tp_schedule::{Ask, Schedule};

/// Why there is no plan: there can be none, or the workspace stores too few lists to tell. With `Spent` none ends before the
/// bound, in ticks.
#[derive(Clone, Copy, PartialEq, Eq, Debug)]
pub enum NoPlan {
    Never,
    Spent { bound: Tick },
}

/// An earliest plan, which the board carries. A trial can't be dropped: it is to be committed or abandoned.
pub struct Trial<'b, N: Network> {
    board: &'b mut Board<N>,
    base: Mark,
    end: Tick,
}

/// Searches for an earliest plan of the ask for which the board is loaded, with no goal open and no mark in force. The board
/// may hold plans that are over beside the live ones. Without a plan the board is as before. Takes no memory.
pub fn plan<'b, N: Network>(
    board: &'b mut Board<N>,
    work: &mut Workspace,
    machine: &Machine,
    ask: &Ask,
) -> Result<Trial<'b, N>, NoPlan>
    requires work { IsFor work.old machine.now }
    requires held { (plans : List Plan)
        × IsHeldFrom machine.now plans ask.now board.old.plans }
    requires stands { Stands N.reading board.old machine.now }
    requires asked { board.old.ask ≡ Some ask.now }
    requires closed { board.old.steps ≡ [] }
    requires unmarked { past_of N.reading board.old ≡ [] }
    ensures* rests { sem 𝓛
        (RestsIfErr (the_row N.row N.Network.own N.Undo) board.entry borrow_in result
        (λ new. IsBack N.reading board.old new machine.now)) }
    ensures same_reference { IfOk result (λ trial. borrow_in trial ≡ board.entry.ghost_name) }
    ensures trial { IfOk result (IsTrial N.reading board.old machine.now) }
    ensures end { (plans : List Plan) → IsHeldFrom machine.now plans ask.entry.now
        board.old.plans
        → IfOk result (λ trial. EndsEarliest machine.now plans ask.entry.now (end_in trial)) }
    ensures none { (plans : List Plan)
        → IsHeldFrom machine.now plans ask.entry.now board.old.plans
        → IfErr result (IsNoPlan machine.now plans ask.entry.now work.old.nodes) }
    ensures work { StaysFor machine.now work.old work.new }
{
    work.forget();
    find_plan(board, work, machine, ask)
}

/// Searches for the earliest plan of the ask on a loaded board. The workspace was used last on this machine, if it was used.
pub(crate) fn find_plan<'b, N: Network>(
    board: &'b mut Board<N>,
    work: &mut Workspace,
    machine: &Machine,
    ask: &Ask,
) -> Result<Trial<'b, N>, NoPlan>
    requires work { IsFor work.old machine.now }
    requires rooms { KeepsRooms work.old.rooms machine.now }
    requires held { (plans : List Plan)
        × IsHeldFrom machine.now plans ask.now board.old.plans }
    requires stands { Stands N.reading board.old machine.now }
    requires asked { board.old.ask ≡ Some ask.now }
    requires closed { board.old.steps ≡ [] }
    requires unmarked { past_of N.reading board.old ≡ [] }
    ensures* rests { sem 𝓛
        (RestsIfErr (the_row N.row N.Network.own N.Undo) board.entry borrow_in result
        (λ new. IsBack N.reading board.old new machine.now)) }
    ensures same_reference { IfOk result (λ trial. borrow_in trial ≡ board.entry.ghost_name) }
    ensures trial { IfOk result (IsTrial N.reading board.old machine.now) }
    ensures end { (plans : List Plan) → IsHeldFrom machine.now plans ask.entry.now
        board.old.plans
        → IfOk result (λ trial. EndsEarliest machine.now plans ask.entry.now (end_in trial)) }
    ensures none { (plans : List Plan)
        → IsHeldFrom machine.now plans ask.entry.now board.old.plans
        → IfErr result (IsNoPlan machine.now plans ask.entry.now work.old.nodes) }
    ensures work { StaysFor machine.now work.old work.new }
    ensures rooms { KeepsRooms work.new.rooms machine.now }
{
    match work.search(board, machine, ask) {
        Outcome::Found { base } => {
            let end = board.end_bound();
            Ok(Trial { board, base, end })
        }
        Outcome::Never => Err(NoPlan::Never),
        Outcome::Spent { bound } => Err(NoPlan::Spent { bound }),
        Outcome::Again => unreachable!(),
    }
}

impl<N: Network> Trial<'_, N> {
    /// The tick at which the asked copy ends.
    pub fn end(&self) -> Tick
        ensures { result ≡ end_in self.now }
    {
        self.end
    }

    /// A tree that shows that no alternative ends before the trial does, for the schedule and the ask that the board was
    /// loaded for. Its room rows stand by locations, then F before B, then by front done, then by back done. No chain and no loop
    /// passes a point twice, but for a loop's return. The trial is as before, whatever the answer. Where memory runs out, the call
    /// may be made again.
    pub fn show(
        &mut self,
        alloc: Global,
        work: &mut Workspace,
        machine: &Machine,
    ) -> Result<BoundTree, Memory>
        requires work { IsFor work.old machine.now }
        requires trial { (b : BoardValue N) × IsTrial N.reading b machine.now self.old }
        requires loaded { IsSomeAnd (board_in self.old).ask (λ ask. (plans : List Plan)
            × IsLoadedFrom machine.now plans ask (board_in self.old).plans) }
        ensures tree { IsSomeAnd (board_in self.old).ask (λ ask. (plans : List Plan)
            → IsLoadedFrom machine.now plans ask (board_in self.old).plans
            → IfOk result (IsShortTreeFor machine.now plans ask (Earliest (end_in self.old)))) }
        ensures rows { IsSomeAnd (board_in self.old).ask
            (λ ask. IfOk result (λ tree. AreOrderedRows machine.now ask tree.rows)) }
        ensures trial { (b : BoardValue N)
            → IsTrial N.reading b machine.now self.old
            → IsTrial N.reading b machine.now self.new }
        ensures same_reference { borrow_in self.new ≡ borrow_in self.old }
        ensures same { IsSameTrial self.old self.new }
        ensures work { StaysFor machine.now work.old work.new }
        ensures rooms { KeepsRooms work.old.rooms machine.now
            → KeepsRooms work.new.rooms machine.now }
    {
        marks_keep_boards::<N>();
        let Some(ask) = self.board.asked() else {
            unreachable!()
        };
        let changes = match self.board.changes(alloc) {
            Ok(changes) => changes,
            Err(Memory) => return Err(Memory),
        };
        self.board.undo_to(self.base);
        let tree = show_earliest(alloc, work, self.board, machine, &ask, self.end);
        boards_have_marks(self.board);
        self.base = self.board.mark();
        lay_again(self.board, machine, &ask, changes.as_slice());
        tree
    }

    /// Writes the plan that the board carries, and the times of all live plans with it, into the schedule of which the board
    /// holds the live plans, and takes it off the board, which is then as before `plan`. Takes one spare plan for a new copy, and
    /// no memory. Answers whether another plan moved. The board holds the schedule as it was: whoever asks next renews it.
    pub fn commit(self, machine: &Machine, schedule: &mut Schedule) -> bool
        requires trial { (b : BoardValue N)
            × IsTrial N.reading b machine.now self }
        requires held { IsSomeAnd (board_in self).ask
            (λ ask. IsHeldFrom machine.now schedule.old.plans ask (board_in self).plans) }
        requires spare { IsSomeAnd (board_in self).ask
            (λ ask. plan_of ask.sheet schedule.old.plans ≡ None → 0 < schedule.old.spare) }
        ensures earliest { IsSomeAnd (board_in self.entry).ask
            (λ ask. IsEarliestTo machine.now schedule.old.plans ask
            (end_in self.entry) schedule.new.plans) }
        ensures written { IsSomeAnd (board_in self.entry).ask
            (λ ask. IsSomeAnd (suffix_of (board_in self.entry))
            (IsWrittenFor machine.now schedule.old.plans (board_in self.entry).plans ask
            schedule.new.plans)) }
        ensures least { IsSomeAnd (board_in self.entry).ask
            (λ ask. IsLeast machine.now ask.now (follows_front ask) schedule.new.plans) }
        ensures unmoved { result ≡ false → IsSomeAnd (board_in self.entry).ask
            (λ ask. without ask.sheet schedule.new.plans
            ≡ without ask.sheet schedule.old.plans) }
        ensures new_copy { IsSomeAnd (board_in self.entry).ask
            (λ ask. plan_of ask.sheet schedule.old.plans ≡ None → schedule.new.spare + 1
            ≡ schedule.old.spare) }
        ensures in_flight { IsSomeAnd (board_in self.entry).ask
            (λ ask. IsSome (plan_of ask.sheet schedule.old.plans) → schedule.new.spare
            ≡ schedule.old.spare) }
        ensures back { (b : BoardValue N) (m : MachineValue)
            → IsTrial N.reading b m self.entry
            → IsBack N.reading b self.exit.0.now m }
    {
        marks_keep_boards::<N>();
        let Trial {
            board,
            base,
            end: _,
        } = self;
        let moved = board.commit(machine, schedule);
        board.undo_to(base);
        moved
    }

    /// Takes the plan off the board, which is then as before `plan`.
    pub fn abandon(self)
        requires trial { (b : BoardValue N) × (machine : Machine)
            × IsTrial N.reading b machine self }
        ensures back { (b : BoardValue N) (machine : Machine)
            → IsTrial N.reading b machine self.entry
            → IsBack N.reading b self.exit.0.now machine }
    {
        marks_keep_boards::<N>();
        let Trial {
            board,
            base,
            end: _,
        } = self;
        board.undo_to(base);
    }
}
