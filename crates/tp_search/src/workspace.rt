//! The memory of a search, and the search for an ask on a loaded board.
ghost use Rattle.std.specs.Prelude.{ℕ, ◌≡◌, ◌≢◌, ◌≤◌, [], pos, List, None, Some, IfErr, IfOk};
ghost use Rattle.tp_schedule.specs.SpentBudget.{IsSpent};
ghost use Rattle.tp_schedule.specs.declared.parts.Plan.{Plan};
ghost use Rattle.tp_placing.specs.Boards.{past_of};
ghost use Rattle.tp_placing.specs.LoadedBoard.{Stands};
ghost use Rattle.tp_placing.specs.Commits.{IsHeldFrom, IsLoadedFrom};
ghost use Rattle.tp_routes.specs.Index.{IsLeadIndex};
ghost use Rattle.tp_routes.specs.Tables.{AreRooms, KeepsRooms};
ghost use Rattle.tp_search.specs.Boards.{HasMarks, IsBack, IsReady};
ghost use Rattle.tp_search.specs.Limits.{HasNoLimit};
ghost use Rattle.tp_search.specs.Outcomes.{IsOutcome};
ghost use Rattle.tp_search.specs.Workspaces.{CanSearch, IsFor, StaysFor};
ghost use Rattle.tp_search.specs.declared.best_first.Outcome.TheVariants.{Again};
ghost use Rattle.tp_search.specs.declared.store.Limit.TheVariants.{Unsought};
ghost use Rattle.tp_bound_make.specs.Closes.{IsLimit};
ghost use Rattle.tp_bound_make.specs.RoomRows.{AreOrderedRows};
ghost use Rattle.tp_bound_make.specs.TreeProgress.{IsEarlyEnd};
ghost use Rattle.tp_bound_laws.specs.Once.{IsSimple};
ghost use Rattle.tp_bound_laws.specs.Short.{HasFewHops};
ghost use Rattle.tp_bound_laws.specs.Trees.{IsBoundTree};

use crate::best_first::{Outcome, search};
use crate::goals::{OpenGoal, find_goals};
use crate::problem::Problem;
use crate::store::{Limit, Store};
use crate::window_search::seek;
use std::alloc::Global;
use std::marker::Model;
use tp_base::{Memory, Network, Tick, Undo};
use tp_bound_make::{NotShown, show_limit};
use tp_bounds::BoundTree;
use tp_machine::Machine;
use tp_placing::{Board, boards_have_marks};
use tp_routes::Rooms;
use tp_schedule::Ask;
use tp_windows::{Effort, Windows};

/// A search by windows is tried only where so many lists can be stored: a small budget is spent as by lists alone.
const LEAST_NODES: u32 = 1_000;

/// So many lists are stored before windows are tried.
const FEW_LISTS: u32 = 64;

/// A search by windows takes so many steps at most, and few where its first way ends more than so many ticks before the best one.
const BRIEF: Effort = Effort {
    steps: 200_000,
    far: 16,
};

/// Where all lists are stored, a last search by windows takes so many steps for each of them, and gives up for no other reason.
const STEPS_A_LIST: u32 = 20;

/// For so many points and edges of loaded plans there is room in the windows.
const WINDOW_POINTS: u32 = 16_642;

const WINDOW_EDGES: u32 = 100_000;

/// All that a search takes memory for. It is for machines with the same numbers of locations and resources and the same
/// window as the one that it was made for. It stores as many lists as it has nodes: the budget of an ask.
pub struct Workspace {
    rooms: Rooms,
    store: Store,
    goals: Vec<OpenGoal>,
    windows: Option<Windows>,
}

// What becomes of its parts is proved here, once for all who let go of one.
impl Drop for Workspace {
    fn drop(self) {
        let Workspace {
            rooms: _,
            store: _,
            goals: _,
            windows: _,
        } = self;
    }
}

impl Model for Workspace {
    ghost use Rattle.tp_search.specs.Workspaces.{IsWorkspace, WorkspaceValue};

    ghost Value = { WorkspaceValue };

    ghost view = { λ w. record { rooms = w.rooms; nodes = w.store.capacity } };

    ghost invariant = { λ w. IsWorkspace w.rooms w.store w.goals };
}

impl Workspace {
    /// Takes all the memory that a search will ever hold beside its board: about 52 bytes for each node and 8 for each tick of
    /// the window, and some 20 megabytes for windows, of which the system hands over what is used.
    pub fn new(alloc: Global, machine: &Machine, nodes: u32) -> Result<Workspace, Memory>
        ensures made { IfOk result (λ work. IsFor work machine.now) }
        ensures nodes { IfOk result (λ work. work.nodes ≡ nodes) }
    {
        let windows = Windows::new(alloc, machine, WINDOW_POINTS, WINDOW_EDGES)?;
        Workspace::with(alloc, machine, nodes, Some(windows))
    }

    /// As `new`, for searches through lists alone: their plans are those that can be shown earliest by a walk through lists.
    pub fn of_lists(alloc: Global, machine: &Machine, nodes: u32) -> Result<Workspace, Memory>
        ensures made { IfOk result (λ work. IsFor work machine.now) }
        ensures nodes { IfOk result (λ work. work.nodes ≡ nodes) }
    {
        Workspace::with(alloc, machine, nodes, None)
    }

    fn with(
        alloc: Global,
        machine: &Machine,
        nodes: u32,
        windows: Option<Windows>,
    ) -> Result<Workspace, Memory>
        ensures made { IfOk result (λ work. IsFor work machine.now) }
        ensures nodes { IfOk result (λ work. work.nodes ≡ nodes) }
    {
        let locations = machine.locations.len();
        Ok(Workspace {
            rooms: Rooms::new(alloc, machine)?,
            store: Store::new(alloc, nodes, machine.window + 1)?,
            goals: Vec::with_capacity(alloc, locations as usize * 8)?,
            windows,
        })
    }

    /// Forgets on which machine it was used last.
    pub(crate) fn forget(&mut self)
        ensures { self.new ≡ record self.old { rooms = record self.old.rooms { filled = None } } }
    {
        self.rooms.forget();
    }

    /// Searches for an earliest plan of the ask for which the board is loaded, with no goal open and no mark in force: through
    /// a few lists, by windows where these do not suffice, and through as many lists as there can be. The workspace was used last
    /// on this machine, if it was.
    pub(crate) fn search<N: Network>(
        &mut self,
        board: &mut Board<N>,
        machine: &Machine,
        ask: &Ask,
    ) -> Outcome
        requires made { IsFor self.old machine.now }
        requires rooms { KeepsRooms self.old.rooms machine.now }
        requires held { (plans : List Plan)
            × IsHeldFrom machine.now plans ask.now board.old.plans }
        requires stands { Stands N.reading board.old machine.now }
        requires asked { board.old.ask ≡ Some ask.now }
        requires closed { board.old.steps ≡ [] }
        requires unmarked { past_of N.reading board.old ≡ [] }
        ensures outcome { IsOutcome N.reading board.old board.new
            machine.now ask.entry.now self.old.nodes result }
        ensures whole { result ≢ Again }
        ensures stays { StaysFor machine.now self.old self.new }
        ensures rooms { KeepsRooms self.new.rooms machine.now }
    {
        boards_have_marks(board);
        self.rooms.renew(machine, ask);
        match self.search_briefly(board, machine, ask) {
            Outcome::Again => self.search_whole(board, machine, ask),
            ended => ended,
        }
    }

    /// Whether windows are to be tried: the workspace has some, and stores enough lists.
    fn has_windows(&self) -> bool {
        self.windows.is_some() && self.store.len().saturating_add(self.store.spare()) >= LEAST_NODES
    }

    /// Searches through few lists, and by windows where they do not suffice. `Again` where neither comes to an end, or where no
    /// windows are to be tried.
    fn search_briefly<N: Network>(
        &mut self,
        board: &mut Board<N>,
        machine: &Machine,
        ask: &Ask,
    ) -> Outcome
        requires can { CanSearch N.reading self.old board.old machine.now ask.now }
        ensures outcome { IsOutcome N.reading board.old board.new
            machine.now ask.entry.now self.old.nodes result }
        ensures same { self.new ≡ self.old }
    {
        if !self.has_windows() {
            return Outcome::Again;
        }
        match self.search_to(board, machine, ask, Limit::Sought, Some(FEW_LISTS)) {
            Outcome::Again => self.search_windows(board, machine, ask, BRIEF),
            ended => ended,
        }
    }

    /// Searches by windows. `Again` where they come to no end.
    fn search_windows<N: Network>(
        &mut self,
        board: &mut Board<N>,
        machine: &Machine,
        ask: &Ask,
        effort: Effort,
    ) -> Outcome
        requires can { CanSearch N.reading self.old board.old machine.now ask.now }
        ensures outcome { IsOutcome N.reading board.old board.new
            machine.now ask.entry.now self.old.nodes result }
        ensures same { self.new ≡ self.old }
    {
        let problem = Problem {
            rooms: &self.rooms,
            machine,
            ask,
        };
        let Some(windows) = &mut self.windows else {
            return Outcome::Again;
        };
        match seek(windows, board, problem, effort) {
            Some(base) => Outcome::Found { base },
            None => Outcome::Again,
        }
    }

    /// How long a last search by windows may be.
    fn last_effort(&self) -> Effort {
        let lists = self.store.len().saturating_add(self.store.spare());
        Effort {
            steps: lists.saturating_mul(STEPS_A_LIST).max(BRIEF.steps),
            far: Tick::MAX,
        }
    }

    /// Searches through as many lists as there can be, and once more by windows where all of them are stored.
    fn search_whole<N: Network>(
        &mut self,
        board: &mut Board<N>,
        machine: &Machine,
        ask: &Ask,
    ) -> Outcome
        requires can { CanSearch N.reading self.old board.old machine.now ask.now }
        ensures outcome { IsOutcome N.reading board.old board.new
            machine.now ask.entry.now self.old.nodes result }
        ensures whole { result ≢ Again }
        ensures same { self.new ≡ self.old }
    {
        match self.search_lists(board, machine, ask) {
            Outcome::Spent { bound } => self.search_last(board, machine, ask, bound),
            ended => ended,
        }
    }

    /// Searches by windows, where all lists are stored and no plan ends before the bound. `Spent` where they come to no end.
    fn search_last<N: Network>(
        &mut self,
        board: &mut Board<N>,
        machine: &Machine,
        ask: &Ask,
        bound: Tick,
    ) -> Outcome
        requires can { CanSearch N.reading self.old board.old machine.now ask.now }
        requires spent { IsSpent machine.now board.old.plans ask.now self.old.nodes bound }
        ensures outcome { IsOutcome N.reading board.old board.new
            machine.now ask.entry.now self.old.nodes result }
        ensures whole { result ≢ Again }
        ensures same { self.new ≡ self.old }
    {
        if !self.has_windows() {
            return Outcome::Spent { bound };
        }
        let effort = self.last_effort();
        match self.search_windows(board, machine, ask, effort) {
            Outcome::Again => Outcome::Spent { bound },
            ended => ended,
        }
    }

    /// Searches through as many lists as there can be: up to a limit first, and without one where that does not suffice.
    fn search_lists<N: Network>(
        &mut self,
        board: &mut Board<N>,
        machine: &Machine,
        ask: &Ask,
    ) -> Outcome
        requires can { CanSearch N.reading self.old board.old machine.now ask.now }
        ensures outcome { IsOutcome N.reading board.old board.new
            machine.now ask.entry.now self.old.nodes result }
        ensures whole { result ≢ Again }
        ensures same { self.new ≡ self.old }
    {
        match self.search_to(board, machine, ask, Limit::Sought, None) {
            Outcome::Again => self.search_to(board, machine, ask, Limit::Unsought, None),
            ended => ended,
        }
    }

    /// Searches from the start on a board with no goal open, with this limit to begin with, until so many lists are stored, if
    /// their number is limited. The table of rooms is that of the ask.
    fn search_to<N: Network>(
        &mut self,
        board: &mut Board<N>,
        machine: &Machine,
        ask: &Ask,
        limit: Limit,
        most: Option<u32>,
    ) -> Outcome
        requires can { CanSearch N.reading self.old board.old machine.now ask.now }
        requires none { HasNoLimit limit }
        ensures outcome { IsOutcome N.reading board.old board.new
            machine.now ask.entry.now self.old.nodes result }
        ensures whole { limit ≡ Unsought → most ≡ None → result ≢ Again }
        ensures same { self.new ≡ self.old }
    {
        self.store.clear(ask.now);
        self.store.set_limit(limit);
        let problem = Problem {
            rooms: &self.rooms,
            machine,
            ask,
        };
        let begun = find_goals(&mut self.goals, board, problem);
        search(
            &mut self.goals,
            &mut self.store,
            board,
            problem,
            begun,
            most,
        )
    }

    /// Makes a tree that shows that no alternative of the ask, for which the board is loaded with no
    /// goal open and no mark in force, ends by the limit. Leaves the board as it was.
    pub(crate) fn show<N: Network>(
        &mut self,
        alloc: Global,
        board: &mut Board<N>,
        machine: &Machine,
        ask: &Ask,
        limit: Tick,
    ) -> Result<BoundTree, NotShown>
        requires made { IsFor self.old machine.now }
        requires loaded { (plans : List Plan)
            × IsLoadedFrom machine.now plans ask.now board.old.plans }
        requires ready { IsReady N.reading board.old machine.now ask.now }
        requires limit { IsLimit machine.now ask.now (pos limit) }
        requires unmarked { past_of N.reading board.old ≡ [] }
        ensures tree { IfOk result (IsBoundTree machine.now board.old.plans ask.entry.now
            (pos limit)) }
        ensures rows { IfOk result (λ tree. AreOrderedRows machine.now ask.entry.now tree.rows) }
        ensures short { IfOk result HasFewHops }
        ensures simple { IfOk result (IsSimple machine.now board.old.plans ask.entry.now
            (pos limit)) }
        ensures early { IfErr result (IsEarlyEnd machine.now board.old.plans ask.entry.now limit) }
        ensures back { IsBack N.reading board.old board.new machine.now }
        ensures stays { StaysFor machine.now self.old self.new }
        ensures rooms { KeepsRooms self.new.rooms machine.now }
    {
        self.rooms.fill(machine, ask);
        show_limit(alloc, &self.rooms, board, machine, ask, limit)
    }
}
