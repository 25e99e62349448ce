//! Walks over halves of windows: no alternative ends before the best way.
ghost use Rattle.std.specs.Prelude.{◌≡◌, ℕ, ◌-◌, ◌<◌, ◌≤◌, ◌∷◌, [], List, false, IsTrue, None, Some, length};
ghost use Rattle.tp_base.specs.Net.{Net};
ghost use Rattle.tp_machine.specs.declared.machine.Machine.{Machine as MachineValue};
ghost use Rattle.tp_schedule.specs.declared.parts.Ask.{Ask as AskValue};
ghost use Rattle.tp_schedule.specs.Answers.{IsAsked, NoneBefore};
ghost use Rattle.tp_schedule.specs.Legality.{IsLegal};
ghost use Rattle.tp_schedule.specs.PlannerAnswers.{IsKnownGoal};
ghost use Rattle.tp_schedule.specs.Spots.{Spot};
ghost use Rattle.tp_schedule.specs.declared.parts.Plan.{Plan};
ghost use Rattle.tp_constraints.specs.Numbers.{table_of};
ghost use Rattle.tp_placing.specs.Boards.{suffix_of};
ghost use Rattle.tp_placing.specs.Commits.{CanPut};
ghost use Rattle.tp_placing.specs.LoadedBoard.{Stands};
ghost use Rattle.tp_windows.specs.Halves.{AreLeft};
ghost use Rattle.tp_windows.specs.KeptRows.{HaveOrders};
ghost use Rattle.tp_windows.specs.Sides.{IsFit};
ghost use Rattle.tp_windows.specs.Roots.{IsRootBy};
ghost use Rattle.tp_windows.specs.Walked.{IsWalked};
ghost use Rattle.tp_windows.specs.Walks.{IsGoneOn, IsSoonerTurn, IsTurned, halves_of, siblings};

use crate::conflicts::Trial;
use crate::edge_links::LinkedEdges;
use crate::halves::{Looked, Node, charge, look, seek_still};
use crate::kept_rows::KeptRows;
use crate::pick::Pick;
use crate::ranges::{Edges, Ranges, Side};
use crate::rests::Rests;
use crate::root::{Root, close_before, read_root};
use crate::times::Spread;
use crate::way::Labels;
use std::alloc::{AllocError, Global};
use tp_base::{Memory, Network, Tick};
use tp_machine::Machine;
use tp_placing::Board;
use tp_routes::ActionIndex;
use tp_schedule::Ask;

/// All that a walk over halves of windows takes memory for.
#[derive(Drop)]
pub struct Windows {
    root: Root,
    node: Node,
}

/// How long a walk may be: it takes so many steps at most, and few more once the first way ends more than so many ticks before the best
/// one known.
#[derive(Clone, Copy)]
pub struct Effort {
    pub steps: u32,
    pub far: Tick,
}

/// How a walk ended: no alternative ends before the tick, or nothing is known.
#[derive(Clone, Copy)]
pub enum Walked {
    Ended { end: Tick },
    GaveUp,
}

/// How a turn of a walk ended: other halves wait, or none does, of all that end before the tick; or nothing is known.
#[derive(Clone, Copy)]
pub(crate) enum Turned {
    Next(Tick),
    Over(Tick),
    Lost,
}

/// How many steps a half costs.
const HALF_STEPS: u32 = 20;

/// Goes on to the half that waits last beside those of a path. Answers false where none does.
fn go_back(path: &mut Vec<Side>) -> bool
    ensures next { IsTrue result → (table : List Spot)
        → halves_of table path.new.items ∷ siblings (halves_of table path.new.items)
        ≡ siblings (halves_of table path.old.items) }
    ensures over { result ≡ false → (table : List Spot)
        → siblings (halves_of table path.old.items) ≡ [] }
{
    'sides: while let Some(side) = path.pop() {
        if side.later {
            path.push_reserved(Side {
                later: false,
                ..side
            });
            return true;
        }
    }
    false
}

/// Goes on from a half that is closed.
fn close(path: &mut Vec<Side>, end: Tick) -> Turned
    ensures sooner { 0 < end → IsSoonerTurn end result }
    ensures gone { (machine : MachineValue) (plans : List Plan) (ask : AskValue)
        → AreLeft machine plans ask (siblings (halves_of (table_of plans) path.old.items)) (end - 1)
        → IsGoneOn machine plans ask path.new.items result }
{
    if go_back(path) {
        Turned::Next(end)
    } else {
        Turned::Over(end)
    }
}

/// Goes on to the high side of a half that is split.
fn split(path: &mut Vec<Side>, side: Side, end: Tick) -> Turned
    ensures sooner { 0 < end → IsSoonerTurn end result }
    ensures turned { (machine : MachineValue) (plans : List Plan) (ask : AskValue)
        → IsTurned machine plans ask path.old.items path.new.items end result }
{
    if path.len() == path.capacity() {
        return Turned::Lost;
    }
    path.push_reserved(Side {
        later: true,
        ..side
    });
    Turned::Next(end)
}

/// Looks at the half to which the path leads, and goes on from it.
fn turn(
    root: &Root,
    node: &mut Node,
    machine: &Machine,
    ask: &Ask,
    end: Tick,
    steps: &mut u32,
) -> Turned
    requires fit { IsFit root.now.ranges root.now.edges }
    requires some { 0 < end }
    ensures orders { (plans : List Plan) → HaveOrders machine.now plans node.old.rows.rows
        → HaveOrders machine.now plans node.new.rows.rows }
    ensures steps { steps.new ≤ steps.old }
    ensures sooner { IsSoonerTurn end result }
    ensures turned { (plans : List Plan) (net : Net) (limit : ℕ) → end - 1 ≤ limit
        → IsKnownGoal machine.now ask.entry.now.goal
        → IsRootBy machine.now plans ask.entry.now net limit root.now
        → HaveOrders machine.now plans node.old.rows.rows
        → IsTurned machine.now plans ask.entry.now node.old.path.items node.new.path.items end
        result }
{
    match look(root, node, machine, ask, end, steps) {
        Looked::Closed => close(&mut node.path, end),
        Looked::Found(sooner) => close(&mut node.path, sooner),
        Looked::Split(side) => split(&mut node.path, side, end),
        Looked::GaveUp => Turned::Lost,
    }
}

/// Walks over halves from the root until none waits, or the steps are spent.
fn walk_from(
    root: &Root,
    node: &mut Node,
    machine: &Machine,
    ask: &Ask,
    end: Tick,
    steps: &mut u32,
) -> Walked
    requires fit { IsFit root.now.ranges root.now.edges }
    requires some { 0 < end }
    ensures { (plans : List Plan) (net : Net) → IsKnownGoal machine.now ask.entry.now.goal
        → IsRootBy machine.now plans ask.entry.now net (end - 1) root.now
        → HaveOrders machine.now plans node.old.rows.rows → IsLegal machine.now plans
        → IsAsked machine.now plans ask.entry.now
        → IsWalked machine.now plans ask.entry.now result }
{
    node.path.clear();
    let mut bound = end;
    'halves: while *steps >= HALF_STEPS {
        *steps -= HALF_STEPS;
        match turn(root, node, machine, ask, bound, steps) {
            Turned::Next(sooner) => bound = sooner,
            Turned::Over(sooner) => return Walked::Ended { end: sooner },
            Turned::Lost => return Walked::GaveUp,
        }
    }
    Walked::GaveUp
}

impl Windows {
    /// Takes all the memory that a walk will ever hold, for boards with so many points and edges.
    pub fn new(
        alloc: Global,
        machine: &Machine,
        points: u32,
        edges: u32,
    ) -> Result<Windows, Memory> {
        let root = new_root(alloc, machine, points, edges)?;
        let node = new_node(alloc, machine, points)?;
        Ok(Windows { root, node })
    }

    /// The best way, the last action first.
    pub fn best(&self) -> &[Pick] {
        &self.node.trial.best
    }

    /// Walks over halves until none waits: no alternative of the ask, for which the board is loaded with no goal open, ends before the
    /// tick that is answered. The best way ends there, if the tick is less than `end`.
    pub fn walk<N: Network>(
        &mut self,
        board: &Board<N>,
        machine: &Machine,
        ask: &Ask,
        end: Tick,
        effort: Effort,
    ) -> Walked
        requires stands { Stands N.reading board.now machine.now }
        requires asked { board.now.ask ≡ Some ask.now }
        requires closed { suffix_of board.now ≡ None }
        requires can_put { CanPut machine.now board.now.plans ask.now }
        ensures none { IsWalked machine.now board.now.plans ask.entry.now result }
    {
        let mut steps = effort.steps;
        self.node.far = effort.far;
        self.node.trial.best.clear();
        self.node.trial.spread.left = steps.saturating_mul(4);
        if end == 0 {
            return Walked::Ended { end };
        }
        if !self.read(board, machine, ask) {
            return Walked::GaveUp;
        }
        let first = seek_still(&self.root, &mut self.node, machine, ask, end, &mut steps);
        let left = self.node.trial.spread.left;
        close_before(
            &mut self.root,
            &mut self.node.trial.spread,
            board.points(),
            first,
        );
        charge(&mut steps, left, self.node.trial.spread.left);
        walk_from(&self.root, &mut self.node, machine, ask, first, &mut steps)
    }

    /// Reads a board with no goal open, loaded for the ask. Answers false where there is no room.
    fn read<N: Network>(&mut self, board: &Board<N>, machine: &Machine, ask: &Ask) -> bool
        requires stands { Stands N.reading board.now machine.now }
        requires asked { board.now.ask ≡ Some ask.now }
        requires closed { suffix_of board.now ≡ None }
        requires goal { IsKnownGoal machine.now ask.now.goal }
        ensures root { IsTrue result → (limit : ℕ)
            → IsRootBy machine.now board.now.plans ask.entry.now
            (N.reading.net board.now.net) limit self.new.root }
        ensures orders { IsTrue result
            → HaveOrders machine.now board.now.plans self.new.node.rows.rows }
    {
        if !read_root(&mut self.root, board, machine, ask) {
            return false;
        }
        self.node.rows.read(board, machine)
    }
}

/// Takes memory for what a walk begins with.
fn new_root(alloc: Global, machine: &Machine, points: u32, edges: u32) -> Result<Root, AllocError> {
    let from = LinkedEdges::new(alloc, points, edges)?;
    let to = LinkedEdges::new(alloc, points, edges)?;
    let ranges = Ranges::new(alloc, points)?;
    let rests = Rests::new(alloc, machine)?;
    let starts = ActionIndex::new(alloc, machine.locations.len())?;
    Ok(Root {
        edges: Edges { from, to },
        ranges,
        rests,
        starts,
        ahead: None,
        behind: None,
    })
}

/// Takes memory for the trials of ways.
fn new_trial(alloc: Global, points: u32) -> Result<Trial, AllocError> {
    let queue = Vec::with_capacity(alloc, (points as usize).saturating_mul(4))?;
    let lows = Vec::with_capacity(alloc, points as usize)?;
    let way = Vec::with_capacity(alloc, 64)?;
    let best = Vec::with_capacity(alloc, 64)?;
    Ok(Trial {
        spread: Spread { queue, left: 0 },
        lows,
        way,
        best,
    })
}

/// Takes memory for halves.
fn new_node(alloc: Global, machine: &Machine, points: u32) -> Result<Node, AllocError> {
    let ranges = Ranges::new(alloc, points)?;
    let rows = KeptRows::new(alloc, machine, points.saturating_mul(4))?;
    let labels = Labels::new(alloc, machine, 20000)?;
    let trial = new_trial(alloc, points)?;
    Ok(Node {
        path: Vec::with_capacity(alloc, 1000)?,
        ranges,
        rows,
        labels,
        trial,
        far: 0,
    })
}
