//! A workspace and a board as a planner.
ghost use Rattle.std.specs.Prelude.{◌≡◌, ◌<◌, ◌≤◌, ◌⊎◌, ◌++◌, [], false, true, Some, IfErr, IfOk, IsOk, IsTrue, OnErr, OnOk, vec_capacity, vec_len};
ghost use Rattle.tp_schedule.specs.PlannerAnswers.{CanAsk, CanSettle, HasTimeFrom, IsAnswer, IsSettled};
ghost use Rattle.tp_schedule.specs.PlannerAnswers.Deed.{replied};
ghost use Rattle.tp_schedule.specs.Plans.{without};
ghost use Rattle.tp_schedule.specs.declared.parts.Origin.TheVariants.{Feeder};
ghost use Rattle.tp_placing.specs.Calls.{IsSameLoad};
ghost use Rattle.tp_placing.specs.Inside.{most_edges, most_points, most_steps};
ghost use Rattle.tp_placing.specs.Commits.{IsHeldFrom, IsLoadedFrom};
ghost use Rattle.tp_routes.specs.Tables.{KeepsRooms};
ghost use Rattle.tp_search.specs.Boards.{IsAtRest};
ghost use Rattle.tp_search.specs.Engines.{AddsTree, EngineLasts, Follows, HasFewLists, HoldsPlans, IsSameEngine, KeepsTrees, Serves, StepsOn, list_of};
ghost use Rattle.tp_search.specs.Trials.{EndsEarliest, IsNoPlan};
ghost use Rattle.tp_search.specs.Workspaces.{IsFor, IsSpentOf};

use crate::ask_answer::{Answered, answer_loaded, answer_with_tree, earliest_end};
use crate::trial::NoPlan;
use crate::workspace::Workspace;
use std::alloc::Global;
use std::marker::Model;
use tp_base::{Memory, Network, Tick, Undo};
use tp_bounds::BoundTree;
use tp_machine::Machine;
use tp_placing::Board;
use tp_schedule::{Ask, Halt, Origin, Planner, Reply, Schedule};

/// A planner for machines with the same numbers of locations and resources and the same window as the one that it was made
/// for. It stores as many lists of choices as it has nodes: the budget of an ask. With bounds it keeps a tree for each answer
/// that is a plan or a none, in their order. Its board is kept from ask to ask, on one machine, where it was left at rest, and
/// follows the schedule then. Its rooms are kept where the schedule is known to be as the last answer left it.
pub struct Engine<N: Network> {
    alloc: Global,
    work: Workspace,
    board: Board<N>,
    kept: bool,
    /// Whether the last answer moved a plan other than the asked copy's.
    moved: bool,
    bounds: bool,
    trees: Vec<BoundTree>,
}

// What becomes of its parts is proved here, once for all who let go of one.
impl<N: Network + Drop> Drop for Engine<N> {
    fn drop(self) {
        let Engine {
            alloc: _,
            work: _,
            board: _,
            kept: _,
            moved: _,
            bounds: _,
            trees: _,
        } = self;
    }
}

impl<N: Network> Model for Engine<N> {
    ghost use Rattle.tp_search.specs.Engines.{EngineValue, IsEngine};

    ghost Value = { EngineValue N };

    ghost view = { λ e. record {
      work = e.work;
      board = e.board;
      kept = e.kept;
      moved = e.moved;
      bounds = e.bounds;
      trees = e.trees.items;
    } };

    ghost invariant = { λ e. IsEngine e.work e.board };
}

impl<N: Network + Drop> Engine<N> {
    /// Takes all the memory that it will ever hold beside its network and its trees. The network was made for at least 16,642
    /// points, 100,000 edges and 330 marks.
    pub fn new(
        alloc: Global,
        machine: &Machine,
        net: N,
        nodes: u32,
        bounds: bool,
    ) -> Result<Engine<N>, Memory>
        requires points { most_points ≤ N.reading.max_points net }
        requires edges { most_edges ≤ N.reading.max_edges net }
        requires marks { most_steps ≤ N.reading.max_marks net }
        ensures serves { IfOk result (λ e.
            Serves N.reading e machine.now) }
        ensures nodes { IfOk result (λ e. e.work.nodes ≡ nodes) }
        ensures bounds { IfOk result (λ e. (e.bounds ≡ bounds) × (e.trees ≡ [])) }
        ensures kept { IfOk result (λ e.
            N.reading.max_marks e.board.net ≡ N.reading.max_marks net) }
    {
        Ok(Engine {
            alloc,
            work: workspace_for(alloc, machine, nodes, bounds)?,
            board: Board::new(alloc, machine, net)?,
            kept: false,
            moved: true,
            bounds,
            trees: Vec::new(alloc),
        })
    }
}

impl<N: Network> Engine<N> {
    /// The board that asks are answered on, as the last call left it.
    pub fn board(&self) -> &Board<N>
        ensures { result.now ≡ self.now.board }
    {
        &self.board
    }

    /// The trees of the answers since they were cleared.
    pub fn trees(&self) -> &[BoundTree]
        ensures { result.now ≡ self.now.trees }
    {
        &self.trees
    }

    /// Drops the trees.
    pub fn clear_trees(&mut self)
        ensures { self.new ≡ record self.old { trees = [] } }
    {
        self.trees.clear();
    }

    /// Makes the board ready for an ask: it follows the schedule where it is kept, without a look at the plans that it is known
    /// to hold, and may hold plans that are over beside the live ones; with bounds it holds none. It is kept from then on. The
    /// rooms are forgotten where it is not known of which machine they are.
    fn ready(&mut self, machine: &Machine, schedule: &Schedule, ask: &Ask, known: bool)
        requires known { known ≡ true → HoldsPlans machine.now self.old schedule.now.plans }
        requires rooms { known ≡ true → KeepsRooms self.old.work.rooms machine.now }
        requires served { Serves N.reading self.old machine.now }
        requires can_ask { CanAsk machine.now schedule.now.plans ask.now }
        ensures held { IsHeldFrom machine.now schedule.now.plans ask.entry.now
            self.new.board.plans }
        ensures exact { self.old.bounds ≡ true
            → IsLoadedFrom machine.now schedule.now.plans ask.entry.now self.new.board.plans }
        ensures asked { self.new.board.ask ≡ Some ask.entry.now }
        ensures rests { IsAtRest N.reading self.new.board machine.now }
        ensures served { Serves N.reading self.new machine.now }
        ensures keeps { KeepsRooms self.new.work.rooms machine.now }
        ensures same { IsSameEngine N.reading self.old self.new }
        ensures trees { self.new.trees ≡ self.old.trees }
    {
        let exact = self.bounds;
        if !known {
            self.work.forget();
        }
        let kept = self.kept;
        self.kept = true;
        if kept {
            self.board.renew(machine, schedule, ask, known, exact);
        } else {
            self.board.load(machine, schedule, ask);
        }
    }

    /// The tick at which the earliest plans of an ask end, or why there is none. No plan is made: the schedule stays as it is.
    /// Takes no memory.
    pub fn probe(
        &mut self,
        machine: &Machine,
        schedule: &Schedule,
        ask: &Ask,
    ) -> Result<Tick, NoPlan>
        requires served { Serves N.reading self.old machine.now }
        requires can_ask { CanAsk machine.now schedule.now.plans ask.now }
        ensures end { IfOk result (EndsEarliest machine.now schedule.now.plans ask.entry.now) }
        ensures none { IfErr result
            (IsNoPlan machine.now schedule.now.plans ask.entry.now self.old.work.nodes) }
        ensures still_serves { Serves N.reading self.new machine.now }
        ensures same { IsSameEngine N.reading self.old self.new }
        ensures trees { self.new.trees ≡ self.old.trees }
    {
        self.ready(machine, schedule, ask, false);
        earliest_end(&mut self.work, &mut self.board, machine, ask)
    }

    /// Answers the ask for which the board is loaded, and keeps the tree of the answer. After `Memory` the trees are as before.
    fn ask_with_tree(
        &mut self,
        machine: &Machine,
        schedule: &mut Schedule,
        ask: &Ask,
    ) -> Result<Answered, Halt>
        requires served { Serves N.reading self.old machine.now }
        requires rooms { KeepsRooms self.old.work.rooms machine.now }
        requires loaded { IsLoadedFrom machine.now schedule.old.plans ask.now
            self.old.board.plans }
        requires asked { self.old.board.ask ≡ Some ask.now }
        requires rests { IsAtRest N.reading self.old.board machine.now }
        requires spare { ask.now.origin ≡ Feeder → 0 < schedule.old.spare }
        ensures answer { IfOk result
            (λ answered. IsAnswer (IsSpentOf self.old.work.nodes) machine.now
            schedule.old.plans ask.entry.now answered.reply schedule.new.plans) }
        ensures few { IfOk result
            (λ answered. HasFewLists self.old.work.nodes machine.now schedule.old.plans
            (replied ask.entry.now answered.reply)) }
        ensures trees { IfOk result
            (λ answered. AddsTree machine.now schedule.old.plans ask.entry.now
            answered.reply schedule.new.plans self.old.trees self.new.trees) }
        ensures unmoved { IfOk result (λ answered. answered.moved ≡ false
            → without ask.entry.now.sheet schedule.new.plans
            ≡ without ask.entry.now.sheet schedule.old.plans) }
        ensures loaded { IsSameLoad self.old.board self.new.board }
        ensures keeps { KeepsRooms self.new.work.rooms machine.now }
        ensures still_serves { Serves N.reading self.new machine.now }
        ensures same { IsSameEngine N.reading self.old self.new }
        ensures memory { IfErr result (λ halt. halt ≡ Halt.Memory) }
        ensures stays { OnErr result (schedule.new.plans ≡ schedule.old.plans) }
    {
        match self.trees.reserve(1) {
            Ok(()) => {}
            Err(_) => return Err(Halt::Memory),
        }
        match answer_with_tree(
            self.alloc,
            &mut self.work,
            &mut self.board,
            machine,
            schedule,
            ask,
        ) {
            Ok(shown) => {
                add_tree(&mut self.trees, shown.tree);
                Ok(shown.answered)
            }
            Err(_) => Err(Halt::Memory),
        }
    }

    /// Answers the ask for which the board is loaded, and with bounds keeps the tree of the answer.
    fn answer_ready(
        &mut self,
        machine: &Machine,
        schedule: &mut Schedule,
        ask: &Ask,
    ) -> Result<Answered, Halt>
        requires served { Serves N.reading self.old machine.now }
        requires rooms { KeepsRooms self.old.work.rooms machine.now }
        requires held { IsHeldFrom machine.now schedule.old.plans ask.now
            self.old.board.plans }
        requires exact { self.old.bounds ≡ true
            → IsLoadedFrom machine.now schedule.old.plans ask.now self.old.board.plans }
        requires asked { self.old.board.ask ≡ Some ask.now }
        requires rests { IsAtRest N.reading self.old.board machine.now }
        requires spare { ask.now.origin ≡ Feeder → 0 < schedule.old.spare }
        ensures answer { IfOk result
            (λ answered. IsAnswer (IsSpentOf self.old.work.nodes) machine.now
            schedule.old.plans ask.entry.now answered.reply schedule.new.plans) }
        ensures few { IfOk result
            (λ answered. HasFewLists self.old.work.nodes machine.now schedule.old.plans
            (replied ask.entry.now answered.reply)) }
        ensures trees { IfOk result
            (λ answered. KeepsTrees self.old.bounds machine.now schedule.old.plans
            (replied ask.entry.now answered.reply) schedule.new.plans self.old.trees
            self.new.trees) }
        ensures unmoved { IfOk result (λ answered. answered.moved ≡ false
            → without ask.entry.now.sheet schedule.new.plans
            ≡ without ask.entry.now.sheet schedule.old.plans) }
        ensures loaded { IsSameLoad self.old.board self.new.board }
        ensures keeps { KeepsRooms self.new.work.rooms machine.now }
        ensures still_serves { Serves N.reading self.new machine.now }
        ensures same { IsSameEngine N.reading self.old self.new }
        ensures memory { IfErr result (λ halt. halt ≡ Halt.Memory) }
        ensures bounds { OnErr result (IsTrue self.old.bounds) }
        ensures stays { OnErr result (schedule.new.plans ≡ schedule.old.plans) }
    {
        if self.bounds {
            self.ask_with_tree(machine, schedule, ask)
        } else {
            Ok(answer_loaded(&mut self.work, &mut self.board, machine, schedule, ask))
        }
    }

    /// Answers an ask, of which it is known or not that the schedule is as the last answer left it.
    fn answer(
        &mut self,
        machine: &Machine,
        schedule: &mut Schedule,
        ask: &Ask,
        known: bool,
    ) -> Result<Reply, Halt>
        requires known { known ≡ true → Follows machine.now self.old schedule.old.plans }
        requires served { Serves N.reading self.old machine.now }
        requires can_ask { CanAsk machine.now schedule.old.plans ask.now }
        ensures answer { IfOk result
            (λ reply. IsAnswer (IsSpentOf self.old.work.nodes) machine.now schedule.old.plans
            ask.entry.now reply schedule.new.plans) }
        ensures few { IfOk result
            (λ reply. HasFewLists self.old.work.nodes machine.now schedule.old.plans
            (replied ask.entry.now reply)) }
        ensures unmoved { IfOk result (λ reply. self.new.moved ≡ false
            → without ask.entry.now.sheet schedule.new.plans
            ≡ without ask.entry.now.sheet schedule.old.plans) }
        ensures follows { IfOk result (λ reply.
            Follows machine.now self.new schedule.new.plans) }
        ensures still_serves { Serves N.reading self.new machine.now }
        ensures same { IsSameEngine N.reading self.old self.new }
        ensures memory { IfErr result (λ halt. halt ≡ Halt.Memory) }
        ensures trees { IfOk result
            (λ reply. KeepsTrees self.old.bounds machine.now schedule.old.plans
            (replied ask.entry.now reply) schedule.new.plans self.old.trees self.new.trees) }
        ensures new_copy { OnErr result
            ((ask.entry.now.origin ≡ Feeder) ⊎ IsTrue self.old.bounds) }
        ensures stays { OnErr result (schedule.new.plans ≡ schedule.old.plans) }
    {
        match make_spare(schedule, ask) {
            Ok(()) => {}
            Err(_) => return Err(Halt::Memory),
        }
        let known = known && !self.moved;
        self.ready(machine, schedule, ask, known);
        let answered = self.answer_ready(machine, schedule, ask)?;
        self.moved = answered.moved;
        Ok(answered.reply)
    }
}

/// The memory of a search. With bounds it searches through lists alone: no tree shows what windows find.
fn workspace_for(
    alloc: Global,
    machine: &Machine,
    nodes: u32,
    bounds: bool,
) -> Result<Workspace, Memory>
    ensures made { IfOk result (λ work. IsFor work machine.now) }
    ensures nodes { IfOk result (λ work. work.nodes ≡ nodes) }
{
    if bounds {
        Workspace::of_lists(alloc, machine, nodes)
    } else {
        Workspace::new(alloc, machine, nodes)
    }
}

/// Adds the tree, if there is one.
fn add_tree(trees: &mut Vec<BoundTree>, tree: Option<BoundTree>)
    requires { vec_len trees.old < vec_capacity trees.old }
    ensures { trees.new.items ≡ trees.old.items ++ list_of tree }
{
    match tree {
        Some(tree) => trees.push_reserved(tree),
        None => {}
    }
}

/// Makes sure of a spare plan for a new copy.
fn make_spare(schedule: &mut Schedule, ask: &Ask) -> Result<(), Memory>
    requires { HasTimeFrom schedule.old.plans ask.now.now ask.now.origin }
    ensures plans { schedule.new.plans ≡ schedule.old.plans }
    ensures spare { OnOk result (ask.entry.now.origin ≡ Feeder → 0 < schedule.new.spare) }
    ensures new_copy { OnErr result (ask.entry.now.origin ≡ Feeder) }
{
    match ask.origin {
        Origin::Feeder => schedule.reserve(),
        Origin::Front { .. } => Ok(()),
    }
}

impl<N: Network> Planner for Engine<N> {
    ghost serves = { λ e machine. Serves N.reading e machine };

    ghost Lasting = { EngineLasts };

    ghost lasting = { λ e. record { nodes = e.work.nodes; bounds = e.bounds } };

    ghost stops = { λ e. 0 };

    ghost rules = { record {
      spent = λ e. IsSpentOf e.work.nodes;
      steps = λ e machine plans deed plans' e'.
          StepsOn N.reading e machine plans deed plans' e';
      stop_steps = λ e machine plans due e'. ⊥;
    } };

    ghost moved = { λ e. e.moved };

    ghost follows = { λ e machine plans. Follows machine e plans };

    /// Wants memory for the spare plan of a new copy, and with bounds for trees, and never stops.
    fn ask(&mut self, machine: &Machine, schedule: &mut Schedule, ask: &Ask) -> Result<Reply, Halt>
        requires served { Serves N.reading self.old machine.now }
        requires can_ask { CanAsk machine.now schedule.old.plans ask.now }
        ensures answer { IfOk result
            (λ reply. IsAnswer (IsSpentOf self.old.work.nodes) machine.now schedule.old.plans
            ask.entry.now reply schedule.new.plans) }
        ensures few { IfOk result
            (λ reply. HasFewLists self.old.work.nodes machine.now schedule.old.plans
            (replied ask.entry.now reply)) }
        ensures unmoved { IfOk result (λ reply. self.new.moved ≡ false
            → without ask.entry.now.sheet schedule.new.plans
            ≡ without ask.entry.now.sheet schedule.old.plans) }
        ensures follows { IfOk result (λ reply.
            Follows machine.now self.new schedule.new.plans) }
        ensures still_serves { Serves N.reading self.new machine.now }
        ensures same { IsSameEngine N.reading self.old self.new }
        ensures memory { IfErr result (λ halt. halt ≡ Halt.Memory) }
        ensures trees { IfOk result
            (λ reply. KeepsTrees self.old.bounds machine.now schedule.old.plans
            (replied ask.entry.now reply) schedule.new.plans self.old.trees self.new.trees) }
        ensures new_copy { OnErr result
            ((ask.entry.now.origin ≡ Feeder) ⊎ IsTrue self.old.bounds) }
        ensures stays { OnErr result (schedule.new.plans ≡ schedule.old.plans) }
    {
        self.answer(machine, schedule, ask, false)
    }

    /// Answers an ask on the schedule as the last answer left it: the board and the rooms of that answer are kept.
    fn ask_on(
        &mut self,
        machine: &Machine,
        schedule: &mut Schedule,
        ask: &Ask,
    ) -> Result<Reply, Halt>
        requires follows { Follows machine.now self.old schedule.old.plans }
        requires served { Serves N.reading self.old machine.now }
        requires can_ask { CanAsk machine.now schedule.old.plans ask.now }
        ensures answer { IfOk result
            (λ reply. IsAnswer (IsSpentOf self.old.work.nodes) machine.now schedule.old.plans
            ask.entry.now reply schedule.new.plans) }
        ensures few { IfOk result
            (λ reply. HasFewLists self.old.work.nodes machine.now schedule.old.plans
            (replied ask.entry.now reply)) }
        ensures unmoved { IfOk result (λ reply. self.new.moved ≡ false
            → without ask.entry.now.sheet schedule.new.plans
            ≡ without ask.entry.now.sheet schedule.old.plans) }
        ensures follows { IfOk result (λ reply.
            Follows machine.now self.new schedule.new.plans) }
        ensures still_serves { Serves N.reading self.new machine.now }
        ensures same { IsSameEngine N.reading self.old self.new }
        ensures memory { IfErr result (λ halt. halt ≡ Halt.Memory) }
        ensures trees { IfOk result
            (λ reply. KeepsTrees self.old.bounds machine.now schedule.old.plans
            (replied ask.entry.now reply) schedule.new.plans self.old.trees self.new.trees) }
        ensures new_copy { OnErr result
            ((ask.entry.now.origin ≡ Feeder) ⊎ IsTrue self.old.bounds) }
        ensures stays { OnErr result (schedule.new.plans ≡ schedule.old.plans) }
    {
        self.answer(machine, schedule, ask, true)
    }

    /// Takes no memory, and never stops.
    fn settle(&mut self, machine: &Machine, schedule: &mut Schedule, now: Tick) -> Result<(), Halt>
        requires served { Serves N.reading self.old machine.now }
        requires can_settle { CanSettle machine.now now schedule.old.plans }
        ensures settles { IsSettled machine.now now schedule.old.plans schedule.new.plans }
        ensures spare { schedule.new.spare ≡ schedule.old.spare }
        ensures still_serves { Serves N.reading self.new machine.now }
        ensures same { IsSameEngine N.reading self.old self.new }
        ensures trees { self.new.trees ≡ self.old.trees }
        ensures done { IsOk result }
    {
        self.kept = false;
        self.board.settle(machine, schedule, now);
        Ok(())
    }

    fn has_moved(&self) -> bool
        ensures { result ≡ self.now.moved }
    {
        self.moved
    }
}
