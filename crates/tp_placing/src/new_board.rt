//! A new board, with capacity for all that a machine can bring.
ghost use Rattle.std.specs.Prelude.{◌≡◌, ◌≤◌, [], None, IfOk};
ghost use Rattle.tp_placing.specs.Boards.{past_of};
ghost use Rattle.tp_placing.specs.Inside.{most_edges, most_points, most_steps};
ghost use Rattle.tp_placing.specs.LoadedBoard.{IsMadeFor};
ghost use Rattle.tp_placing.specs.NewBoard.{AreNewPlanLists, AreNewStepLists};

use crate::board::Board;
use crate::causes::Causes;
use crate::parts::{Begin, BoardMark, Held, MadeFor, Step};
use std::alloc::{AllocError, Global};
use tp_base::{Edge, Memory, Network, PointId};
use tp_machine::Machine;
use tp_schedule::Plan;
use tp_timelines::Timelines;

/// How many plans, steps, and holds there can be, and how many marks the orders take.
const PLANS: usize = 257;

const STEPS: usize = 330;

const HOLDS: u32 = 66000;

/// How many edges there can be.
const EDGES: usize = 100000;

/// The lists of a board's plans and of their holds.
#[derive(Drop)]
pub(crate) struct PlanLists {
    pub(crate) held: Vec<Held>,
    pub(crate) begins: Vec<Begin>,
    pub(crate) plans: Vec<Plan>,
    pub(crate) firsts: Vec<PointId>,
}

impl PlanLists {
    fn new(alloc: Global) -> Result<PlanLists, AllocError>
        ensures { IfOk result (λ l. AreNewPlanLists l) }
    {
        Ok(PlanLists {
            held: Vec::with_capacity(alloc, HOLDS as usize)?,
            begins: Vec::with_capacity(alloc, HOLDS as usize)?,
            plans: Vec::with_capacity(alloc, PLANS)?,
            firsts: Vec::with_capacity(alloc, PLANS)?,
        })
    }
}

/// The lists of a board's steps, and of what they bring.
#[derive(Drop)]
pub(crate) struct StepLists {
    pub(crate) steps: Vec<Step>,
    pub(crate) marks: Vec<BoardMark>,
    pub(crate) edges: Vec<Edge>,
    pub(crate) causes: Causes,
}

impl StepLists {
    fn new(alloc: Global, marks: u32) -> Result<StepLists, Memory>
        ensures { IfOk result (λ l. AreNewStepLists marks l) }
    {
        Ok(StepLists {
            steps: Vec::with_capacity(alloc, STEPS)?,
            marks: Vec::with_capacity(alloc, marks as usize)?,
            edges: Vec::with_capacity(alloc, EDGES)?,
            causes: Causes::new(alloc)?,
        })
    }
}

impl<N: Network + Drop> Board<N> {
    /// Takes all the memory that the board will ever hold beside its network, which was made for at least 16,642 points,
    /// 100,000 edges and 330 marks. The board is for machines with the same numbers of locations and resources and the same
    /// window.
    pub fn new(alloc: Global, machine: &Machine, mut net: N) -> Result<Board<N>, Memory>
        requires points { most_points ≤ N.reading.max_points net }
        requires edges { most_edges ≤ N.reading.max_edges net }
        requires marks { most_steps ≤ N.reading.max_marks net }
        ensures made { IfOk result (λ b. IsMadeFor b.made_for machine.now) }
        ensures empty { IfOk result (λ b. b.ask ≡ None) }
        ensures steps { IfOk result (λ b. b.steps ≡ []) }
        ensures past { IfOk result (λ b. past_of N.reading b ≡ []) }
        ensures kept { IfOk result (λ b. N.reading.max_marks b.net ≡ N.reading.max_marks net) }
    {
        net.clear();
        let marks = net.spare_marks();
        let edge_capacity = net.spare_edges();
        let made_for = MadeFor {
            locations: machine.locations.len(),
            resources: machine.resources.len(),
            window: machine.window,
        };
        let timelines = Timelines::new(alloc, made_for.resources, HOLDS, marks)?;
        let plan_lists = PlanLists::new(alloc)?;
        let step_lists = StepLists::new(alloc, marks)?;
        Ok(Board {
            net,
            timelines,
            held: plan_lists.held,
            begins: plan_lists.begins,
            plans: plan_lists.plans,
            firsts: plan_lists.firsts,
            last: PointId(0),
            floor: 0,
            horizon: 0,
            ask: None,
            steps: step_lists.steps,
            marks: step_lists.marks,
            made_for,
            edge_capacity,
            edges: step_lists.edges,
            causes: step_lists.causes,
            limit: None,
            settled: false,
        })
    }
}
