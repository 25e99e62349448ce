//! Boards: a schedule as a network with timelines, and the choices for one sheet.
use crate::causes::Causes;
use crate::parts::{Begin, BoardMark, Held, MadeFor, Step};
use std::marker::Model;
use tp_base::{Edge, Network, PointId, Tick};
use tp_schedule::{Ask, Plan};
use tp_timelines::Timelines;

/// A schedule as a network with an order of holds for each resource.
pub struct Board<N: Network> {
    pub(crate) net: N,
    pub(crate) timelines: Timelines,
    /// The holds that stand in the orders, by their numbers.
    pub(crate) held: Vec<Held>,
    /// Where the holds of a schedule are sorted.
    pub(crate) begins: Vec<Begin>,
    /// The plans that are held: the live ones, and perhaps some that are over.
    pub(crate) plans: Vec<Plan>,
    /// The first point of each plan.
    pub(crate) firsts: Vec<PointId>,
    /// The first own point, the asked copy's end, once a goal is open.
    pub(crate) last: PointId,
    pub(crate) floor: Tick,
    pub(crate) horizon: Tick,
    pub(crate) ask: Option<Ask>,
    pub(crate) steps: Vec<Step>,
    pub(crate) marks: Vec<BoardMark>,
    pub(crate) made_for: MadeFor,
    /// How many edges the network takes in all.
    pub(crate) edge_capacity: u32,
    /// Where the edges of one step are made, and those of a schedule.
    pub(crate) edges: Vec<Edge>,
    /// Why the edges of the network stand, by their tags.
    pub(crate) causes: Causes,
    /// The point of the end that was refused last, where that was the last change that was asked for.
    pub(crate) limit: Option<PointId>,
    /// Whether the loaded plans are known to have their least times.
    pub(crate) settled: bool,
}

// What becomes of its parts is proved here, once for all who let go of one.
impl<N: Network + Drop> Drop for Board<N> {
    fn drop(self) {
        let Board {
            net: _,
            timelines: _,
            held: _,
            begins: _,
            plans: _,
            firsts: _,
            last: _,
            floor: _,
            horizon: _,
            ask: _,
            steps: _,
            marks: _,
            made_for: _,
            edge_capacity: _,
            edges: _,
            causes: _,
            limit: _,
            settled: _,
        } = self;
    }
}

// Clauses see what is loaded, the steps since, and the network.
impl<N: Network> Model for Board<N> {
    ghost use Rattle.std.specs.Prelude.{length};
    ghost use Rattle.tp_placing.specs.Boards.{BoardValue};
    ghost use Rattle.tp_placing.specs.Inside.{board_of, IsBoard};

    ghost Value = { BoardValue N };

    ghost view = { λ b. board_of b.net b.timelines b.held.items b.plans.items b.firsts.items b.last
        b.floor b.horizon b.ask b.steps.items b.marks.items b.made_for b.causes b.limit b.settled };

    ghost invariant = { λ b. IsBoard (length (N.reading.past b.net)) (N.reading.max_marks b.net)
        (N.reading.max_points b.net) (N.reading.max_edges b.net) b.edge_capacity b.timelines b.held
        b.begins b.plans b.firsts b.steps b.marks b.edges b.made_for };
}
