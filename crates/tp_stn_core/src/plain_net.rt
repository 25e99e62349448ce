//! The plain network: solved from scratch at each change.
ghost use Rattle.std.specs.Prelude.{◌≡◌, [], IfOk};
ghost use Rattle.tp_base.specs.Net.{empty_net};

use crate::marks::PlainMark;
use crate::saved_low::SavedLow;
use crate::solver::SolveSpace;
use std::alloc::{AllocError, Global};
use std::marker::Model;
use tp_base::{Edge, Kept, Memory};

/// A network that works out its least solution from scratch at each change. With n points and m edges a change takes at
/// most (n + m) steps for each round, and one round for each edge in a row that stands against the order of the edges.
/// A mark takes constant time, and going back takes a step for each lower bound that was saved since, and one solution.
pub struct PlainNet {
    pub(crate) max_points: u32,
    pub(crate) max_edges: u32,
    pub(crate) max_marks: u32,
    pub(crate) lows: Vec<u32>,
    pub(crate) caps: Vec<u32>,
    pub(crate) edges: Vec<Edge>,
    /// The least solution.
    pub(crate) times: Vec<u32>,
    pub(crate) working: SolveSpace,
    pub(crate) kept: Kept,
    /// The edges that show why the last refused change was refused.
    pub(crate) path: Vec<Edge>,
    pub(crate) saved: Vec<SavedLow>,
    /// For each point where its last saved lower bound stands, counted from 1, or 0.
    pub(crate) newest: Vec<usize>,
    pub(crate) marks: Vec<PlainMark>,
}

// What becomes of its parts is proved here, once for all who let go of one.
impl Drop for PlainNet {
    fn drop(self) {
        let PlainNet {
            max_points: _,
            max_edges: _,
            max_marks: _,
            lows: _,
            caps: _,
            edges: _,
            times: _,
            working: _,
            kept: _,
            path: _,
            saved: _,
            newest: _,
            marks: _,
        } = self;
    }
}

// Clauses see the net, the nets at the marks in force, and what the network was made for.
impl Model for PlainNet {
    ghost use Rattle.tp_stn_core.specs.PlainState.{PlainState};

    ghost Value = { PlainState };

    ghost use Rattle.tp_stn_core.specs.Plain.{state_of, IsPlain};

    ghost view = { state_of };

    ghost invariant = { IsPlain };
}

impl PlainNet {
    /// Takes all the memory that the network will ever hold. Of that 16 bytes for each point and mark are for lower bounds
    /// that change: 330 marks on 16,642 points take 88 MB, which the system hands over as they are used.
    pub fn new(alloc: Global, points: u32, edges: u32, marks: u32) -> Result<PlainNet, Memory>
        ensures net { IfOk result (λ n. n.net ≡ empty_net) }
        ensures past { IfOk result (λ n. n.past ≡ []) }
        ensures points { IfOk result (λ n. n.max_points ≡ points) }
        ensures edges { IfOk result (λ n. n.max_edges ≡ edges) }
        ensures marks { IfOk result (λ n. n.max_marks ≡ marks) }
    {
        let capacity = points as usize;
        Ok(PlainNet {
            max_points: points,
            max_edges: edges,
            max_marks: marks,
            lows: Vec::with_capacity(alloc, capacity)?,
            caps: Vec::with_capacity(alloc, capacity)?,
            edges: Vec::with_capacity(alloc, edges as usize)?,
            times: Vec::with_capacity(alloc, capacity)?,
            working: SolveSpace::new(alloc, capacity)?,
            kept: Kept::Nothing,
            path: Vec::with_capacity(alloc, capacity)?,
            saved: Vec::with_capacity(alloc, capacity * marks as usize)?,
            newest: Vec::with_capacity(alloc, capacity)?,
            marks: Vec::with_capacity(alloc, marks as usize)?,
        })
    }
}
