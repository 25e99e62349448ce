//! The live network.
ghost use Rattle.std.specs.Prelude.{◌≡◌, ◌-◌, ◌<◌, ◌≤◌, ◌↔◌, [], length, take, slice_get, Some, IfOk, OnErr, IsErr};
ghost use Rattle.tp_base.specs.Net.{Net, empty_net};
ghost use Rattle.tp_base.specs.Refute.{IsCauseChain};
ghost use Rattle.tp_stn_undo.specs.LiveState.{untouched_of};
ghost use Rattle.tp_stn_undo.specs.Chains.{IsSupport, HasMoreCauses};

use crate::cause_trace::write_causes;
use crate::link::Link;
use crate::marks::LiveMark;
use crate::point_state::PointState;
use crate::undo::restore;
use crate::working::Working;
use std::alloc::{AllocError, Global};
use std::marker::Model;
use tp_base::{Edge, Full, Kept, Memory, PointId, Trail};

/// A network that keeps its least solution by a worklist: a change takes time for the points that rise, and for their edges.
/// For each point it keeps the edge that it was raised along last, and of these it makes the proof of a refusal. What a change
/// saves of the points that it changes serves both to take it back where it is refused and to go back to a mark.
pub struct LiveNet {
    pub(crate) max_points: u32,
    pub(crate) max_edges: u32,
    pub(crate) max_marks: u32,
    pub(crate) states: Vec<PointState>,
    pub(crate) caps: Vec<u32>,
    pub(crate) links: Vec<Link>,
    /// For each point the number of the newest edge that begins there, counted from 1, or 0.
    pub(crate) heads: Vec<u32>,
    pub(crate) working: Working,
    pub(crate) kept: Kept,
    pub(crate) marks: Vec<LiveMark>,
}

// What becomes of its parts is proved here, once for all who let go of one.
impl Drop for LiveNet {
    fn drop(self) {
        let LiveNet {
            max_points: _,
            max_edges: _,
            max_marks: _,
            states: _,
            caps: _,
            links: _,
            heads: _,
            working: _,
            kept: _,
            marks: _,
        } = self;
    }
}

// Clauses see the net, the nets at the marks in force, and what the network was made for.
impl Model for LiveNet {
    ghost use Rattle.tp_stn_undo.specs.LiveState.{LiveState};

    ghost Value = { LiveState };

    ghost use Rattle.tp_stn_undo.specs.Live.{state_of, IsLive};

    ghost view = { state_of };

    ghost invariant = { IsLive };
}

impl LiveNet {
    /// Takes all the memory that the network will ever hold.
    pub fn new(alloc: Global, points: u32, edges: u32, marks: u32) -> Result<LiveNet, Memory>
        ensures net { IfOk result (λ n. n.net ≡ empty_net) }
        ensures past { IfOk result (λ n. n.past ≡ []) }
        ensures points { IfOk result (λ n. n.max_points ≡ points) }
        ensures edges { IfOk result (λ n. n.max_edges ≡ edges) }
        ensures marks { IfOk result (λ n. n.max_marks ≡ marks) }
    {
        let capacity = points as usize;
        Ok(LiveNet {
            max_points: points,
            max_edges: edges,
            max_marks: marks,
            states: Vec::with_capacity(alloc, capacity)?,
            caps: Vec::with_capacity(alloc, capacity)?,
            links: Vec::with_capacity(alloc, edges as usize)?,
            heads: Vec::with_capacity(alloc, capacity)?,
            working: Working::new(alloc, points, marks)?,
            kept: Kept::Nothing,
            marks: Vec::with_capacity(alloc, marks as usize)?,
        })
    }

    /// Why a point is no earlier: the edges that support its time, one after another, and the point whose lower bound they
    /// start from.
    pub fn chain_of(&self, point: PointId, into: &mut Trail<Edge>) -> Result<PointId, Full>
        requires known { point.0 < length self.now.net.lows }
        requires empty { into.old.items ≡ [] }
        ensures support { IfOk result (λ first.
            IsSupport self.now.net first.0 into.new.items point.0) }
        ensures causes { IfOk result (λ first.
            IsCauseChain self.now.causes first.0 into.new.items point.0) }
        ensures full { IsErr result ↔ HasMoreCauses self.now.causes point.0 into.old.capacity }
        ensures none { OnErr result (into.new.items ≡ []) }
        ensures capacity { into.new.capacity ≡ into.old.capacity }
    {
        write_causes(&self.states, &self.links, point, into)
    }

    /// Goes back to the newest mark.
    fn undo_last(&mut self)
        requires { 0 < length self.old.past }
        ensures content { slice_get self.old.past (length self.old.past - 1) ≡ Some self.new.net }
        ensures past { self.new.past ≡ take (length self.old.past - 1) self.old.past }
        ensures untouched { untouched_of self.new ≡ untouched_of self.old }
        ensures capacity { self.new.max_marks ≡ self.old.max_marks }
    {
        restore(
            &mut self.states,
            &mut self.caps,
            &mut self.links,
            &mut self.heads,
            &mut self.marks,
            &mut self.working.changes,
        );
    }

    /// Goes back mark by mark until so many are left.
    pub(crate) fn back_to(&mut self, place: usize)
        requires { place ≤ length self.old.past }
        ensures content { (net : Net) → slice_get self.old.past place ≡ Some net
            → net ≡ self.new.net }
        ensures past { self.new.past ≡ take place self.old.past }
        ensures untouched { untouched_of self.new ≡ untouched_of self.old }
        ensures capacity { self.new.max_marks ≡ self.old.max_marks }
    {
        'marks: while self.marks.len() > place {
            self.undo_last();
        }
    }
}
