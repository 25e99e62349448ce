//! A plan more on a loaded board: it is added behind the others, as loading would add it.
ghost use Rattle.std.specs.Prelude.{◌≡◌, ℕ, ◌+◌, ◌*◌, ◌<◌, ◌≤◌, ◌^◌, ◌++◌, [], length, slice_get, true, All, Option, Some, vec_len, vec_capacity};
ghost use Rattle.tp_base.specs.Grows.{IsKnown};
ghost use Rattle.tp_base.specs.Net.{HasLeast, IsSolution, with_edges};
ghost use Rattle.tp_base.specs.Readings.{IsSameSize};
ghost use Rattle.tp_base.specs.declared.edges.PointId.{PointId as PointValue};
ghost use Rattle.tp_schedule.specs.Limits.{most_plan_holds};
ghost use Rattle.tp_schedule.specs.declared.parts.Plan.{Plan as PlanValue};
ghost use Rattle.tp_placing.specs.Boards.{past_of};
ghost use Rattle.tp_placing.specs.Causes.{most_causes, most_plan_causes};
ghost use Rattle.tp_placing.specs.AddedEdges.{IsBehind, IsLineEnd, KeepEdges, own_edges};
ghost use Rattle.tp_placing.specs.Loaded.{IsLoaded};
ghost use Rattle.tp_placing.specs.LoadedHolds.{ticks_in};
ghost use Rattle.tp_placing.specs.LoadedNet.{HasPoints, firsts_from, point_count};
ghost use Rattle.tp_placing.specs.LoadedBoard.{IsMadeFor, loaded_edges, loaded_holds, most_plan_edges};

use crate::added_holds::{Look, put_holds};
use crate::board::Board;
use crate::causes::LINE;
use crate::edges::edge_between;
use crate::kept_edges::add_acts;
use crate::kept_holds::gather_acts;
use crate::kept_points::add_plan;
use crate::live_match::{are_kept, line_end};
use tp_base::{Edge, Network, PointId, Tick};
use tp_machine::Machine;
use tp_schedule::Plan;

/// How many edges, holds and causes there can be before a plan more, which has at most 641 edges, 256 holds and 512 causes.
const EDGES: u32 = 97_959;

const HOLDS: usize = 65_280;

const CAUSES: usize = 66_153;

/// Adds the edges of the plan at a place, whose first point is this: for its durations, and for its line.
fn add_own_edges(
    edges: &mut Vec<Edge>,
    machine: &Machine,
    plans: &[Plan],
    firsts: &[PointId],
    at: usize,
    plan: &Plan,
)
    requires is { slice_get plans.now at ≡ Some plan.now }
    requires firsts { at < length firsts.now }
    requires fits { (k : ℕ) (f : PointValue) (q : PlanValue) → slice_get firsts.now k ≡ Some f
        → slice_get plans.now k ≡ Some q → f.0 + length q.acts < 2 ^ 32 }
    requires space { vec_len edges.old + (2 * length plan.now.acts + 1)
        ≤ vec_capacity edges.old }
    ensures added { (first : PointValue) → slice_get firsts.now at ≡ Some first
        → (end : Option PointValue) × IsLineEnd plans.now firsts.now at plan.now end
        × (edges.new.items ≡ edges.old.items ++ own_edges machine.now first plan.now end) }
    ensures space { vec_capacity edges.old ≤ vec_capacity edges.new }
{
    let first = firsts[at].0;
    add_acts(edges, machine, first, plan.acts.as_slice());
    let end = PointId(first + plan.acts.len());
    match line_end(plans, firsts, at) {
        Some(before) => edges.push_reserved(edge_between(before, end, 1, LINE)),
        None => {}
    }
}

/// Takes edges into a network, where the plans' own ticks keep them. Answers whether they do.
fn load_if_kept<N: Network>(net: &mut N, plans: &[Plan], firsts: &[PointId], edges: &[Edge]) -> bool
    requires formed { All HasPoints plans.now }
    requires firsts { firsts.now ≡ firsts_from 0 plans.now }
    requires known { All (IsKnown (length (ticks_in plans.now))) edges.now }
    requires in_net { All (IsKnown (length (N.reading.net net.old).lows)) edges.now }
    requires spare { length (N.reading.net net.old).edges + length edges.now
        ≤ N.reading.max_edges net.old }
    requires solution { KeepEdges plans.now edges.now → (x : ℕ → ℕ) × IsSolution
        (with_edges (N.reading.net net.old) edges.now) x }
    ensures kept { result ≡ true → KeepEdges plans.now edges.now }
    ensures added { result ≡ true
        → N.reading.net net.new ≡ with_edges (N.reading.net net.old) edges.now }
    ensures solved { result ≡ true → HasLeast (N.reading.net net.new) }
    ensures past { N.reading.past net.new ≡ N.reading.past net.old }
    ensures same_size { IsSameSize N.reading net.old net.new }
{
    if !are_kept(plans, firsts, edges) {
        return false;
    }
    net.load(edges);
    true
}

impl<N: Network> Board<N> {
    /// Whether there is room for the edges, holds and causes of one plan more.
    fn has_capacity(&self) -> bool
        ensures edges { result ≡ true
            → length (N.reading.net self.now.net).edges + most_plan_edges ≤ loaded_edges }
        ensures holds { result ≡ true
            → length self.now.held + most_plan_holds ≤ loaded_holds }
        ensures causes { result ≡ true
            → length self.now.causes + most_plan_causes ≤ most_causes }
    {
        if self.edge_capacity - self.net.spare_edges() > EDGES {
            return false;
        }
        if self.held.len() > HOLDS {
            return false;
        }
        self.causes.len() <= CAUSES
    }

    /// Adds the last of the plans, where the board is loaded with the others. Answers whether the board is loaded with all of
    /// them then: it is not where there is no room, or where an edge of the plan is not kept.
    pub(crate) fn add_last(&mut self, machine: &Machine, now: Tick) -> bool
        requires made { IsMadeFor self.old.made_for machine.now }
        requires behind { IsBehind machine.now now self.old.plans (N.reading.net self.old.net)
            self.old.orders.orders self.old.held self.old.firsts self.old.last.0
            self.old.causes }
        ensures made { self.new.made_for ≡ self.old.made_for }
        ensures plans { self.new.plans ≡ self.old.plans }
        ensures loaded { result ≡ true → IsLoaded machine.now now self.new.plans
            (N.reading.net self.new.net) self.new.orders.orders self.new.held self.new.firsts
            self.new.causes }
        ensures last { result ≡ true → self.new.last.0 ≡ point_count self.new.plans }
        ensures steps { self.new.steps ≡ self.old.steps }
        ensures settled { self.new.settled ≡ self.old.settled }
        ensures past { past_of N.reading self.old ≡ [] → past_of N.reading self.new ≡ [] }
        ensures marks { N.reading.max_marks self.new.net ≡ N.reading.max_marks self.old.net }
    {
        if !self.has_capacity() {
            return false;
        }
        let at = self.firsts.len();
        let plan = &self.plans[at];
        let held = self.held.len() as u32;
        add_plan(
            &mut self.net,
            plan,
            now + machine.lead,
            now + machine.window,
        );
        self.firsts.push_reserved(self.last);
        gather_acts(&mut self.held, machine, plan.acts.as_slice(), self.last.0);
        self.edges.clear();
        add_own_edges(
            &mut self.edges,
            machine,
            &self.plans,
            &self.firsts,
            at,
            plan,
        );
        let look = Look {
            held: &self.held,
            plans: &self.plans,
            firsts: &self.firsts,
        };
        put_holds(
            &mut self.timelines,
            &mut self.edges,
            &mut self.causes,
            look,
            machine,
            held,
        );
        self.last = PointId(self.last.0 + plan.acts.len() + 1);
        load_if_kept(&mut self.net, &self.plans, &self.firsts, &self.edges)
    }
}
