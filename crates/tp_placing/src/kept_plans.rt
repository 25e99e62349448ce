//! A schedule's live plans as a network with orders.
ghost use Rattle.std.specs.Prelude.{◌≡◌, ℕ, ◌+◌, ◌<◌, ◌≤◌, ◌^◌, ◌++◌, [], None, length, filter, vec_len, vec_capacity};
ghost use Rattle.tp_schedule.specs.LivePlans.{is_live};
ghost use Rattle.tp_timelines.specs.Orders.{order_on};
ghost use Rattle.tp_placing.specs.Boards.{past_of};
ghost use Rattle.tp_placing.specs.Causes.{most_causes, step_causes};
ghost use Rattle.tp_placing.specs.Loaded.{CanLoad, IsLoaded, all_edges};
ghost use Rattle.tp_placing.specs.LoadedNet.{AreIds, chains_causes, holds_on, point_count};
ghost use Rattle.tp_placing.specs.LoadedBoard.{IsMadeFor};

use crate::board::Board;
use crate::causes::Causes;
use crate::kept_chains::add_chains;
use crate::kept_edges::{add_durations, add_lines};
use crate::kept_holds::put_plans;
use crate::kept_points::add_points;
use crate::parts::Held;
use tp_base::{Edge, Network, PointId, Tick};
use tp_machine::Machine;
use tp_schedule::{Plan, Schedule, is_plan_live};
use tp_timelines::Timelines;

/// Whether a plan is live at the moment. Mostly its end tells.
pub(crate) fn is_live(machine: &Machine, now: Tick, plan: &Plan) -> bool
    ensures { result ≡ is_live machine.now now plan.now }
{
    match plan.points.as_slice().last() {
        Some(end) if now < *end => true,
        _ => is_plan_live(machine, now, plan),
    }
}

/// Copies the plans that are live at the moment.
fn keep_live(plans: &mut Vec<Plan>, machine: &Machine, schedule: &Schedule, now: Tick)
    requires space { length (filter (is_live machine.now now) schedule.now.plans)
        ≤ vec_capacity plans.old }
    ensures plans { plans.new.items ≡ filter (is_live machine.now now) schedule.now.plans }
    ensures space { vec_capacity plans.old ≤ vec_capacity plans.new }
{
    plans.clear();
    for at in 0..schedule.len() {
        let plan = schedule.plan_at(at);
        if is_live(machine, now, plan) {
            match plans.push(plan.copy()) {
                Ok(()) => {}
                Err(_) => unreachable!(),
            }
        }
    }
}

/// Adds an edge for each gap of the plans. The durations come first, plan by plan, so that a network that follows the edges in
/// this order comes to most points after those that they depend on.
fn add_edges(
    edges: &mut Vec<Edge>,
    causes: &mut Causes,
    timelines: &Timelines,
    held: &[Held],
    machine: &Machine,
    plans: &[Plan],
)
    requires space { vec_len edges.old
        + length (all_edges machine.now plans.now timelines.now.orders held.now)
        ≤ vec_capacity edges.old }
    requires causes { length causes.old ≡ step_causes }
    requires capacity { step_causes
        + length (chains_causes (holds_on held.now timelines.now.orders)
        (length machine.now.resources))
        ≤ most_causes }
    requires fits { point_count plans.now < 2 ^ 32 }
    requires resources { length timelines.now.orders ≡ length machine.now.resources }
    requires ids { (resource : ℕ) → resource < length timelines.now.orders
        → AreIds held.now (order_on timelines.now.orders resource) }
    ensures added { edges.new.items
        ≡ edges.old.items ++ all_edges machine.now plans.now timelines.now.orders held.now }
    ensures causes { causes.new ≡ causes.old
        ++ chains_causes (holds_on held.now timelines.now.orders) (length machine.now.resources) }
    ensures space { vec_capacity edges.old ≤ vec_capacity edges.new }
{
    add_durations(edges, machine, plans);
    add_lines(edges, plans);
    add_chains(
        edges,
        causes,
        timelines,
        held,
        machine,
        machine.resources.len(),
    );
}

impl<N: Network> Board<N> {
    /// Holds the schedule's live plans from now on and nothing else, to be asked nothing. Their own ticks keep each edge, so
    /// that the network takes all of them at once.
    pub(crate) fn load_live(&mut self, machine: &Machine, schedule: &Schedule, now: Tick)
        requires made { IsMadeFor self.old.made_for machine.now }
        requires can { CanLoad machine.now now
            (filter (is_live machine.now now) schedule.now.plans) }
        ensures made { self.new.made_for ≡ self.old.made_for }
        ensures plans { self.new.plans ≡ filter (is_live machine.now now) schedule.now.plans }
        ensures loaded { IsLoaded machine.now now self.new.plans (N.reading.net self.new.net)
            self.new.orders.orders self.new.held self.new.firsts self.new.causes }
        ensures last { self.new.last.0 ≡ point_count self.new.plans }
        ensures asked { self.new.ask ≡ None }
        ensures closed { self.new.steps ≡ [] }
        ensures past { past_of N.reading self.new ≡ [] }
        ensures marks { N.reading.max_marks self.new.net ≡ N.reading.max_marks self.old.net }
    {
        keep_live(&mut self.plans, machine, schedule, now);
        self.net.clear();
        self.causes.clear();
        self.timelines.clear();
        self.held.clear();
        self.firsts.clear();
        self.edges.clear();
        let points = add_points(
            &mut self.net,
            &mut self.firsts,
            &self.plans,
            now + machine.lead,
            now + machine.window,
        );
        put_plans(
            &mut self.timelines,
            &mut self.held,
            &mut self.begins,
            &self.plans,
            &self.firsts,
            machine,
        );
        add_edges(
            &mut self.edges,
            &mut self.causes,
            &self.timelines,
            &self.held,
            machine,
            &self.plans,
        );
        self.net.load(&self.edges);
        self.last = PointId(points);
        self.ask = None;
        self.steps.clear();
        self.marks.clear();
        self.limit = None;
    }
}
