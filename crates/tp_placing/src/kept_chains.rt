//! The orders of the resources of a schedule that is loaded, as edges between neighbours, with their causes.
ghost use Rattle.std.specs.Prelude.{◌≡◌, ℕ, ◌+◌, ◌<◌, ◌≤◌, ◌++◌, length, vec_len, vec_capacity};
ghost use Rattle.tp_machine.specs.Limits.{most_resources};
ghost use Rattle.tp_timelines.specs.Orders.{order_on};
ghost use Rattle.tp_placing.specs.Causes.{most_causes};
ghost use Rattle.tp_placing.specs.LoadedNet.{AreIds, chain_causes, chain_edges, chains_causes, chains_edges, holds_on};

use crate::causes::{Causes, between};
use crate::edges::following;
use crate::parts::Held;
use tp_base::Edge;
use tp_machine::{Machine, ResId, gap_at};
use tp_timelines::Timelines;

/// Adds that each hold of the resource, which has this gap, is apart from the next one.
fn add_chain(
    edges: &mut Vec<Edge>,
    causes: &mut Causes,
    timelines: &Timelines,
    held: &[Held],
    resource: ResId,
    gap: u32,
)
    requires space { vec_len edges.old + length
        (chain_edges gap (length causes.old) (holds_on held.now timelines.now.orders resource.0))
        ≤ vec_capacity edges.old }
    requires few { length causes.old
        + length (chain_causes (holds_on held.now timelines.now.orders resource.0)) ≤ most_causes }
    requires known { resource.0 < length timelines.now.orders }
    requires ids { AreIds held.now (order_on timelines.now.orders resource.0) }
    ensures added { edges.new.items ≡ edges.old.items
        ++ chain_edges gap (length causes.old) (holds_on held.now timelines.now.orders resource.0) }
    ensures causes { causes.new ≡ causes.old
        ++ chain_causes (holds_on held.now timelines.now.orders resource.0) }
    ensures space { vec_capacity edges.old ≤ vec_capacity edges.new }
{
    for place in 1..timelines.len(resource) {
        let before = &held[timelines.at(resource, place - 1) as usize];
        let after = &held[timelines.at(resource, place) as usize];
        let tag = causes.push(between(before, after));
        edges.push_reserved(following(gap, before, after, tag));
    }
}

/// Adds the same of all resources below a number.
pub(crate) fn add_chains(
    edges: &mut Vec<Edge>,
    causes: &mut Causes,
    timelines: &Timelines,
    held: &[Held],
    machine: &Machine,
    resources: u32,
)
    requires space { vec_len edges.old + length (chains_edges machine.now (length causes.old)
        (holds_on held.now timelines.now.orders) resources) ≤ vec_capacity edges.old }
    requires capacity { length causes.old
        + length (chains_causes (holds_on held.now timelines.now.orders) resources) ≤ most_causes }
    requires known { resources ≤ length timelines.now.orders }
    requires few { resources ≤ most_resources }
    requires ids { (resource : ℕ) → resource < resources
        → AreIds held.now (order_on timelines.now.orders resource) }
    ensures added { edges.new.items ≡ edges.old.items
        ++ chains_edges machine.now (length causes.old)
        (holds_on held.now timelines.now.orders) resources }
    ensures causes { causes.new ≡ causes.old
        ++ chains_causes (holds_on held.now timelines.now.orders) resources }
    ensures space { vec_capacity edges.old ≤ vec_capacity edges.new }
{
    let mut left = resources;
    while left > 0 {
        left -= 1;
        let resource = ResId(left as u16);
        let gap = gap_at(machine, resource);
        add_chain(edges, causes, timelines, held, resource, gap);
    }
}
