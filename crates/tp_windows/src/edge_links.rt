//! The edges of a network, linked by the points where they begin and by those where they end.
ghost use Rattle.std.specs.Prelude.{◌≡◌, ◌≤◌, ◌<◌, ◌+◌, ◌++◌, ◌∷◌, [], All, IsTrue, length, vec_len};
ghost use Rattle.tp_base.specs.Grows.{IsKnown};
ghost use Rattle.tp_windows.specs.Links.{AreFalling, AreHeads, AreLinked, edges_of};

use crate::times::{Link, Links};
use std::alloc::{AllocError, Global};
use tp_base::{Edge, Network};

/// Edges that are linked by one of their points.
#[derive(Drop)]
pub(crate) struct LinkedEdges {
    pub(crate) links: Vec<Link>,
    pub(crate) heads: Vec<u32>,
}

impl LinkedEdges {
    /// Takes memory for so many points and edges.
    pub(crate) fn new(alloc: Global, points: u32, edges: u32) -> Result<LinkedEdges, AllocError> {
        Ok(LinkedEdges {
            links: Vec::with_capacity(alloc, edges as usize)?,
            heads: Vec::with_capacity(alloc, points as usize)?,
        })
    }

    /// The links and their heads.
    pub(crate) fn links(&self) -> Links<'_>
        ensures links { result.links.now ≡ self.now.links.items }
        ensures heads { result.heads.now ≡ self.now.heads.items }
    {
        Links {
            links: &self.links,
            heads: &self.heads,
        }
    }
}

/// By which of their points edges are linked.
#[derive(Clone, Copy)]
pub(crate) enum LinkedBy {
    From,
    To,
}

/// The number of the point by which an edge is linked.
fn point_of(edge: &Edge, by: LinkedBy) -> u32 {
    match by {
        LinkedBy::From => edge.from.0,
        LinkedBy::To => edge.to.0,
    }
}

/// Leaves no link, and so many points without one. Answers false where there is no room for the points.
fn clear_links(links: &mut Vec<Link>, heads: &mut Vec<u32>, points: u32) -> bool
    ensures links { links.new.items ≡ [] }
    ensures heads { AreHeads links.new.items heads.new.items }
{
    links.clear();
    heads.clear();
    'points: for _ in 0..points {
        if heads.len() == heads.capacity() {
            return false;
        }
        heads.push_reserved(0);
    }
    true
}

/// Links one edge more. Answers false where there is no room, or no such point.
fn add_link(links: &mut Vec<Link>, heads: &mut Vec<u32>, edge: Edge, by: LinkedBy) -> bool
    requires heads { AreHeads links.old.items heads.old.items }
    requires falling { AreFalling links.old.items }
    requires few { vec_len links.old < 4294967295 }
    ensures edges { IsTrue result
        → edges_of links.new.items ≡ edges_of links.old.items ++ edge ∷ [] }
    ensures heads { AreHeads links.new.items heads.new.items }
    ensures falling { AreFalling links.new.items }
{
    let at = point_of(&edge, by) as usize;
    if at >= heads.len() || links.len() == links.capacity() {
        return false;
    }
    let older = heads[at];
    links.push_reserved(Link { edge, older });
    heads[at] = links.len() as u32;
    true
}

/// Links the edges of a network with so many points. Answers false where there is no room.
pub(crate) fn link_edges<N: Network>(
    linked: &mut LinkedEdges,
    net: &N,
    points: u32,
    by: LinkedBy,
) -> bool
    requires points { points ≡ length (N.reading.net net.now).lows }
    ensures { IsTrue result
        → AreLinked points (N.reading.net net.now).edges linked.new }
{
    if !clear_links(&mut linked.links, &mut linked.heads, points) {
        return false;
    }
    'edges: for number in 0..net.edge_count() {
        let edge = net.edge(number);
        if !add_link(&mut linked.links, &mut linked.heads, edge, by) {
            return false;
        }
    }
    true
}
