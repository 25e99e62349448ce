//! Edges are linked by where they begin, and taken away.
ghost use Rattle.std.specs.Prelude.{◌≡◌, ◌+◌, ◌<◌, ◌≤◌, ◌^◌, [], ◌∷◌, ◌++◌, length, take, drop, slice_set, vec_capacity};
ghost use Rattle.tp_stn_undo.specs.Saved.{relinked};
ghost use Rattle.tp_stn_undo.specs.AddedEdges.{newest_link};

use crate::link::Link;
use tp_base::Edge;

/// Adds an edge. `heads` says for each point which edge from it is the newest, counted from 1.
#[inline(always)]
pub(crate) fn link(edge: &Edge, links: &mut Vec<Link>, heads: &mut [u32])
    requires known { edge.now.from.0 < length heads.old }
    requires capacity { length links.old.items < vec_capacity links.old }
    requires few { length links.old.items + 1 < 2 ^ 32 }
    ensures links { links.new.items ≡ links.old.items ++ newest_link heads.old edge.now ∷ [] }
    ensures heads { heads.new ≡ slice_set heads.old edge.now.from.0 (length links.old.items + 1) }
    ensures capacity { vec_capacity links.new ≡ vec_capacity links.old }
{
    let from = edge.from.0 as usize;
    let older = heads[from];
    links.push_reserved(Link { edge: *edge, older });
    heads[from] = links.len() as u32;
}

/// Takes the edges after the first `to` away. `heads` says for each point which edge from it is the newest, counted from 1.
pub(crate) fn unlink(links: &mut Vec<Link>, heads: &mut [u32], to: usize)
    requires { to ≤ length links.old.items }
    ensures heads { heads.new ≡ relinked (drop to links.old.items) heads.old }
    ensures links { links.new.items ≡ take to links.old.items }
    ensures capacity { vec_capacity links.new ≡ vec_capacity links.old }
{
    'back: while links.len() > to {
        let Some(last) = links.pop() else {
            unreachable!()
        };
        let at = last.edge.from.0 as usize;
        if at < heads.len() {
            heads[at] = last.older;
        }
    }
}
