//! Edges are added, and the times are worked out again.
ghost use Rattle.std.specs.Prelude.{◌≡◌, ℕ, ◌<◌, ◌≤◌, [], ◌∷◌, ◌++◌, length, All, OnOk, OnErr, IfErr, vec_capacity};
ghost use Rattle.tp_base.specs.Net.{IsSolution};
ghost use Rattle.tp_base.specs.Grows.{IsKnown};
ghost use Rattle.tp_base.specs.Kept.{net_of, KeptRefutes};
ghost use Rattle.tp_stn_undo.specs.States.{IsSound, lows_of, edges_of};
ghost use Rattle.tp_stn_undo.specs.Marks.{AreLinks};
ghost use Rattle.tp_stn_undo.specs.Flags.{AreBelow};
ghost use Rattle.tp_stn_undo.specs.Propagation.{LeadsBack};
ghost use Rattle.tp_stn_undo.specs.CauseTraces.{AreZeros};
ghost use Rattle.tp_stn_undo.specs.Spread.{NoneWaits};
ghost use Rattle.tp_stn_undo.specs.WorkingRoom.{KeepsSizes};
ghost use Rattle.tp_stn_undo.specs.AddedEdges.{AllWait, Adds, AreLinkedAfter, AreTakenBack, CanAdd, HasLinkRoom, new_state, newest_link};

use crate::link::Link;
use crate::link_lists::{link, unlink};
use crate::point_state::PointState;
use crate::propagation::{Start, settle, spread};
use crate::waiting::Waiting;
use crate::working::Working;
use tp_base::{Edge, Kept, PointId};

/// Adds a point. No edge leads to it, so its lower bound is its time.
pub(crate) fn push_point(
    low: u32,
    cap: u32,
    states: &mut Vec<PointState>,
    caps: &mut Vec<u32>,
    heads: &mut Vec<u32>,
)
    requires states_capacity { length states.old.items < vec_capacity states.old }
    requires caps_capacity { length caps.old.items < vec_capacity caps.old }
    requires heads_capacity { length heads.old.items < vec_capacity heads.old }
    ensures states { states.new.items ≡ states.old.items ++ new_state low ∷ [] }
    ensures caps { caps.new.items ≡ caps.old.items ++ cap ∷ [] }
    ensures heads { heads.new.items ≡ heads.old.items ++ 0 ∷ [] }
    ensures states_kept { vec_capacity states.new ≡ vec_capacity states.old }
    ensures caps_kept { vec_capacity caps.new ≡ vec_capacity caps.old }
    ensures heads_kept { vec_capacity heads.new ≡ vec_capacity heads.old }
{
    states.push_reserved(PointState {
        low,
        time: low,
        cause: 0,
    });
    caps.push_reserved(cap);
    heads.push_reserved(0);
}

/// Adds an edge, and raises the points that it makes later.
#[inline(always)]
fn add_edge(
    edge: &Edge,
    caps: &[u32],
    links: &mut Vec<Link>,
    heads: &mut [u32],
    states: &mut [PointState],
    working: &mut Working,
) -> Result<(), Kept>
    requires ready { CanAdd caps.now links.old.items heads.old states.old working.old }
    requires known { IsKnown (length states.old) edge.now }
    requires room { HasLinkRoom (length links.old.items) 1 (vec_capacity links.old) }
    ensures links { links.new.items ≡ links.old.items ++ newest_link heads.old edge.now ∷ [] }
    ensures linked { AreLinks links.new.items heads.new (length states.old) }
    ensures back { LeadsBack links.new.items states.old states.new
        working.old.changes.entries working.new.changes.entries }
    ensures sound { OnOk result (IsSound
        (record { states = states.new; caps = caps.now; links = links.new.items })) }
    ensures quiet { OnOk result (NoneWaits working.new.waiting) }
    ensures refuted { IfErr result (λ kept. KeptRefutes
        (net_of (lows_of states.old) caps.now (edges_of links.old.items ++ edge.now ∷ []))
        kept working.new.path.items) }
    ensures sizes { KeepsSizes working.old working.new }
    ensures zeros { AreZeros working.new.places.items }
    ensures capacity { vec_capacity links.new ≡ vec_capacity links.old }
{
    link(edge, links, heads);
    settle(caps, links, heads, links.len() as u32, states, working)
}

/// Adds edges, or leaves points and edges as they were where no solution would be left. The edges come one after another:
/// so a positive circle leads through the newest, and is found as soon as its beginning rises.
pub(crate) fn add_edges(
    edges: &[Edge],
    caps: &[u32],
    links: &mut Vec<Link>,
    heads: &mut [u32],
    states: &mut [PointState],
    working: &mut Working,
) -> Result<(), Kept>
    requires ready { CanAdd caps.now links.old.items heads.old states.old working.old }
    requires unchanged { working.old.changes.entries ≡ [] }
    requires known { All (IsKnown (length states.old)) edges.now }
    requires room { HasLinkRoom
        (length links.old.items) (length edges.now) (vec_capacity links.old) }
    ensures added { OnOk result (Adds edges.now caps.now links.old.items links.new.items
        states.old states.new working.new.changes.entries) }
    ensures taken_back { OnErr result (AreTakenBack links.old.items links.new.items
        states.old states.new working.new.changes.entries) }
    ensures linked { AreLinks links.new.items heads.new (length states.old) }
    ensures quiet { NoneWaits working.new.waiting }
    ensures refuted { IfErr result (λ kept. KeptRefutes
        (net_of (lows_of states.old) caps.now (edges_of links.old.items ++ edges.now))
        kept working.new.path.items) }
    ensures sizes { KeepsSizes working.old working.new }
    ensures zeros { AreZeros working.new.places.items }
    ensures capacity { vec_capacity links.new ≡ vec_capacity links.old }
{
    let before = links.len();
    'each: for edge in edges {
        match add_edge(edge, caps, links, heads, states, working) {
            Ok(()) => {}
            Err(kept) => {
                unlink(links, heads, before);
                working.waiting.clear();
                working.changes.put_back(states);
                return Err(kept);
            }
        }
    }
    Ok(())
}

/// Links edges, and lets the points where they begin wait.
fn link_all(edges: &[Edge], links: &mut Vec<Link>, heads: &mut [u32], waiting: &mut Waiting)
    requires linked { AreLinks links.old.items heads.old (length heads.old) }
    requires known { All (IsKnown (length heads.old)) edges.now }
    requires room { HasLinkRoom
        (length links.old.items) (length edges.now) (vec_capacity links.old) }
    requires waits { length heads.old ≤ length waiting.old.flags }
    ensures added { AreLinkedAfter links.old.items links.new.items edges.now }
    ensures linked { AreLinks links.new.items heads.new (length heads.old) }
    ensures wait { AllWait edges.now waiting.old.flags waiting.new.flags }
    ensures below { AreBelow (length heads.old) waiting.old.points
        → AreBelow (length heads.old) waiting.new.points }
    ensures waits { length waiting.new.flags ≡ length waiting.old.flags }
    ensures capacity { vec_capacity links.new ≡ vec_capacity links.old }
{
    'each: for edge in edges {
        link(edge, links, heads);
        waiting.push(edge.from.0);
    }
}

/// Adds edges that leave a solution, all at once. They lead round in no positive circle, so nothing is watched.
pub(crate) fn load_edges(
    edges: &[Edge],
    caps: &[u32],
    links: &mut Vec<Link>,
    heads: &mut [u32],
    states: &mut [PointState],
    working: &mut Working,
)
    requires ready { CanAdd caps.now links.old.items heads.old states.old working.old }
    requires unchanged { working.old.changes.entries ≡ [] }
    requires known { All (IsKnown (length states.old)) edges.now }
    requires room { HasLinkRoom
        (length links.old.items) (length edges.now) (vec_capacity links.old) }
    requires solution { (x : ℕ → ℕ) × IsSolution
        (net_of (lows_of states.old) caps.now (edges_of links.old.items ++ edges.now)) x }
    ensures added { Adds edges.now caps.now links.old.items links.new.items
        states.old states.new working.new.changes.entries }
    ensures linked { AreLinks links.new.items heads.new (length states.old) }
    ensures quiet { NoneWaits working.new.waiting }
    ensures sizes { KeepsSizes working.old working.new }
    ensures zeros { AreZeros working.new.places.items }
    ensures capacity { vec_capacity links.new ≡ vec_capacity links.old }
{
    if edges.is_empty() {
        return;
    }
    link_all(edges, links, heads, &mut working.waiting);
    // No point has the number of all points.
    let start = Start {
        watched: PointId(states.len() as u32),
        first: 0,
    };
    match spread(caps, links, heads, start, states, working) {
        Ok(()) => {}
        Err(_) => unreachable!(),
    }
}
