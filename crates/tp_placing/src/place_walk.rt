//! Places of a hold, tried from the end of its order to the front.
ghost use Rattle.std.specs.Prelude.{◌≡◌, ◌+◌, ◌^◌, ◌<◌, ◌≤◌, All, length, IsSomeAnd, OnOk, OnErr, IfErr, Some};
ghost use Rattle.tp_base.specs.Grows.{IsKnown};
ghost use Rattle.tp_base.specs.Readings.{IsSameSize};
ghost use Rattle.tp_base.specs.Net.{HasLeast, HasNoSolution, with_edges};
ghost use Rattle.tp_constraints.specs.Suffixes.{with_place};
ghost use Rattle.tp_placing.specs.Boards.{past_of, suffix_of};
ghost use Rattle.tp_placing.specs.Calls.{CanPlace, HasNoTimes, HasTimes, IsSameLoad};
ghost use Rattle.tp_placing.specs.Edges.{edge_after, edge_until, edges_back};
ghost use Rattle.tp_placing.specs.Reasons.{HasReason};
ghost use Rattle.tp_placing.specs.LoadedBoard.{Stands};
ghost use Rattle.tp_placing.specs.RefusedPlace.{HasNoTimesUpTo, HasReasonUpTo, IsRefused, StandsBack};
ghost use Rattle.tp_placing.specs.declared.place_walk.Refused.TheVariants.{UpToHere};

use crate::board::Board;
use crate::candidates::insert_hold;
use crate::edges::following;
use crate::neighbours::{Neighbours, neighbours_of, note_neighbours};
use crate::parts::Held;
use tp_base::{Late, Network};
use tp_constraints::{
    gaps_are_hops, solutions_are_ticks, steps_add_edges, walks_add_edges, walks_are_hops,
};
use tp_machine::Machine;

/// Where a hold has no times: at the place where it was tried, or there and at each place before.
#[derive(Clone, Copy, PartialEq, Eq, Debug)]
pub enum Refused {
    Here,
    UpToHere,
}

/// Requires that a hold is apart from the one behind it, if there is one.
fn require_until<N: Network>(
    net: &mut N,
    gap: u32,
    new: &Held,
    behind: &Option<Held>,
    tag: u32,
) -> Result<(), Late>
    requires can { All (IsKnown (length (N.reading.net net.old).lows))
        (edge_until gap new.now behind.now tag) }
    requires spare { length (N.reading.net net.old).edges < N.reading.max_edges net.old }
    requires least { HasLeast (N.reading.net net.old) }
    ensures added { OnOk result (N.reading.net net.new
        ≡ with_edges (N.reading.net net.old) (edge_until gap new.now behind.now tag)) }
    ensures solved { OnOk result (HasLeast (N.reading.net net.new)) }
    ensures late { OnErr result (HasNoSolution
        (with_edges (N.reading.net net.old) (edge_until gap new.now behind.now tag))) }
    ensures refused { OnErr result (N.refutes net.new
        (with_edges (N.reading.net net.old) (edge_until gap new.now behind.now tag))) }
    ensures past { N.reading.past net.new ≡ N.reading.past net.old }
    ensures same_size { IsSameSize N.reading net.old net.new }
{
    match behind {
        Some(behind) => match net.require(following(gap, new, behind, tag)) {
            Ok(()) => Ok(()),
            Err(Late) => Err(Late),
        },
        None => Ok(()),
    }
}

/// Requires that a hold is apart from the one before it, if there is one.
fn require_after<N: Network>(
    net: &mut N,
    gap: u32,
    before: &Option<Held>,
    new: &Held,
    tag: u32,
) -> Result<(), Late>
    requires can { All (IsKnown (length (N.reading.net net.old).lows))
        (edge_after gap before.now new.now tag) }
    requires spare { length (N.reading.net net.old).edges < N.reading.max_edges net.old }
    requires least { HasLeast (N.reading.net net.old) }
    ensures added { OnOk result (N.reading.net net.new
        ≡ with_edges (N.reading.net net.old) (edge_after gap before.now new.now tag)) }
    ensures solved { OnOk result (HasLeast (N.reading.net net.new)) }
    ensures late { OnErr result (HasNoSolution
        (with_edges (N.reading.net net.old) (edge_after gap before.now new.now tag))) }
    ensures refused { OnErr result (N.refutes net.new
        (with_edges (N.reading.net net.old) (edge_after gap before.now new.now tag))) }
    ensures past { N.reading.past net.new ≡ N.reading.past net.old }
    ensures same_size { IsSameSize N.reading net.old net.new }
{
    match before {
        Some(before) => match net.require(following(gap, before, new, tag)) {
            Ok(()) => Ok(()),
            Err(Late) => Err(Late),
        },
        None => Ok(()),
    }
}

/// Requires that a new hold is apart from the one behind it, and then from the one before it. What was required before a
/// refusal stays.
fn require_around<N: Network>(
    net: &mut N,
    neighbours: &Neighbours,
    new: &Held,
    gap: u32,
    tag: u32,
) -> Result<(), Refused>
    requires can { All (IsKnown (length (N.reading.net net.old).lows))
        (edges_back gap neighbours.now.before new.now neighbours.now.behind tag) }
    requires spare { length (N.reading.net net.old).edges + 2 ≤ N.reading.max_edges net.old }
    requires least { HasLeast (N.reading.net net.old) }
    requires fits { tag + 1 < 2 ^ 32 }
    ensures added { OnOk result (N.reading.net net.new ≡ with_edges (N.reading.net net.old)
        (edges_back gap neighbours.now.before new.now neighbours.now.behind tag)) }
    ensures solved { OnOk result (HasLeast (N.reading.net net.new)) }
    ensures late { OnErr result (HasNoSolution (with_edges (N.reading.net net.old)
        (edges_back gap neighbours.now.before new.now neighbours.now.behind tag))) }
    ensures refused { OnErr result (IsRefused N.refutes net.new (N.reading.net net.old)
        (edges_back gap neighbours.now.before new.now neighbours.now.behind tag)) }
    ensures late_behind { IfErr result (λ e. e ≡ UpToHere
        → HasNoSolution (with_edges (N.reading.net net.old)
        (edge_until gap new.now neighbours.now.behind (tag + 1)))) }
    ensures refused_behind { IfErr result (λ e. e ≡ UpToHere
        → N.refutes net.new (with_edges (N.reading.net net.old)
        (edge_until gap new.now neighbours.now.behind (tag + 1)))) }
    ensures past { N.reading.past net.new ≡ N.reading.past net.old }
    ensures same_size { IsSameSize N.reading net.old net.new }
{
    match require_until(net, gap, new, &neighbours.behind, tag + 1) {
        Ok(()) => match require_after(net, gap, &neighbours.before, new, tag) {
            Ok(()) => Ok(()),
            Err(Late) => Err(Refused::Here),
        },
        Err(Late) => Err(Refused::UpToHere),
    }
}

impl<N: Network> Board<N> {
    /// Places the next hold of the newest action as `place` does, where the caller takes a refused place back to a mark. Who
    /// tries the places from the end of the order can stop at the first `UpToHere`.
    pub fn try_place(&mut self, machine: &Machine, hold: u32, place: u32) -> Result<(), Refused>
        requires stands { Stands N.reading self.old machine.now }
        requires next { IsSomeAnd (suffix_of self.old)
            (λ x. CanPlace machine.now self.old.plans x hold place) }
        // The list is the one with the place, and it has times.
        ensures suffix { OnOk result (IsSomeAnd (suffix_of self.old)
            (λ x. suffix_of self.new ≡ Some (with_place place x))) }
        ensures times { OnOk result (IsSomeAnd (suffix_of self.new)
            (HasTimes machine.now self.new)) }
        ensures stands { OnOk result (Stands N.reading self.new machine.now) }
        // There are no times with it, and a reason shows that; the same for each place before.
        ensures late { OnErr result (IsSomeAnd (suffix_of self.old)
            (λ x. HasNoTimes machine.now self.old (with_place place x))) }
        ensures shown { OnErr result (IsSomeAnd (suffix_of self.old)
            (λ x. HasReason N.refutes machine.now self.new (with_place place x))) }
        ensures late_before { IfErr result (λ e. e ≡ UpToHere
            → IsSomeAnd (suffix_of self.old) (HasNoTimesUpTo machine.now self.old place)) }
        ensures shown_before { IfErr result (λ e. e ≡ UpToHere
            → IsSomeAnd (suffix_of self.old)
            (HasReasonUpTo N.refutes machine.now self.new place)) }
        ensures back { OnErr result
            (StandsBack N.reading N.untouched self.new machine.now) }
        ensures past { past_of N.reading self.new ≡ past_of N.reading self.old }
        ensures loaded { IsSameLoad self.old self.new }
        ensures marks { N.reading.max_marks self.new.net ≡ N.reading.max_marks self.old.net }
    {
        gaps_are_hops();
        solutions_are_ticks();
        steps_add_edges();
        walks_add_edges();
        walks_are_hops();
        let next = self.next_hold(machine, hold);
        let near = neighbours_of(&self.timelines, &self.held, next.hold.rule.resource, place);
        self.limit = None;
        note_neighbours(&mut self.causes, &near, &next.hold, next.tag);
        match require_around(&mut self.net, &near, &next.hold, next.gap, next.tag) {
            Ok(()) => {}
            Err(refused) => return Err(refused),
        }
        insert_hold(
            &mut self.timelines,
            &mut self.held,
            &mut self.steps,
            next.newest,
            next.hold,
            place,
        );
        Ok(())
    }
}
