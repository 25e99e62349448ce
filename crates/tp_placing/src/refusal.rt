//! What a refusal shows.
ghost use Rattle.std.specs.Prelude.{◌≡◌, ℕ, ◌<◌, length, IsSome, IsSomeAnd};
ghost use Rattle.tp_base.specs.Readings.{IsSameSize};
ghost use Rattle.tp_base.specs.Net.{Net, HasNoSolution};
ghost use Rattle.tp_base.specs.Refute.{Refutes};
ghost use Rattle.tp_machine.specs.declared.machine.Machine.{Machine};
ghost use Rattle.tp_schedule.specs.Spots.Spot.{own};
ghost use Rattle.tp_placing.specs.Boards.{content_of, past_of, suffix_of};
ghost use Rattle.tp_placing.specs.Calls.{IsSameLoad};
ghost use Rattle.tp_placing.specs.Reasons.{HasEndReason, IsShown, with_limit};
ghost use Rattle.tp_placing.specs.LoadedBoard.{Stands};
ghost use Rattle.tp_placing.specs.Ticks.{HasLeastTick};

use crate::board::Board;
use crate::causes::LIMIT;
use crate::edges::edge_between;
use tp_base::{Late, Network, PointId, Proof, Tick};
use tp_constraints::solutions_are_ticks;

/// Has the network refuse that a point comes by a tick, and leaves it as it was. Takes a mark for the time of the call.
/// Answers the point of that tick.
fn refuse_by<N: Network>(net: &mut N, point: PointId, last: Tick) -> PointId
    requires capacity { length (N.reading.net net.old).lows < N.reading.max_points net.old }
    requires known { point.0 < length (N.reading.net net.old).lows }
    requires spare { length (N.reading.net net.old).edges < N.reading.max_edges net.old }
    requires mark { length (N.reading.past net.old) < N.reading.max_marks net.old }
    requires late { HasNoSolution (with_limit (N.reading.net net.old) point last) }
    ensures refused { N.refutes net.new (with_limit (N.reading.net net.old) point last) }
    ensures limit { result ≡ record { 0 = length (N.reading.net net.old).lows } }
    ensures same { N.reading.net net.new ≡ N.reading.net net.old }
    ensures past { N.reading.past net.new ≡ N.reading.past net.old }
    ensures same_size { IsSameSize N.reading net.old net.new }
{
    let mark = net.mark();
    let Ok(limit) = net.point(0, last) else {
        unreachable!()
    };
    match net.require(edge_between(point, limit, 0, LIMIT)) {
        Ok(()) => unreachable!(),
        Err(Late) => {
            net.undo_to(mark);
            limit
        }
    }
}

impl<N: Network> Board<N> {
    /// Leaves the board as it is, but for what `reason` tells: that the end comes after a tick below `end_bound`.
    pub fn refuse_end(&mut self, last: Tick)
        requires below { (m : Machine) × (bound : ℕ) × Stands N.reading self.old m
            × HasLeastTick m self.old (own 0) bound × (last < bound) }
        requires open { IsSome (suffix_of self.old) }
        ensures shown { (m : Machine) → Stands N.reading self.old m
            → IsSomeAnd (suffix_of self.new) (λ x. HasEndReason N.refutes m self.new x last) }
        ensures same { content_of N.reading self.new ≡ content_of N.reading self.old }
        ensures stands { (m : Machine) → Stands N.reading self.old m
            → Stands N.reading self.new m }
        ensures past { past_of N.reading self.new ≡ past_of N.reading self.old }
        ensures loaded { IsSameLoad self.old self.new }
        ensures marks { N.reading.max_marks self.new.net ≡ N.reading.max_marks self.old.net }
    {
        solutions_are_ticks();
        let limit = refuse_by(&mut self.net, self.last, last);
        self.limit = Some(limit);
    }

    /// Why the last change was refused: edges of the network that it was refused for.
    pub fn reason(&self) -> Proof<'_>
        requires refused { (net : Net) × IsShown N.refutes self.now.net net }
        ensures { (net : Net) → IsShown N.refutes self.now.net net → Refutes net result }
    {
        self.net.proof()
    }
}
