//! Networks of difference constraints, as a trait.
ghost use Rattle.std.specs.Prelude.{◌≡◌, ℕ, ◌+◌, ◌<◌, ◌≤◌, ◌≤ℤ◌, pos, negsuc, ◌↔◌, [], length, slice_get, slice_index, false, Some, All, OnOk, OnErr, IfOk, IsErr};
ghost use Rattle.tp_base.specs.Grows.{IsKnown, most_weight};
ghost use Rattle.tp_base.specs.Net.{Net, HasLeast, HasNoSolution, HaveSameTimes, IsEarliest, IsLeast, IsSolution, empty_net, with_bounds_at, with_edge, with_edges, with_low, with_point};

use crate::edges::{Edge, PointId, Proof};
use crate::refusals::{Full, Late};
use crate::undo::Undo;

/// Points in time with a lower and an upper bound each, in ticks, and edges between them. It keeps a solution: each
/// change that would leave none is refused.
pub trait Network: Undo {
    ghost use Rattle.tp_base.specs.Readings.{IsKeptByMarks, IsSameSize, Reading};
    ghost use Rattle.tp_base.specs.Refute.{Refutes};

    /// Its points and edges, now and at its marks, and for how many there is room.
    ghost reading: { Reading Self };

    /// What is kept of the last refusal shows that this net has no solution.
    ghost refutes: { Self → Net → Type 0 };

    /// Leaves no point, no edge and no mark in force.
    fn clear(&mut self)
        ensures net { reading.net self.new ≡ empty_net }
        ensures past { reading.past self.new ≡ [] }
        ensures same_size { IsSameSize reading self.old self.new };

    /// Adds a point, which gets the next number.
    fn point(&mut self, low: u32, cap: u32) -> Result<PointId, Full>
        requires { low ≤ cap }
        ensures full { IsErr result ↔ (length (reading.net self.old).lows
            ≡ reading.max_points self.old) }
        ensures number { IfOk result (λ p. p.0 ≡ length (reading.net self.old).lows) }
        ensures added { OnOk result (reading.net self.new
            ≡ with_point (reading.net self.old) low cap) }
        ensures solved { OnOk result (HasLeast (reading.net self.new)) }
        ensures kept { OnErr result (reading.net self.new ≡ reading.net self.old) }
        ensures past { reading.past self.new ≡ reading.past self.old }
        ensures same_size { IsSameSize reading self.old self.new };

    fn spare_edges(&self) -> u32
        ensures { result + length (reading.net self.now).edges ≡ reading.max_edges self.now };

    /// Adds an edge, or leaves the content where no solution would be left.
    fn require(&mut self, edge: Edge) -> Result<(), Late>
        requires from { edge.from.0 < length (reading.net self.old).lows }
        requires to { edge.to.0 < length (reading.net self.old).lows }
        requires spare { length (reading.net self.old).edges < reading.max_edges self.old }
        requires least { negsuc 999999 ≤ℤ edge.weight }
        requires most { edge.weight ≤ℤ pos most_weight }
        ensures added { OnOk result
            (reading.net self.new ≡ with_edge (reading.net self.old) edge) }
        ensures solved { OnOk result (HasLeast (reading.net self.new)) }
        ensures late { OnErr result (HasNoSolution (with_edge (reading.net self.old) edge)) }
        ensures kept { OnErr result (reading.net self.new ≡ reading.net self.old) }
        ensures refused { OnErr result (refutes self.new (with_edge (reading.net self.old) edge)) }
        ensures past { reading.past self.new ≡ reading.past self.old }
        ensures same_size { IsSameSize reading self.old self.new };

    /// Adds edges, all of them, or leaves the content where no solution would be left.
    fn require_all(&mut self, edges: &[Edge]) -> Result<(), Late>
        requires known { All (IsKnown (length (reading.net self.old).lows)) edges.now }
        requires spare { length (reading.net self.old).edges + length edges.now
            ≤ reading.max_edges self.old }
        ensures added { OnOk result (reading.net self.new
            ≡ with_edges (reading.net self.old) edges.now) }
        ensures solved { OnOk result (HasLeast (reading.net self.new)) }
        ensures late { OnErr result (HasNoSolution (with_edges (reading.net self.old) edges.now)) }
        ensures kept { OnErr result (reading.net self.new ≡ reading.net self.old) }
        ensures refused { OnErr result (refutes self.new
            (with_edges (reading.net self.old) edges.now)) }
        ensures past { reading.past self.new ≡ reading.past self.old }
        ensures same_size { IsSameSize reading self.old self.new };

    /// Adds a point, which gets the next number, and edges, all of it, or leaves the content where no solution would be left.
    fn extend(&mut self, low: u32, cap: u32, edges: &[Edge]) -> Result<(), Late>
        requires capacity { length (reading.net self.old).lows < reading.max_points self.old }
        requires known { All (IsKnown (length (reading.net self.old).lows + 1)) edges.now }
        requires spare { length (reading.net self.old).edges + length edges.now
            ≤ reading.max_edges self.old }
        ensures added { OnOk result
            (reading.net self.new
            ≡ with_edges (with_point (reading.net self.old) low cap) edges.now) }
        ensures solved { OnOk result (HasLeast (reading.net self.new)) }
        ensures late { OnErr result
            (HasNoSolution (with_edges (with_point (reading.net self.old) low cap) edges.now)) }
        ensures kept { OnErr result (reading.net self.new ≡ reading.net self.old) }
        ensures refused { OnErr result
            (refutes self.new (with_edges (with_point (reading.net self.old) low cap) edges.now)) }
        ensures past { reading.past self.new ≡ reading.past self.old }
        ensures same_size { IsSameSize reading self.old self.new };

    /// Adds edges that leave a solution. The times are worked out once for all of them, so that many edges cost little.
    fn load(&mut self, edges: &[Edge])
        requires known { All (IsKnown (length (reading.net self.old).lows)) edges.now }
        requires spare { length (reading.net self.old).edges + length edges.now
            ≤ reading.max_edges self.old }
        requires solution { (x : ℕ → ℕ) × IsSolution
            (with_edges (reading.net self.old) edges.now) x }
        ensures added { reading.net self.new ≡ with_edges (reading.net self.old) edges.now }
        ensures solved { HasLeast (reading.net self.new) }
        ensures past { reading.past self.new ≡ reading.past self.old }
        ensures same_size { IsSameSize reading self.old self.new };

    /// Raises the lower bound of a point, or leaves the content where no solution would be left.
    fn raise(&mut self, point: PointId, low: u32) -> Result<(), Late>
        requires known { point.0 < length (reading.net self.old).lows }
        requires more { slice_index (reading.net self.old).lows point.0 ≤ low }
        ensures raised { OnOk result (reading.net self.new
            ≡ with_low (reading.net self.old) point.0 low) }
        ensures solved { OnOk result (HasLeast (reading.net self.new)) }
        ensures late { OnErr result (HasNoSolution (with_low (reading.net self.old) point.0 low)) }
        ensures kept { OnErr result (reading.net self.new ≡ reading.net self.old) }
        ensures refused { OnErr result (refutes self.new
            (with_low (reading.net self.old) point.0 low)) }
        ensures past { reading.past self.new ≡ reading.past self.old }
        ensures same_size { IsSameSize reading self.old self.new };

    /// Moves the bounds of a point round its time: the lower one up, and the upper one either way. So the least solution stays,
    /// and nothing is worked out. No mark may be in force.
    fn set_bounds(&mut self, point: PointId, low: u32, cap: u32)
        requires known { point.0 < length (reading.net self.old).lows }
        requires unmarked { reading.past self.old ≡ [] }
        requires more { slice_index (reading.net self.old).lows point.0 ≤ low }
        requires around { (t : ℕ) → IsEarliest (reading.net self.old) point.0 t
            → (low ≤ t) × (t ≤ cap) }
        ensures moved { reading.net self.new
            ≡ with_bounds_at (reading.net self.old) point.0 low cap }
        ensures same_least { (x : ℕ → ℕ) → IsLeast (reading.net self.old) x
            → IsLeast (reading.net self.new) x }
        ensures past { reading.past self.new ≡ [] }
        ensures same_size { IsSameSize reading self.old self.new };

    /// The point's time in the least solution.
    fn earliest(&self, point: PointId) -> u32
        requires { point.0 < length (reading.net self.now).lows }
        ensures { IsEarliest (reading.net self.now) point.0 result };

    /// The greatest time that the point may have.
    fn cap(&self, point: PointId) -> u32
        requires { point.0 < length (reading.net self.now).lows }
        ensures { result ≡ slice_index (reading.net self.now).caps point.0 };

    /// How many edges there are.
    fn edge_count(&self) -> u32
        ensures { result ≡ length (reading.net self.now).edges };

    /// The edge of this number, in the order in which edges were added.
    fn edge(&self, number: u32) -> Edge
        requires { number < length (reading.net self.now).edges }
        ensures found { slice_get (reading.net self.now).edges number ≡ Some result }
        ensures known { IsKnown (length (reading.net self.now).lows) result };

    /// Whether a point before this one may be later than it was at the oldest mark in force. A network that does not keep
    /// what it was says yes.
    fn may_have_risen(&self, end: PointId) -> bool
        ensures { result ≡ false → (old : Net)
            → slice_get (reading.past self.now) 0 ≡ Some old
            → HaveSameTimes end.0 old (reading.net self.now) };

    /// Why the last change was refused. `mark` and `undo_to` leave it as it is.
    fn proof(&self) -> Proof<'_>
        requires { (late : Net) × refutes self.now late }
        ensures { (late : Net) → refutes self.now late → Refutes late result };

    /// What its marks keep is what is read.
    ghost kept_by_marks: { IsKeptByMarks reading Self.content Self.past Self.max_marks };

    /// What marks leave alone has what is kept of the last refusal,
    ghost refutes_by_untouched: { (a b : Self) (late : Net)
        → Self.untouched a ≡ Self.untouched b → refutes a late → refutes b late };

    /// and the numbers that the network was made for.
    ghost points_by_untouched: { (a b : Self) → Self.untouched a ≡ Self.untouched b
        → reading.max_points a ≡ reading.max_points b };

    ghost edges_by_untouched: { (a b : Self) → Self.untouched a ≡ Self.untouched b
        → reading.max_edges a ≡ reading.max_edges b };
}
