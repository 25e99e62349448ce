//! Asking a network and taking it back.
ghost use Rattle.std.specs.Prelude.{◌≡◌, ℕ, ◌<◌, ◌≤ℤ◌, ◌++◌, ◌∷◌, [], pos, negsuc, length, slice_get, take, Some, IsTrue, IsFalse};
ghost use Rattle.tp_base.specs.Net.{HasLeast, HasNoSolution, with_edge};

use tp_base::{Edge, Late, Mark, Network};

/// Sets a mark, told by what is read of the network.
pub(crate) fn set_mark<N: Network>(net: &mut N) -> Mark
    requires { length (N.reading.past net.old) < N.reading.max_marks net.old }
    ensures number { result.0 ≡ length (N.reading.past net.old) }
    ensures past { N.reading.past net.new
        ≡ N.reading.past net.old ++ N.reading.net net.old ∷ [] }
    ensures net { N.reading.net net.new ≡ N.reading.net net.old }
    ensures marks { N.reading.max_marks net.new ≡ N.reading.max_marks net.old }
    ensures points { N.reading.max_points net.new ≡ N.reading.max_points net.old }
    ensures edges { N.reading.max_edges net.new ≡ N.reading.max_edges net.old }
{
    net.mark()
}

/// Goes back to a mark, told by what is read of the network.
pub(crate) fn go_back<N: Network>(net: &mut N, mark: Mark)
    requires { mark.0 < length (N.reading.past net.old) }
    ensures net { slice_get (N.reading.past net.old) mark.0 ≡ Some (N.reading.net net.new) }
    ensures past { N.reading.past net.new ≡ take mark.0 (N.reading.past net.old) }
    ensures marks { N.reading.max_marks net.new ≡ N.reading.max_marks net.old }
    ensures points { N.reading.max_points net.new ≡ N.reading.max_points net.old }
    ensures edges { N.reading.max_edges net.new ≡ N.reading.max_edges net.old }
{
    net.undo_to(mark);
}

/// Whether the network could take the edge.
pub(crate) fn could_take<N: Network>(net: &mut N, edge: Edge) -> bool
    requires from { edge.from.0 < length (N.reading.net net.old).lows }
    requires to { edge.to.0 < length (N.reading.net net.old).lows }
    requires spare { length (N.reading.net net.old).edges < N.reading.max_edges net.old }
    requires least { negsuc 999999 ≤ℤ edge.weight }
    requires most { edge.weight ≤ℤ pos 1000000 }
    requires mark { length (N.reading.past net.old) < N.reading.max_marks net.old }
    ensures yes { IsTrue result → HasLeast (with_edge (N.reading.net net.old) edge) }
    ensures no { IsFalse result → HasNoSolution (with_edge (N.reading.net net.old) edge) }
    ensures net { N.reading.net net.new ≡ N.reading.net net.old }
    ensures past { N.reading.past net.new ≡ N.reading.past net.old }
    ensures marks { N.reading.max_marks net.new ≡ N.reading.max_marks net.old }
    ensures edges { N.reading.max_edges net.new ≡ N.reading.max_edges net.old }
{
    let mark = set_mark(net);
    match net.require(edge) {
        Ok(()) => {
            go_back(net, mark);
            true
        }
        Err(Late) => {
            go_back(net, mark);
            false
        }
    }
}
