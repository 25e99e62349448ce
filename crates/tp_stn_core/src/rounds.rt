//! One round over all edges.
ghost use Rattle.std.specs.Prelude.{◌≡◌, ℕ, ◌<◌, ◌≤◌, length, slice_index, Ok, None, IsSome, IfSome, OnOk, IfOk, IfErr, vec_capacity};
ghost use Rattle.std.specs.List.{All};
ghost use Rattle.tp_base.specs.Net.{Keeps, IsLeast};
ghost use Rattle.tp_base.specs.Grows.{IsKnown, Rises, PassesCap, AreWithin, slack, cause_of};
ghost use Rattle.tp_base.specs.Kept.{net_of, KeptRefutes};

use tp_base::{Edge, Kept, PointId, raise_end, trace_causes};

/// Raises the end of each edge, one after another. Gives the point that rose last, if any did; or the one that has to pass its upper bound.
fn round(
    caps: &[u32],
    edges: &[Edge],
    times: &mut [u32],
    causes: &mut [Option<Edge>],
) -> Result<Option<PointId>, PointId>
    requires known { All (IsKnown (length times.old)) edges.now }
    requires caps { length caps.now ≡ length times.old }
    requires causes { length causes.old ≡ length times.old }
    requires within { AreWithin caps.now times.old }
    ensures rises { OnOk result (Rises edges.now times.old causes.old times.new causes.new) }
    ensures within { AreWithin caps.now times.new }
    ensures keeps { result ≡ Ok None → All (Keeps (slice_index times.new)) edges.now }
    ensures less { IfOk result (λ last. IsSome last → slack caps.now times.new
        < slack caps.now times.old) }
    ensures known_last { IfOk result (λ last. IfSome last (λ p. p.0 < length times.old)) }
    ensures late { IfErr result (λ p. PassesCap caps.now edges.now times.old causes.old causes.new
        p.0) }
{
    let mut last = None;
    'edges: for edge in edges {
        let rose = match raise_end(caps, edge, times, causes) {
            Ok(rose) => rose,
            Err(point) => return Err(point),
        };
        if rose {
            last = Some(edge.to);
        }
    }
    Ok(last)
}

/// Raises the times, which are the lower bounds at first, until each edge is kept; or until one has to pass its upper
/// bound, or the causes of the point that rose last lead round, and then writes what shows that there is no solution.
pub(crate) fn settle(
    caps: &[u32],
    edges: &[Edge],
    times: &mut [u32],
    causes: &mut [Option<Edge>],
    path: &mut Vec<Edge>,
    places: &mut Vec<usize>,
) -> Result<(), Kept>
    requires causeless { (v : ℕ) → cause_of causes.old v ≡ None }
    requires causes { length causes.old ≡ length times.old }
    requires caps { length caps.now ≡ length times.old }
    requires known { All (IsKnown (length times.old)) edges.now }
    requires within { AreWithin caps.now times.old }
    requires path_capacity { length times.old ≤ vec_capacity path.old }
    requires places_capacity { length times.old ≤ vec_capacity places.old }
    ensures least { OnOk result (IsLeast (net_of times.old caps.now edges.now)
        (slice_index times.new)) }
    ensures refuted { IfErr result
        (λ kept. KeptRefutes (net_of times.old caps.now edges.now) kept path.new.items) }
    ensures path_kept { vec_capacity path.old ≤ vec_capacity path.new }
    ensures places_kept { vec_capacity places.old ≤ vec_capacity places.new }
{
    'rounds: loop {
        match round(caps, edges, times, causes) {
            Ok(None) => return Ok(()),
            Ok(Some(point)) => {
                if trace_causes(causes, point, path, places).is_none() {
                    return Err(Kept::Circle);
                }
            }
            Err(point) => {
                return match trace_causes(causes, point, path, places) {
                    Some(first) => Err(Kept::Chain(first)),
                    None => Err(Kept::Circle),
                };
            }
        }
    }
}
