//! One step of a relaxation: an edge raises the time of its end.
ghost use Rattle.std.specs.Prelude.{◌≡◌, ◌<◌, length, slice_index, Ok, true, false, OnOk, IfErr};
ghost use Rattle.std.specs.List.{Contains};
ghost use Rattle.tp_base.specs.Net.{Keeps};
ghost use Rattle.tp_base.specs.Grows.{IsKnown, Rises, PassesCap, AreWithin, slack};

use crate::edges::{Edge, PointId};

/// Raises the end of an edge to what the edge asks for. Says whether that was more; or, where it passes the upper bound,
/// which point that is.
pub fn raise_end(
    caps: &[u32],
    edge: &Edge,
    times: &mut [u32],
    causes: &mut [Option<Edge>],
) -> Result<bool, PointId>
    requires known { IsKnown (length times.old) edge.now }
    requires caps { length caps.now ≡ length times.old }
    requires causes { length causes.old ≡ length times.old }
    requires within { AreWithin caps.now times.old }
    ensures rises { OnOk result ((edges : _) → Contains edges edge.now
        → Rises edges times.old causes.old times.new causes.new) }
    ensures within { AreWithin caps.now times.new }
    ensures keeps { result ≡ Ok false → Keeps (slice_index times.new) edge.now }
    ensures same { result ≡ Ok false → times.new ≡ times.old }
    ensures less { result ≡ Ok true → slack caps.now times.new < slack caps.now times.old }
    ensures late { IfErr result (λ p. (edges : _) → Contains edges edge.now
        → PassesCap caps.now edges times.old causes.old causes.new p.0) }
{
    let from = edge.from.0 as usize;
    let to = edge.to.0 as usize;
    let reach = i64::from(times[from]) + edge.weight;
    if reach <= i64::from(times[to]) {
        return Ok(false);
    }
    causes[to] = Some(*edge);
    if reach > i64::from(caps[to]) {
        return Err(edge.to);
    }
    times[to] = reach as u32;
    Ok(true)
}
