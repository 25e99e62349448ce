//! Small networks, on each of the two: times, causes, refusals, and the way back to a mark.
ghost use Rattle.std.specs.Prelude.{◌≡◌, ℕ, ◌+◌, ◌<◌, ◌≤◌, []};
ghost use Rattle.tp_base.specs.Net.{empty_net};
ghost use Rattle.rows_engines.specs.Rows.{edge_of, three_points};

use crate::network_probes::{could_take, go_back, set_mark};
use std::alloc::Global;
use std::process::Abort;
use std::test::Fail;
use tp_base::{Edge, Full, Late, Network, PointId, Proof, Trail, Undo};
use tp_stn_core::PlainNet;
use tp_stn_undo::LiveNet;

const A: PointId = PointId(0);

const B: PointId = PointId(1);

const C: PointId = PointId(2);

fn edge(from: PointId, to: PointId, weight: i64) -> Edge
    ensures { result ≡ edge_of from.0 to.0 weight }
{
    Edge {
        from,
        to,
        weight,
        tag: 0,
    }
}

/// Points A, B and C, an edge from A to B and one from B to C.
fn lay_out<N: Network>(rt: &impl Abort, net: &mut N)
    requires empty { N.reading.net net.old ≡ empty_net }
    requires points { N.reading.max_points net.old ≡ 3 }
    requires edges { 2 ≤ N.reading.max_edges net.old }
    ensures net { N.reading.net net.new ≡ three_points }
    ensures past { N.reading.past net.new ≡ N.reading.past net.old }
    ensures marks { N.reading.max_marks net.new ≡ N.reading.max_marks net.old }
    ensures edges { N.reading.max_edges net.new ≡ N.reading.max_edges net.old }
{
    assert!(rt; net.point(0, 20) == Ok(A));
    assert!(rt; net.point(3, 20) == Ok(B));
    assert!(rt; net.point(0, 20) == Ok(C));
    assert!(rt; net.point(0, 20) == Err(Full));
    assert!(rt; net.require(edge(A, B, 5)) == Ok(()));
    assert!(rt; net.require(edge(B, C, 2)) == Ok(()));
}

/// What a mark keeps stands again after it was gone back to.
fn goes_back<N: Network>(rt: &impl Abort, net: &mut N)
    requires net { N.reading.net net.old ≡ three_points }
    requires past { N.reading.past net.old ≡ [] }
    requires marks { 0 < N.reading.max_marks net.old }
    requires edges { 3 ≤ N.reading.max_edges net.old }
    ensures net { N.reading.net net.new ≡ three_points }
    ensures past { N.reading.past net.new ≡ [] }
    ensures marks { N.reading.max_marks net.new ≡ N.reading.max_marks net.old }
    ensures edges { N.reading.max_edges net.new ≡ N.reading.max_edges net.old }
{
    let mark = set_mark(net);
    assert!(rt; net.require(edge(A, C, 9)) == Ok(()));
    assert!(rt; net.earliest(C) == 9);
    assert!(rt; net.raise(B, 8) == Ok(()));
    assert!(rt; net.earliest(C) == 10);
    go_back(net, mark);
    assert!(rt; net.earliest(B) == 5);
    assert!(rt; net.earliest(C) == 7);
}

fn weigh(edges: &[Edge]) -> i64 {
    let mut sum: i64 = 0;
    for edge in edges {
        sum = sum.saturating_add(edge.weight);
    }
    sum
}

/// An edge that leaves C too little time is refused, with the chain that shows it.
fn shows_a_chain<N: Network>(rt: &impl Abort, net: &mut N)
    requires net { N.reading.net net.old ≡ three_points }
    requires edges { 3 ≤ N.reading.max_edges net.old }
    ensures net { N.reading.net net.new ≡ N.reading.net net.old }
    ensures edges { N.reading.max_edges net.new ≡ N.reading.max_edges net.old }
{
    assert!(rt; net.require(edge(B, C, 16)) == Err(Late));
    assert!(rt; net.earliest(C) == 7);
    match net.proof() {
        Proof::Chain { first, edges } => {
            assert!(rt; first == A);
            assert!(rt; weigh(edges) == 21);
        }
        Proof::Circle { edges: _ } => assert!(rt; false),
    }
}

/// An edge that closes a walk with a positive sum is refused, with what shows it.
fn shows_a_closed_walk<N: Network>(rt: &impl Abort, net: &mut N)
    requires net { N.reading.net net.old ≡ three_points }
    requires edges { 3 ≤ N.reading.max_edges net.old }
{
    assert!(rt; net.require(edge(C, B, -1)) == Err(Late));
    assert!(rt; net.earliest(C) == 7);
    match net.proof() {
        Proof::Chain { first: _, edges } => assert!(rt; weigh(edges) > 17),
        Proof::Circle { edges } => assert!(rt; weigh(edges) == 1),
    }
}

/// All rows of one network.
fn look_at_net<N: Network>(rt: &impl Abort, net: &mut N)
    requires empty { N.reading.net net.old ≡ empty_net }
    requires past { N.reading.past net.old ≡ [] }
    requires points { N.reading.max_points net.old ≡ 3 }
    requires edges { N.reading.max_edges net.old ≡ 5 }
    requires marks { N.reading.max_marks net.old ≡ 1 }
{
    lay_out(rt, net);
    goes_back(rt, net);
    assert!(rt; could_take(net, edge(A, C, 9)));
    shows_a_chain(rt, net);
    shows_a_closed_walk(rt, net);
    assert!(rt; net.spare_edges() == 3);
    assert!(rt; net.spare_marks() == 1);
    net.clear();
    assert!(rt; net.spare_edges() == 5);
}

/// C comes by the edges from A over B, 0 + 5 + 2. A trail of one item has no room for both.
fn shows_its_support(rt: &impl Abort, net: &LiveNet, two: &mut Trail<Edge>, one: &mut Trail<Edge>)
    requires net { net.now.net ≡ three_points }
    requires two { two.old.items ≡ [] }
    requires one { one.old.items ≡ [] }
{
    assert!(rt; net.chain_of(C, two) == Ok(A));
    assert!(rt; two.as_slice() == [edge(A, B, 5), edge(B, C, 2)].as_slice());
    assert!(rt; net.chain_of(C, one) == Err(Full));
    assert!(rt; one.len() == 0);
    assert!(rt; net.chain_of(A, one) == Ok(A));
}

#[test]
fn network_rows(rt: HostRuntime) -> Result<(), Fail> {
    let mut net = PlainNet::new(rt.alloc(), 3, 5, 1)?;
    look_at_net(&rt, &mut net);
    drop(net);
    Ok(())
}

#[test]
fn live_network_rows(rt: HostRuntime) -> Result<(), Fail> {
    let mut net = LiveNet::new(rt.alloc(), 3, 5, 1)?;
    look_at_net(&rt, &mut net);
    drop(net);
    Ok(())
}

/// The support of C on a network with room for no edge more.
fn look_at_support(rt: &impl Abort, alloc: Global, net: &mut LiveNet) -> Result<(), Fail>
    requires empty { net.old.net ≡ empty_net }
    requires points { net.old.max_points ≡ 3 }
    requires edges { net.old.max_edges ≡ 2 }
{
    lay_out(rt, net);
    let mut two = Trail::new(alloc, 2)?;
    let mut one = Trail::new(alloc, 1)?;
    shows_its_support(rt, net, &mut two, &mut one);
    Ok(())
}

#[test]
fn live_network_supports(rt: HostRuntime) -> Result<(), Fail> {
    let mut net = LiveNet::new(rt.alloc(), 3, 2, 0)?;
    let looked = look_at_support(&rt, rt.alloc(), &mut net);
    drop(net);
    looked
}
