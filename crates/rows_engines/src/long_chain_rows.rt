//! Chains of many points, on each network.
ghost use Rattle.std.specs.Prelude.{◌≡◌, ℕ, ◌+◌, ◌<◌, ◌≤◌, [], length};
ghost use Rattle.tp_base.specs.Net.{empty_net};

use crate::network_probes::{go_back, set_mark};
use std::process::Abort;
use std::test::Fail;
use tp_base::{Edge, Mark, Network, PointId, Undo};
use tp_stn_core::PlainNet;
use tp_stn_undo::LiveNet;

/// The most points of a network.
const POINTS: u32 = 16_642;

/// The most marks in force.
const MARKS: u32 = 330;

const CAP: u32 = 1_000_000;

/// Each point one tick after the one before.
fn lay_chain<N: Network>(rt: &impl Abort, net: &mut N)
    requires points { (N.reading.net net.old).lows ≡ [] }
    requires edges { (N.reading.net net.old).edges ≡ [] }
    requires max_points { N.reading.max_points net.old ≡ 16642 }
    requires max_edges { 16642 ≤ N.reading.max_edges net.old }
    ensures points { length (N.reading.net net.new).lows ≡ 16642 }
    ensures edges { length (N.reading.net net.new).edges ≤ 16642 }
    ensures past { N.reading.past net.new ≡ N.reading.past net.old }
    ensures max_edges { N.reading.max_edges net.new ≡ N.reading.max_edges net.old }
    ensures max_marks { N.reading.max_marks net.new ≡ N.reading.max_marks net.old }
{
    'chain: for number in 0..POINTS {
        assert!(rt; net.point(0, CAP) == Ok(PointId(number)));
        if number > 0 {
            let edge = Edge {
                from: PointId(number - 1),
                to: PointId(number),
                weight: 1,
                tag: number,
            };
            assert!(rt; net.require(edge) == Ok(()));
        }
    }
}

/// A hundred edges from the first point to the last, each a tick longer.
fn lengthen<N: Network>(rt: &impl Abort, net: &mut N)
    requires points { length (N.reading.net net.old).lows ≡ 16642 }
    requires edges { length (N.reading.net net.old).edges ≤ 16642 }
    requires room { 16742 ≤ N.reading.max_edges net.old }
    ensures past { N.reading.past net.new ≡ N.reading.past net.old }
    ensures max_marks { N.reading.max_marks net.new ≡ N.reading.max_marks net.old }
{
    'edges: for more in 0..100_u32 {
        let edge = Edge {
            from: PointId(0),
            to: PointId(POINTS - 1),
            weight: 16_642 + i64::from(more),
            tag: 0,
        };
        assert!(rt; net.require(edge) == Ok(()));
    }
}

/// As many marks as there can be, with a lower bound that is saved for each.
fn mark_all<N: Network>(rt: &impl Abort, net: &mut N)
    requires points { length (N.reading.net net.old).lows ≡ 16642 }
    requires past { N.reading.past net.old ≡ [] }
    requires marks { N.reading.max_marks net.old ≡ 330 }
    ensures past { length (N.reading.past net.new) ≡ 330 }
{
    'marks: for number in 0..MARKS {
        assert!(rt; set_mark(net) == Mark(number));
        let point = PointId(number);
        let time = net.earliest(point);
        assert!(rt; net.raise(point, time) == Ok(()));
    }
}

/// A chain of as many points as there can be and as many edges; a mark, a hundred changes and a way back; then all marks.
fn go_along<N: Network>(rt: &impl Abort, net: &mut N)
    requires empty { N.reading.net net.old ≡ empty_net }
    requires past { N.reading.past net.old ≡ [] }
    requires points { N.reading.max_points net.old ≡ 16642 }
    requires edges { 16742 ≤ N.reading.max_edges net.old }
    requires marks { N.reading.max_marks net.old ≡ 330 }
{
    lay_chain(rt, net);
    let mark = set_mark(net);
    lengthen(rt, net);
    go_back(net, mark);
    assert!(rt; net.earliest(PointId(POINTS - 1)) == 16_641);
    mark_all(rt, net);
    assert!(rt; net.spare_marks() == 0);
    net.undo_to(Mark(0));
    assert!(rt; net.spare_marks() == MARKS);
}

#[test]
fn long_chain(rt: HostRuntime) -> Result<(), Fail> {
    let mut net = PlainNet::new(rt.alloc(), POINTS, 100_000, MARKS)?;
    go_along(&rt, &mut net);
    drop(net);
    Ok(())
}

#[test]
fn long_live_chain(rt: HostRuntime) -> Result<(), Fail> {
    let mut net = LiveNet::new(rt.alloc(), POINTS, 100_000, MARKS)?;
    go_along(&rt, &mut net);
    drop(net);
    Ok(())
}
