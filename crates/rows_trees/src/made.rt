//! A tree that is made node by node, and printed; and its lines, read one by one.
ghost use Rattle.std.specs.Prelude.{ℕ, ◌<◌, length, All, IfOk};
ghost use Rattle.tp_bounds.specs.declared.tree.Node.{Node};
ghost use Rattle.tp_bounds.specs.Trees.{HasHops};

use std::alloc::Global;
use std::test::Fail;
use tp_base::{Memory, Name};
use tp_bounds::{
    BoundLine, BoundTree, Close, Head, Hop, Hops, NamedState, Node, Nodes, TreeHold, TreePoint,
    TreeRow, TreeRows, print_tree, read_bound_line,
};
use tp_machine::Face;
use tp_schedule::SheetName;

fn printed_state(location: Name) -> NamedState {
    NamedState {
        place: location,
        up: Face::Front,
        front_done: true,
        back_done: false,
    }
}

fn first_sheet(job: Name) -> SheetName {
    SheetName {
        job,
        number: 1,
        copy: 1,
    }
}

fn rows_of(alloc: Global, tray: Name) -> Result<TreeRows, Memory>
    ensures { IfOk result (λ rows. 0 < length rows) }
{
    let mut rows = TreeRows::new(alloc);
    rows.push(TreeRow {
        state: printed_state(tray),
        room: 11,
    })?;
    Ok(rows)
}

fn loop_hops(alloc: Global, resource: Name, sheet: SheetName) -> Result<Hops, Memory>
    ensures { IfOk result (λ hops. 0 < length hops) }
{
    let mut hops = Hops::new(alloc);
    hops.push(Hop::Resource {
        name: resource,
        before: TreeHold::Own(1),
        after: TreeHold::Kept { sheet, act: 3 },
    })?;
    hops.push(Hop::Line(TreePoint::Own(0)))?;
    Ok(hops)
}

fn place_node(resource: Name, hops: Hops) -> Node
    requires { 0 < length hops }
    ensures { HasHops result.close }
{
    Node {
        depth: 1,
        head: Head::At {
            resource,
            lo: 0,
            hi: 2,
        },
        close: Close::Loop {
            first: TreePoint::Own(0),
            hops,
        },
    }
}

fn goal_node(tray: Name) -> Node
    ensures { HasHops result.close }
{
    Node {
        depth: 0,
        head: Head::Goal {
            state: printed_state(tray),
        },
        close: Close::Split,
    }
}

fn nodes_of(alloc: Global, goal: Node, place: Node) -> Result<Nodes, Memory>
    requires first { HasHops goal.close }
    requires second { HasHops place.close }
    ensures closed { IfOk result (λ nodes. All (λ (node : Node). HasHops node.close) nodes) }
    ensures two { IfOk result (λ nodes. 0 < length nodes) }
{
    let mut nodes = Nodes::new(alloc);
    nodes.push(goal)?;
    nodes.push(place)?;
    Ok(nodes)
}

fn text_of(alloc: Global, tray: Name, resource: Name) -> Result<Vec<u8>, Memory> {
    let hops = loop_hops(alloc, resource, first_sheet(tray))?;
    let nodes = nodes_of(alloc, goal_node(tray), place_node(resource, hops))?;
    let rows = rows_of(alloc, tray)?;
    let mut out = Vec::new(alloc);
    print_tree(&BoundTree { rows, nodes }, &mut out)?;
    Ok(out)
}

fn last_room(rows: &TreeRows) -> u32
    requires { 0 < length rows.now }
{
    rows.get(rows.len() - 1).room
}

fn last_depth(nodes: &Nodes) -> u32
    requires { 0 < length nodes.now }
{
    nodes.get(nodes.len() - 1).depth
}

fn ends_with_line(hops: &Hops) -> bool
    requires { 0 < length hops.now }
{
    matches!(hops.get(hops.len() - 1), Hop::Line(_))
}

fn name(text: &[u8]) -> Result<Name, Fail> {
    Ok(Name::read(text).ok_or("no name")?)
}

#[test]
fn made_trees_are_printed(rt: HostRuntime) -> Result<(), Fail> {
    let tray = name(b"t")?;
    let resource = name(b"rt")?;
    let text = text_of(rt.alloc(), tray, resource).ok().ok_or("memory")?;
    assert!(rt;
        text.as_slice()
            == b"b room t:F10 11\n\
          b 0 goal t:F10 split\n\
          b 1 at rt 0 2 loop *0 rt:*/1>t.1.1/3 l:*0\n"
                .as_slice()
    );
    Ok(())
}

#[test]
fn rows_are_kept(rt: HostRuntime) -> Result<(), Fail> {
    let tray = name(b"t")?;
    let rows = rows_of(rt.alloc(), tray).ok().ok_or("memory")?;
    assert!(rt; last_room(&rows) == 11);
    Ok(())
}

#[test]
fn nodes_are_kept(rt: HostRuntime) -> Result<(), Fail> {
    let tray = name(b"t")?;
    let nodes = nodes_of(rt.alloc(), goal_node(tray), goal_node(tray))
        .ok()
        .ok_or("memory")?;
    assert!(rt; last_depth(&nodes) == 0);
    Ok(())
}

#[test]
fn hops_are_kept(rt: HostRuntime) -> Result<(), Fail> {
    let job = name(b"j1")?;
    let hops = loop_hops(rt.alloc(), job, first_sheet(job))
        .ok()
        .ok_or("memory")?;
    assert!(rt; ends_with_line(&hops));
    Ok(())
}

#[test]
fn lines_one_by_one(rt: HostRuntime) {
    let row = read_bound_line(rt.alloc(), b"b room t:F10 11\n");
    assert!(rt; matches!(row, Ok(Some(BoundLine::Room(_)))));
    let node = read_bound_line(rt.alloc(), b"b 3 act out dead\n");
    assert!(rt; matches!(node, Ok(Some(BoundLine::Node(_)))));
    let neither = read_bound_line(rt.alloc(), b"> clock 1\n");
    assert!(rt; matches!(neither, Ok(None)));
}
