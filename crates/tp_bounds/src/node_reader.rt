//! Nodes and room rows, read.
ghost use Rattle.std.specs.Prelude.{◌≡◌, ◌+◌, ◌<◌, ◌^◌, length, IfOk};
ghost use Rattle.tp_words.specs.Parts.{shown};
ghost use Rattle.tp_bounds.specs.Lines.{closed_by, goal_node_of, act_node_of, at_node_of, node_from, node_of, row_of, bound_after, bound_of};

use crate::close_reader::read_close;
use crate::line::BoundLine;
use crate::tree::{Head, Node, TreeRow};
use crate::word_reader::read_state;
use std::alloc::Global;
use tp_base::Memory;
use tp_words::{read_name, read_number};

#[tactic(auto, unfolding(crate::specs::Lines::closed_by))]
fn read_closed(
    alloc: Global,
    depth: u32,
    head: Head,
    words: &[&[u8]],
) -> Result<Option<Node>, Memory>
    requires { length words.now + 1 < 2 ^ 32 }
    ensures { IfOk result (λ node. node ≡ closed_by depth head (shown words.now)) }
{
    match read_close(alloc, words)? {
        None => Ok(None),
        Some(close) => Ok(Some(Node { depth, head, close })),
    }
}

#[tactic(auto, unfolding(crate::specs::Lines::goal_node_of))]
fn read_goal_node(alloc: Global, depth: u32, words: &[&[u8]]) -> Result<Option<Node>, Memory>
    requires { length words.now + 1 < 2 ^ 32 }
    ensures { IfOk result (λ node. node ≡ goal_node_of depth (shown words.now)) }
{
    let [state, others @ ..] = words else {
        return Ok(None);
    };
    let Some(state) = read_state(state) else {
        return Ok(None);
    };
    read_closed(alloc, depth, Head::Goal { state }, others)
}

#[tactic(auto, unfolding(crate::specs::Lines::act_node_of))]
fn read_act_node(alloc: Global, depth: u32, words: &[&[u8]]) -> Result<Option<Node>, Memory>
    requires { length words.now + 1 < 2 ^ 32 }
    ensures { IfOk result (λ node. node ≡ act_node_of depth (shown words.now)) }
{
    let [name, others @ ..] = words else {
        return Ok(None);
    };
    let Some(name) = read_name(name) else {
        return Ok(None);
    };
    read_closed(alloc, depth, Head::Act { name }, others)
}

#[tactic(auto, unfolding(crate::specs::Lines::at_node_of))]
fn read_at_node(alloc: Global, depth: u32, words: &[&[u8]]) -> Result<Option<Node>, Memory>
    requires { length words.now + 1 < 2 ^ 32 }
    ensures { IfOk result (λ node. node ≡ at_node_of depth (shown words.now)) }
{
    let [resource, lo, hi, others @ ..] = words else {
        return Ok(None);
    };
    let Some(resource) = read_name(resource) else {
        return Ok(None);
    };
    let Some(lo) = read_number(lo) else {
        return Ok(None);
    };
    let Some(hi) = read_number(hi) else {
        return Ok(None);
    };
    read_closed(alloc, depth, Head::At { resource, lo, hi }, others)
}

#[tactic(auto, unfolding(crate::specs::Lines::node_from))]
fn read_node_from(alloc: Global, depth: u32, words: &[&[u8]]) -> Result<Option<Node>, Memory>
    requires { length words.now + 1 < 2 ^ 32 }
    ensures { IfOk result (λ node. node ≡ node_from depth (shown words.now)) }
{
    let [word, others @ ..] = words else {
        return Ok(None);
    };
    if *word == b"goal".as_slice() {
        read_goal_node(alloc, depth, others)
    } else if *word == b"act".as_slice() {
        read_act_node(alloc, depth, others)
    } else if *word == b"at".as_slice() {
        read_at_node(alloc, depth, others)
    } else if *word == b"stop".as_slice() {
        read_closed(alloc, depth, Head::Stop, others)
    } else {
        Ok(None)
    }
}

#[tactic(auto, unfolding(crate::specs::Lines::node_of))]
fn read_node(alloc: Global, words: &[&[u8]]) -> Result<Option<Node>, Memory>
    requires { length words.now + 1 < 2 ^ 32 }
    ensures { IfOk result (λ node. node ≡ node_of (shown words.now)) }
{
    let [depth, others @ ..] = words else {
        return Ok(None);
    };
    let Some(depth) = read_number(depth) else {
        return Ok(None);
    };
    read_node_from(alloc, depth, others)
}

#[tactic(auto, unfolding(crate::specs::Lines::row_of))]
fn read_row(words: &[&[u8]]) -> Option<TreeRow>
    ensures { result ≡ row_of (shown words.now) }
{
    let [state, room] = words else {
        return None;
    };
    let state = read_state(state)?;
    let room = read_number(room)?;
    Some(TreeRow { state, room })
}

#[tactic(auto, unfolding(crate::specs::Lines::bound_after))]
fn read_after(alloc: Global, words: &[&[u8]]) -> Result<Option<BoundLine>, Memory>
    requires { length words.now + 1 < 2 ^ 32 }
    ensures { IfOk result (λ line. line ≡ bound_after (shown words.now)) }
{
    let [word, others @ ..] = words else {
        return Ok(None);
    };
    if *word == b"room".as_slice() {
        return Ok(read_row(others).map(BoundLine::Room));
    }
    match read_node(alloc, words)? {
        None => Ok(None),
        Some(node) => Ok(Some(BoundLine::Node(node))),
    }
}

#[tactic(auto, unfolding(crate::specs::Lines::bound_of))]
pub(crate) fn read_bound_words(alloc: Global, words: &[&[u8]]) -> Result<Option<BoundLine>, Memory>
    requires { length words.now < 2 ^ 32 }
    ensures { IfOk result (λ line. line ≡ bound_of (shown words.now)) }
{
    let [word, others @ ..] = words else {
        return Ok(None);
    };
    if *word == b"b".as_slice() {
        read_after(alloc, others)
    } else {
        Ok(None)
    }
}
