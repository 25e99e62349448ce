//! Choice lists that share their tails.
ghost use Rattle.std.specs.Prelude.{◌≡◌, ◌+◌, ◌<◌, ◌^◌, ◌≤◌, ◌↔◌, [], ◌∷◌, ◌++◌, length, Some, IfOk, IsErr, OnOk, OnErr};
ghost use Rattle.tp_pool.specs.Entries.{choices_of, bound_of, choices_before, choice_made, IsParentOf};
ghost use Rattle.tp_pool.specs.Nodes.{entries_of, AreNodes};

use crate::choice::{Choice, ListNode};
use std::alloc::Global;
use std::marker::Model;
use tp_base::{Full, Memory, Tick};

/// Lists of choices, a node each, which a best-first search makes from one another. A list shares the choices of its
/// parent.
#[derive(Drop)]
pub struct Pool {
    nodes: Vec<ListNode>,
    capacity: u32,
}

// Clauses see an entry for each node, with all choices of its list, and how many nodes there can be.
impl Model for Pool {
    ghost use Rattle.tp_pool.specs.Entries.{Entries};
    ghost use Rattle.tp_pool.specs.Inside.{entries_in, IsPool};

    ghost Value = { Entries };

    ghost view = { entries_in };

    ghost invariant = { IsPool };
}

impl Pool {
    /// Takes all the memory that the pool will ever hold.
    pub fn new(alloc: Global, nodes: u32) -> Result<Pool, Memory>
        ensures { IfOk result (λ pool. pool ≡ record { capacity = nodes; entries = [] }) }
    {
        Ok(Pool {
            nodes: Vec::with_capacity(alloc, nodes as usize)?,
            capacity: nodes,
        })
    }

    /// Leaves no node.
    pub fn clear(&mut self)
        ensures { self.new ≡ record { capacity = self.old.capacity; entries = [] } }
    {
        self.nodes.clear();
    }

    /// How many nodes there are. The next one has this number.
    pub fn len(&self) -> u32
        ensures len { result ≡ length self.now.entries }
        ensures within { result ≤ self.now.capacity }
    {
        self.nodes.len() as u32
    }

    /// How many lists more can be stored.
    pub fn spare(&self) -> u32
        ensures { length self.now.entries + result ≡ self.now.capacity }
    {
        self.capacity - self.len()
    }

    /// Adds a list: its parent's with one choice more, or a list of this one choice. Takes constant time.
    pub fn add(&mut self, parent: Option<u32>, choice: Choice, bound: Tick) -> Result<u32, Full>
        requires parent { IsParentOf (length self.old.entries) parent }
        ensures full { IsErr result ↔ (length self.old.entries ≡ self.old.capacity) }
        ensures ok { OnOk result (self.new
            ≡ record {
              capacity = self.old.capacity;
              entries = self.old.entries
                  ++ record {
                    choices = choice ∷ choices_before self.old.entries parent;
                    bound = bound;
                  } ∷ [];
            }) }
        ensures number { IfOk result (λ node. node ≡ length self.old.entries) }
        ensures stays { OnErr result (self.new ≡ self.old) }
    {
        let node = self.nodes.len();
        if node == self.capacity as usize {
            return Err(Full);
        }
        let depth = depth_behind(&self.nodes, parent);
        self.nodes.push_reserved(ListNode {
            parent,
            depth,
            choice,
            bound,
        });
        Ok(node as u32)
    }

    /// How many choices the node's list has, in constant time.
    pub fn depth(&self, node: u32) -> u32
        requires { node < length self.now.entries }
        ensures { result ≡ length (choices_of self.now.entries node) }
    {
        self.nodes[node as usize].depth
    }

    /// The choice that was made at this depth in the node's list, where 1 is the depth of the first choice and the node's
    /// depth that of its own. Costs a step for each choice that was made later.
    pub fn choice_at(&self, node: u32, depth: u32) -> Choice
        requires there { node < length self.now.entries }
        requires first { 1 ≤ depth }
        requires last { depth ≤ length (choices_of self.now.entries node) }
        ensures { choice_made (choices_of self.now.entries node) depth ≡ Some result }
    {
        choice_up(&self.nodes, node, depth)
    }

    /// The bound of the node's list, in constant time.
    pub fn bound(&self, node: u32) -> Tick
        requires { node < length self.now.entries }
        ensures { result ≡ bound_of self.now.entries node }
    {
        self.nodes[node as usize].bound
    }
}

/// How many choices a list behind this parent has.
fn depth_behind(nodes: &[ListNode], parent: Option<u32>) -> u32
    requires nodes { AreNodes nodes.now }
    requires parent { IsParentOf (length nodes.now) parent }
    requires fits { length nodes.now + 1 < 2 ^ 32 }
    ensures depth { result ≡ length (choices_before (entries_of nodes.now) parent) + 1 }
    ensures within { result ≤ length nodes.now + 1 }
{
    match parent {
        Some(parent) => nodes[parent as usize].depth + 1,
        None => 1,
    }
}

/// Goes up from a node to the one of this depth.
fn choice_up(nodes: &[ListNode], node: u32, depth: u32) -> Choice
    requires nodes { AreNodes nodes.now }
    requires there { node < length nodes.now }
    requires first { 1 ≤ depth }
    requires last { depth ≤ length (choices_of (entries_of nodes.now) node) }
    ensures { choice_made (choices_of (entries_of nodes.now) node) depth ≡ Some result }
{
    let mut at = node as usize;
    'up: while nodes[at].depth > depth {
        let Some(parent) = nodes[at].parent else {
            unreachable!()
        };
        at = parent as usize;
    }
    nodes[at].choice
}
