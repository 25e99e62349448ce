//! A queue of nodes by bound: a bucket for each bound.
ghost use Rattle.std.specs.Prelude.{◌≡◌, ◌≢◌, ℕ, ◌+◌, ◌<◌, ◌≤◌, ◌↔◌, [], ◌∷◌, length, max, slice_set, vec_capacity, None, IfNone, IfOk, IfSome};
ghost use Rattle.std.specs.List.Sorted.{IsPermutation};
ghost use Rattle.tp_base.specs.Padded.{padded};
ghost use Rattle.tp_pool.specs.Queues.{IsIn, IsLeastIn, IsTaken, head_at};

use std::alloc::Global;
use std::marker::Model;
use tp_base::{Memory, Tick};

/// A queue of nodes by bound. Nodes of one bound are linked to one another.
#[derive(Drop)]
pub struct Buckets {
    /// The first node of each bound, from the base on, up to the last place that ever had one.
    heads: Vec<Option<u32>>,
    /// The node behind each node that is in the queue, up to the last node that was ever put in.
    nexts: Vec<Option<u32>>,
    /// All nodes are below this number.
    nodes: u32,
    /// All places of heads are below this number.
    width: usize,
    base: Tick,
    /// No head before this place has a node.
    cursor: usize,
    /// No head from this place on has a node.
    top: usize,
}

// Clauses see the nodes with their bounds, in an order that means nothing, and the numbers that it was made for.
impl Model for Buckets {
    ghost use Rattle.tp_pool.specs.Queues.{BucketQueue};
    ghost use Rattle.tp_pool.specs.QueueGrowth.{queue_of, IsGrowing};

    ghost Value = { BucketQueue };

    ghost view = { queue_of };

    ghost invariant = { IsGrowing };
}

impl Buckets {
    /// A queue for nodes below a number, and for bounds from 0 on up to, and without, a width. Takes all the memory that
    /// it will ever hold: 8 bytes for each node and each bound.
    pub fn new(alloc: Global, nodes: u32, width: u32) -> Result<Buckets, Memory>
        ensures { IfOk result (λ buckets. buckets
            ≡ record { nodes = nodes; width = width; base = 0; queued = [] }) }
    {
        Ok(Buckets {
            heads: Vec::with_capacity(alloc, width as usize)?,
            nexts: Vec::with_capacity(alloc, nodes as usize)?,
            nodes,
            width: width as usize,
            base: 0,
            cursor: width as usize,
            top: 0,
        })
    }

    /// Leaves no node, and is from now on for bounds from this base on. Costs a step for each bound from the least to the
    /// greatest that was put in.
    pub fn clear(&mut self, base: Tick)
        ensures { self.new ≡ record {
          nodes = self.old.nodes;
          width = self.old.width;
          base = base;
          queued = [];
        } }
    {
        empty(&mut self.heads, self.cursor, self.top);
        self.base = base;
        self.cursor = self.width;
        self.top = 0;
    }

    /// Puts a node in, in constant time. Where it or its bound is above all that were ever put in, it costs a step for each
    /// node or bound between. It may be put in again once it was taken.
    pub fn put(&mut self, node: u32, bound: Tick)
        requires node { node < self.old.nodes }
        requires from { self.old.base ≤ bound }
        requires below { bound < self.old.base + self.old.width }
        requires out { ¬ IsIn node self.old.queued }
        ensures queued { IsPermutation (record { node = node; bound = bound } ∷ self.old.queued)
            self.new.queued }
        ensures nodes { self.new.nodes ≡ self.old.nodes }
        ensures width { self.new.width ≡ self.old.width }
        ensures base { self.new.base ≡ self.old.base }
    {
        let place = (bound - self.base) as usize;
        let first = link_at(&self.heads, place);
        set_link(&mut self.nexts, node as usize, first);
        set_link(&mut self.heads, place, Some(node));
        self.cursor = self.cursor.min(place);
        self.top = self.top.max(place + 1);
    }

    /// Takes out the node that was put in last with this bound, or gives None where there is none.
    fn take_of(&mut self, bound: Tick) -> Option<u32>
        requires from { self.old.base ≤ bound }
        requires below { bound < self.old.base + self.old.width }
        ensures none { IfNone result (self.new.queued ≡ self.old.queued) }
        ensures taken { IfSome result (λ node.
            IsPermutation self.old.queued
            (record { node = node; bound = bound } ∷ self.new.queued)) }
        ensures out { IfSome result (λ node. ¬ IsIn node self.new.queued) }
        ensures known { IfSome result (λ node. node < self.old.nodes) }
        ensures nodes { self.new.nodes ≡ self.old.nodes }
        ensures width { self.new.width ≡ self.old.width }
        ensures base { self.new.base ≡ self.old.base }
    {
        let place = (bound - self.base) as usize;
        let node = link_at(&self.heads, place)?;
        self.heads[place] = link_at(&self.nexts, node as usize);
        Some(node)
    }

    /// Puts a node in as `put` does. But where the node that would be taken first of this bound is not below `from`, that one is
    /// taken before it still. So of the nodes from this number on the one that is put in first is taken first.
    pub fn put_in_turn(&mut self, node: u32, bound: Tick, from: u32)
        requires node { node < self.old.nodes }
        requires from { self.old.base ≤ bound }
        requires below { bound < self.old.base + self.old.width }
        requires out { ¬ IsIn node self.old.queued }
        ensures queued { IsPermutation (record { node = node; bound = bound } ∷ self.old.queued)
            self.new.queued }
        ensures nodes { self.new.nodes ≡ self.old.nodes }
        ensures width { self.new.width ≡ self.old.width }
        ensures base { self.new.base ≡ self.old.base }
    {
        match self.take_of(bound) {
            Some(first) if first >= from => {
                self.put(node, bound);
                self.put(first, bound);
            }
            Some(first) => {
                self.put(first, bound);
                self.put(node, bound);
            }
            None => self.put(node, bound),
        }
    }

    /// A node of least bound, or None where there is none. It stays in. Costs what a take costs.
    pub fn first(&mut self) -> Option<u32>
        ensures none { result ≡ None ↔ (self.old.queued ≡ []) }
        ensures first { IfSome result (λ node. IsLeastIn node self.old.queued) }
        ensures stays { self.new ≡ self.old }
    {
        self.cursor = first_filled(&self.heads, self.cursor);
        let node = link_at(&self.heads, self.cursor)?;
        Some(node)
    }

    /// Takes a node of least bound out, or gives None where there is none. Costs a step for each bound from that of the node
    /// taken last, or of a lower one that was put in since, up to that of the node that it takes, or to the last of all.
    pub fn take(&mut self) -> Option<u32>
        ensures none { result ≡ None ↔ (self.old.queued ≡ []) }
        ensures stays { result ≡ None → self.new.queued ≡ self.old.queued }
        ensures taken { IfSome result (λ node. IsTaken node self.old.queued self.new.queued) }
        ensures out { IfSome result (λ node. ¬ IsIn node self.new.queued) }
        ensures nodes { self.new.nodes ≡ self.old.nodes }
        ensures width { self.new.width ≡ self.old.width }
        ensures base { self.new.base ≡ self.old.base }
    {
        self.cursor = first_filled(&self.heads, self.cursor);
        let node = link_at(&self.heads, self.cursor)?;
        self.heads[self.cursor] = link_at(&self.nexts, node as usize);
        Some(node)
    }
}

/// Leaves no node at the heads, of which those before `from` and those from `to` on have none.
fn empty(heads: &mut Vec<Option<u32>>, from: usize, to: usize)
    requires before { (k : ℕ) → k < from → head_at heads.old.items k ≡ None }
    requires behind { (k : ℕ) → to ≤ k → head_at heads.old.items k ≡ None }
    requires within { to ≤ length heads.old.items }
    ensures none { (k : ℕ) → head_at heads.new.items k ≡ None }
    ensures len { length heads.new.items ≡ length heads.old.items }
    ensures capacity { vec_capacity heads.new ≡ vec_capacity heads.old }
{
    'heads: for at in from..to {
        heads[at] = None;
    }
}

/// The place of the first head with a node, from a place on, or one behind all heads where there is none.
fn first_filled(heads: &[Option<u32>], from: usize) -> usize
    ensures within { result ≤ max from (length heads.now) }
    ensures empty { (k : ℕ) → from ≤ k → k < result → head_at heads.now k ≡ None }
    ensures filled { result < length heads.now → head_at heads.now result ≢ None }
{
    let mut at = from;
    'heads: while at < heads.len() && heads[at].is_none() {
        at += 1;
    }
    at
}

/// What stands at this place, or None where nothing was put there.
fn link_at(links: &[Option<u32>], place: usize) -> Option<u32>
    ensures { result ≡ head_at links.now place }
{
    *links.get(place)?
}

/// Puts a node or none at this place. Places before it that were not there yet have none.
fn set_link(links: &mut Vec<Option<u32>>, place: usize, link: Option<u32>)
    requires room { place < vec_capacity links.old }
    ensures set { (most : ℕ) → place < most → length links.old.items ≤ most
        → padded None most links.new.items
        ≡ slice_set (padded None most links.old.items) place link }
    ensures few { (most : ℕ) → place < most → length links.old.items ≤ most
        → length links.new.items ≤ most }
    ensures there { place < length links.new.items }
    ensures kept { length links.old.items ≤ length links.new.items }
    ensures capacity { vec_capacity links.old ≤ vec_capacity links.new }
{
    if links.len() <= place {
        let Ok(()) = links.resize(place + 1, None) else {
            unreachable!()
        };
    }
    links[place] = link;
}
