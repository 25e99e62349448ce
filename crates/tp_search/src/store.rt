//! The lists that a search stores, and those of them that wait to be opened.
ghost use Rattle.std.specs.Prelude.{◌≡◌, ◌+◌, ◌<◌, ◌≤◌, ◌↔◌, [], length, None, IfOk, IfSome, IsTrue, Some};
ghost use Rattle.tp_pool.specs.Entries.{IsParentOf, bound_of, choice_made, choices_of};
ghost use Rattle.tp_search.specs.Limits.{IsWithin};
ghost use Rattle.tp_search.specs.Stores.{HasSooner, IsInRange, IsTaken, after_keep, better, empty_store, is_sooner};

use std::alloc::Global;
use std::marker::Model;
use tp_base::{Full, Memory, Tick};
use tp_pool::{Buckets, Choice, Pool};

/// What is known of how early an alternative ends: nothing, and no search for that is to be made; nothing yet; or that one ends
/// by this tick.
#[derive(Clone, Copy)]
pub(crate) enum Limit {
    Unsought,
    Sought,
    By(Tick),
}

/// The lists that are stored, those of them that wait, the best complete one, whether one was refused, and the limit.
#[derive(Drop)]
pub(crate) struct Store {
    pool: Pool,
    queue: Buckets,
    best: Option<u32>,
    full: bool,
    limit: Limit,
}

impl Model for Store {
    ghost use Rattle.tp_search.specs.Stores.{IsStore, StoreValue, store_of};

    ghost Value = { StoreValue };

    ghost view = { λ s. store_of s.pool s.queue s.best s.full s.limit };

    ghost invariant = { λ s. IsStore s.pool s.queue s.best };
}

impl Store {
    /// Takes all the memory that the store will ever hold.
    pub(crate) fn new(alloc: Global, nodes: u32, width: u32) -> Result<Store, Memory>
        ensures { IfOk result (λ store. store ≡ empty_store nodes 0 width) }
    {
        Ok(Store {
            pool: Pool::new(alloc, nodes)?,
            queue: Buckets::new(alloc, nodes, width)?,
            best: None,
            full: false,
            limit: Limit::Unsought,
        })
    }

    /// Leaves no list, for bounds from this base on, and no limit.
    pub(crate) fn clear(&mut self, base: Tick)
        ensures { self.new ≡ empty_store self.old.capacity base self.old.width }
    {
        self.limit = Limit::Unsought;
        self.pool.clear();
        self.queue.clear(base);
        self.best = None;
        self.full = false;
    }

    /// The limit.
    pub(crate) fn limit(&self) -> Limit
        ensures { result ≡ self.now.limit }
    {
        self.limit
    }

    /// From now on this is the limit.
    pub(crate) fn set_limit(&mut self, limit: Limit)
        ensures { self.new ≡ record self.old { limit = limit } }
    {
        self.limit = limit;
    }

    /// Whether a list with this bound is beyond the limit.
    pub(crate) fn is_beyond(&self, bound: Tick) -> bool
        ensures { IsTrue result → ¬ IsWithin self.now.limit bound }
    {
        match self.limit {
            Limit::By(limit) => bound > limit,
            Limit::Unsought | Limit::Sought => false,
        }
    }

    pub(crate) fn len(&self) -> u32
        ensures { result ≡ length self.now.entries }
    {
        self.pool.len()
    }

    /// How many lists more can be stored.
    pub(crate) fn spare(&self) -> u32
        ensures { length self.now.entries + result ≡ self.now.capacity }
    {
        self.pool.spare()
    }

    /// How many choices the node's list has.
    pub(crate) fn depth(&self, node: u32) -> u32
        requires { node < length self.now.entries }
        ensures { result ≡ length (choices_of self.now.entries node) }
    {
        self.pool.depth(node)
    }

    /// The choice at this depth of the node's list: 1 is the depth of the first one.
    pub(crate) fn choice_at(&self, node: u32, depth: u32) -> Choice
        requires there { node < length self.now.entries }
        requires first { 1 ≤ depth }
        requires last { depth ≤ length (choices_of self.now.entries node) }
        ensures { choice_made (choices_of self.now.entries node) depth ≡ Some result }
    {
        self.pool.choice_at(node, depth)
    }

    /// The bound of the node's list.
    pub(crate) fn bound(&self, node: u32) -> Tick
        requires { node < length self.now.entries }
        ensures { result ≡ bound_of self.now.entries node }
    {
        self.pool.bound(node)
    }

    /// The best complete list that is stored.
    pub(crate) fn best(&self) -> Option<u32>
        ensures best { result ≡ self.now.best }
        ensures known { IfSome result (λ node. node < length self.now.entries) }
    {
        self.best
    }

    /// Whether there was no room for a list.
    pub(crate) fn is_full(&self) -> bool
        ensures full { result ≡ self.now.full }
        ensures within { length self.now.entries ≤ self.now.capacity }
    {
        self.full
    }

    /// Stores a list with its bound, and lets it wait; or notes that there is no room for it. Of the lists of one bound from the
    /// number `from` on, those of one opening, the first that is stored is taken first.
    pub(crate) fn keep(
        &mut self,
        parent: Option<u32>,
        choice: Choice,
        bound: Tick,
        complete: bool,
        from: u32,
    )
        requires parent { IsParentOf (length self.old.entries) parent }
        requires range { IsInRange self.old bound }
        ensures { self.new ≡ after_keep parent choice bound complete self.old }
    {
        let best = self.best_with(bound, complete);
        match self.pool.add(parent, choice, bound) {
            Ok(node) => {
                self.queue.put_in_turn(node, bound, from);
                self.best = best;
            }
            Err(Full) => self.full = true,
        }
    }

    /// The best complete list where one more is stored.
    fn best_with(&self, bound: Tick, complete: bool) -> Option<u32>
        ensures { result ≡ better self.now.entries complete bound
            (length self.now.entries) self.now.best }
    {
        if complete && self.is_sooner(bound) {
            Some(self.pool.len())
        } else {
            self.best
        }
    }

    fn is_sooner(&self, bound: Tick) -> bool
        ensures { result ≡ is_sooner self.now.entries bound self.now.best }
    {
        match self.best {
            Some(best) => bound < self.pool.bound(best),
            None => true,
        }
    }

    /// Whether a list with a smaller bound waits.
    pub(crate) fn has_sooner(&mut self, bound: Tick) -> bool
        ensures sooner { IsTrue result ↔ HasSooner self.old bound }
        ensures stays { self.new ≡ self.old }
    {
        match self.queue.first() {
            Some(node) => self.pool.bound(node) < bound,
            None => false,
        }
    }

    /// Takes a list of least bound out of those that wait.
    pub(crate) fn take(&mut self) -> Option<u32>
        ensures none { result ≡ None ↔ (self.old.waits ≡ []) }
        ensures stays { result ≡ None → self.new ≡ self.old }
        ensures taken { IfSome result (λ node. IsTaken self.old node self.new) }
        ensures within { length self.old.entries ≤ self.old.capacity }
    {
        let node = self.queue.take()?;
        Some(node)
    }
}
