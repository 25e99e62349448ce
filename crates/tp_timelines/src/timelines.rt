//! Timelines: an order of holds for each resource, which goes back to a mark.
ghost use Rattle.std.specs.Prelude.{◌≡◌, ◌+◌, ◌<◌, ◌≤◌, ◌↔◌, [], ◌∷◌, length, slice_get, slice_set, insert, replicate, Some, IfOk, IsErr, OnOk, OnErr};
ghost use Rattle.tp_timelines.specs.Orders.{order_on, total, before_in, after_in};

use crate::inserts::{Insert, empty_all, empty_orders, take_back};
use std::alloc::Global;
use std::marker::Model;
use tp_base::{Full, Mark, Memory, Undo};
use tp_machine::ResId;

/// The numbers of holds in the order of each resource. Each resource has room for all of them, of which the system hands
/// over what is used, so that no call after `new` takes memory.
pub struct Timelines {
    orders: Vec<Vec<u32>>,
    /// What was inserted, the oldest first.
    inserted: Vec<Insert>,
    hold_capacity: u32,
    /// How many inserts there were at each mark.
    marks: Vec<u32>,
    max_marks: u32,
}

// What becomes of its parts is proved here, once for all who let go of one.
impl Drop for Timelines {
    fn drop(self) {
        let Timelines {
            orders: _,
            inserted: _,
            hold_capacity: _,
            marks: _,
            max_marks: _,
        } = self;
    }
}

// Clauses see the orders, those at the marks in force, and the numbers that it was made for.
impl Model for Timelines {
    ghost use Rattle.tp_timelines.specs.Orders.{Orders};
    ghost use Rattle.tp_timelines.specs.Inside.{orders_in, IsTimelines};

    ghost Value = { Orders };

    ghost view = { orders_in };

    ghost invariant = { IsTimelines };
}

impl Timelines {
    /// Takes all the memory that the timelines will ever hold: 4 bytes for each hold on each resource, and 8 for each hold.
    pub fn new(alloc: Global, resources: u32, holds: u32, marks: u32) -> Result<Timelines, Memory>
        ensures orders { IfOk result (λ t. t.orders ≡ replicate resources []) }
        ensures past { IfOk result (λ t. t.past ≡ []) }
        ensures holds { IfOk result (λ t. t.hold_capacity ≡ holds) }
        ensures marks { IfOk result (λ t. t.max_marks ≡ marks) }
    {
        Ok(Timelines {
            orders: empty_orders(alloc, resources, holds)?,
            inserted: Vec::with_capacity(alloc, holds as usize)?,
            hold_capacity: holds,
            marks: Vec::with_capacity(alloc, marks as usize)?,
            max_marks: marks,
        })
    }

    /// Leaves no number and no mark in force. Costs a step for each resource.
    pub fn clear(&mut self)
        ensures orders { self.new.orders ≡ replicate (length self.old.orders) [] }
        ensures past { self.new.past ≡ [] }
        ensures holds { self.new.hold_capacity ≡ self.old.hold_capacity }
        ensures marks { self.new.max_marks ≡ self.old.max_marks }
    {
        empty_all(&mut self.orders);
        self.inserted.clear();
        self.marks.clear();
    }

    /// How many numbers are in the order of a resource, in constant time.
    pub fn len(&self, resource: ResId) -> u32
        requires known { resource.0 < length self.now.orders }
        ensures len { result ≡ length (order_on self.now.orders resource.0) }
        ensures within { result ≤ self.now.hold_capacity }
    {
        self.orders[resource.0 as usize].len() as u32
    }

    /// The number at a place of a resource's order, in constant time.
    pub fn at(&self, resource: ResId, place: u32) -> u32
        requires known { resource.0 < length self.now.orders }
        requires there { place < length (order_on self.now.orders resource.0) }
        ensures { slice_get (order_on self.now.orders resource.0) place ≡ Some result }
    {
        self.orders[resource.0 as usize][place as usize]
    }

    /// Puts a number at a place of a resource's order. Moves only the numbers of that order behind the place.
    pub fn insert(&mut self, resource: ResId, place: u32, id: u32) -> Result<(), Full>
        requires known { resource.0 < length self.old.orders }
        requires within { place ≤ length (order_on self.old.orders resource.0) }
        ensures full { IsErr result ↔ (total self.old.orders ≡ self.old.hold_capacity) }
        ensures ok { OnOk result (self.new.orders
            ≡ slice_set self.old.orders resource.0
            (insert (order_on self.old.orders resource.0) place id)) }
        ensures err { OnErr result (self.new.orders ≡ self.old.orders) }
        ensures past { self.new.past ≡ self.old.past }
        ensures holds { self.new.hold_capacity ≡ self.old.hold_capacity }
        ensures marks { self.new.max_marks ≡ self.old.max_marks }
    {
        if self.inserted.len() == self.hold_capacity as usize {
            return Err(Full);
        }
        let Ok(()) = self.orders[resource.0 as usize].insert(place as usize, id) else {
            unreachable!()
        };
        self.inserted.push_reserved(Insert { resource, place });
        Ok(())
    }

    /// The numbers before and after a place of a resource's order, in constant time.
    pub fn neighbours(&self, resource: ResId, place: u32) -> (Option<u32>, Option<u32>)
        requires known { resource.0 < length self.now.orders }
        requires there { place < length (order_on self.now.orders resource.0) }
        ensures before { result.0 ≡ before_in (order_on self.now.orders resource.0) place }
        ensures after { result.1 ≡ after_in (order_on self.now.orders resource.0) place }
    {
        let count = self.len(resource);
        let before = if place == 0 {
            None
        } else {
            Some(self.at(resource, place - 1))
        };
        let after = if place + 1 == count {
            None
        } else {
            Some(self.at(resource, place + 1))
        };
        (before, after)
    }
}

impl Undo for Timelines {
    ghost use Rattle.std.specs.Prelude.{ℕ, List};
    ghost use Rattle.tp_timelines.specs.Orders.{Orders, Sizes, sizes_of};

    ghost Content = { List (List ℕ) };

    ghost Untouched = { Sizes };

    ghost content = { λ t. t.orders };

    ghost untouched = { sizes_of };

    ghost past = { λ t. t.past };

    ghost max_marks = { λ t. t.max_marks };

    fn spare_marks(&self) -> u32 {
        self.max_marks - self.marks.len() as u32
    }

    /// Takes constant time.
    fn mark(&mut self) -> Mark {
        let number = self.marks.len() as u32;
        self.marks.push_reserved(self.inserted.len() as u32);
        Mark(number)
    }

    /// Takes back each number that was inserted since the mark, which costs what its insert did.
    fn undo_to(&mut self, mark: Mark) {
        let place = mark.0 as usize;
        let to = self.marks[place] as usize;
        self.marks.truncate(place);
        take_back(&mut self.orders, &mut self.inserted, to);
    }
}
