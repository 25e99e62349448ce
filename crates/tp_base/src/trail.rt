//! A list with a capacity, for what has to be taken back.
ghost use Rattle.std.specs.Prelude.{◌≡◌, ℕ, ◌<◌, ◌≤◌, ◌↔◌, [], ◌∷◌, ◌++◌, length, take, reverse, slice_get, Some, IfOk, IsErr, OnOk, OnErr};

use crate::errors::Memory;
use crate::refusals::Full;
use std::alloc::Global;
use std::marker::Model;

/// A list that grows and is cut at its end, within the room that it was made with.
#[derive(Drop)]
pub struct Trail<T: Copy> {
    items: Vec<T>,
    capacity: u32,
}

// Clauses see the list and its room.
impl<T: Copy> Model for Trail<T> {
    ghost use Rattle.std.specs.Prelude.{ℕ, ◌<◌, ◌≤◌, ◌^◌, length, vec_capacity};
    ghost use Rattle.tp_base.specs.Trails.{Trailed};

    ghost Value = { Trailed T };

    ghost view = { λ s. record { items = s.items.items; capacity = s.capacity } };

    ghost invariant = { λ s. (length s.items.items ≤ s.capacity)
        × (s.capacity ≤ vec_capacity s.items) × (s.capacity < 2 ^ 32) };
}

impl<T: Copy> Trail<T> {
    /// Takes all the memory that the trail will ever hold.
    pub fn new(alloc: Global, capacity: u32) -> Result<Trail<T>, Memory>
        ensures items { IfOk result (λ t. t.items ≡ []) }
        ensures capacity { IfOk result (λ t. t.capacity ≡ capacity) }
    {
        let items = Vec::with_capacity(alloc, capacity as usize)?;
        Ok(Trail { items, capacity })
    }

    pub fn push(&mut self, item: T) -> Result<(), Full>
        ensures full { IsErr result ↔ (length self.old.items ≡ self.old.capacity) }
        ensures ok { OnOk result (self.new
            ≡ record { items = self.old.items ++ item ∷ []; capacity = self.old.capacity }) }
        ensures stays { OnErr result (self.new ≡ self.old) }
    {
        if self.items.len() == self.capacity as usize {
            return Err(Full);
        }
        self.items.push_reserved(item);
        Ok(())
    }

    pub fn len(&self) -> u32
        ensures len { result ≡ length self.now.items }
        ensures within { result ≤ self.now.capacity }
    {
        self.items.len() as u32
    }

    pub fn get(&self, at: u32) -> T
        requires { at < length self.now.items }
        ensures { slice_get self.now.items at ≡ Some result }
    {
        self.items[at as usize]
    }

    /// Leaves the first `len` items.
    pub fn cut_to(&mut self, len: u32)
        requires { len ≤ length self.old.items }
        ensures { self.new
            ≡ record { items = take len self.old.items; capacity = self.old.capacity } }
    {
        self.items.truncate(len as usize);
    }

    /// Turns the order of the items round.
    pub fn reverse(&mut self)
        ensures { self.new
            ≡ record { items = reverse self.old.items; capacity = self.old.capacity } }
    {
        self.items.reverse();
    }

    pub fn as_slice(&self) -> &[T]
        ensures { result.now ≡ self.now.items }
    {
        self.items.as_slice()
    }
}
