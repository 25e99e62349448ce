//! A queue of points.
ghost use Rattle.std.specs.Prelude.{◌≡◌, ℕ, ◌*◌, ◌<◌, ◌≤◌, ◌^◌, length, drop, [], ◌∷◌, ◌++◌, IfOk, IfSome, IfNone, vec_len, vec_capacity};

use std::alloc::{AllocError, Global};
use std::marker::Model;

/// A queue of points, first in first out. Each step takes amortized constant time.
#[derive(Drop)]
pub(crate) struct PointQueue {
    /// The points in the queue, behind those that were taken.
    points: Vec<u32>,
    taken: usize,
}

// Clauses see the points that are not taken, and how many there can be.
impl Model for PointQueue {
    ghost use Rattle.tp_stn_undo.specs.Flags.{QueueValue};

    ghost Value = { QueueValue };

    ghost use Rattle.tp_stn_undo.specs.PointQueues.{queue_of, IsQueue};

    ghost view = { queue_of };

    ghost invariant = { IsQueue };
}

/// Drops the points that were taken where the memory is full. It is full once in so many steps as there can be points.
fn make_capacity(points: &mut Vec<u32>, taken: &mut usize)
    requires within { taken.old ≤ length points.old.items }
    requires few { length (drop taken.old points.old.items) < vec_capacity points.old }
    ensures rest { drop taken.new points.new.items ≡ drop taken.old points.old.items }
    ensures within { taken.new ≤ length points.new.items }
    ensures spare { vec_len points.new < vec_capacity points.new }
    ensures capacity { vec_capacity points.new ≡ vec_capacity points.old }
{
    if points.len() < points.capacity() {
        return;
    }
    let left = points.len() - *taken;
    points.copy_within(*taken.., 0);
    points.truncate(left);
    *taken = 0;
}

impl PointQueue {
    /// An empty queue, with memory for twice as many points: those that were taken are dropped once in as many steps.
    pub(crate) fn new(alloc: Global, points: usize) -> Result<PointQueue, AllocError>
        requires { points < 2 ^ 32 }
        ensures none { IfOk result (λ l. l.points ≡ []) }
        ensures capacity { IfOk result (λ l. points ≤ l.capacity) }
    {
        Ok(PointQueue {
            points: Vec::with_capacity(alloc, points * 2)?,
            taken: 0,
        })
    }

    /// Puts a point at the end.
    pub(crate) fn push_back_reserved(&mut self, point: u32)
        requires { length self.old.points < self.old.capacity }
        ensures points { self.new.points ≡ self.old.points ++ point ∷ [] }
        ensures capacity { self.new.capacity ≡ self.old.capacity }
    {
        make_capacity(&mut self.points, &mut self.taken);
        self.points.push_reserved(point);
    }

    /// Takes the first.
    pub(crate) fn pop_front(&mut self) -> Option<u32>
        ensures none { IfNone result (self.old.points ≡ []) }
        ensures same { IfNone result (self.new ≡ self.old) }
        ensures points { IfSome result (λ p. self.old.points ≡ p ∷ self.new.points) }
        ensures capacity { self.new.capacity ≡ self.old.capacity }
    {
        if self.taken == self.points.len() {
            return None;
        }
        let point = self.points[self.taken];
        self.taken += 1;
        Some(point)
    }
}
