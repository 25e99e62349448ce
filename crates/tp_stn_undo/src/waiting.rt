//! The points that wait.
ghost use Rattle.std.specs.Prelude.{◌≡◌, ℕ, ◌<◌, ◌≤◌, ◌^◌, length, replicate, [], ◌∷◌, false, true, slice_set, IfOk, IfSome, IfNone};
ghost use Rattle.tp_stn_undo.specs.Flags.{AreIdle, AreBelow};

use crate::point_queue::PointQueue;
use std::alloc::{AllocError, Global};
use std::marker::Model;

/// The points whose edges have to be followed, each once, first come first served.
#[derive(Drop)]
pub(crate) struct Waiting {
    line: PointQueue,
    /// For each point whether it is among them.
    waits: Vec<bool>,
}

// Clauses see which points wait, and in which order.
impl Model for Waiting {
    ghost use Rattle.tp_stn_undo.specs.Flags.{Waits};

    ghost Value = { Waits };

    ghost use Rattle.tp_stn_undo.specs.Waits.{waits_of, IsWaiting};

    ghost view = { waits_of };

    ghost invariant = { IsWaiting };
}

impl Waiting {
    pub(crate) fn new(alloc: Global, points: usize) -> Result<Waiting, AllocError>
        requires { points < 2 ^ 32 }
        ensures flags { IfOk result (λ w. w.flags ≡ replicate points false) }
        ensures none { IfOk result (λ w. w.points ≡ []) }
    {
        let mut waits = Vec::with_capacity(alloc, points)?;
        let Ok(()) = waits.resize(points, false) else {
            unreachable!()
        };
        Ok(Waiting {
            line: PointQueue::new(alloc, points)?,
            waits,
        })
    }

    /// Puts a point at the end, if it is not there yet.
    pub(crate) fn push(&mut self, point: u32)
        requires { point < length self.old.flags }
        ensures flags { self.new.flags ≡ slice_set self.old.flags point true }
        ensures known { (count : ℕ) → point < count → AreBelow count self.old.points
            → AreBelow count self.new.points }
        ensures few { length self.new.points ≤ length self.new.flags }
    {
        if !self.waits[point as usize] {
            self.waits[point as usize] = true;
            self.line.push_back_reserved(point);
        }
    }

    /// Takes the first.
    pub(crate) fn pop(&mut self) -> Option<u32>
        ensures known { IfSome result (λ p. p < length self.old.flags) }
        ensures flags { IfSome result (λ p. self.new.flags ≡ slice_set self.old.flags p false) }
        ensures first { IfSome result (λ p. self.old.points ≡ p ∷ self.new.points) }
        ensures idle { IfNone result (AreIdle self.new.flags) }
        ensures same { IfNone result (self.new.flags ≡ self.old.flags) }
        ensures none { IfNone result (self.new.points ≡ []) }
    {
        match self.line.pop_front() {
            Some(point) => {
                self.waits[point as usize] = false;
                Some(point)
            }
            None => None,
        }
    }

    /// Takes all.
    pub(crate) fn clear(&mut self)
        ensures idle { AreIdle self.new.flags }
        ensures none { self.new.points ≡ [] }
        ensures len { length self.new.flags ≡ length self.old.flags }
    {
        'rest: while self.pop().is_some() {}
    }
}
