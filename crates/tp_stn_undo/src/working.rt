//! What a change is worked out with.
ghost use Rattle.std.specs.Prelude.{◌≡◌, ◌+◌, ◌*◌, ◌≤◌, [], IfOk};

use crate::changes::Changes;
use crate::waiting::Waiting;
use std::alloc::{AllocError, Global};
use tp_base::Edge;

/// What a change is worked out with: the points that wait, what points were before it, and room for a path of causes.
#[derive(Drop)]
pub(crate) struct Working {
    pub(crate) waiting: Waiting,
    pub(crate) changes: Changes,
    /// The edges that show why the last refused change was refused.
    pub(crate) path: Vec<Edge>,
    /// Zeros, a place for each point of the path while it is walked. The places grow with the points.
    pub(crate) places: Vec<u32>,
}

impl Working {
    ghost use Rattle.tp_stn_undo.specs.WorkingRoom.{HasWorkingCapacity, AtRest};

    pub(crate) fn new(alloc: Global, points: u32, marks: u32) -> Result<Working, AllocError>
        ensures capacity { IfOk result (λ w. HasWorkingCapacity points w) }
        ensures noted { IfOk result (λ w. w.changes.capacity ≡ points) }
        ensures most { IfOk result (λ w. points * (marks + 1) ≤ w.changes.most) }
        ensures older { IfOk result (λ w. w.changes.older ≡ []) }
        ensures rest { IfOk result (λ w. AtRest w) }
    {
        let capacity = points as usize;
        Ok(Working {
            waiting: Waiting::new(alloc, capacity)?,
            changes: Changes::new(alloc, points, marks)?,
            path: Vec::with_capacity(alloc, capacity)?,
            places: Vec::with_capacity(alloc, capacity)?,
        })
    }
}
