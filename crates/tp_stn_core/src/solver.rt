//! Rounds over all edges until no time moves.
ghost use Rattle.std.specs.Prelude.{◌≡◌, ℕ, ◌<◌, ◌≤◌, length, slice_index, None, OnOk, OnErr, IfOk, IfErr, vec_capacity};
ghost use Rattle.std.specs.List.{All};
ghost use Rattle.tp_base.specs.Net.{IsLeast, HasNoSolution};
ghost use Rattle.tp_base.specs.Grows.{IsKnown, AreWithin, cause_of};
ghost use Rattle.tp_base.specs.Kept.{net_of, KeptRefutes};
ghost use Rattle.tp_stn_core.specs.WorkingRoom.{HasWorkingCapacity};

use crate::rounds::settle;
use std::alloc::{AllocError, Global};
use tp_base::{Edge, Kept};

/// Where a solution is worked out: the times, the edge that each was raised along last, and room for a path of them.
#[derive(Drop)]
pub(crate) struct SolveSpace {
    pub(crate) times: Vec<u32>,
    pub(crate) causes: Vec<Option<Edge>>,
    pub(crate) path: Vec<Edge>,
    pub(crate) places: Vec<usize>,
}

impl SolveSpace {
    pub(crate) fn new(alloc: Global, points: usize) -> Result<SolveSpace, AllocError>
        ensures { IfOk result (λ w. HasWorkingCapacity points w) }
    {
        Ok(SolveSpace {
            times: Vec::with_capacity(alloc, points)?,
            causes: Vec::with_capacity(alloc, points)?,
            path: Vec::with_capacity(alloc, points)?,
            places: Vec::with_capacity(alloc, points)?,
        })
    }
}

/// The lower bounds as times, with no causes.
fn fill(lows: &[u32], times: &mut Vec<u32>, causes: &mut Vec<Option<Edge>>)
    requires times { length lows.now ≤ vec_capacity times.old }
    requires causes { length lows.now ≤ vec_capacity causes.old }
    ensures times { times.new.items ≡ lows.now }
    ensures len { length causes.new.items ≡ length lows.now }
    ensures none { (v : ℕ) → cause_of causes.new.items v ≡ None }
    ensures times_capacity { vec_capacity times.old ≤ vec_capacity times.new }
    ensures causes_capacity { vec_capacity causes.old ≤ vec_capacity causes.new }
{
    times.clear();
    causes.clear();
    let Ok(()) = times.extend_from_slice(lows) else {
        unreachable!()
    };
    let Ok(()) = causes.resize(lows.len(), None) else {
        unreachable!()
    };
}

/// Works out the least times, or the edges that show that there are none. Takes no memory.
pub(crate) fn solve(
    lows: &[u32],
    caps: &[u32],
    edges: &[Edge],
    working: &mut SolveSpace,
) -> Result<(), Kept>
    requires caps { length caps.now ≡ length lows.now }
    requires within { AreWithin caps.now lows.now }
    requires known { All (IsKnown (length lows.now)) edges.now }
    requires capacity { HasWorkingCapacity (length lows.now) working.old }
    ensures least { OnOk result (IsLeast (net_of lows.now caps.now edges.now)
        (slice_index working.new.times.items)) }
    ensures len { OnOk result (length working.new.times.items ≡ length lows.now) }
    ensures none { OnErr result (HasNoSolution (net_of lows.now caps.now edges.now)) }
    ensures refuted { IfErr result
        (λ kept. KeptRefutes (net_of lows.now caps.now edges.now) kept working.new.path.items) }
    ensures capacity { (points : ℕ) → HasWorkingCapacity points working.old
        → HasWorkingCapacity points working.new }
{
    fill(lows, &mut working.times, &mut working.causes);
    settle(
        caps,
        edges,
        &mut working.times,
        &mut working.causes,
        &mut working.path,
        &mut working.places,
    )
}
