//! The actions and the points of a plan, in place: at most 64 and 65.
ghost use Rattle.std.specs.Prelude.{◌≡◌, ◌<◌, ◌≤◌, [], ◌∷◌, ◌++◌, length, take, slice_get, Some};
ghost use Rattle.tp_schedule.specs.Limits.{most_acts, most_plan_points};

use std::marker::Model;
use tp_base::Tick;
use tp_machine::ActId;

/// The most actions of a plan, and the points of one with so many.
const MOST_ACTS: usize = 64;

const MOST_POINTS: usize = 65;

/// At most 64 actions, in place.
#[derive(Drop)]
pub struct Acts {
    acts: [ActId; MOST_ACTS],
    len: u32,
}

// Clauses see the list.
impl Model for Acts {
    ghost use Rattle.std.specs.Prelude.{List, ℕ, take, length, ◌≡◌, ◌≤◌};
    ghost use Rattle.tp_machine.specs.declared.parts.ActId.{ActId};
    ghost use Rattle.tp_schedule.specs.Limits.{most_acts};

    ghost Value = { List ActId };

    ghost view = { λ s. take s.len s.acts };

    ghost invariant = { λ s. (s.len ≤ most_acts) × (length s.acts ≡ most_acts) };
}

impl Acts {
    pub fn new() -> Acts
        ensures { result ≡ [] }
    {
        Acts {
            acts: [ActId(0); MOST_ACTS],
            len: 0,
        }
    }

    pub fn len(&self) -> u32
        ensures len { result ≡ length self.now }
        ensures within { length self.now ≤ most_acts }
    {
        self.len
    }

    pub fn get(&self, at: u32) -> ActId
        requires { at < length self.now }
        ensures { slice_get self.now at ≡ Some result }
    {
        self.acts[at as usize]
    }

    pub fn as_slice(&self) -> &[ActId]
        ensures items { result.now ≡ self.now }
        ensures within { length result.now ≤ most_acts }
    {
        &self.acts[..self.len as usize]
    }

    pub fn push(&mut self, act: ActId)
        requires room { length self.old < most_acts }
        ensures pushed { self.new ≡ self.old ++ act ∷ [] }
    {
        self.acts[self.len as usize] = act;
        self.len += 1;
    }

    pub fn cut_to(&mut self, len: u32)
        requires shorter { len ≤ length self.old }
        ensures cut { self.new ≡ take len self.old }
    {
        self.len = len;
    }

    pub fn copy(&self) -> Acts
        ensures same { result ≡ self.now }
    {
        Acts {
            acts: self.acts,
            len: self.len,
        }
    }
}

/// At most 65 ticks, in place.
#[derive(Drop)]
pub struct Points {
    points: [Tick; MOST_POINTS],
    len: u32,
}

// Clauses see the list.
impl Model for Points {
    ghost use Rattle.std.specs.Prelude.{List, ℕ, take, length, ◌≡◌, ◌≤◌};
    ghost use Rattle.tp_schedule.specs.Limits.{most_plan_points};

    ghost Value = { List ℕ };

    ghost view = { λ s. take s.len s.points };

    ghost invariant = { λ s. (s.len ≤ most_plan_points) × (length s.points ≡ most_plan_points) };
}

impl Points {
    pub fn new() -> Points
        ensures { result ≡ [] }
    {
        Points {
            points: [0; MOST_POINTS],
            len: 0,
        }
    }

    pub fn len(&self) -> u32
        ensures len { result ≡ length self.now }
        ensures within { length self.now ≤ most_plan_points }
    {
        self.len
    }

    pub fn get(&self, at: u32) -> Tick
        requires { at < length self.now }
        ensures { slice_get self.now at ≡ Some result }
    {
        self.points[at as usize]
    }

    pub fn as_slice(&self) -> &[Tick]
        ensures items { result.now ≡ self.now }
        ensures within { length result.now ≤ most_plan_points }
    {
        &self.points[..self.len as usize]
    }

    pub fn push(&mut self, point: Tick)
        requires room { length self.old < most_plan_points }
        ensures pushed { self.new ≡ self.old ++ point ∷ [] }
    {
        self.points[self.len as usize] = point;
        self.len += 1;
    }

    pub fn cut_to(&mut self, len: u32)
        requires shorter { len ≤ length self.old }
        ensures cut { self.new ≡ take len self.old }
    {
        self.len = len;
    }

    pub fn copy(&self) -> Points
        ensures same { result ≡ self.now }
    {
        Points {
            points: self.points,
            len: self.len,
        }
    }
}
