//! Copies, goals, plans, asks and outages.
ghost use Rattle.std.specs.Prelude.{◌≡◌};

use crate::series::{Acts, Points};
use tp_base::{Name, Tick};
use tp_machine::{LocId, Outs, Sheet, State};

/// One physical sheet: the arrival number of its job, the sheet's number in the job from 1 on, and its copy's number.
#[derive(Clone, Copy, PartialEq, Eq, Debug)]
pub struct SheetId {
    pub job: u32,
    pub number: u32,
    pub copy: u32,
}

/// Where a copy is to go.
#[derive(Clone, Copy, PartialEq, Eq, Debug)]
pub enum Goal {
    Tray(LocId),
    Purge,
}

/// A plan that leads to its goal, or one that was cut short.
#[derive(Clone, Copy, PartialEq, Eq, Debug)]
pub enum Kind {
    Whole,
    Front,
}

/// The way of a copy in time: action i runs from point i - 1 to point i, in ticks. The first `released` actions stand for good.
#[derive(Drop)]
pub struct Plan {
    pub sheet: SheetId,
    /// The name of the job.
    pub name: Name,
    pub want: Sheet,
    pub goal: Goal,
    pub kind: Kind,
    pub acts: Acts,
    pub points: Points,
    pub released: u32,
}

impl Plan {
    pub fn copy(&self) -> Plan
        ensures same { result ≡ self.now }
    {
        Plan {
            sheet: self.sheet,
            name: self.name,
            want: self.want,
            goal: self.goal,
            kind: self.kind,
            acts: self.acts.copy(),
            points: self.points.copy(),
            released: self.released,
        }
    }
}

/// Where an asked copy comes from: a feeder, or the state, end and number of actions of its front.
#[derive(Clone, Copy, PartialEq, Eq, Debug)]
pub enum Origin {
    Feeder,
    Front { state: State, end: Tick, kept: u32 },
}

/// A set of locations: location n is in it where bit n mod 64 of word n / 64 is set.
#[derive(Clone, Copy, PartialEq, Eq, Debug)]
pub struct Empties {
    pub w0: u64,
    pub w1: u64,
    pub w2: u64,
    pub w3: u64,
}

/// A copy is to be planned to its goal, without the modules that are out, at the moment `now`.
#[derive(Clone, Copy, PartialEq, Eq, Debug)]
pub struct Ask {
    pub sheet: SheetId,
    /// The name of the job.
    pub name: Name,
    pub want: Sheet,
    pub goal: Goal,
    pub origin: Origin,
    pub outs: Outs,
    /// The feeders that are empty, at which no new copy begins: none for a copy in flight.
    pub empty: Empties,
    pub now: Tick,
}

/// The answer to an ask. With `Spent` no plan ends before the bound.
#[derive(Clone, Copy, PartialEq, Eq, Debug)]
pub enum Reply {
    Planned,
    Never,
    Spent { bound: Tick },
}

/// A hold of a resource: the copy, and the number of its action from 1 on.
#[derive(Clone, Copy, PartialEq, Eq, Debug)]
pub struct Hold {
    pub sheet: SheetId,
    pub act: u32,
}

/// Why a planner gave no answer: memory ran out, or it stopped for a cause of its own.
#[derive(Clone, Copy, PartialEq, Eq, Debug)]
pub enum Halt {
    Memory,
    Stopped,
}
