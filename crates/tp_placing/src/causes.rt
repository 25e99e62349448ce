//! Why the edges of the network stand. An edge's tag is the place of its cause in a table.
ghost use Rattle.std.specs.Prelude.{◌≡◌, ◌+◌, ◌*◌, ◌<◌, ◌≤◌, ◌++◌, ◌∷◌, [], length, take, slice_get, slice_set, Some};
ghost use Rattle.tp_placing.specs.Inside.{most_steps};
ghost use Rattle.tp_placing.specs.Causes.{ArePlain, cause_between, most_causes, step_causes};

use crate::parts::Held;
use std::alloc::Global;
use std::marker::Model;
use tp_base::{Memory, PointId};
use tp_machine::ResId;

/// Why an edge stands: the least or the most duration of an action, the line of a tray, the stop at the front's end, the
/// limit of a claimed end, or a resource that two actions hold one after the other, each told by the point where it starts.
#[derive(Clone, Copy)]
pub(crate) enum EdgeCause {
    Forward,
    Back,
    Line,
    Stop,
    Limit,
    Resource {
        resource: ResId,
        before: PointId,
        after: PointId,
    },
}

/// The tags of the causes that need no more words. They stand first in the table.
pub(crate) const FORWARD: u32 = 0;

pub(crate) const BACK: u32 = 1;

pub(crate) const LINE: u32 = 2;

pub(crate) const STOP: u32 = 3;

pub(crate) const LIMIT: u32 = 4;

/// Behind them stand two causes for each step that there can be, and then those of the loaded orders.
const STEP_CAUSES: usize = 665;

const CAUSES: usize = 66_665;

/// The tag of the first of the two causes that a step may have, after so many steps.
pub(crate) fn step_tag(steps: usize) -> u32
    requires { steps ≤ most_steps }
    ensures { result ≡ 5 + 2 * steps }
{
    5 + 2 * steps as u32
}

/// Why a hold ends by the begin of another.
pub(crate) fn between(before: &Held, after: &Held) -> EdgeCause
    ensures { result ≡ cause_between before.now after.now }
{
    EdgeCause::Resource {
        resource: before.rule.resource,
        before: before.start,
        after: after.start,
    }
}

/// The table of causes. It is made once, and an undone step leaves its causes readable until the next one.
#[derive(Drop)]
pub(crate) struct Causes {
    kept: Vec<EdgeCause>,
}

impl Model for Causes {
    ghost use Rattle.std.specs.Prelude.{List};
    ghost use Rattle.tp_placing.specs.declared.causes.EdgeCause.{EdgeCause};
    ghost use Rattle.tp_placing.specs.Inside.{most_steps};
    ghost use Rattle.tp_placing.specs.Causes.{IsCauseTable};

    ghost Value = { List EdgeCause };

    ghost view = { λ c. c.kept.items };

    ghost invariant = { λ c. IsCauseTable c.kept };
}

impl Causes {
    pub(crate) fn new(alloc: Global) -> Result<Causes, Memory> {
        let mut kept = Vec::with_capacity(alloc, CAUSES)?;
        kept.push(EdgeCause::Forward)?;
        kept.push(EdgeCause::Back)?;
        kept.push(EdgeCause::Line)?;
        kept.push(EdgeCause::Stop)?;
        kept.push(EdgeCause::Limit)?;
        'slots: while kept.len() < STEP_CAUSES {
            kept.push(EdgeCause::Limit)?;
        }
        Ok(Causes { kept })
    }

    /// Forgets the causes of the loaded orders.
    pub(crate) fn clear(&mut self)
        ensures plain { ArePlain self.new }
        ensures forgotten { self.new ≡ take step_causes self.old }
    {
        self.kept.truncate(STEP_CAUSES);
    }

    /// How many causes stand in the table.
    pub(crate) fn len(&self) -> usize
        ensures { result ≡ length self.now }
    {
        self.kept.len()
    }

    /// Adds a cause of the loaded orders, and answers its tag.
    pub(crate) fn push(&mut self, cause: EdgeCause) -> u32
        requires capacity { length self.old < most_causes }
        ensures tag { result ≡ length self.old }
        ensures added { self.new ≡ self.old ++ cause ∷ [] }
    {
        let tag = self.kept.len() as u32;
        match self.kept.push(cause) {
            Ok(()) => tag,
            Err(_) => unreachable!(),
        }
    }

    /// Writes a cause of a step.
    pub(crate) fn set(&mut self, tag: u32, cause: EdgeCause)
        requires behind { 5 ≤ tag }
        requires within { tag < step_causes }
        ensures { self.new ≡ slice_set self.old tag cause }
    {
        self.kept[tag as usize] = cause;
    }

    pub(crate) fn get(&self, tag: u32) -> EdgeCause
        requires { tag < length self.now }
        ensures { slice_get self.now tag ≡ Some result }
    {
        self.kept[tag as usize]
    }
}
