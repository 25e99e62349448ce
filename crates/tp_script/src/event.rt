//! Events, and the groups of sheets of a job.
use std::marker::Model;
use tp_base::{Items, Name};
use tp_machine::{Face, Want};

/// So many sheets of one kind: `count` is from 1 to 4,096.
#[derive(Clone, Copy, PartialEq, Eq, Debug)]
pub struct Group {
    pub count: u32,
    pub front: Want,
    pub back: Want,
    pub face: Face,
}

// Clauses see the four fields.
impl Model for Group {
    ghost use Rattle.std.specs.Prelude.{◌≤◌};
    ghost use Rattle.tp_script.specs.Form.{GroupForm, most_sheets};

    ghost Value = { GroupForm };

    ghost view = { λ g. record {
      count = g.count;
      front = g.front;
      back = g.back;
      face = g.face;
    } };

    ghost invariant = { λ g. (1 ≤ g.count) × (g.count ≤ most_sheets) };

    ghost inverse = { λ f. record {
      count = f.count;
      front = f.front;
      back = f.back;
      face = f.face;
    } };
}

/// What a line of a script asks for. A job has at least one group; `to` is a tick.
#[derive(Drop)]
pub enum Event {
    /// A line off the grammar.
    Bad,
    Job {
        name: Name,
        tray: Name,
        media: Name,
        groups: Items<Group>,
    },
    Clock {
        to: u32,
    },
    Jam {
        module: Name,
    },
    Off {
        module: Name,
    },
    On {
        module: Name,
    },
    /// So many sheets are put into a feeder: any number that its range has, 0 among them.
    Refill {
        feeder: Name,
        count: u32,
    },
}
