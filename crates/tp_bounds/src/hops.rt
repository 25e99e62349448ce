//! The hops of a closed node: steps from point to point, each for one constraint.
ghost use Rattle.std.specs.Prelude.{◌≡◌, ◌<◌, [], ◌∷◌, ◌++◌, length, slice_get, Some, OnOk, OnErr};

use std::alloc::Global;
use std::marker::Model;
use tp_base::{Items, Memory, Name};
use tp_schedule::SheetName;

/// A point of the asked copy, the start of its nth choice from the end or for 0 the end; or point
/// `at` of a kept plan.
#[derive(Clone, Copy, PartialEq, Eq, Debug)]
pub enum TreePoint {
    Own(u32),
    Kept { sheet: SheetName, at: u32 },
}

/// An action that holds a resource: the asked copy's nth choice from the end, or action `act` of a
/// kept plan, counted from 1.
#[derive(Clone, Copy, PartialEq, Eq, Debug)]
pub enum TreeHold {
    Own(u32),
    Kept { sheet: SheetName, act: u32 },
}

/// One step of a chain: along a duration to a neighbouring point, along the line of a tray to a
/// later end, or on a resource from one hold to one that stands behind it.
#[derive(Clone, Copy, PartialEq, Eq, Debug)]
pub enum Hop {
    Duration(TreePoint),
    Line(TreePoint),
    Resource {
        name: Name,
        before: TreeHold,
        after: TreeHold,
    },
}

/// The hops of a chain or a loop, at most 4,294,967,294.
#[derive(Drop)]
pub struct Hops {
    items: Items<Hop>,
}

impl Model for Hops {
    ghost use Rattle.std.specs.Prelude.{List, length, ◌<◌};
    ghost use Rattle.tp_bounds.specs.declared.hops.Hop.{Hop};

    ghost Value = { List Hop };

    ghost view = { λ s. s.items };

    ghost invariant = { λ s. length s.items < 4294967295 };
}

impl Hops {
    /// No hop. It takes no memory.
    pub fn new(alloc: Global) -> Hops
        ensures { result ≡ [] }
    {
        Hops {
            items: Items::new(alloc),
        }
    }

    /// One hop more, last. After `Memory` the list is as before.
    pub fn push(&mut self, hop: Hop) -> Result<(), Memory>
        requires room { length self.old < 4294967294 }
        ensures ok { OnOk result (self.new ≡ self.old ++ hop ∷ []) }
        ensures memory { OnErr result (self.new ≡ self.old) }
    {
        // Each form by itself: a value that holds a point of either kind can't be passed on whole yet.
        match hop {
            Hop::Duration(to) => self.items.push(Hop::Duration(to)),
            Hop::Line(to) => self.items.push(Hop::Line(to)),
            Hop::Resource {
                name,
                before,
                after,
            } => self.items.push(Hop::Resource {
                name,
                before,
                after,
            }),
        }
    }

    pub fn len(&self) -> u32
        ensures { result ≡ length self.now }
    {
        self.items.len()
    }

    /// The hop at a place, from 0 on.
    pub fn get(&self, at: u32) -> &Hop
        requires { at < length self.now }
        ensures { slice_get self.now at ≡ Some result.now }
    {
        self.items.get(at)
    }

    pub fn as_slice(&self) -> &[Hop]
        ensures { result.now ≡ self.now }
    {
        self.items.as_slice()
    }
}
