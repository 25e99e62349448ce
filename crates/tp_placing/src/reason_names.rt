//! The names of a reason's points and edges.
use tp_machine::ResId;
use tp_schedule::SheetName;

/// A point of the network by its name.
#[derive(Clone, Copy, PartialEq, Eq, Debug)]
pub enum Spot {
    /// The asked copy's end, which is 0, or the start of its choice of this number, counted from the end.
    Own(u32),
    /// A point of a copy's plan, counted from 0: action i runs from point i - 1 to point i.
    Kept { sheet: SheetName, at: u32 },
    /// The last tick of a claimed end.
    Limit,
}

/// An action that holds a resource, by its name.
#[derive(Clone, Copy, PartialEq, Eq, Debug)]
pub enum Grip {
    /// The asked copy's choice of this number, counted from the end, from 1 on.
    Own(u32),
    /// An action of a copy's plan, counted from 1.
    Kept { sheet: SheetName, act: u32 },
}

/// Why an edge stands.
#[derive(Clone, Copy, PartialEq, Eq, Debug)]
pub enum Why {
    /// An action lasts at least its least duration.
    Forward,
    /// An action lasts at most its most duration.
    Back,
    /// A copy ends before a later one of its line.
    Line,
    /// One action's hold of the resource ends by the begin of another's.
    Resource {
        resource: ResId,
        before: Grip,
        after: Grip,
    },
    /// A stopped list starts by the end of its front.
    Stop,
    /// The end comes by the last tick of a claim.
    Limit,
}
