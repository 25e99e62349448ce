//! One item of a log: an event, a record or a bound tree.
use tp_bounds::BoundTree;
use tp_schedule::Record;
use tp_script::Event;

/// What a line of a log says, or the lines of a bound tree.
#[derive(Drop)]
pub enum Item {
    /// The echo of an event.
    Event(Event),
    /// A record of the last event.
    Note(Record),
    /// A tree that proves the last plan or none. It stands directly behind it, or behind its moves.
    Tree(BoundTree),
}
