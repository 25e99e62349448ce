//! One line of a log.
ghost use Rattle.std.specs.Prelude.{◌+◌, ◌<◌, ◌^◌, length};
ghost use Rattle.tp_log.specs.LogLines.{ReadsLogLine};

use crate::line::read_plain;
use std::alloc::Global;
use tp_bounds::{BoundLine, Node, TreeRow, read_bound_line};
use tp_schedule::Record;
use tp_script::{Event, LineFault};

/// What one line of a log says.
#[derive(Drop)]
pub enum LogLine {
    /// The echo of an event.
    Event(Event),
    /// A record of the last event.
    Note(Record),
    /// A room row of a bound tree.
    Room(TreeRow),
    /// A node of a bound tree.
    Node(Node),
}

/// What one line says, given with its LF. `Syntax` off the grammar. Where in a log a line may stand is
/// not asked.
pub fn read_log_line(alloc: Global, line: &[u8]) -> Result<LogLine, LineFault>
    requires { length line.now + 1 < 2 ^ 32 }
    ensures { ReadsLogLine line.now result }
{
    match read_bound_line(alloc, line) {
        Err(_) => Err(LineFault::Memory),
        Ok(Some(BoundLine::Room(row))) => Ok(LogLine::Room(row)),
        Ok(Some(BoundLine::Node(node))) => Ok(LogLine::Node(node)),
        Ok(None) => read_plain(alloc, line),
    }
}
