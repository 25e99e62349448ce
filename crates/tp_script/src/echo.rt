//! An event read back from its echo.
ghost use Rattle.std.specs.Prelude.{◌+◌, ◌<◌, ◌^◌, length};
ghost use Rattle.tp_script.specs.Printed.{Echoes};

use crate::event::Event;
use crate::event_printer::print_event;
use crate::event_reader::read_line;
use crate::fault::LineFault;
use std::alloc::Global;

/// The event that is printed so, `Bad` among them, as the line of an event in a log echoes it.
/// A text that no event is printed as is off the grammar.
pub fn read_printed(alloc: Global, text: &[u8]) -> Result<Event, LineFault>
    requires { length text.now + 1 < 2 ^ 32 }
    ensures { Echoes text.now result }
{
    if text == b"?".as_slice() {
        return Ok(Event::Bad);
    }
    match read_line(alloc, text) {
        Err(fault) => Err(fault),
        Ok(None) => Err(LineFault::Syntax),
        Ok(Some(event)) => {
            let mut out = Vec::new(alloc);
            match print_event(&event, &mut out) {
                Err(_) => Err(LineFault::Memory),
                Ok(()) => {
                    if out.as_slice() == text {
                        Ok(event)
                    } else {
                        Err(LineFault::Syntax)
                    }
                }
            }
        }
    }
}
