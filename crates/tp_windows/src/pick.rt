//! A step of a way.
use tp_base::Tick;
use tp_machine::ActId;

/// An action of a way, with the gap of each of its holds and the ticks at which it starts and ends at the earliest.
#[derive(Clone, Copy)]
pub struct Pick {
    pub act: ActId,
    pub gaps: [u16; 4],
    pub start: Tick,
    pub end: Tick,
}
