//! A refill, by the words of its event.

use tp_base::Name;

/// So many sheets are put into the feeder of this name.
#[derive(Clone, Copy, Debug)]
pub(crate) struct RefillOrder {
    pub feeder: Name,
    pub count: u32,
}
