//! A module that goes out.

use tp_machine::ModId;

/// The module, and whether it jams: then the copies that run on it are lost. Else it is switched off, and what runs on it
/// goes on.
#[derive(Clone, Copy, PartialEq, Eq)]
pub struct Outage {
    pub module: ModId,
    pub jammed: bool,
}
