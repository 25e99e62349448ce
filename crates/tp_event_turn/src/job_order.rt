//! A job that is asked for.

use tp_base::Name;
use tp_script::Group;

/// The parts of the event that brings a job.
#[derive(Clone, Copy)]
pub(crate) struct JobOrder<'a> {
    pub(crate) name: Name,
    pub(crate) tray: Name,
    pub(crate) media: Name,
    pub(crate) groups: &'a [Group],
}
