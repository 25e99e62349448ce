//! Which lines of a tree may stand behind a line.

ghost use Rattle.std.specs.Prelude.{◌≡◌, true, false};
ghost use Rattle.tp_log.specs.LogLines.{takes_tree};

use tp_schedule::Record;

/// Whether a room row, and whether a node may stand behind the lines so far.
#[derive(Clone, Copy)]
pub(crate) struct NextEntry {
    row: bool,
    node: bool,
}

fn takes_tree(told: &Record) -> bool
    ensures { result ≡ takes_tree told.now }
{
    matches!(
        told,
        Record::Plan { .. } | Record::Move { .. } | Record::Never { .. }
    )
}

impl NextEntry {
    /// Behind an event.
    pub(crate) fn behind_event() -> NextEntry
        ensures { result ≡ record { row = false; node = false } }
    {
        NextEntry {
            row: false,
            node: false,
        }
    }

    /// Behind a record.
    pub(crate) fn behind_record(told: &Record) -> NextEntry
        ensures { result ≡ record { row = takes_tree told.now; node = takes_tree told.now } }
    {
        let takes = takes_tree(told);
        NextEntry {
            row: takes,
            node: takes,
        }
    }

    pub(crate) fn behind_row() -> NextEntry
        ensures { result ≡ record { row = true; node = true } }
    {
        NextEntry {
            row: true,
            node: true,
        }
    }

    pub(crate) fn behind_node() -> NextEntry
        ensures { result ≡ record { row = false; node = true } }
    {
        NextEntry {
            row: false,
            node: true,
        }
    }

    pub(crate) fn takes_row(self) -> bool
        ensures { result ≡ self.row }
    {
        self.row
    }

    pub(crate) fn takes_node(self) -> bool
        ensures { result ≡ self.node }
    {
        self.node
    }
}
