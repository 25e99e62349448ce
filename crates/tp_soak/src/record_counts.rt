//! What is counted of a log.

ghost use Rattle.std.specs.Prelude.{◌≡◌, ◌≤◌, ◌++◌, ◌∷◌, [], List, cond};
ghost use Rattle.tp_log.specs.declared.log_line.LogLine.{LogLine};
ghost use Rattle.tp_soak.specs.SoakCounts.{CanGrow, is_event, is_of, line_counts, tells_line};

use tp_log::LogLine;
use tp_schedule::Record;

/// What is counted: events, and records of some kinds.
#[derive(Clone, Copy)]
enum ItemKind {
    Event,
    Plan,
    Move,
    Release,
    Done,
    Lost,
    Never,
    Budget,
}

/// How many events a log has, and how many records of each of these kinds.
#[derive(Clone, Copy, Debug, PartialEq, Eq)]
pub struct RecordCounts {
    pub events: usize,
    pub plans: usize,
    pub moves: usize,
    pub releases: usize,
    pub dones: usize,
    pub lost: usize,
    pub nones: usize,
    pub budgets: usize,
}

fn is_event(kind: ItemKind) -> bool
    ensures { result ≡ is_event kind }
{
    matches!(kind, ItemKind::Event)
}

fn is_of(kind: ItemKind, told: &Record) -> bool
    ensures { result ≡ is_of kind told.now }
{
    match kind {
        ItemKind::Event => false,
        ItemKind::Plan => matches!(told, Record::Plan { .. }),
        ItemKind::Move => matches!(told, Record::Move { .. }),
        ItemKind::Release => matches!(told, Record::Release { .. }),
        ItemKind::Done => matches!(told, Record::Done { .. }),
        ItemKind::Lost => matches!(told, Record::Lost { .. }),
        ItemKind::Never => matches!(told, Record::Never { .. }),
        ItemKind::Budget => matches!(told, Record::Budget { .. }),
    }
}

fn tells(kind: ItemKind, told: &LogLine) -> bool
    ensures { result ≡ tells_line kind told.now }
{
    match told {
        LogLine::Note(told) => is_of(kind, told),
        LogLine::Event(_) => is_event(kind),
        _ => false,
    }
}

/// How many lines of the kind this one is.
fn count(kind: ItemKind, told: &LogLine) -> usize
    ensures is { result ≡ cond (tells_line kind told.now) 1 0 }
    ensures few { result ≤ 1 }
{
    if tells(kind, told) { 1 } else { 0 }
}

impl RecordCounts {
    /// Of no line.
    pub(crate) fn none() -> RecordCounts
        ensures { result ≡ line_counts [] }
    {
        RecordCounts {
            events: 0,
            plans: 0,
            moves: 0,
            releases: 0,
            dones: 0,
            lost: 0,
            nones: 0,
            budgets: 0,
        }
    }

    /// With one line more.
    pub(crate) fn with(self, told: &LogLine) -> RecordCounts
        requires room { CanGrow self }
        ensures { (lines : List LogLine) → self ≡ line_counts lines
            → result ≡ line_counts (lines ++ told.now ∷ []) }
    {
        RecordCounts {
            events: self.events + count(ItemKind::Event, told),
            plans: self.plans + count(ItemKind::Plan, told),
            moves: self.moves + count(ItemKind::Move, told),
            releases: self.releases + count(ItemKind::Release, told),
            dones: self.dones + count(ItemKind::Done, told),
            lost: self.lost + count(ItemKind::Lost, told),
            nones: self.nones + count(ItemKind::Never, told),
            budgets: self.budgets + count(ItemKind::Budget, told),
        }
    }
}
