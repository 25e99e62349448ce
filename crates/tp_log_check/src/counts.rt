//! What is counted of a log.

ghost use Rattle.std.specs.Prelude.{◌≡◌, ◌++◌, ◌∷◌, [], List};
ghost use Rattle.tp_log_check.specs.LogCounts.{AreOneMore, CanGrow, counts_of};
ghost use Rattle.tp_log.specs.declared.log_line.LogLine.{LogLine};

use tp_log::LogLine;
use tp_schedule::Record;

/// How many events a log has, and how many plans, nones and budgets.
#[derive(Clone, Copy, Debug, PartialEq, Eq)]
pub struct Counts {
    pub events: u64,
    pub plans: u64,
    pub nones: u64,
    pub budgets: u64,
}

impl Counts {
    /// Of no line.
    pub fn none() -> Counts
        ensures { result ≡ counts_of [] }
    {
        Counts {
            events: 0,
            plans: 0,
            nones: 0,
            budgets: 0,
        }
    }

    /// With one line more.
    pub fn with(self, told: &LogLine) -> Counts
        requires room { CanGrow self }
        ensures counted { (lines : List LogLine) → self ≡ counts_of lines
            → result ≡ counts_of (lines ++ told.now ∷ []) }
        ensures grows { AreOneMore self result }
    {
        match told {
            LogLine::Event(_) => Counts {
                events: self.events + 1,
                ..self
            },
            LogLine::Note(Record::Plan { .. }) => Counts {
                plans: self.plans + 1,
                ..self
            },
            LogLine::Note(Record::Never { .. }) => Counts {
                nones: self.nones + 1,
                ..self
            },
            LogLine::Note(Record::Budget { .. }) => Counts {
                budgets: self.budgets + 1,
                ..self
            },
            _ => self,
        }
    }
}
