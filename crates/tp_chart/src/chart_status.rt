//! How a run ended.
ghost use Rattle.std.specs.Prelude.{◌≡◌};
ghost use Rattle.tp_chart.specs.Statuses.{status_number};

use std::fmt;
use tp_machine_text::MachineFault;
use tp_snapshot::SnapFault;

/// What is too long.
#[derive(Clone, Copy, Debug, PartialEq, Eq)]
pub enum LongText {
    /// The machine text has more than 1,048,576 bytes, or the snapshot more than 134,217,728.
    MachineText,
    /// The log has more than 1,073,741,824 bytes.
    Log,
}

/// How a run ended, with the number and the line that tell it.
#[derive(Clone, Copy, Debug, PartialEq, Eq)]
pub enum ChartStatus {
    /// The picture was written.
    Done,
    /// Memory ran out. It says nothing of the input.
    Memory,
    /// The words are not of the form.
    Usage,
    /// The machine text is not TOML, or breaks a rule.
    Machine(MachineFault),
    /// The shelf failed.
    Shelf,
    /// The source failed.
    Source,
    /// The sink failed.
    Sink,
    /// The machine text, the snapshot or the log is longer than it may be.
    TooLong(LongText),
    /// The line of this number, counted from 1, is the first that is off the grammar of logs.
    Line(u64),
    /// The snapshot is not JSON, or breaks a rule. It never holds `Memory`.
    Snapshot(SnapFault),
}

impl ChartStatus {
    /// The number that the process ends with.
    pub fn number(self) -> u8
        ensures { result ≡ status_number self }
    {
        match self {
            ChartStatus::Done => 0,
            ChartStatus::Memory => 1,
            ChartStatus::Usage => 2,
            ChartStatus::Machine(_) => 3,
            ChartStatus::Shelf => 4,
            ChartStatus::Source => 5,
            ChartStatus::Sink => 6,
            ChartStatus::TooLong(_) => 7,
            ChartStatus::Line(_) => 8,
            ChartStatus::Snapshot(_) => 9,
        }
    }
}

impl fmt::Display for ChartStatus {
    ghost use Rattle.std.specs.Prelude.{Some};
    ghost use Rattle.tp_chart.specs.Statuses.{status_line};

    ghost output = { λ s. Some (status_line s) };

    fn fmt<W: fmt::Write>(&self, f: &mut fmt::Formatter<W>) -> fmt::Result {
        match *self {
            ChartStatus::Done => Ok(()),
            ChartStatus::Memory => f.write_str("chart: out of memory"),
            ChartStatus::Usage => f.write_str(
                "chart: usage: chart [--sheets] [--html] [--from T] [--at T] [--machine K] MACHINE",
            ),
            ChartStatus::Machine(MachineFault::Memory) => f.write_str(
                "chart: machine: out of memory",
            ),
            ChartStatus::Machine(MachineFault::NotToml) => f.write_str("chart: machine: not TOML"),
            ChartStatus::Machine(MachineFault::Rule(n)) => write!(f, "chart: machine: rule {n}"),
            ChartStatus::Shelf => f.write_str("chart: cannot read the machine text"),
            ChartStatus::Source => f.write_str("chart: cannot read the input"),
            ChartStatus::Sink => f.write_str("chart: cannot write the output"),
            ChartStatus::TooLong(_) => f.write_str("chart: input too long"),
            ChartStatus::Line(n) => write!(f, "chart: line {n}: not a line of a log"),
            ChartStatus::Snapshot(SnapFault::Memory) => f.write_str(
                "chart: snapshot: out of memory",
            ),
            ChartStatus::Snapshot(SnapFault::NotJson) => f.write_str("chart: snapshot: not JSON"),
            ChartStatus::Snapshot(SnapFault::Rule(n)) => write!(f, "chart: snapshot: rule {n}"),
        }
    }
}
