//! How a run ended.
ghost use Rattle.std.specs.Prelude.{◌≡◌};
ghost use Rattle.tp_program.specs.Statuses.{status_number};

use crate::farm_fault::FarmFault;
use std::fmt;
use tp_compose::RackFault;
use tp_log_check::Flaw;
use tp_machine_text::MachineFault;
use tp_snapshot::SnapFault;

/// What is too long.
#[derive(Clone, Copy, Debug, PartialEq, Eq)]
pub enum Long {
    /// A machine text, the rack text, or the list of a farm, has more than 1,048,576 bytes.
    MachineText,
    /// The line of this number, counted from 1, has more than 4,096 bytes without its LF, and of a log more than 4,194,304.
    Line(u64),
    /// The script has more than 1,000,000 lines.
    Lines,
    /// The log has more than 10^18 bytes, or more than 1,000,000 lines of events.
    Log,
    /// A snapshot has more than 134,217,728 bytes.
    Snapshot,
}

/// How what the words ask for ended, with the number and the line that tell it.
#[derive(Clone, Copy, Debug, PartialEq, Eq)]
pub enum Status {
    /// The input was read to its end, and all was answered.
    Done,
    /// Memory ran out. It says nothing of the input.
    Memory,
    /// The words are not of the form.
    Usage,
    /// The machine text is not TOML, or breaks a rule. It never holds `Memory`.
    Machine(MachineFault),
    /// The shelf failed.
    Shelf,
    /// The source failed.
    Source,
    /// The sink failed.
    Sink,
    /// A machine text, the rack text, the list of a farm, a snapshot, a line, the script or the log is longer than it may be.
    TooLong(Long),
    /// The log is refused. The flaw is never `Memory`.
    Rejected(Flaw),
    /// The snapshot is not JSON, or breaks a rule. It never holds `Memory`.
    Snapshot(SnapFault),
    /// The rack text is not TOML, or breaks a rule, or its flat table does. It never holds `Memory`.
    Rack(RackFault),
    /// The list of a farm names no machines, or one that is refused.
    Farm(FarmFault),
}

impl Status {
    /// The number that the process ends with.
    pub fn number(self) -> u8
        ensures { result ≡ status_number self }
    {
        match self {
            Status::Done => 0,
            Status::Memory => 1,
            Status::Usage => 2,
            Status::Machine(_) => 3,
            Status::Shelf => 4,
            Status::Source => 5,
            Status::Sink => 6,
            Status::TooLong(_) => 7,
            Status::Rejected(_) => 8,
            Status::Snapshot(_) => 9,
            Status::Rack(_) => 10,
            Status::Farm(_) => 11,
        }
    }
}

impl fmt::Display for Status {
    ghost use Rattle.std.specs.Prelude.{Some};
    ghost use Rattle.tp_program.specs.Statuses.{status_line};

    ghost output = { λ s. Some (status_line s) };

    fn fmt<W: fmt::Write>(&self, f: &mut fmt::Formatter<W>) -> fmt::Result {
        match *self {
            Status::Done => Ok(()),
            Status::Memory => f.write_str("printer: out of memory"),
            Status::Usage => {
                f.write_str("printer: usage: printer MODE ARG [--bounds] [--budget N]")
            }
            Status::Machine(MachineFault::Memory) => {
                f.write_str("printer: machine: out of memory")
            }
            Status::Machine(MachineFault::NotToml) => f.write_str("printer: machine: not TOML"),
            Status::Machine(MachineFault::Rule(n)) => write!(f, "printer: machine: rule {n}"),
            Status::Shelf => f.write_str("printer: cannot read the machine text"),
            Status::Source => f.write_str("printer: cannot read the input"),
            Status::Sink => f.write_str("printer: cannot write the output"),
            Status::TooLong(_) => f.write_str("printer: input too long"),
            Status::Rejected(flaw) => write!(f, "printer: {flaw}"),
            Status::Snapshot(SnapFault::Memory) => {
                f.write_str("printer: snapshot: out of memory")
            }
            Status::Snapshot(SnapFault::NotJson) => f.write_str("printer: snapshot: not JSON"),
            Status::Snapshot(SnapFault::Rule(n)) => write!(f, "printer: snapshot: rule {n}"),
            Status::Rack(RackFault::Memory) => f.write_str("printer: rack: out of memory"),
            Status::Rack(RackFault::NotToml) => f.write_str("printer: rack: not TOML"),
            Status::Rack(RackFault::Rule(n)) => write!(f, "printer: rack: rule {n}"),
            Status::Rack(RackFault::Flat(n)) => write!(f, "printer: rack: flat rule {n}"),
            Status::Farm(fault) => write!(f, "printer: farm: {fault}"),
        }
    }
}
