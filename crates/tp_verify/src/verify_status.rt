//! How a check ended.
ghost use Rattle.std.specs.Prelude.{◌≡◌};
ghost use Rattle.tp_verify.specs.Statuses.{status_number};

use std::fmt;
use tp_log_check::Flaw;
use tp_machine_text::MachineFault;

/// What is too long.
#[derive(Clone, Copy, Debug, PartialEq, Eq)]
pub enum LongInput {
    /// The machine text has more than 1,048,576 bytes.
    MachineText,
    /// The line of this number, counted from 1, has more than 4,194,304 bytes without its LF.
    Line(u64),
    /// The log has more than 10^18 bytes, or more than 1,000,000 lines of events.
    Log,
}

/// How a check ended, with the number and the line that tell it.
#[derive(Clone, Copy, Debug, PartialEq, Eq)]
pub enum VerifyStatus {
    /// The log was accepted, and its counts were written.
    Done,
    /// Memory ran out. It says nothing of the input.
    Memory,
    /// The words are not of the form.
    Usage,
    /// The machine text is not TOML, or breaks a rule. It never holds `Memory`.
    Machine(MachineFault),
    /// The shelf failed.
    Shelf,
    /// The source failed.
    Source,
    /// The sink failed.
    Sink,
    /// The machine text, a line or the log is longer than it may be.
    TooLong(LongInput),
    /// The log is refused. The flaw is never `Memory`.
    Rejected(Flaw),
}

impl VerifyStatus {
    /// The number that the process ends with.
    pub fn number(self) -> u8
        ensures { result ≡ status_number self }
    {
        match self {
            VerifyStatus::Done => 0,
            VerifyStatus::Memory => 1,
            VerifyStatus::Usage => 2,
            VerifyStatus::Machine(_) => 3,
            VerifyStatus::Shelf => 4,
            VerifyStatus::Source => 5,
            VerifyStatus::Sink => 6,
            VerifyStatus::TooLong(_) => 7,
            VerifyStatus::Rejected(_) => 8,
        }
    }
}

impl fmt::Display for VerifyStatus {
    ghost use Rattle.std.specs.Prelude.{Some};
    ghost use Rattle.tp_verify.specs.Statuses.{status_line};

    ghost output = { λ s. Some (status_line s) };

    fn fmt<W: fmt::Write>(&self, f: &mut fmt::Formatter<W>) -> fmt::Result {
        match *self {
            VerifyStatus::Done => Ok(()),
            VerifyStatus::Memory => f.write_str("verify: out of memory"),
            VerifyStatus::Usage => f.write_str("verify: usage: verify MACHINE"),
            VerifyStatus::Machine(MachineFault::Memory) => f.write_str(
                "verify: machine: out of memory",
            ),
            VerifyStatus::Machine(MachineFault::NotToml) => f.write_str(
                "verify: machine: not TOML",
            ),
            VerifyStatus::Machine(MachineFault::Rule(n)) => write!(f, "verify: machine: rule {n}"),
            VerifyStatus::Shelf => f.write_str("verify: cannot read the machine text"),
            VerifyStatus::Source => f.write_str("verify: cannot read the input"),
            VerifyStatus::Sink => f.write_str("verify: cannot write the output"),
            VerifyStatus::TooLong(_) => f.write_str("verify: input too long"),
            VerifyStatus::Rejected(flaw) => write!(f, "verify: {flaw}"),
        }
    }
}
