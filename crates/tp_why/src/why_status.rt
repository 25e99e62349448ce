//! How a run ended.
ghost use Rattle.std.specs.Prelude.{◌≡◌};
ghost use Rattle.tp_why.specs.Statuses.{status_number};

use std::fmt;

/// How a run ended.
#[derive(Clone, Copy, PartialEq, Eq)]
pub enum WhyStatus {
    /// The answer was written.
    Done,
    /// Memory ran out. It says nothing of the input.
    Memory,
    /// The words are not of the form.
    Usage,
    /// The shelf failed.
    Shelf,
    /// The sink failed.
    Sink,
    /// The text has more than 1,048,576 bytes.
    TooLong,
}

impl WhyStatus {
    /// The number that the process ends with.
    pub fn number(self) -> u8
        ensures { result ≡ status_number self }
    {
        match self {
            WhyStatus::Done => 0,
            WhyStatus::Memory => 1,
            WhyStatus::Usage => 2,
            WhyStatus::Shelf => 4,
            WhyStatus::Sink => 6,
            WhyStatus::TooLong => 7,
        }
    }
}

impl fmt::Display for WhyStatus {
    ghost use Rattle.std.specs.Prelude.{Some};
    ghost use Rattle.tp_why.specs.Statuses.{status_line};

    ghost output = { λ s. Some (status_line s) };

    fn fmt<W: fmt::Write>(&self, f: &mut fmt::Formatter<W>) -> fmt::Result {
        f.write_str(match *self {
            WhyStatus::Done => "",
            WhyStatus::Memory => "why: out of memory",
            WhyStatus::Usage => "why: usage: why machine MACHINE",
            WhyStatus::Shelf => "why: cannot read the text",
            WhyStatus::Sink => "why: cannot write the output",
            WhyStatus::TooLong => "why: input too long",
        })
    }
}
