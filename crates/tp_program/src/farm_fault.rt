//! Why there is no farm.

use std::fmt;
use tp_machine_text::MachineFault;

/// Why a list and the machine texts that it names make no farm.
#[derive(Clone, Copy, Debug, PartialEq, Eq)]
pub enum FarmFault {
    /// The list isn't 1 to 8 lines, each ended by a LF.
    Lines,
    /// The line of this number, counted from 1, is the first that isn't 1 to 255 bytes of UTF-8.
    Name(u32),
    /// The machine text that the line of this number names, counted from 1, is the first that is refused. The fault is never
    /// `Memory`.
    Machine { at: u32, fault: MachineFault },
}

impl fmt::Display for FarmFault {
    ghost use Rattle.std.specs.Prelude.{Some};
    ghost use Rattle.tp_program.specs.Statuses.{farm_line};

    ghost output = { λ f. Some (farm_line f) };

    fn fmt<W: fmt::Write>(&self, f: &mut fmt::Formatter<W>) -> fmt::Result {
        match *self {
            FarmFault::Lines => f.write_str("lines"),
            FarmFault::Name(n) => write!(f, "name {n}"),
            FarmFault::Machine { at, fault } => match fault {
                MachineFault::Memory => write!(f, "machine {at}: out of memory"),
                MachineFault::NotToml => write!(f, "machine {at}: not TOML"),
                MachineFault::Rule(n) => write!(f, "machine {at}: rule {n}"),
            },
        }
    }
}
