//! Why a text is no lawful log.

use std::fmt;
use tp_base::Tick;
use tp_bound_laws::TreeFlaw;

/// What is wrong with a log, and the line that tells it, counted from 1. Want of memory says nothing of the log.
#[derive(Clone, Copy, PartialEq, Eq, Debug)]
pub enum Flaw {
    Memory,
    /// The line is the first that is off the grammar.
    Text { line: u64 },
    /// Another record is due here, or none, or one more. Where the log ends too soon it is the line after its last.
    Due { line: u64 },
    /// A rule compares these two numbers, and they break it.
    Illegal { line: u64, first: i64, second: i64 },
    /// A point stands at `given`, and could stand at `least`.
    NotLeast { line: u64, given: Tick, least: Tick },
    /// The tree at this plan or none has this flaw. The line is that of the row or the node, or the one behind the tree. Its flaw is never
    /// want of memory.
    Tree { line: u64, flaw: TreeFlaw },
}

/// Why a line is refused, in the form `line N: REASON`.
impl fmt::Display for Flaw {
    ghost use Rattle.std.specs.Prelude.{Some};
    ghost use Rattle.tp_log_check.specs.FlawText.{flaw_text};

    ghost output = { λ f. Some (flaw_text f) };

    fn fmt<W: fmt::Write>(&self, f: &mut fmt::Formatter<W>) -> fmt::Result {
        match *self {
            Flaw::Memory => f.write_str("out of memory"),
            Flaw::Text { line } => write!(f, "line {line}: text"),
            Flaw::Due { line } => write!(f, "line {line}: due"),
            Flaw::Illegal {
                line,
                first,
                second,
            } => write!(f, "line {line}: clash {first} {second}"),
            Flaw::NotLeast { line, given, least } => {
                write!(f, "line {line}: point {given} least {least}")
            }
            Flaw::Tree { line, flaw } => {
                let reason = TreeReason { flaw };
                write!(f, "line {line}: tree {reason}")
            }
        }
    }
}

/// What is wrong with a tree, as a text.
#[derive(Clone, Copy)]
struct TreeReason {
    flaw: TreeFlaw,
}

impl fmt::Display for TreeReason {
    ghost use Rattle.std.specs.Prelude.{Some};
    ghost use Rattle.tp_log_check.specs.FlawText.{tree_reason};

    ghost output = { λ r. Some (tree_reason r.flaw) };

    fn fmt<W: fmt::Write>(&self, f: &mut fmt::Formatter<W>) -> fmt::Result {
        match self.flaw {
            TreeFlaw::Memory => f.write_str("out of memory"),
            TreeFlaw::RoomRow { row } => write!(f, "room row {row}"),
            TreeFlaw::Uncovered { .. } => f.write_str("uncovered"),
            TreeFlaw::NoSuchHop { hop, .. } => write!(f, "no such hop {hop}"),
            TreeFlaw::Weak { reach, cap, .. } => write!(f, "reach {reach} cap {cap}"),
            TreeFlaw::NotDead { .. } => f.write_str("not dead"),
        }
    }
}
