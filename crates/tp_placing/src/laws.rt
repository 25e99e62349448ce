//! The laws of boards. The calls do nothing: their contracts are the laws.
ghost use Rattle.std.specs.Prelude.{◌≤◌};
ghost use Rattle.tp_placing.specs.Inside.{most_steps};
ghost use Rattle.tp_placing.specs.Laws.{UntouchedKeepsEndReasons, UntouchedKeepsReasons, UntouchedKeepsReasonsUpTo, MarkKeeps, TablesAreNumbered, UndoKeeps};

use crate::board::Board;
use tp_base::Network;

/// A board that stands on a machine and an ask stands on them after a mark, and when it is taken back to one, and what the
/// last refusal shows stays with it. The call does nothing.
pub fn marks_keep_boards<N: Network>()
    ensures mark { MarkKeeps N.reading N.untouched }
    ensures back { UndoKeeps N.reading N.untouched }
    ensures reasons { UntouchedKeepsReasons N.untouched N.refutes }
    ensures reasons_up_to { UntouchedKeepsReasonsUpTo N.untouched N.refutes }
    ensures end_reasons { UntouchedKeepsEndReasons N.untouched N.refutes }
{}

/// The network of every board takes at least 330 marks, one for each step that there can be. One of them is the board's own. The
/// call does nothing.
pub fn boards_have_marks<N: Network>(board: &Board<N>)
    ensures { most_steps ≤ N.reading.max_marks board.now.net }
{
    // For the prover: brings what a board keeps of its fields.
    let _settled = board.settled;
}

/// The points of the plans and the own ones have the numbers by which they are named. The call does nothing.
pub fn tables_are_numbered()
    ensures { TablesAreNumbered }
{}
