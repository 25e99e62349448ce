//! What holds of logs that are accepted. The calls do nothing: their contracts are the laws.

ghost use Rattle.tp_machine.specs.declared.machine.Machine.{Machine};
ghost use Rattle.tp_log_laws.specs.AcceptedEntries.{AcceptedLogsLawful, AcceptedTurnsComeBack, BoundRunsAccepted, OneMoreAccepted, TurnsAccepted};
ghost use Rattle.tp_log_laws.specs.EntryTurns.{LawfulTurnsAccepted};

use tp_schedule::Planner;

/// A turn on the live part of a state, over a planner whose answers take the next of the trees that are to come, is one of right answers on
/// every whole state behind it, proved by these trees in turn. What a spent budget says is taken on trust.
pub fn told_turns_are_whole<P: Planner>()
    ensures { (machine : Machine) → TurnsAccepted P.rules machine }
{}

/// A turn of right answers on a whole state, its budgets on trust, is one on its live part, with the same records and trees.
pub fn accepted_turns_come_back()
    ensures { (machine : Machine) → AcceptedTurnsComeBack machine }
{}

/// Where entries are accepted one after another from the empty state, they are a lawful log with bounds, but for the causes of its
/// budgets; and so they are with one entry more that is accepted.
pub fn accepted_logs_are_lawful()
    ensures lawful { (machine : Machine) → AcceptedLogsLawful machine }
    ensures more { (machine : Machine) → OneMoreAccepted machine }
{}

/// A lawful run with bounds is a log that is lawful with bounds, its budgets on trust.
pub fn bound_runs_are_accepted()
    ensures { (machine : Machine) → BoundRunsAccepted machine }
{}

/// Where the event of an entry has a turn of right answers on a whole state, its budgets on trust, the planner that takes its answers from the entry's records
/// and trees never stops in the turn on the live part, and tells and leaves the same.
pub fn lawful_turns_are_accepted()
    ensures { (machine : Machine) → LawfulTurnsAccepted machine }
{}
