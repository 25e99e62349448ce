//! What holds of runs. The calls do nothing: their contracts are the laws.

ghost use Rattle.std.specs.Prelude.{ℕ, Bool};
ghost use Rattle.tp_machine.specs.declared.machine.Machine.{Machine};
ghost use Rattle.tp_run_laws.specs.CarriedTurns.{RightTurns, TreesHaveLines};
ghost use Rattle.tp_run_laws.specs.EventRuns.{EventsAreLawful, TurnsTellLines};
ghost use Rattle.tp_run_laws.specs.Continuations.{EventsGoOn, FirstRunsAreLawful, LinesGoOn, RunsJoin};
ghost use Rattle.tp_run_laws.specs.Ends.{ScriptsAreLawful, StopsAreLawful};
ghost use Rattle.tp_run_laws.specs.Promised.{AnswersKeepPromises, LawfulRunsKeepPromises, StopsKeepPromises};
ghost use Rattle.tp_run_laws.specs.ShortRuns.{BoundRunsAreShort};
ghost use Rattle.tp_run_laws.specs.Told.{LiveTurnsHaveLines, TurnsHaveLines};
ghost use Rattle.tp_event_rules.specs.Planners.{right_steps};
ghost use Rattle.tp_run_laws.specs.Wholes.{LinesAreLawful, TurnsOnWhole};

use tp_schedule::Planner;

/// The turns of a planner that answers rightly, and whose number of nodes never changes, are turns of right answers with
/// that budget, and with bounds its trees prove them.
pub fn right_planners_turn_rightly<P: Planner>()
    ensures { (machine : Machine) → RightTurns P.rules machine }
{}

/// A turn on the live part of a state is one of right answers on every whole state behind it, and what it leaves is the live
/// part of the whole state that follows.
pub fn live_turns_are_whole<P: Planner>()
    ensures { (machine : Machine) → TurnsOnWhole P.rules machine }
{}

/// Each record of a turn has a line, whatever the state and the event: the plan of a record has an action and one point more
/// than actions, and a move has at least two points.
pub fn turns_have_lines<P: Planner>()
    ensures whole { (machine : Machine)
        → TurnsHaveLines (right_steps P.rules machine) machine }
    ensures live { (machine : Machine)
        → LiveTurnsHaveLines (right_steps P.rules machine) machine }
{}

/// Each tree that a planner shows in a turn on a live state has a line, and none of its loops is without hops.
pub fn shown_trees_have_lines<P: Planner>()
    ensures { (machine : Machine) → TreesHaveLines P.rules machine }
{}

/// Where events are answered from a live state on, each by a turn on every whole state behind it, they are answered by a run from
/// each of these, and the text of the answers is the text of its log; and so are lines. The next run may go on where it ends, and both
/// are one run then. A run from the empty state is lawful.
pub fn answered_events_go_on()
    ensures events { (machine : Machine) (nodes : ℕ) (bounds : Bool)
        → EventsGoOn machine nodes bounds }
    ensures lines { (machine : Machine) (nodes : ℕ) (bounds : Bool)
        → LinesGoOn machine nodes bounds }
    ensures join { (machine : Machine) (nodes : ℕ) (bounds : Bool)
        → RunsJoin machine nodes bounds }
    ensures lawful { (machine : Machine) (nodes : ℕ) (bounds : Bool)
        → FirstRunsAreLawful machine nodes bounds }
{}

/// Where lines are answered, each by a turn on every whole state behind the live one, their events are answered by a run from there,
/// and the text of the answers is the text of its log.
pub fn answered_lines_are_lawful()
    ensures { (machine : Machine) (nodes : ℕ) (bounds : Bool)
        → LinesAreLawful machine nodes bounds }
{}

/// Where events are answered, each by a turn on every whole state behind the live one, they are answered by a lawful run, and
/// the text of the answers is the text of its log. Each answer is whole lines.
pub fn answered_events_are_lawful()
    ensures lawful { (machine : Machine) (nodes : ℕ) (bounds : Bool)
        → EventsAreLawful machine nodes bounds }
    ensures lines { (machine : Machine) (nodes : ℕ) (bounds : Bool)
        → TurnsTellLines machine nodes bounds }
{}

/// A script that is answered whole, from any live state on, is answered by a run from each whole state behind it.
pub fn answered_scripts_are_lawful()
    ensures { (machine : Machine) (nodes : ℕ) (bounds : Bool)
        → ScriptsAreLawful machine nodes bounds }
{}

/// Where a run over a script stops, what was written is the text of a run over its first lines.
pub fn stopped_scripts_are_lawful()
    ensures { (machine : Machine) (nodes : ℕ) (bounds : Bool)
        → StopsAreLawful machine nodes bounds }
{}

/// The headline, of every lawful run, of every script that was answered, and of the first lines of one where the run stopped:
/// the last schedule is legal, past included, no resource is held twice and no stock overdrawn; each tray receives its line in order, and only
/// sheets of broken jobs are skipped; each plan is earliest and least; each none means no alternative by the horizon; and each
/// budget that as many different open lists with choices were stored as the budget allows, when one more had to be. With
/// bounds a tree that proves it stands behind each plan and its moves, and behind each none.
pub fn runs_keep_promises()
    ensures lawful { (machine : Machine) (nodes : ℕ) (bounds : Bool)
        → LawfulRunsKeepPromises machine nodes bounds }
    ensures answered { (machine : Machine) (nodes : ℕ) (bounds : Bool)
        → AnswersKeepPromises machine nodes bounds }
    ensures stopped { (machine : Machine) (nodes : ℕ) (bounds : Bool)
        → StopsKeepPromises machine nodes bounds }
{}

/// No line of what a run with bounds writes has more than 4,194,304 bytes, if each line of the script keeps its length limit.
pub fn bound_runs_have_short_lines()
    ensures { (machine : Machine) (nodes : ℕ) → BoundRunsAreShort machine nodes }
{}
