//! What holds of sessions. The calls do nothing: their contracts are the laws.

ghost use Rattle.std.specs.Prelude.{ℕ, Bool, Option};
ghost use Rattle.tp_machine.specs.declared.machine.Machine.{Machine};
ghost use Rattle.tp_run_laws.specs.CarriedTurns.{KeepsNodes, ShowsTrees};
ghost use Rattle.tp_session.specs.SessionEnds.{ScriptsEndSoundly};
ghost use Rattle.tp_session.specs.Continuations.{EmptyIsWhole, ScriptsGoOn, SessionsGoOn, StopsGoOn, ToldIsWhole};
ghost use Rattle.tp_session.specs.Sessions.{SessionsLawful, SessionsStandSoundly, SessionsStopLawful, SessionsTellLawful, SessionsTellLines};
ghost use Rattle.tp_event_rules.specs.Planners.{right_steps};
ghost use Rattle.tp_event_turn.specs.LiveTurns.{AnswersAlone, SettlesRightly};

use crate::{empty_state_is_sound, kept_states_stand_soundly};
use tp_base::Network;
use tp_schedule::Planner;
use tp_search::Engine;

/// A workspace and a board look at schedules through right answers alone, settle times rightly, and never change their
/// number of nodes.
pub fn engines_answer_alone<N: Network>()
    ensures alone { (machine : Machine) → AnswersAlone
        (right_steps ⟦<Engine<N> as Planner>⟧.rules machine) machine (λ e. e.work.nodes) }
    ensures settles { (machine : Machine) → SettlesRightly
        (right_steps ⟦<Engine<N> as Planner>⟧.rules machine) machine }
    ensures nodes { (machine : Machine) → KeepsNodes ⟦<Engine<N> as Planner>⟧.rules machine
        (λ e. e.work.nodes) }
    ensures shows { (machine : Machine) → ShowsTrees ⟦<Engine<N> as Planner>⟧.rules machine
        (λ e. e.bounds) (λ e. e.trees) }
{}

/// The script that a session answers from its start is answered by a lawful run, and so are the first lines where it stops, and
/// events without a script. Each answer is whole lines.
pub fn sessions_are_lawful()
    ensures whole { (machine : Machine) (budget : Option ℕ) (bounds : Bool)
        → SessionsLawful machine budget bounds }
    ensures stopped { (machine : Machine) (budget : Option ℕ) (bounds : Bool)
        → SessionsStopLawful machine budget bounds }
    ensures told { (machine : Machine) (budget : Option ℕ) (bounds : Bool)
        → SessionsTellLawful machine budget bounds }
    ensures lines { SessionsTellLines }
{}

/// Where a session goes on from a live state, the script that it answers is answered by a run from every whole state behind this one,
/// and so are the first lines where it stops, and events without a script. The empty state is such a whole state behind itself, and so
/// is the state that a sound standing tells.
pub fn sessions_go_on()
    ensures empty { EmptyIsWhole }
    ensures sound { ToldIsWhole }
    ensures whole { (machine : Machine) (budget : Option ℕ) (bounds : Bool)
        → ScriptsGoOn machine budget bounds }
    ensures stopped { (machine : Machine) (budget : Option ℕ) (bounds : Bool)
        → StopsGoOn machine budget bounds }
    ensures told { (machine : Machine) (budget : Option ℕ) (bounds : Bool)
        → SessionsGoOn machine budget bounds }
{}

/// Where a session stands after events from its start on is sound to go on from, if at most 1,000,000 jobs came; and so it is after
/// any script, whose answers are the text of a lawful run up to there.
pub fn sessions_stand_soundly()
    ensures events { (machine : Machine) (budget : Option ℕ) (bounds : Bool)
        → SessionsStandSoundly machine budget bounds }
    ensures script { (machine : Machine) (budget : Option ℕ) (bounds : Bool)
        → ScriptsEndSoundly machine budget bounds }
{
    empty_state_is_sound();
    kept_states_stand_soundly();
}
