//! What is kept from the empty state on. The calls do nothing: their contracts are the laws.

ghost use Rattle.tp_machine.specs.declared.machine.Machine.{Machine};
ghost use Rattle.tp_session.specs.Kept.{CanBeSaved};
ghost use Rattle.tp_session.specs.Laws.{KeepsSoundInTurns, StandsAsTold, StandsSoundly};
ghost use Rattle.tp_event_rules.specs.Planners.{right_steps};
ghost use Rattle.tp_event_rules.specs.States.{empty_state};

use tp_event_turn::empty_state_can_begin;
use tp_schedule::Planner;

/// With nothing planned, no job and no module out a session can be saved at once.
pub fn empty_state_is_sound()
    ensures { (machine : Machine) → CanBeSaved machine 0 empty_state }
{
    empty_state_can_begin();
}

/// The turn of any event keeps modules, plans, waiting copies and stock as they may be saved, whatever planner gives right answers.
pub fn turns_keep_sound<P: Planner>()
    ensures { (machine : Machine) → KeepsSoundInTurns
        (right_steps P.rules machine) machine }
{}

/// A live state that can be saved stands where it is sound to go on from, and that standing denotes the state itself.
pub fn kept_states_stand_soundly()
    ensures sound { StandsSoundly }
    ensures told { StandsAsTold }
{}
