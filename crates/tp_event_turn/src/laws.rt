//! What holds of the states between events. The calls do nothing: their contracts are the laws.

ghost use Rattle.tp_machine.specs.declared.machine.Machine.{Machine};
ghost use Rattle.tp_event_rules.specs.Planners.{right_steps};
ghost use Rattle.tp_event_rules.specs.Ready.{CanTakeEvents, KeepsStock};
ghost use Rattle.tp_event_rules.specs.States.{empty_state};
ghost use Rattle.tp_event_turn.specs.Events.{KeepsStockInTurns};

use tp_schedule::Planner;

/// Every machine can begin with no plan, no job and no module out, at the moment 0: the first event may be any.
pub fn empty_state_can_begin()
    ensures can { (machine : Machine) → CanTakeEvents machine 0 empty_state }
    ensures stocked { (machine : Machine) → KeepsStock machine 0 empty_state }
{}

/// What is kept of the stock of a live state is kept through the turn of any event, with one event more, whatever planner gives
/// right answers.
pub fn turns_keep_stock<P: Planner>()
    ensures { (machine : Machine) → KeepsStockInTurns
        (right_steps P.rules machine) machine }
{}
