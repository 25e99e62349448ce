//! What a session may forget: a turn on the live part is one on the whole state, part by part. The calls do nothing: their
//! contracts are the laws.

ghost use Rattle.tp_machine.specs.declared.machine.Machine.{Machine};
ghost use Rattle.tp_event_rules.specs.Planners.{right_steps};
ghost use Rattle.tp_event_turn.specs.LiveAnswers.{LiveAnswersHold, LiveBudgetsHold, LiveSettlesHold, WholeAnswersHold, WholeBudgetsHold, WholeSettlesHold};
ghost use Rattle.tp_event_turn.specs.LiveTurns.{ClockKeepsLeast, ClockLeavesLivePart, ClockTellsLivePart, LiveAsksHold, LiveClockHolds, LiveOutagesHold, LiveTurnsHold};
ghost use Rattle.tp_event_turn.specs.WholeTurns.{WholeClockHolds, WholeTurnsHold};

use tp_schedule::Planner;

/// A move of the clock tells nothing of plans that are not live, and makes none of them live.
pub fn live_part_moves_alike()
    ensures tells { ClockTellsLivePart }
    ensures leaves { ClockLeavesLivePart }
    ensures least { ClockKeepsLeast }
{}

/// A right answer on the live part is one on the whole schedule, joined with the plans that are past. So are settled times.
pub fn live_answers_hold()
    ensures asked { LiveAnswersHold }
    ensures spent { LiveBudgetsHold }
    ensures settled { LiveSettlesHold }
{}

/// A phase of asks on the live part is one on the whole state, over any planner that looks at schedules through right answers
/// alone.
pub fn live_asks_hold<P: Planner>()
    ensures { (machine : Machine)
        → LiveAsksHold (right_steps P.rules machine) machine }
{}

/// A turn on the live part is one on the whole state: of a job, of a module that comes back, of a line off the grammar, of a
/// module that goes out, and of the clock, which leaves only what is still live before the copies that wait are asked.
pub fn live_turns_hold<P: Planner>()
    ensures turns { (machine : Machine)
        → LiveTurnsHold (right_steps P.rules machine) machine }
    ensures outages { (machine : Machine)
        → LiveOutagesHold (right_steps P.rules machine) machine }
    ensures clock { (machine : Machine)
        → LiveClockHolds (right_steps P.rules machine) machine }
{}

/// A right answer on the whole schedule is one on its live part. So are settled times.
pub fn whole_answers_hold()
    ensures asked { WholeAnswersHold }
    ensures spent { WholeBudgetsHold }
    ensures settled { WholeSettlesHold }
{}

/// And back: a turn on the whole state is one on its live part, with the same records, and the live part of what it leaves.
pub fn whole_turns_hold<P: Planner>()
    ensures turns { (machine : Machine)
        → WholeTurnsHold (right_steps P.rules machine) machine P.rules.spent }
    ensures clock { (machine : Machine)
        → WholeClockHolds (right_steps P.rules machine) machine P.rules.spent }
{}
