//! What holds of lawful logs, and in which order records stand. The calls do nothing: their contracts are the laws.
ghost use Rattle.std.specs.Prelude.{ℕ, List, []};
ghost use Rattle.tp_machine.specs.declared.machine.Machine.{Machine};
ghost use Rattle.tp_schedule.specs.declared.parts.Ask.{Ask};
ghost use Rattle.tp_schedule.specs.declared.parts.Plan.{Plan};
ghost use Rattle.tp_headline.specs.Headline.{claims_of, LawfulLogsAreLegal, LawfulLogsHoldOnce};
ghost use Rattle.tp_headline.specs.Headline.{LawfulLogsReceiveInOrder, LawfulPlansAreEarliest};
ghost use Rattle.tp_headline.specs.Headline.{LawfulNonesAreNone, LawfulBudgetsAreSpent};
ghost use Rattle.tp_headline.specs.Headline.{TurnsKeepOrder};
ghost use Rattle.tp_headline.specs.InOrder.{ClockTellsInOrder, BreaksTellInOrder};
ghost use Rattle.tp_outage_laws.specs.Through.{KeepsOrder};
ghost use Rattle.tp_event_rules.specs.Planners.{right_steps};
ghost use Rattle.tp_event_rules.specs.States.{empty_state};

use tp_schedule::Planner;

/// The trees that a log may show: what they claim of asks, and what a spent budget means beside them.
pub trait Trees {
    // no alternative ends the asked copy before the tick
    ghost none_before: { Machine → List Plan → Ask → ℕ → Self → Type 0 };

    // there is no alternative
    ghost never: { Machine → List Plan → Ask → Self → Type 0 };

    // what a Spent says of machine, schedule, ask and bound
    ghost spent: { Machine → List Plan → Ask → ℕ → Type 0 };
}

/// A turn of any event keeps the order of a whole state, from the empty state on: no copy that waits stands before one of its line
/// with a whole plan to the tray, and each sheet of a job that isn't broken has exactly one copy that waits or has such a plan.
pub fn turns_keep_order<P: Planner>()
    ensures empty { (machine : Machine) → KeepsOrder machine [] empty_state }
    ensures turn { (machine : Machine)
        → TurnsKeepOrder (right_steps P.rules machine) machine }
{}

/// The last schedule of every lawful log is legal, past included.
pub fn lawful_logs_are_legal<T: Trees>()
    ensures { LawfulLogsAreLegal (claims_of T.none_before T.never) T.spent }
{}

/// No resource has two holders at any tick.
pub fn lawful_logs_hold_once<T: Trees>()
    ensures { LawfulLogsHoldOnce (claims_of T.none_before T.never) T.spent }
{}

/// Each tray receives its line in order, no sheet twice, and only sheets of broken jobs are skipped.
pub fn lawful_logs_receive_in_order<T: Trees>()
    ensures { LawfulLogsReceiveInOrder (claims_of T.none_before T.never) T.spent }
{}

/// Each `plan` record stands where the schedule after it ends the asked copy first among all alternatives, and is least.
pub fn lawful_plans_are_earliest<T: Trees>()
    ensures { LawfulPlansAreEarliest (claims_of T.none_before T.never) T.spent }
{}

/// Each `none` record stands where no alternative ends by the horizon.
pub fn lawful_nones_are_none<T: Trees>()
    ensures { LawfulNonesAreNone (claims_of T.none_before T.never) T.spent }
{}

/// Each `budget` record stands where the budget is spent, in the planner's meaning of it, with the bound that the record tells.
pub fn lawful_budgets_are_spent<T: Trees>()
    ensures { LawfulBudgetsAreSpent (claims_of T.none_before T.never) T.spent }
{}

/// A move of the clock tells all its deliveries and releases, by moment, at one moment deliveries first, then by copy.
pub fn clock_tells_in_order()
    ensures { ClockTellsInOrder }
{}

/// If a job breaks, the records of its copies stand in the order of copies.
pub fn breaks_tell_in_order()
    ensures { BreaksTellInOrder }
{}
