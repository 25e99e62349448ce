//! What holds of turns. The calls do nothing: their contracts are the laws.
ghost use Rattle.std.specs.Prelude.{[]};
ghost use Rattle.tp_machine.specs.declared.machine.Machine.{Machine};
ghost use Rattle.tp_event_rules.specs.StateInvariants.{KeepsState, IsLeastAt};
ghost use Rattle.tp_event_rules.specs.Laws.{LoopStateGoesOn, LoopRecordsGoOn, LoopGoesOn};
ghost use Rattle.tp_event_rules.specs.Laws.{RefusedChangesNothing, RefusalsAreTold};
ghost use Rattle.tp_event_rules.specs.Laws.{TurnsKeep, TurnsKeepState, IsAny, IsStocked, IsNoOutage, IsNoClock, IsPlannable};
ghost use Rattle.tp_event_rules.specs.Laws.{FatesKeepPlanning, BreaksKeepPlanning, FallBacksKeepPlanning};
ghost use Rattle.tp_event_rules.specs.Laws.{OutagesKeepPlanning, OutagesKeepMoment, OutagesKeepLive};
ghost use Rattle.tp_event_rules.specs.Laws.{ClockKeepsPlanning, ClockKeepsPlans, ClockKeepsLines, ClockKeepsSheets};
ghost use Rattle.tp_event_rules.specs.Laws.{JobKeepsJobs, JobKeepsPlans, JobKeepsLines, JobKeepsSheets};
ghost use Rattle.tp_event_rules.specs.Laws.{OnKeepsPlans, OnKeepsLines, OnKeepsSheets};
ghost use Rattle.tp_event_rules.specs.Planners.{right_steps};
ghost use Rattle.tp_event_rules.specs.States.{empty_state};

use tp_schedule::Planner;

/// One answer more at the end of the loop's list leads on from the state that the answers before it led to.
pub fn loop_goes_on<P: Planner>()
    ensures state { LoopStateGoesOn }
    ensures records { LoopRecordsGoOn }
    ensures in_turn { (machine : Machine)
        → LoopGoesOn (right_steps P.rules machine) machine }
{}

/// A refused event gives the one record of its cause, and state and planner stay. No other event gets that record.
pub fn refused_events_change_nothing<P: Planner>()
    ensures nothing { (machine : Machine)
        → RefusedChangesNothing (right_steps P.rules machine) machine }
    ensures told { (machine : Machine)
        → RefusalsAreTold (right_steps P.rules machine) machine }
{}

/// After each turn of a planner the schedule can be planned on again: it is legal, past included, each unreleased start is
/// above now + lead, and each point that isn't fixed is within the horizon.
pub fn turns_keep_planning<P: Planner>()
    ensures empty { (machine : Machine) → IsPlannable machine empty_state }
    ensures turn { (machine : Machine)
        → TurnsKeep (right_steps P.rules machine) machine IsAny
        (IsPlannable machine) }
{}

/// Turns of jobs, of moves of the clock, of modules that come back and of refused events keep jobs, plans, lines and sheets,
/// from the empty state on; an accepted job brings a total of sheets. That the schedule is least stays through every turn but one that moves the clock.
pub fn turns_keep_state<P: Planner>()
    ensures empty { (machine : Machine) → KeepsState machine [] empty_state
        × IsLeastAt machine empty_state }
    ensures state { (machine : Machine)
        → TurnsKeepState (right_steps P.rules machine) machine IsNoOutage }
    ensures least { (machine : Machine)
        → TurnsKeep (right_steps P.rules machine) machine IsNoClock
        (IsLeastAt machine) }
{}

/// No stock is ever overdrawn: in the empty state and after each turn of a planner, be the state whole or live, the plans that
/// begin at a feeder with a stock are at most its stock and its accepted refills, less what was taken off for forgotten plans.
pub fn stocks_are_never_overdrawn<P: Planner>()
    ensures empty { (machine : Machine) → IsStocked machine empty_state }
    ensures turn { (machine : Machine)
        → TurnsKeep (right_steps P.rules machine) machine IsAny
        (IsStocked machine) }
{}

/// What befalls copies, a break, a fall-back and an outage leave a schedule that can be planned on at the same moment. No more
/// copies are live after an outage than before.
pub fn outages_keep_planning()
    ensures fates { FatesKeepPlanning }
    ensures breaks { BreaksKeepPlanning }
    ensures fall_backs { FallBacksKeepPlanning }
    ensures outages { OutagesKeepPlanning }
    ensures moment { OutagesKeepMoment }
    ensures live { OutagesKeepLive }
{}

/// A move of the clock keeps planning, plans, lines and sheets.
pub fn clock_keeps_state()
    ensures planning { ClockKeepsPlanning }
    ensures plans { ClockKeepsPlans }
    ensures lines { ClockKeepsLines }
    ensures sheets { ClockKeepsSheets }
{}

/// An accepted job keeps jobs, plans, lines and sheets: of each of its sheets exactly one copy waits.
pub fn new_job_keeps_state()
    ensures jobs { JobKeepsJobs }
    ensures plans { JobKeepsPlans }
    ensures lines { JobKeepsLines }
    ensures sheets { JobKeepsSheets }
{}

/// A module that comes back leaves plans, lines and sheets as they are kept.
pub fn coming_back_keeps_state()
    ensures plans { OnKeepsPlans }
    ensures lines { OnKeepsLines }
    ensures sheets { OnKeepsSheets }
{}
