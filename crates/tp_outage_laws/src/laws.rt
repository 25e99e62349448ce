//! What outages keep. The calls do nothing: their contracts are the laws.
ghost use Rattle.std.specs.Prelude.{ℕ, List};
ghost use Rattle.tp_machine.specs.declared.machine.Machine.{Machine};
ghost use Rattle.tp_outage_laws.specs.Laws.{OutagesKeep, OutagesKeepLive};
ghost use Rattle.tp_outage_laws.specs.Through.{KeepsOrder, KeepsThrough};
ghost use Rattle.tp_event_rules.specs.Planners.{right_steps};

use tp_schedule::Planner;

/// A module that goes out, with the loop over loose copies and the settling, keeps jobs, lines, broken jobs and purges of every
/// state, be it whole or live. Of a whole state it keeps the sheets as well: each sheet of a job that isn't broken has exactly one
/// copy that waits or has a whole plan to the tray, and that copy is its newest.
pub fn outages_keep_state<P: Planner>()
    ensures through { (machine : Machine)
        → OutagesKeep (right_steps P.rules machine) machine
        (KeepsThrough machine) }
    ensures order { (machine : Machine) (totals : List ℕ)
        → OutagesKeep (right_steps P.rules machine) machine
        (KeepsOrder machine totals) }
{}

/// A live state that is kept before a module goes out is kept after it, and is least, so that any event can be taken. Of each sheet
/// at most one new copy waits.
pub fn outages_keep_live<P: Planner>()
    ensures { (machine : Machine)
        → OutagesKeepLive (right_steps P.rules machine) machine }
{}
