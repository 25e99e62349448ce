//! Machines.
ghost use Rattle.std.specs.Prelude.{IsTrue};
ghost use Rattle.tp_machine.specs.Rules.{are_named, are_numbers, are_counts, are_trays, are_purges, are_feeders, are_resources, are_amounts, do_actions_differ, are_ways, have_durations, have_few_holds, have_holds};

use crate::names::Names;
use crate::parts::{Action, Feeder, LocId, Resource};
use tp_base::{Items, Tick};

/// A printer: its locations and modules, and the actions that move a sheet through it.
///
/// `lead` is how many ticks before its start an action is released, and `window` how many ticks
/// from now on a sheet may take to its end. `budget` is how many choice lists a search may store.
/// Feeders and resources stand in the byte order of their names, all else in the order of the
/// text. Every value keeps the rules of a machine text.
pub struct Machine {
    pub lead: Tick,
    pub window: Tick,
    pub budget: u32,
    pub locations: Names,
    pub modules: Names,
    pub trays: Items<LocId>,
    pub purges: Items<LocId>,
    pub feeders: Items<Feeder>,
    pub resources: Items<Resource>,
    pub actions: Items<Action>,

    pub ghost named: { IsTrue (are_named locations modules feeders resources actions) },
    pub ghost numbers: { IsTrue (are_numbers lead window budget) },
    pub ghost counts: { IsTrue (are_counts locations modules resources actions) },
    pub ghost good_trays: { IsTrue (are_trays locations trays) },
    pub ghost good_purges: { IsTrue (are_purges locations trays purges) },
    pub ghost good_feeders: { IsTrue (are_feeders locations trays purges feeders) },
    pub ghost good_resources: { IsTrue (are_resources modules resources) },
    pub ghost amounts: { IsTrue (are_amounts feeders resources actions) },
    pub ghost names_differ: { IsTrue (do_actions_differ actions) },
    pub ghost ways: { IsTrue (are_ways locations modules trays purges feeders actions) },
    pub ghost durations: { IsTrue (have_durations actions) },
    pub ghost few_holds: { IsTrue (have_few_holds actions) },
    pub ghost holds: { IsTrue (have_holds resources actions) },
}

// What becomes of its parts is proved here, once for all who let go of one.
impl Drop for Machine {
    fn drop(self) {
        let Machine {
            lead: _,
            window: _,
            budget: _,
            locations: _,
            modules: _,
            trays: _,
            purges: _,
            feeders: _,
            resources: _,
            actions: _,
        } = self;
    }
}
