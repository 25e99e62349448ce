//! The machine of a case.

ghost use Rattle.std.specs.Prelude.{◌≡◌, [], ◌∷◌, IfOk};
ghost use Rattle.tp_soak.specs.Kept.{AreEngines};
ghost use Rattle.tp_soak.specs.Machines.{IsMachineWith, at, feeder, modules};

use crate::actions::actions;
use crate::case_names::{name_of, names_in};
use crate::made_engine::MadeEngine;
use crate::resources::resources;
use std::alloc::Global;
use tp_base::{Items, Memory};
use tp_machine::{Feeder, LocId, Machine, Names};

/// The modules: those of the feeder and the ways out, and then those of the engines.
fn modules(alloc: Global, engines: &[MadeEngine]) -> Result<Names, Memory>
    requires { AreEngines engines.now }
    ensures { IfOk result (λ names. names ≡ modules engines.now) }
{
    let count = engines.len();
    if count == 2 {
        names_in(alloc, b"FEED OUT DUMP ENG1 ENG2")
    } else if count == 3 {
        names_in(alloc, b"FEED OUT DUMP ENG1 ENG2 ENG3")
    } else {
        names_in(alloc, b"FEED OUT DUMP ENG1 ENG2 ENG3 ENG4")
    }
}

fn only(alloc: Global, place: u16) -> Result<Items<LocId>, Memory>
    ensures { IfOk result (λ locs. locs ≡ at place ∷ []) }
{
    let mut locs = Items::new(alloc);
    locs.push(LocId(place))?;
    Ok(locs)
}

fn feeders(alloc: Global) -> Result<Items<Feeder>, Memory>
    ensures { IfOk result (λ feeders. feeders ≡ feeder ∷ []) }
{
    let mut feeders = Items::new(alloc);
    feeders.push(Feeder {
        loc: LocId(0),
        media: name_of(b"plain"),
        stock: None,
    })?;
    Ok(feeders)
}

/// The machine of these engines.
pub(crate) fn machine_with(alloc: Global, engines: &[MadeEngine]) -> Result<Machine, Memory>
    requires { AreEngines engines.now }
    ensures { IfOk result (IsMachineWith engines.now) }
{
    let trays = only(alloc, 3)?;
    let purges = only(alloc, 4)?;
    let feeders = feeders(alloc)?;
    let resources = resources(alloc, engines)?;
    let actions = actions(alloc, engines)?;
    // For the prover: names come last, since each exit after them proves their drop again.
    let locations = names_in(alloc, b"f a b t p")?;
    let modules = modules(alloc, engines)?;
    Ok(Machine {
        lead: 2,
        window: 300,
        budget: 20_000,
        locations,
        modules,
        trays,
        purges,
        feeders,
        resources,
        actions,
    })
}
