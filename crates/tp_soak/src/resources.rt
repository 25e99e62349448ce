//! The resources of a case's machine.

ghost use Rattle.std.specs.Prelude.{◌≡◌, ◌<◌, IfOk, length};
ghost use Rattle.tp_soak.specs.Kept.{IsDrawn};
ghost use Rattle.tp_soak.specs.Machines.{resource, resources};

use crate::case_names::{name_of, numbered};
use crate::made_engine::MadeEngine;
use std::alloc::Global;
use tp_base::{Items, Memory, Name};
use tp_machine::{ModId, Resource};

fn resource(name: Name, owner: u8) -> Resource
    ensures { result ≡ resource name owner }
{
    Resource {
        name,
        module: ModId(owner),
        gap: 0,
    }
}

/// The resources of these engines, and those of the feeder and the way out.
pub(crate) fn resources(alloc: Global, engines: &[MadeEngine]) -> Result<Items<Resource>, Memory>
    requires drawn { IsDrawn engines.now }
    requires few { length engines.now < 5 }
    ensures { IfOk result (λ items. items ≡ resources engines.now) }
{
    let mut items = Items::new(alloc);
    let mut rest = engines;
    'engines: while let [engine, others @ ..] = rest {
        let name = numbered(alloc, b"r", engine.number)?;
        items.push(resource(name, (2 + engine.number) as u8))?;
        rest = others;
    }
    items.push(resource(name_of(b"rf"), 0))?;
    items.push(resource(name_of(b"rt"), 1))?;
    Ok(items)
}
