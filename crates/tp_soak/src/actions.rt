//! The actions of a case's machine.

ghost use Rattle.std.specs.Prelude.{◌≡◌, ◌<◌, ◌≤◌, ◌+◌, ◌-◌, [], ◌∷◌, length, IfOk};
ghost use Rattle.tp_soak.specs.Kept.{IsDrawn};
ghost use Rattle.tp_soak.specs.Machines.{actions, dump, feed, hold, out, print, way};

use crate::case_names::{name_of, numbered};
use crate::made_engine::MadeEngine;
use std::alloc::Global;
use tp_base::{Items, Memory, Name};
use tp_machine::{Action, Anchor, HoldRule, Holds, LocId, ModId, ResId};

/// An action of a module from one location to another, which prints nothing and holds nothing.
fn way(name: Name, owner: u8, from: u16, to: u16, least: u32, most: u32) -> Action
    ensures { result ≡ way name owner from to least most }
{
    Action {
        name,
        module: ModId(owner),
        from: LocId(from),
        to: LocId(to),
        least,
        most,
        mono: false,
        colour: false,
        flip: false,
        holds: Holds::new(),
    }
}

/// One hold of the resource at this place.
fn held(place: u16, begin: (Anchor, i32), end: (Anchor, i32)) -> Holds
    ensures { result ≡ hold place begin.0 begin.1 end.0 end.1 ∷ [] }
{
    let mut holds = Holds::new();
    holds.add(HoldRule {
        resource: ResId(place),
        begin: begin.0,
        begin_off: begin.1,
        end: end.0,
        end_off: end.1,
        mode: 0,
    });
    holds
}

fn feed(engines: u16) -> Action
    ensures { result ≡ feed engines }
{
    let mut action = way(name_of(b"feed"), 0, 0, 1, 2, 4);
    action.holds = held(engines, (Anchor::Start, 0), (Anchor::Start, 2));
    action
}

fn print(alloc: Global, engine: MadeEngine) -> Result<Action, Memory>
    requires { IsDrawn (engine ∷ []) }
    ensures { IfOk result (λ action. action ≡ print engine) }
{
    let name = numbered(alloc, b"print", engine.number)?;
    let owner = (2 + engine.number) as u8;
    let place = (engine.number - 1) as u16;
    let mut action = way(name, owner, 1, 2, engine.least, engine.least + 4);
    action.mono = true;
    action.colour = true;
    action.holds = held(place, (Anchor::Start, 0), (Anchor::End, 0));
    Ok(action)
}

fn out(engines: u16) -> Action
    requires { engines < 5 }
    ensures { result ≡ out engines }
{
    let mut action = way(name_of(b"out"), 1, 2, 3, 3, 30);
    action.holds = held(engines + 1, (Anchor::End, -1), (Anchor::End, 0));
    action
}

/// The actions: feeding, the prints of these engines, putting out and dumping.
pub(crate) fn actions(alloc: Global, engines: &[MadeEngine]) -> Result<Items<Action>, Memory>
    requires drawn { IsDrawn engines.now }
    requires few { length engines.now < 5 }
    ensures { IfOk result (λ items. items ≡ actions engines.now) }
{
    let count = engines.len() as u16;
    let mut items = Items::new(alloc);
    items.push(feed(count))?;
    let mut rest = engines;
    'engines: while let [engine, others @ ..] = rest {
        items.push(print(alloc, *engine)?)?;
        rest = others;
    }
    items.push(out(count))?;
    items.push(way(name_of(b"dump"), 2, 2, 4, 3, 3))?;
    Ok(items)
}
