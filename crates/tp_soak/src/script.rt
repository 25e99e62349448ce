//! The script of a case.

ghost use Rattle.std.specs.Prelude.{◌≡◌, ◌≤◌, ◌+◌, ◌++◌, ◌∷◌, [], true, codes, decimal, All, IfOk, OnOk};
ghost use Rattle.tp_base.specs.NameText.{is_name_text};
ghost use Rattle.tp_soak.specs.Draws.{next};
ghost use Rattle.tp_soak.specs.Scripts.{IsScripted, group, job, outage, round, script, standing};

use crate::case_names::{name_of, numbered};
use crate::draws::Draws;
use std::alloc::Global;
use tp_base::{Items, Memory};
use tp_machine::{Face, Want};
use tp_script::{Event, Group};

const ROUNDS: [u32; 12] = [1, 2, 3, 4, 5, 6, 7, 8, 9, 10, 11, 12];

/// The job of a round: 1 to 3 sheets of one kind.
fn job(alloc: Global, number: u32, draws: &mut Draws) -> Result<Event, Memory>
    requires { is_name_text (codes "j" ++ decimal number) ≡ true }
    ensures job { IfOk result (λ event. event
        ≡ job number (group (next draws.old.state) (next (next draws.old.state)))) }
    ensures state { IfOk result (λ _. draws.new.state ≡ next (next draws.old.state)) }
    ensures whole { IfOk result IsScripted }
{
    let count = 1 + draws.draw(3);
    let front = match draws.draw(2) {
        0 => Want::Mono,
        _ => Want::Colour,
    };
    let mut groups = Items::new(alloc);
    groups.push(Group {
        count,
        front,
        back: Want::Blank,
        face: Face::Front,
    })?;
    Ok(Event::Job {
        name: numbered(alloc, b"j", number)?,
        tray: name_of(b"t"),
        media: name_of(b"plain"),
        groups,
    })
}

/// The first engine jams in round 6, and is on again in round 8.
fn push_outage(events: &mut Vec<Event>, number: u32) -> Result<(), Memory>
    ensures pushed { OnOk result (events.new.items ≡ events.old.items ++ outage number) }
    ensures whole { OnOk result (All IsScripted events.old.items
        → All IsScripted events.new.items) }
{
    let first = name_of(b"ENG1");
    if number == 6 {
        events.push(Event::Jam { module: first })?;
    } else if number == 8 {
        events.push(Event::On { module: first })?;
    }
    Ok(())
}

/// Takes a round: its job, what befalls the first engine, and a move of the clock by at most 20 ticks.
fn push_round(
    alloc: Global,
    events: &mut Vec<Event>,
    draws: &mut Draws,
    clock: &mut u32,
    number: u32,
) -> Result<(), Memory>
    requires named { is_name_text (codes "j" ++ decimal number) ≡ true }
    requires early { clock.old ≤ 220 }
    requires whole { All IsScripted events.old.items }
    ensures made { OnOk result (standing draws.new.state clock.new events.new.items
        ≡ round (standing draws.old.state clock.old events.old.items) number) }
    ensures early { OnOk result (clock.new ≤ clock.old + 20) }
    ensures whole { OnOk result (All IsScripted events.new.items) }
{
    events.push(job(alloc, number, draws)?)?;
    push_outage(events, number)?;
    *clock += 1 + draws.draw(20);
    events.push(Event::Clock { to: *clock })?;
    Ok(())
}

/// The events of a script by these draws.
#[tactic(auto, unfolding(crate::specs::Scripts::script))]
pub(crate) fn script(alloc: Global, draws: &mut Draws) -> Result<Vec<Event>, Memory>
    ensures events { IfOk result (λ events. events.items ≡ script draws.old.state) }
    ensures whole { IfOk result (λ events. All IsScripted events.items) }
{
    let mut events = Vec::new(alloc);
    let mut clock = 0;
    let mut rest: &[u32] = &ROUNDS;
    'rounds: while let [number, others @ ..] = rest {
        push_round(alloc, &mut events, draws, &mut clock, *number)?;
        rest = others;
    }
    events.push(Event::Clock { to: clock + 400 })?;
    Ok(events)
}
