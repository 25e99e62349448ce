//! Events sent to tellers, and jobs placed among them.

ghost use Rattle.std.specs.Prelude.{◌≡◌, ◌+◌, ◌<◌, ◌≤◌, ◌++◌, ℕ, List, [], All, length, map, slice_index_or, None, IfOk, OnOk};
ghost use Rattle.std.specs.List.{AllZip};
ghost use Rattle.tp_farm.specs.Farms.{GoesTo, IsPlaced, IsSent, TellsFrom, farm_of, home_of};
ghost use Rattle.tp_farm.specs.Inside.{IsProbedAt, IsReady, IsToldAt};
ghost use Rattle.tp_farm.specs.Numbered.{numbered};
ghost use Rattle.tp_script.specs.Printed.{IsEchoed};
ghost use Rattle.tp_stream.specs.Tellers.{most_events};

use crate::address::Addressed;
use crate::machine_choice::{choose, is_accepted};
use crate::whom::Whom;
use indexmap::IndexMap;
use std::alloc::Global;
use tp_base::{Memory, Name};
use tp_script::Event;
use tp_stream::{Probe, Teller};
use tp_words::first_line;

/// Appends the text with the machine's digit and a space before each of its lines. After `Memory` the first of them may
/// have been appended.
fn put_numbered(number: u32, text: &[u8], out: &mut Vec<u8>) -> Result<(), Memory>
    requires { number ≤ 8 }
    ensures { OnOk result (out.new.items ≡ out.old.items ++ numbered number text.now) }
{
    let digit = b'0' + number as u8;
    let mut rest = text;
    'lines: while !rest.is_empty() {
        let (line, more) = first_line(rest);
        out.push(digit)?;
        out.push(b' ')?;
        out.extend_from_slice(line)?;
        rest = more;
    }
    Ok(())
}

/// Sends the event to the teller, and appends what it tells, with its number before each line. Its own text is clear again,
/// also after `Memory`.
fn tell<T: Teller>(
    teller: &mut T,
    number: u32,
    event: &Event,
    out: &mut Vec<u8>,
) -> Result<(), Memory>
    requires digit { number ≤ 8 }
    requires few { T.answered teller.old < most_events }
    requires clear { T.text teller.old ≡ [] }
    requires echoed { IsEchoed event.now }
    ensures told { OnOk result ((told : List ℕ)
        × T.tells (T.state teller.old) event.now told (T.state teller.new)
        × (out.new.items ≡ out.old.items ++ numbered number told)) }
    ensures clear { T.text teller.new ≡ [] }
    ensures counted { T.answered teller.new ≤ T.answered teller.old + 1 }
{
    match teller.event(event) {
        Ok(()) => {
            let result = put_numbered(number, teller.text(), out);
            teller.clear_text();
            result
        }
        Err(error) => Err(error),
    }
}

/// Sends the event to the teller at the place, if it is for that one.
fn tell_at<T: Teller>(
    tellers: &mut Vec<T>,
    at: usize,
    whom: Whom,
    event: &Event,
    out: &mut Vec<u8>,
) -> Result<(), Memory>
    requires at { at < length tellers.old.items }
    requires digit { at < 8 }
    requires ready { (d : T) → (T.text (slice_index_or tellers.old.items at d) ≡ [])
        × (T.answered (slice_index_or tellers.old.items at d) < most_events) }
    requires echoed { IsEchoed event.now }
    ensures { IsToldAt T.state T.text T.answered T.tells whom event.now at tellers.old.items
        tellers.new.items out.old.items out.new.items result }
{
    let number = at as u32 + 1;
    if whom.has(number) {
        tell(&mut tellers[at], number, event, out)
    } else {
        Ok(())
    }
}

/// Sends the event to the tellers that it is for, in the order of their numbers, and appends what they tell.
pub(crate) fn send<T: Teller>(
    tellers: &mut Vec<T>,
    whom: Whom,
    event: &Event,
    out: &mut Vec<u8>,
) -> Result<(), Memory>
    requires digits { length tellers.old.items ≤ 8 }
    requires few { All (λ t. (T.text t ≡ []) × (T.answered t < most_events)) tellers.old.items }
    requires echoed { IsEchoed event.now }
    ensures told { OnOk result ((told : List ℕ)
        × TellsFrom T.tells whom event.now 1 (map T.state tellers.old.items) told
        (map T.state tellers.new.items)
        × (out.new.items ≡ out.old.items ++ told)) }
    ensures count { length tellers.new.items ≡ length tellers.old.items }
    ensures ready { (most : ℕ) → All (IsReady T.text T.answered most) tellers.old.items
        → All (IsReady T.text T.answered (most + 1)) tellers.new.items }
{
    for at in 0..tellers.len() {
        match tell_at(tellers, at, whom, event, out) {
            Ok(()) => {}
            Err(error) => return Err(error),
        }
    }
    Ok(())
}

/// What the teller at the place would give the event's job.
fn probe_at<T: Teller>(tellers: &mut Vec<T>, at: usize, event: &Event) -> Result<Probe, Memory>
    requires at { at < length tellers.old.items }
    requires echoed { IsEchoed event.now }
    ensures { IsProbedAt T.state T.text T.answered T.probes event.now at tellers.old.items
        tellers.new.items result }
{
    tellers[at].probe(event)
}

/// What each teller would give the event's job, in the order of their numbers.
fn probe_all<T: Teller>(
    alloc: Global,
    tellers: &mut Vec<T>,
    event: &Event,
) -> Result<Vec<Probe>, Memory>
    requires echoed { IsEchoed event.now }
    ensures probed { IfOk result (λ answers. AllZip (λ s answer. T.probes s event.now answer)
        (map T.state tellers.old.items) answers.items) }
    ensures count { IfOk result (λ answers. length answers.items ≡ length tellers.old.items) }
    ensures states { map T.state tellers.new.items ≡ map T.state tellers.old.items }
    ensures ready { (most : ℕ) → All (IsReady T.text T.answered most) tellers.old.items
        → All (IsReady T.text T.answered most) tellers.new.items }
{
    let mut answers = Vec::new(alloc);
    for at in 0..tellers.len() {
        match probe_at(tellers, at, event) {
            Ok(answer) => answers.push(answer)?,
            Err(error) => return Err(error),
        }
    }
    Ok(answers)
}

/// The machine that accepted a job of this name.
fn find_home(homes: &IndexMap<Name, u32>, name: Name) -> Option<u32>
    ensures { result ≡ home_of name homes.now.entries }
{
    homes.get(&name).copied()
}

/// The number of the machine that a job of a new name goes to. The name is kept with it, if the job is accepted there.
fn place_job<T: Teller>(
    alloc: Global,
    tellers: &mut Vec<T>,
    homes: &mut IndexMap<Name, u32>,
    event: &Event,
    name: Name,
) -> Result<u32, Memory>
    requires few { length tellers.old.items ≤ 8 }
    requires echoed { IsEchoed event.now }
    requires new_name { home_of name homes.old.entries ≡ None }
    ensures placed { IfOk result (λ number. IsPlaced T.probes
        (farm_of (map T.state tellers.old.items) homes.old.entries) name event.now number
        homes.new.entries) }
    ensures states { map T.state tellers.new.items ≡ map T.state tellers.old.items }
    ensures ready { (most : ℕ) → All (IsReady T.text T.answered most) tellers.old.items
        → All (IsReady T.text T.answered most) tellers.new.items }
{
    let answers = match probe_all(alloc, tellers, event) {
        Ok(answers) => answers,
        Err(error) => return Err(error),
    };
    let place = choose(&answers);
    let number = place as u32 + 1;
    if is_accepted(&answers, place) {
        homes.insert(name, number)?;
    }
    Ok(number)
}

/// The number of the machine that a job goes to: the one that accepted a job of its name, or else the one that the probes choose.
fn find_machine<T: Teller>(
    alloc: Global,
    tellers: &mut Vec<T>,
    homes: &mut IndexMap<Name, u32>,
    event: &Event,
    name: Name,
) -> Result<u32, Memory>
    requires few { length tellers.old.items ≤ 8 }
    requires echoed { IsEchoed event.now }
    ensures goes { IfOk result (λ number. GoesTo T.probes
        (farm_of (map T.state tellers.old.items) homes.old.entries) name event.now number
        homes.new.entries) }
    ensures states { map T.state tellers.new.items ≡ map T.state tellers.old.items }
    ensures ready { (most : ℕ) → All (IsReady T.text T.answered most) tellers.old.items
        → All (IsReady T.text T.answered most) tellers.new.items }
{
    match find_home(homes, name) {
        Some(home) => Ok(home),
        None => place_job(alloc, tellers, homes, event, name),
    }
}

/// To whom the event of an address is sent. The name of a job that is accepted is kept.
pub(crate) fn find_whom<T: Teller>(
    alloc: Global,
    tellers: &mut Vec<T>,
    homes: &mut IndexMap<Name, u32>,
    address: &Addressed,
) -> Result<Whom, Memory>
    requires few { length tellers.old.items ≤ 8 }
    requires echoed { IsEchoed address.now.event }
    ensures sent { IfOk result (λ whom. IsSent T.probes
        (farm_of (map T.state tellers.old.items) homes.old.entries) address.now.event
        address.now.number whom homes.new.entries) }
    ensures states { map T.state tellers.new.items ≡ map T.state tellers.old.items }
    ensures ready { (most : ℕ) → All (IsReady T.text T.answered most) tellers.old.items
        → All (IsReady T.text T.answered most) tellers.new.items }
{
    match &address.event {
        Event::Clock { .. } => Ok(Whom::Every),
        Event::Job { name, .. } => {
            match find_machine(alloc, tellers, homes, &address.event, *name) {
                Ok(number) => Ok(Whom::One(number)),
                Err(error) => Err(error),
            }
        }
        Event::Bad
        | Event::Jam { .. }
        | Event::Off { .. }
        | Event::On { .. }
        | Event::Refill { .. } => Ok(Whom::One(address.number)),
    }
}
