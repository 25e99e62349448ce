//! The same asks over the plain network and over the live one.
ghost use Rattle.std.specs.Prelude.{◌≡◌, IfOk, OnOk};
ghost use Rattle.tp_schedule.specs.PlannerAnswers.{CanPlanOn};

use crate::engine_rows::{MONO, ask_sheet, engine_for};
use rows_machine::machines::{DUO, LOOP, TAIL, machine_of};
use std::alloc::Global;
use std::test::Fail;
use tp_base::Tick;
use tp_machine::{Machine, Want};
use tp_schedule::{Planner, Schedule};
use tp_search::Engine;
use tp_stn_undo::LiveNet;

fn live_engine_for(alloc: Global, machine: &Machine) -> Result<Engine<LiveNet>, Fail>
    ensures { IfOk result
        (λ engine. ⟦<Engine<LiveNet> as Planner>⟧.serves engine machine.now) }
{
    match LiveNet::new(alloc, 16_642, 100_000, 330) {
        Ok(net) => match Engine::new(alloc, machine, net, 1000, false) {
            Ok(engine) => Ok(engine),
            Err(_) => Err(Fail::from("memory")),
        },
        Err(_) => Err(Fail::from("memory")),
    }
}

/// Asks for the sheet of this number, and tells the end of the last plan then.
fn next_end<P: Planner>(
    planner: &mut P,
    machine: &Machine,
    schedule: &mut Schedule,
    number: u32,
    prints: (Want, Want),
) -> Result<Tick, Fail>
    requires served { P.serves planner.old machine.now }
    requires plan_on { CanPlanOn machine.now 0 schedule.old.plans }
    ensures served { OnOk result (P.serves planner.new machine.now) }
    ensures plan_on { OnOk result (CanPlanOn machine.now 0 schedule.new.plans) }
{
    let _reply = ask_sheet(planner, machine, schedule, number, prints)?;
    last_end(schedule)
}

fn last_end(schedule: &Schedule) -> Result<Tick, Fail> {
    let count = schedule.len();
    if count == 0 {
        return Err(Fail::from("there is no plan"));
    }
    let points = &schedule.plan_at(count - 1).points;
    if points.len() == 0 {
        return Err(Fail::from("there are no points"));
    }
    Ok(points.get(points.len() - 1))
}

/// The ends of two sheets, asked for one after the other on an empty schedule.
fn ends_on<P: Planner>(
    planner: &mut P,
    machine: &Machine,
    schedule: &mut Schedule,
    prints: (Want, Want),
) -> Result<[Tick; 2], Fail>
    requires served { P.serves planner.old machine.now }
    requires plan_on { CanPlanOn machine.now 0 schedule.old.plans }
{
    let one = next_end(planner, machine, schedule, 1, prints)?;
    let other = next_end(planner, machine, schedule, 2, prints)?;
    Ok([one, other])
}

fn ends_in_turn<P: Planner>(
    alloc: Global,
    planner: &mut P,
    machine: &Machine,
    prints: (Want, Want),
) -> Result<[Tick; 2], Fail>
    requires { P.serves planner.old machine.now }
{
    let mut schedule = Schedule::new(alloc);
    let ends = ends_on(planner, machine, &mut schedule, prints);
    drop(schedule);
    ends
}

fn ends_over_plain(
    alloc: Global,
    machine: &Machine,
    prints: (Want, Want),
) -> Result<[Tick; 2], Fail> {
    let mut engine = engine_for(alloc, machine, false)?;
    let ends = ends_in_turn(alloc, &mut engine, machine, prints);
    drop(engine);
    ends
}

fn ends_over_live(
    alloc: Global,
    machine: &Machine,
    prints: (Want, Want),
) -> Result<[Tick; 2], Fail> {
    let mut engine = live_engine_for(alloc, machine)?;
    let ends = ends_in_turn(alloc, &mut engine, machine, prints);
    drop(engine);
    ends
}

fn ends_over_both(
    alloc: Global,
    machine: &Machine,
    prints: (Want, Want),
) -> Result<[[Tick; 2]; 2], Fail> {
    let plain = ends_over_plain(alloc, machine, prints)?;
    let live = ends_over_live(alloc, machine, prints)?;
    Ok([plain, live])
}

fn ends_of(alloc: Global, text: &str, prints: (Want, Want)) -> Result<[[Tick; 2]; 2], Fail> {
    let machine = machine_of(alloc, text.as_bytes())?;
    let ends = ends_over_both(alloc, &machine, prints);
    drop(machine);
    ends
}

// On TAIL a hold outlasts its action; on LOOP the way passes one state twice.
#[test]
fn both_networks_give_equal_ends(rt: HostRuntime) -> Result<(), Fail> {
    let blank = (Want::Blank, Want::Blank);
    let both = (Want::Mono, Want::Mono);
    assert!(rt; ends_of(rt.alloc(), DUO, MONO)? == [[14, 17]; 2]);
    assert!(rt; ends_of(rt.alloc(), TAIL, blank)? == [[8, 15]; 2]);
    let [plain, live] = ends_of(rt.alloc(), LOOP, both)?;
    assert!(rt; plain == live);
    assert!(rt; live[0] == 16);
    Ok(())
}
