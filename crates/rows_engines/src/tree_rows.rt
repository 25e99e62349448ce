//! Trees that an engine with bounds shows, looked at by the checker of trees, which knows no network and no search.
ghost use Rattle.std.specs.Prelude.{OnOk};
ghost use Rattle.tp_schedule.specs.PlannerAnswers.{CanPlanOn};

use crate::engine_rows::{MONO, ask_sheet, engine_for, first_tray_ask};
use rows_machine::machines::{DUO, TAIL, machine_of};
use std::alloc::Global;
use std::process::Abort;
use std::test::Fail;
use tp_bound_check::{Claim, check_bound};
use tp_machine::Machine;
use tp_schedule::{Ask, Planner, Reply, Schedule};
use tp_search::Engine;
use tp_stn_core::PlainNet;

/// What a reply claims of the copy of the ask.
fn claim_of(reply: Reply, ask: &Ask, schedule: &Schedule) -> Result<Claim, Fail> {
    match (reply, schedule.find(ask.sheet)) {
        (Reply::Planned, Some(at)) => {
            let points = &schedule.plan_at(at).points;
            match points.len() {
                0 => Err(Fail::from("a plan without points")),
                count => Ok(Claim::Earliest(points.get(count - 1))),
            }
        }
        (Reply::Never, None) => Ok(Claim::Never),
        _ => Err(Fail::from("neither a plan nor a none")),
    }
}

/// Asks for the sheet of this number, and has the tree of the answer checked on the schedule as it was before.
fn claim_against(
    alloc: Global,
    engine: &mut Engine<PlainNet>,
    machine: &Machine,
    before: &Schedule,
    schedule: &mut Schedule,
    number: u32,
) -> Result<Claim, Fail>
    requires served { ⟦<Engine<PlainNet> as Planner>⟧.serves engine.old machine.now }
    requires plan_on { CanPlanOn machine.now 0 schedule.old.plans }
    ensures served { OnOk result
        (⟦<Engine<PlainNet> as Planner>⟧.serves engine.new machine.now) }
    ensures plan_on { OnOk result (CanPlanOn machine.now 0 schedule.new.plans) }
{
    let ask = first_tray_ask(machine, number, MONO)?;
    let reply = ask_sheet(engine, machine, schedule, number, MONO)?;
    let claim = claim_of(reply, &ask, schedule)?;
    let [.., tree] = engine.trees() else {
        return Err(Fail::from("no tree"));
    };
    match check_bound(alloc, machine, before, &ask, claim, tree) {
        Ok(()) => Ok(claim),
        Err(_) => Err(Fail::from("the tree doesn't show what is claimed")),
    }
}

fn claim_shown(
    alloc: Global,
    engine: &mut Engine<PlainNet>,
    machine: &Machine,
    schedule: &mut Schedule,
    number: u32,
) -> Result<Claim, Fail>
    requires served { ⟦<Engine<PlainNet> as Planner>⟧.serves engine.old machine.now }
    requires plan_on { CanPlanOn machine.now 0 schedule.old.plans }
    ensures served { OnOk result
        (⟦<Engine<PlainNet> as Planner>⟧.serves engine.new machine.now) }
    ensures plan_on { OnOk result (CanPlanOn machine.now 0 schedule.new.plans) }
{
    let Ok(before) = schedule.copy(alloc) else {
        return Err(Fail::from("memory"));
    };
    let claim = claim_against(alloc, engine, machine, &before, schedule, number);
    drop(before);
    claim
}

/// The claims of the answers for two sheets in turn, each with a tree that shows it.
fn both_shown_on(
    alloc: Global,
    engine: &mut Engine<PlainNet>,
    machine: &Machine,
    schedule: &mut Schedule,
) -> Result<[Claim; 2], Fail>
    requires served { ⟦<Engine<PlainNet> as Planner>⟧.serves engine.old machine.now }
    requires plan_on { CanPlanOn machine.now 0 schedule.old.plans }
{
    let first = claim_shown(alloc, engine, machine, schedule, 1)?;
    let second = claim_shown(alloc, engine, machine, schedule, 2)?;
    Ok([first, second])
}

fn both_shown(
    alloc: Global,
    engine: &mut Engine<PlainNet>,
    machine: &Machine,
) -> Result<[Claim; 2], Fail>
    requires { ⟦<Engine<PlainNet> as Planner>⟧.serves engine.old machine.now }
{
    let mut schedule = Schedule::new(alloc);
    let shown = both_shown_on(alloc, engine, machine, &mut schedule);
    drop(schedule);
    shown
}

fn shown_by_engine(alloc: Global, machine: &Machine) -> Result<[Claim; 2], Fail> {
    let mut engine = engine_for(alloc, machine, true)?;
    let shown = both_shown(alloc, &mut engine, machine);
    drop(engine);
    shown
}

fn shown_on(alloc: Global, text: &str) -> Result<[Claim; 2], Fail> {
    let machine = machine_of(alloc, text.as_bytes())?;
    let shown = shown_by_engine(alloc, &machine);
    drop(machine);
    shown
}

// On DUO the second sheet is fed ahead of the first; on TAIL nothing prints.
#[test]
fn answers_are_shown(rt: HostRuntime) -> Result<(), Fail> {
    let on_duo = shown_on(rt.alloc(), DUO)?;
    assert!(rt; on_duo == [Claim::Earliest(14), Claim::Earliest(17)]);
    let on_tail = shown_on(rt.alloc(), TAIL)?;
    assert!(rt; on_tail == [Claim::Never; 2]);
    Ok(())
}
