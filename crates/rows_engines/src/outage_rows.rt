//! A module of the machine DUO is taken out where nothing is planned.
ghost use Rattle.std.specs.Prelude.{◌≡◌, []};
ghost use Rattle.tp_jobs.specs.Backlogs.{no_backlog};

use crate::engine_rows::engine_for;
use rows_machine::machines::{DUO, machine_of};
use std::alloc::Global;
use std::process::Abort;
use std::test::Fail;
use tp_jobs::Lines;
use tp_machine::{Machine, ModId, Outs};
use tp_replan::handle_out;
use tp_schedule::{Planner, Record, Schedule};

/// Takes the module of this number out. Tells which modules are out then.
fn take_out<P: Planner>(
    alloc: Global,
    planner: &mut P,
    machine: &Machine,
    schedule: &mut Schedule,
    lines: &mut Lines,
    notes: &mut Vec<Record>,
) -> Result<Outs, Fail>
    requires served { P.serves planner.old machine.now }
    requires plans { schedule.old.plans ≡ [] }
    requires lines { lines.old ≡ no_backlog }
{
    if machine.modules.len() < 2 {
        return Err(Fail::from("the module is lost"));
    }
    let mut outs = Outs(0);
    let (id, jammed) = (ModId(1), true);
    match handle_out(
        alloc, machine, schedule, lines, &mut outs, planner, 0, id, jammed, notes,
    ) {
        Ok(()) => Ok(outs),
        Err(_) => Err(Fail::from("memory")),
    }
}

/// Which modules are out behind the jam, and how many records and plans there are then.
fn told_out<P: Planner>(
    alloc: Global,
    planner: &mut P,
    machine: &Machine,
) -> Result<(Outs, usize, u32), Fail>
    requires { P.serves planner.old machine.now }
{
    let mut schedule = Schedule::new(alloc);
    let mut lines = Lines::new(alloc);
    let mut notes = Vec::new(alloc);
    let outs = take_out(
        alloc,
        planner,
        machine,
        &mut schedule,
        &mut lines,
        &mut notes,
    );
    let (noted, planned) = (notes.len(), schedule.len());
    drop(notes);
    drop(lines);
    drop(schedule);
    Ok((outs?, noted, planned))
}

fn told_by_engine(alloc: Global, machine: &Machine) -> Result<(Outs, usize, u32), Fail> {
    let mut engine = engine_for(alloc, machine, false)?;
    let told = told_out(alloc, &mut engine, machine);
    drop(engine);
    told
}

fn told_on_duo(alloc: Global) -> Result<(Outs, usize, u32), Fail> {
    let machine = machine_of(alloc, DUO.as_bytes())?;
    let told = told_by_engine(alloc, &machine);
    drop(machine);
    told
}

// With nothing planned the module is out, and nothing is to be told but that.
#[test]
fn jam_with_nothing_planned(rt: HostRuntime) -> Result<(), Fail> {
    let (outs, noted, planned) = told_on_duo(rt.alloc())?;
    assert!(rt; outs.0 == 2);
    assert!(rt; (noted, planned) == (0, 0));
    Ok(())
}
