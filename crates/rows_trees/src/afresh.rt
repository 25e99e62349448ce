//! A board that lives on from ask to ask answers as one that is loaded afresh for each.
ghost use Rattle.std.specs.Prelude.{◌≡◌, IfErr, IfOk};
ghost use Rattle.tp_schedule.specs.PlannerAnswers.{CanAsk};
ghost use Rattle.tp_search.specs.Engines.{EngineLasts};
ghost use Rattle.tp_search.specs.Workspaces.{IsSpentOf};

use crate::checks::machine_of;
use crate::taken_scripts::take_script;
use rows_machine::machines::DUO;
use std::alloc::Global;
use std::test::Fail;
use tp_base::Tick;
use tp_machine::Machine;
use tp_schedule::{Ask, Halt, Plan, Planner, Reply, Schedule};
use tp_search::Engine;
use tp_stn_undo::LiveNet;

/// Two engines. Each ask goes to both, on the same schedule, and one of them settles nothing before, which leaves no board for it
/// to go on with.
#[derive(Drop)]
struct Both {
    alloc: Global,
    kept: Engine<LiveNet>,
    afresh: Engine<LiveNet>,
    same: u32,
    other: u32,
}

fn is_same_plan(one: &Plan, other: &Plan) -> bool {
    one.sheet == other.sheet
        && one.acts.as_slice() == other.acts.as_slice()
        && one.points.as_slice() == other.points.as_slice()
}

fn is_same_schedule(one: &Schedule, other: &Schedule) -> bool {
    if one.len() != other.len() {
        return false;
    }
    for at in 0..one.len() {
        if at < other.len() && !is_same_plan(one.plan_at(at), other.plan_at(at)) {
            return false;
        }
    }
    true
}

impl Both {
    /// Counts an answer.
    fn compare(&mut self, same: bool)
        ensures kept { self.new.kept ≡ self.old.kept }
        ensures afresh { self.new.afresh ≡ self.old.afresh }
    {
        if same {
            self.same = self.same.saturating_add(1);
        } else {
            self.other = self.other.saturating_add(1);
        }
    }
}

/// The answer of an engine that keeps no board.
fn ask_afresh(
    alloc: Global,
    engine: &mut Engine<LiveNet>,
    machine: &Machine,
    schedule: &mut Schedule,
    ask: &Ask,
) -> Result<Reply, Halt>
    requires served { ⟦<Engine<LiveNet> as Planner>⟧.serves engine.old machine.now }
    requires can_ask { CanAsk machine.now schedule.old.plans ask.now }
    ensures still_serves { ⟦<Engine<LiveNet> as Planner>⟧.serves engine.new machine.now }
    ensures memory { IfErr result (λ halt. halt ≡ Halt.Memory) }
{
    engine.settle(machine, &mut Schedule::new(alloc), 0)?;
    engine.ask(machine, schedule, ask)
}

impl Planner for Both {
    ghost serves = { λ b machine. ⟦<Engine<LiveNet> as Planner>⟧.serves b.kept machine
        × ⟦<Engine<LiveNet> as Planner>⟧.serves b.afresh machine };

    ghost Lasting = { EngineLasts };

    ghost lasting = { λ b. record { nodes = b.kept.work.nodes; bounds = b.kept.bounds } };

    ghost stops = { λ b. 0 };

    ghost rules = { record {
      spent = λ b. IsSpentOf b.kept.work.nodes;
      steps = λ b machine plans deed plans' b'. Unit {0};
      stop_steps = λ b machine plans due b'. ⊥;
    } };

    ghost moved = { λ b. ⟦<Engine<LiveNet> as Planner>⟧.moved b.kept };

    ghost follows = { λ b machine plans.
        ⟦<Engine<LiveNet> as Planner>⟧.follows b.kept machine plans };

    fn ask(
        &mut self,
        machine: &Machine,
        schedule: &mut Schedule,
        ask: &Ask,
    ) -> Result<Reply, Halt> {
        let Ok(mut copy) = schedule.copy(self.alloc) else {
            return Err(Halt::Memory);
        };
        let told = ask_afresh(self.alloc, &mut self.afresh, machine, &mut copy, ask)?;
        let reply = self.kept.ask(machine, schedule, ask)?;
        self.compare(told == reply && is_same_schedule(&copy, schedule));
        Ok(reply)
    }

    fn ask_on(
        &mut self,
        machine: &Machine,
        schedule: &mut Schedule,
        ask: &Ask,
    ) -> Result<Reply, Halt> {
        let Ok(mut copy) = schedule.copy(self.alloc) else {
            return Err(Halt::Memory);
        };
        let told = ask_afresh(self.alloc, &mut self.afresh, machine, &mut copy, ask)?;
        let reply = self.kept.ask_on(machine, schedule, ask)?;
        self.compare(told == reply && is_same_schedule(&copy, schedule));
        Ok(reply)
    }

    fn settle(
        &mut self,
        machine: &Machine,
        schedule: &mut Schedule,
        now: Tick,
    ) -> Result<(), Halt> {
        self.kept.settle(machine, schedule, now)
    }

    fn has_moved(&self) -> bool {
        self.kept.has_moved()
    }
}

fn engine_for(alloc: Global, machine: &Machine) -> Result<Engine<LiveNet>, Fail>
    ensures { IfOk result
        (λ engine. ⟦<Engine<LiveNet> as Planner>⟧.serves engine machine.now) }
{
    let Ok(net) = LiveNet::new(alloc, 16_642, 100_000, 330) else {
        return Err(Fail::from("memory"));
    };
    match Engine::new(alloc, machine, net, 1000, false) {
        Ok(engine) => Ok(engine),
        Err(_) => Err(Fail::from("memory")),
    }
}

/// How many asks of a script both engines answer with the same, and how many they don't.
fn answered(alloc: Global, machine: &Machine, script: &[u8]) -> Result<(u32, u32), Fail> {
    let mut both = Both {
        alloc,
        kept: engine_for(alloc, machine)?,
        afresh: engine_for(alloc, machine)?,
        same: 0,
        other: 0,
    };
    match take_script(alloc, machine, &mut both, script) {
        Ok(()) => Ok((both.same, both.other)),
        Err(fail) => Err(fail),
    }
}

/// A thousand events: jobs of one to three sheets, clocks that ended plans and releases come between, and a jam and a module off
/// now and then.
fn long_script(alloc: Global) -> Result<String, Fail> {
    let mut script = String::new(alloc);
    for n in 0u32..250 {
        let clock = n * 20;
        let sheets = n % 3 + 1;
        let round = match n % 10 {
            3 => format!(in alloc;
                "off ENG1\njob a{n} t plain {sheets}*M-:F\non ENG1\nclock {clock}\n"
            )?,
            7 => format!(in alloc; "jam ENG2\njob b{n} t plain M-:F\non ENG2\nclock {clock}\n")?,
            _ => format!(in alloc;
                "job c{n} t plain {sheets}*M-:F\njob d{n} t plain C-:F\nclock {clock}\nclock {clock}\n"
            )?,
        };
        script.push_str(round.as_str())?;
    }
    Ok(script)
}

#[test]
fn a_thousand_events(rt: HostRuntime) -> Result<(), Fail> {
    let machine = machine_of(rt.alloc(), DUO)?;
    let script = long_script(rt.alloc())?;
    let told = answered(rt.alloc(), &machine, script.as_bytes())?;
    assert!(rt; told == (598, 0));
    Ok(())
}
