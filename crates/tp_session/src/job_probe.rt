//! What an ask for the first sheet of a job would give, in the state as it stands.

ghost use Rattle.std.specs.Prelude.{◌≡◌, ◌<◌, ◌^◌, ℕ, length, slice_get, Some, IfErr, IfOk};
ghost use Rattle.tp_jobs.specs.WaitingCopies.{sheets_of};
ghost use Rattle.tp_schedule.specs.PlannerAnswers.{CanAsk};
ghost use Rattle.tp_schedule.specs.declared.parts.Goal.TheVariants.{Tray};
ghost use Rattle.tp_schedule.specs.declared.parts.Origin.TheVariants.{Feeder};
ghost use Rattle.tp_script.specs.Printed.{IsEchoed};
ghost use Rattle.tp_script.specs.declared.event.Event.TheVariants.{Job as NewJob};
ghost use Rattle.tp_search.specs.Engines.{IsSameEngine, Serves};
ghost use Rattle.tp_session.specs.Probes.{AskGives, GivesProbe, IsProbe};
ghost use Rattle.tp_stock.specs.Stock.{IsBounded, empties};
ghost use Rattle.tp_event_rules.specs.LiveStates.{seen};
ghost use Rattle.tp_event_rules.specs.Ready.{CanTakeEvents, KeepsStock, last_copy};

use tp_base::{Name, Network, Undo};
use tp_event_rules::LiveState;
use tp_event_turn::MOST_LIVE;
use tp_machine::{LocId, Machine, Sheet};
use tp_schedule::{Ask, Goal, Origin, Schedule, SheetId};
use tp_script::{Event, Group};
use tp_search::{Engine, NoPlan};
use tp_stock::empty_feeders;
use tp_stream::Probe;

/// The sheet that the first of the groups asks for.
fn first_sheet(media: Name, groups: &[Group]) -> Sheet
    requires { 0 < length groups.now }
    ensures { slice_get (sheets_of media groups.now) 0 ≡ Some result }
{
    let group = &groups[0];
    Sheet {
        media,
        front: group.front,
        back: group.back,
        face: group.face,
    }
}

/// The ask for the first copy of a job that comes now.
fn make_ask(machine: &Machine, state: &LiveState, name: Name, want: Sheet, tray: LocId) -> Ask
    requires { IsBounded state.now.refills.0 }
    ensures { result ≡ record {
      sheet = record { job = length state.now.lines.jobs; number = 1; copy = 1 };
      name = name;
      want = want;
      goal = Tray tray;
      origin = Feeder;
      outs = state.now.outs;
      empty = empties machine.now state.now.refills.0 state.now.schedule.plans;
      now = state.now.moment;
    } }
{
    Ask {
        sheet: SheetId {
            job: state.lines.jobs(),
            number: 1,
            copy: 1,
        },
        name,
        want,
        goal: Goal::Tray(tray),
        origin: Origin::Feeder,
        outs: state.outs,
        empty: empty_feeders(machine, &state.refills, &state.schedule),
        now: state.moment,
    }
}

/// The ask for the first sheet of this job, or the answer without one.
fn ask_for_job(
    machine: &Machine,
    state: &LiveState,
    name: &Name,
    tray: &Name,
    media: &Name,
    groups: &[Group],
) -> Result<Ask, Probe>
    requires can { CanTakeEvents machine.now last_copy (seen state.now) }
    requires stocked { KeepsStock machine.now last_copy (seen state.now) }
    requires groups { (0 < length groups.now) × (length groups.now < 2 ^ 32) }
    ensures can_ask { IfOk result (CanAsk machine.now state.now.schedule.plans) }
    ensures asked { (nodes : ℕ) → IfOk result (GivesProbe machine.now nodes
        (NewJob name.now tray.now media.now groups.now) (seen state.now)) }
    ensures told { (nodes : ℕ) → IfErr result (IsProbe machine.now nodes
        (NewJob name.now tray.now media.now groups.now) (seen state.now)) }
{
    let Ok(loc) = state.lines.check(machine, name, tray, media, groups) else {
        return Err(Probe::Refused);
    };
    if state.lines.waits_for(loc) {
        return Err(Probe::Waits);
    }
    if state.schedule.live(machine, state.moment) >= MOST_LIVE {
        return Err(Probe::Full);
    }
    Ok(make_ask(machine, state, *name, first_sheet(*media, groups), loc))
}

/// The ask for the first sheet of the job, or the answer without one: the event is no job or would be refused, a copy of
/// its line waits, or 256 copies are live.
pub(crate) fn first_ask(machine: &Machine, state: &LiveState, event: &Event) -> Result<Ask, Probe>
    requires can { CanTakeEvents machine.now last_copy (seen state.now) }
    requires stocked { KeepsStock machine.now last_copy (seen state.now) }
    requires echoed { IsEchoed event.now }
    ensures can_ask { IfOk result (CanAsk machine.now state.now.schedule.plans) }
    ensures asked { (nodes : ℕ) →
        IfOk result (GivesProbe machine.now nodes event.now (seen state.now)) }
    ensures told { (nodes : ℕ) →
        IfErr result (IsProbe machine.now nodes event.now (seen state.now)) }
{
    match event {
        Event::Job {
            name,
            tray,
            media,
            groups,
        } => {
            // For the prover: brings length groups < 2^32.
            let _count = groups.len();
            ask_for_job(machine, state, name, tray, media, groups.as_slice())
        }
        Event::Bad
        | Event::Clock { .. }
        | Event::Jam { .. }
        | Event::Off { .. }
        | Event::On { .. }
        | Event::Refill { .. } => Err(Probe::Refused),
    }
}

/// What the ask would give. The schedule stays.
pub(crate) fn try_ask<N: Network>(
    engine: &mut Engine<N>,
    machine: &Machine,
    schedule: &Schedule,
    ask: &Ask,
) -> Probe
    requires served { Serves N.reading engine.old machine.now }
    requires can_ask { CanAsk machine.now schedule.now.plans ask.now }
    ensures gives { AskGives engine.old.work.nodes machine.now schedule.now.plans
        ask.entry.now result }
    ensures still_serves { Serves N.reading engine.new machine.now }
    ensures same { IsSameEngine N.reading engine.old engine.new }
    ensures trees { engine.new.trees ≡ engine.old.trees }
{
    match engine.probe(machine, schedule, ask) {
        Ok(end) => Probe::Ends(end),
        Err(NoPlan::Never) => Probe::Never,
        Err(NoPlan::Spent { bound }) => Probe::Spent(bound),
    }
}
