//! Where the schedule of a log begins: at nothing, or where a snapshot stands.
ghost use Rattle.std.specs.Prelude.{◌≡◌, ◌≤◌, length, All, IfOk, IfErr, IsFalse, IsTrue};
ghost use Rattle.tp_machine.specs.Limits.{most_modules};
ghost use Rattle.tp_schedule.specs.Plans.{IsTimedPlan};
ghost use Rattle.tp_session_standing.specs.Sound.{IsSound};
ghost use Rattle.tp_chart.specs.Runs.{IsRefused, is_of_text, most_text};
ghost use Rattle.tp_chart.specs.Starts.{IsStart, is_braced, out_spans, sight_in, ways_of};

use crate::chart_status::ChartStatus;
use crate::course::Course;
use crate::courses::Courses;
use crate::out_span::{OutKind, OutSpan};
use crate::scene::Scene;
use std::alloc::Global;
use tp_base::{Memory, Tick};
use tp_jobs::Standing;
use tp_machine::{Machine, ModId, Names, Outs, machine_law};
use tp_machine_text::{MachineFault, read_machine};
use tp_schedule::Plan;
use tp_snapshot::{Opened, SnapFault, read_snapshot};

/// A machine, and where the schedule of a log on it begins.
#[derive(Drop)]
pub(crate) struct Start {
    pub(crate) machine: Machine,
    pub(crate) scene: Scene,
}

/// The courses of live plans.
fn courses_of(alloc: Global, machine: &Machine, plans: &[Plan]) -> Result<Courses, Memory>
    requires { All (IsTimedPlan machine.now) plans.now }
    ensures { IfOk result (λ courses. courses ≡ ways_of machine.now plans.now) }
{
    let mut courses = Courses::new(alloc);
    for plan in plans {
        courses.add(Course::of_plan(alloc, machine, plan)?)?;
    }
    Ok(courses)
}

/// The modules that are out are so from the moment on.
fn outages_of(
    alloc: Global,
    modules: &Names,
    outs: Outs,
    moment: Tick,
) -> Result<Vec<OutSpan>, Memory>
    requires { length modules.now ≤ most_modules }
    ensures { IfOk result (λ outages. outages.items ≡ out_spans outs moment 0 modules.now) }
{
    let mut outages = Vec::new(alloc);
    'modules: for at in 0..modules.len() {
        if outs.contains(ModId(at as u8)) {
            outages.push(OutSpan {
                number: at as u16,
                kind: OutKind::Saved,
                begin: moment,
                end: None,
            })?;
        }
    }
    Ok(outages)
}

/// The schedule that a snapshot has.
fn scene_in(alloc: Global, machine: &Machine, standing: &Standing) -> Result<Scene, Memory>
    requires { IsSound machine.now standing.now }
    ensures { IfOk result (λ scene. scene ≡ sight_in machine.now standing.entry.now) }
{
    machine_law(machine);
    let moment = standing.now;
    let courses = courses_of(alloc, machine, standing.plans.as_slice())?;
    let outages = outages_of(alloc, &machine.modules, standing.outs, moment)?;
    let waiting = standing.waiting.len() as u64;
    Ok(Scene::at(moment, courses, outages, waiting))
}

/// The machine and the schedule of a snapshot.
fn start_of(alloc: Global, opened: Opened) -> Result<Start, Memory>
    requires { IsSound opened.machine opened.standing }
    ensures { IfOk result (λ start. (start.machine ≡ opened.machine)
        × (start.scene ≡ sight_in opened.machine opened.standing)) }
{
    let Opened { machine, standing } = opened;
    let scene = scene_in(alloc, &machine, &standing)?;
    Ok(Start { machine, scene })
}

fn is_braced(text: &[u8]) -> bool
    ensures { result ≡ is_braced text.now }
{
    match text {
        [byte, ..] => *byte == b'{',
        [] => false,
    }
}

/// Reads a snapshot. An `Err` is the status that the run ends with.
fn read_saved(alloc: Global, text: &[u8]) -> Result<Start, ChartStatus>
    requires { IsTrue (is_braced text.now) }
    ensures start { IfOk result (λ start. IsStart text.now start.machine start.scene) }
    ensures refused { IfErr result (λ s. IsRefused s text.now) }
    ensures which { IfErr result (λ s. IsTrue (is_of_text s)) }
{
    match read_snapshot(alloc, text) {
        Ok(opened) => match start_of(alloc, opened) {
            Ok(start) => Ok(start),
            Err(Memory) => Err(ChartStatus::Memory),
        },
        Err(SnapFault::Memory) => Err(ChartStatus::Memory),
        Err(SnapFault::NotJson) => Err(ChartStatus::Snapshot(SnapFault::NotJson)),
        Err(SnapFault::Rule(n)) => Err(ChartStatus::Snapshot(SnapFault::Rule(n))),
    }
}

/// Reads a machine text. An `Err` is the status that the run ends with.
fn read_plain(alloc: Global, text: &[u8]) -> Result<Start, ChartStatus>
    requires { IsFalse (is_braced text.now) }
    ensures start { IfOk result (λ start. IsStart text.now start.machine start.scene) }
    ensures refused { IfErr result (λ s. IsRefused s text.now) }
    ensures which { IfErr result (λ s. IsTrue (is_of_text s)) }
{
    match read_machine(alloc, text) {
        Ok(machine) => Ok(Start {
            machine,
            scene: Scene::new(alloc),
        }),
        Err(MachineFault::Memory) => Err(ChartStatus::Memory),
        Err(MachineFault::NotToml) => Err(ChartStatus::Machine(MachineFault::NotToml)),
        Err(MachineFault::Rule(n)) => Err(ChartStatus::Machine(MachineFault::Rule(n))),
    }
}

/// Reads a snapshot, which begins with a brace, or else a machine text. An `Err` is the status that the run ends with.
pub(crate) fn read_start(alloc: Global, text: &[u8]) -> Result<Start, ChartStatus>
    ensures start { IfOk result (λ start. IsStart text.now start.machine start.scene) }
    ensures refused { IfErr result (λ s. IsRefused s text.now) }
    ensures which { IfErr result (λ s. IsTrue (is_of_text s)) }
{
    if is_braced(text) {
        read_saved(alloc, text)
    } else {
        read_plain(alloc, text)
    }
}

/// The most bytes of a machine text.
const MACHINE_BYTES: usize = 1_048_576;

/// The most bytes of a snapshot.
pub(crate) const SNAPSHOT_BYTES: usize = 134_217_728;

/// The most bytes of a text that begins so.
pub(crate) fn most_bytes(text: &[u8]) -> usize
    ensures { result ≡ most_text text.now }
{
    if is_braced(text) {
        SNAPSHOT_BYTES
    } else {
        MACHINE_BYTES
    }
}
