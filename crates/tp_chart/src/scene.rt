//! The schedule that a log tells up to a moment.
ghost use Rattle.std.specs.Prelude.{◌≡◌, fold, IfOk, OnOk};
ghost use Rattle.tp_chart.specs.Scenes.{asked_by, comes_back, goes_out, gone, is_past, more, moves_past, nothing, sight_from, tell, tell_event, tell_record, with_changed, with_less, with_more};

use crate::course::Course;
use crate::courses::Courses;
use crate::out_span::{OutKind, OutSpan, all_ended, is_out};
use std::alloc::Global;
use std::marker::Model;
use tp_base::{Memory, Name, Tick};
use tp_log::Item;
use tp_machine::Machine;
use tp_schedule::{Record, SheetName};
use tp_script::{Event, Group};

/// The last tick of the clock.
const LAST_TICK: Tick = 1_000_000_000;

/// The schedule that a log tells: the ways of its copies in the order of their first plans, when modules were out, how many
/// copies wait, and how many waited before the last event.
#[derive(Drop)]
pub struct Scene {
    moment: Tick,
    courses: Courses,
    outages: Vec<OutSpan>,
    waiting: u64,
    before: u64,
}

// Clauses see the lists.
impl Model for Scene {
    ghost use Rattle.tp_chart.specs.Scenes.{Sight};

    ghost Value = { Sight };

    ghost view = { λ s. record {
      moment = s.moment;
      courses = s.courses;
      outages = s.outages.items;
      waiting = s.waiting;
      before = s.before;
    } };
}

/// Whether the event moves the clock beyond the moment.
fn moves_past(last: Tick, event: &Event) -> bool
    ensures { result ≡ moves_past last event.now }
{
    match event {
        Event::Clock { to } => last < *to && *to <= LAST_TICK,
        _ => false,
    }
}

fn is_past(until: Option<Tick>, item: &Item) -> bool
    ensures { result ≡ is_past until item.now }
{
    match (until, item) {
        (Some(last), Item::Event(event)) => moves_past(last, event),
        _ => false,
    }
}

/// The count of copies that wait, with those of the groups.
fn with_groups(waiting: u64, groups: &[Group]) -> u64
    ensures { result ≡ fold (λ n g. more n g.count) waiting groups.now }
{
    let mut waiting = waiting;
    for group in groups {
        waiting = waiting.saturating_add(u64::from(group.count));
    }
    waiting
}

impl Scene {
    /// The schedule before a log that begins at nothing.
    pub fn new(alloc: Global) -> Scene
        ensures { result ≡ nothing }
    {
        Scene {
            moment: 0,
            courses: Courses::new(alloc),
            outages: Vec::new(alloc),
            waiting: 0,
            before: 0,
        }
    }

    /// The schedule at a moment, with these courses and outages and so many copies that wait.
    pub(crate) fn at(moment: Tick, courses: Courses, outages: Vec<OutSpan>, waiting: u64) -> Scene
        ensures { result ≡ record {
          moment = moment;
          courses = courses;
          outages = outages.items;
          waiting = waiting;
          before = waiting;
        } }
    {
        Scene {
            moment,
            courses,
            outages,
            waiting,
            before: waiting,
        }
    }

    /// The moment that it is.
    pub fn moment(&self) -> Tick
        ensures { result ≡ self.now.moment }
    {
        self.moment
    }

    pub fn courses(&self) -> &[Course]
        ensures { result.now ≡ self.now.courses }
    {
        self.courses.as_slice()
    }

    pub fn outages(&self) -> &[OutSpan]
        ensures { result.now ≡ self.now.outages }
    {
        &self.outages
    }

    /// How many copies wait.
    pub fn waiting(&self) -> u64
        ensures { result ≡ self.now.waiting }
    {
        self.waiting
    }

    fn go_out(&mut self, machine: &Machine, kind: OutKind, name: &Name) -> Result<(), Memory>
        ensures { OnOk result (self.new ≡ goes_out machine.now kind name.now self.old) }
    {
        if let Some(number) = machine.modules.find(name)
            && !is_out(number, &self.outages)
        {
            self.outages.push(OutSpan {
                number,
                kind,
                begin: self.moment,
                end: None,
            })?;
        }
        Ok(())
    }

    fn come_back(&mut self, machine: &Machine, name: &Name) -> Result<(), Memory>
        ensures { OnOk result (self.new ≡ comes_back machine.now name.now self.old) }
    {
        if let Some(number) = machine.modules.find(name) {
            let alloc = *self.outages.allocator();
            self.outages = all_ended(alloc, number, self.moment, &self.outages)?;
        }
        Ok(())
    }

    fn leave(&mut self, sheet: &SheetName)
        ensures { self.new ≡ gone sheet.now self.old }
    {
        self.courses.leave(sheet);
    }

    /// So many copies more wait.
    fn wait(&mut self, count: u64)
        ensures { self.new ≡ with_more count self.old }
    {
        self.waiting = self.waiting.saturating_add(count);
    }

    /// A copy that had no plan waits no more.
    fn wait_less(&mut self, sheet: &SheetName)
        ensures { self.new ≡ with_less sheet.now self.old }
    {
        if !self.courses.has(sheet) {
            self.waiting = self.waiting.saturating_sub(1);
        }
    }

    /// The sheets that an event asks for wait.
    fn ask(&mut self, event: &Event)
        ensures { self.new ≡ record self.old {
          waiting = asked_by event.now self.old.waiting;
          before = self.old.waiting;
        } }
    {
        self.before = self.waiting;
        if let Event::Job { groups, .. } = event {
            self.waiting = with_groups(self.waiting, groups.as_slice());
        }
    }

    fn change(&mut self, sheet: &SheetName, rec: &Record) -> Result<(), Memory>
        ensures { OnOk result (self.new ≡ with_changed sheet.now rec.now self.old) }
    {
        self.courses.change(self.moment, sheet, rec)
    }

    fn tell_record(&mut self, machine: &Machine, rec: &Record) -> Result<(), Memory>
        ensures { OnOk result (self.new ≡ tell_record machine.now rec.now self.old) }
    {
        match rec {
            Record::Plan {
                sheet,
                place,
                points,
                acts,
            } => {
                self.wait_less(sheet);
                self.courses
                    .plan(sheet, *place, points.as_slice(), acts.as_slice())
            }
            Record::Move { sheet, .. } => self.change(sheet, rec),
            Record::Release { sheet, .. } => self.change(sheet, rec),
            Record::Done { sheet, .. } => self.change(sheet, rec),
            Record::Lost { sheet } => self.change(sheet, rec),
            Record::Recall { sheet, .. } => self.change(sheet, rec),
            Record::Cut { sheet } => self.change(sheet, rec),
            Record::Purge { sheet } => self.change(sheet, rec),
            Record::Withdraw { sheet } => {
                self.leave(sheet);
                self.wait(1);
                Ok(())
            }
            Record::Drop { sheet } => {
                self.wait_less(sheet);
                self.leave(sheet);
                Ok(())
            }
            Record::Again { .. } => {
                self.wait(1);
                Ok(())
            }
            Record::Refused { .. } => {
                self.waiting = self.before;
                Ok(())
            }
            Record::Stuck { module, .. } => self.go_out(machine, OutKind::Stuck, module),
            _ => Ok(()),
        }
    }

    fn tell_event(&mut self, machine: &Machine, event: &Event) -> Result<(), Memory>
        ensures { OnOk result (self.new ≡ tell_event machine.now event.now self.old) }
    {
        match event {
            Event::Clock { to } => {
                if self.moment <= *to && *to <= LAST_TICK {
                    self.moment = *to;
                }
                Ok(())
            }
            Event::Jam { module } => self.go_out(machine, OutKind::Jam, module),
            Event::Off { module } => self.go_out(machine, OutKind::Off, module),
            Event::On { module } => self.come_back(machine, module),
            _ => Ok(()),
        }
    }

    fn tell(&mut self, machine: &Machine, item: &Item) -> Result<(), Memory>
        ensures { OnOk result (self.new ≡ tell machine.now item.now self.old) }
    {
        match item {
            Item::Event(event) => {
                self.ask(event);
                self.tell_event(machine, event)
            }
            Item::Note(rec) => self.tell_record(machine, rec),
            Item::Tree(_) => Ok(()),
        }
    }
}

/// The schedule that the lines of a log tell that begins with the schedule `start`: the lines before the first event that moves
/// the clock beyond the moment `until`, or all of them.
pub fn scene_of(
    machine: &Machine,
    until: Option<Tick>,
    start: Scene,
    items: &[Item],
) -> Result<Scene, Memory>
    ensures { IfOk result (λ s. s ≡ sight_from machine.now until start items.now) }
{
    let mut scene = start;
    let mut rest = items;
    'items: while let [item, more @ ..] = rest {
        if is_past(until, item) {
            return Ok(scene);
        }
        scene.tell(machine, item)?;
        rest = more;
    }
    Ok(scene)
}
