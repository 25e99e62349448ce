//! The way of a copy in time, as a log tells it.
ghost use Rattle.std.specs.Prelude.{◌≡◌, ◌≤◌, ℕ, count_by, map, nat_le, min, All, IfOk, OnOk};
ghost use Rattle.tp_chart.specs.Courses.{fresh, tell_course, cut_course, joined};
ghost use Rattle.tp_event_records.specs.RecordNames.{IsKnown};
ghost use Rattle.tp_event_rules.specs.Labels.{action_name};
ghost use Rattle.tp_schedule.specs.Plans.{IsTimedPlan};
ghost use Rattle.tp_chart.specs.Starts.{way_of};

use std::alloc::Global;
use std::marker::Model;
use tp_base::{Memory, Name, Tick};
use tp_event_records::{action_name, end_name, label};
use tp_machine::{ActId, Machine};
use tp_schedule::{Kind, Plan, Record, SheetName};

/// The way of a copy in time: action i runs from point i - 1 to point i. The first `released` actions are released.
#[derive(Drop)]
pub struct Course {
    sheet: SheetName,
    location: Name,
    points: Vec<Tick>,
    acts: Vec<Name>,
    released: usize,
    is_lost: bool,
    done: Option<Tick>,
}

// Clauses see the lists.
impl Model for Course {
    ghost use Rattle.tp_chart.specs.Courses.{Way};

    ghost Value = { Way };

    ghost view = { λ c. record {
      sheet = c.sheet;
      location = c.location;
      points = c.points.items;
      acts = c.acts.items;
      released = c.released;
      is_lost = c.is_lost;
      done = c.done;
    } };
}

fn count_started(moment: Tick, points: &[Tick]) -> usize
    ensures { result ≡ count_by (λ p. nat_le p moment) points.now }
{
    points.iter().filter(|point| **point <= moment).count()
}

/// The names of the machine's actions.
fn names_of(alloc: Global, machine: &Machine, acts: &[ActId]) -> Result<Vec<Name>, Memory>
    requires { All (IsKnown machine.now) acts.now }
    ensures { IfOk result (λ names. names.items ≡ map (action_name machine.now) acts.now) }
{
    let mut names = Vec::new(alloc);
    for act in acts {
        names.push(action_name(machine, *act))?;
    }
    Ok(names)
}

impl Course {
    /// The course of a live plan.
    pub(crate) fn of_plan(alloc: Global, machine: &Machine, plan: &Plan) -> Result<Course, Memory>
        requires { IsTimedPlan machine.now plan.now }
        ensures { IfOk result (λ c. c ≡ way_of machine.now plan.now) }
    {
        Ok(Course {
            sheet: label(plan.name, plan.sheet),
            location: end_name(machine, plan),
            points: Vec::from_slice(alloc, plan.points.as_slice())?,
            acts: names_of(alloc, machine, plan.acts.as_slice())?,
            released: plan.released as usize,
            is_lost: plan.kind == Kind::Front,
            done: None,
        })
    }

    /// The course of a plan, none of whose actions is released.
    pub(crate) fn new(
        alloc: Global,
        sheet: &SheetName,
        location: Name,
        points: &[Tick],
        acts: &[Name],
    ) -> Result<Course, Memory>
        ensures { IfOk result (λ c. c ≡ fresh sheet.now location points.now acts.now) }
    {
        let points = Vec::from_slice(alloc, points)?;
        let acts = Vec::from_slice(alloc, acts)?;
        Ok(Course {
            sheet: *sheet,
            location,
            points,
            acts,
            released: 0,
            is_lost: false,
            done: None,
        })
    }

    /// The copy.
    pub fn sheet(&self) -> &SheetName
        ensures { result.now ≡ self.now.sheet }
    {
        &self.sheet
    }

    /// Where the plan ends.
    pub fn location(&self) -> Name
        ensures { result ≡ self.now.location }
    {
        self.location
    }

    pub fn points(&self) -> &[Tick]
        ensures { result.now ≡ self.now.points }
    {
        &self.points
    }

    pub fn acts(&self) -> &[Name]
        ensures { result.now ≡ self.now.acts }
    {
        &self.acts
    }

    pub fn released(&self) -> usize
        ensures { result ≡ self.now.released }
    {
        self.released
    }

    pub fn is_lost(&self) -> bool
        ensures { result ≡ self.now.is_lost }
    {
        self.is_lost
    }

    /// When the copy was delivered.
    pub fn done(&self) -> Option<Tick>
        ensures { result ≡ self.now.done }
    {
        self.done
    }

    /// What is left is the front of the actions that have started at the moment.
    fn cut(&mut self, moment: Tick)
        ensures { self.new ≡ cut_course moment self.old }
    {
        let kept = count_started(moment, &self.points).min(self.acts.len());
        self.points.truncate(kept.saturating_add(1));
        self.acts.truncate(kept);
        self.released = kept;
    }

    /// A front goes on by a plan, whose first point is the end of the front.
    pub(crate) fn join(
        &mut self,
        location: Name,
        points: &[Tick],
        acts: &[Name],
    ) -> Result<(), Memory>
        ensures joined { OnOk result (self.new ≡ joined location points.now acts.now self.old) }
        ensures sheet { self.new.sheet ≡ self.old.sheet }
    {
        if let [_, rest @ ..] = points {
            self.points.extend_from_slice(rest)?;
        }
        self.acts.extend_from_slice(acts)?;
        self.location = location;
        Ok(())
    }

    fn put_points(&mut self, points: &[Tick]) -> Result<(), Memory>
        ensures points { OnOk result (self.new ≡ record self.old { points = points.now }) }
        ensures sheet { self.new.sheet ≡ self.old.sheet }
    {
        self.points.clear();
        self.points.extend_from_slice(points)?;
        Ok(())
    }

    /// What a record of this copy changes.
    pub(crate) fn tell(&mut self, moment: Tick, rec: &Record) -> Result<(), Memory>
        ensures told { OnOk result (self.new ≡ tell_course moment rec.now self.old) }
        ensures sheet { self.new.sheet ≡ self.old.sheet }
    {
        match rec {
            Record::Plan {
                place,
                points,
                acts,
                ..
            } => return self.join(*place, points.as_slice(), acts.as_slice()),
            Record::Move { points, .. } => return self.put_points(points.as_slice()),
            Record::Release { act, .. } => self.released = *act as usize,
            Record::Recall { act, .. } => {
                self.released = self.released.min((*act as usize).saturating_sub(1));
            }
            Record::Done { at, .. } => self.done = Some(*at),
            Record::Lost { .. } => {
                self.cut(moment);
                self.is_lost = true;
            }
            Record::Cut { .. } => self.cut(moment),
            Record::Purge { .. } => self.cut(moment),
            _ => {}
        }
        Ok(())
    }
}
