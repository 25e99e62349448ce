//! The courses of copies, which are looked up by hash.
ghost use Rattle.std.specs.Prelude.{◌≡◌, [], ◌∷◌, ◌++◌, None, Some, map, position, OnOk};
ghost use Rattle.tp_chart.specs.Courses.{fresh, is_same_copy, joined, key_of, tell_course};
ghost use Rattle.tp_chart.specs.Scenes.{changed, has_way, planned, without};
ghost use Rattle.tp_chart.specs.Starts.{with_way};

use crate::copy_key::CopyKey;
use crate::course::Course;
use indexmap::IndexSet;
use std::alloc::Global;
use std::marker::Model;
use tp_base::{Memory, Name, Tick};
use tp_schedule::{Record, SheetName};

/// The courses of copies in the order of their first plans.
#[derive(Drop)]
pub(crate) struct Courses {
    keys: IndexSet<CopyKey>,
    list: Vec<Course>,
}

// Clauses see the list.
impl Model for Courses {
    ghost use Rattle.std.specs.Prelude.{◌≡◌, List, map};
    ghost use Rattle.tp_chart.specs.Courses.{Way, key_of};

    ghost Value = { List Way };

    ghost view = { λ c. c.list.items };

    ghost invariant = { λ c. c.keys.keys ≡ map (λ w. key_of w.sheet) c.list.items };
}

/// The course of a copy that has none goes last.
fn add_new(
    keys: &mut IndexSet<CopyKey>,
    list: &mut Vec<Course>,
    sheet: &SheetName,
    course: Course,
) -> Result<(), Memory>
    requires keys { keys.old.keys ≡ map (λ w. key_of w.sheet) list.old.items }
    requires is_new { None ≡ position (λ w. is_same_copy w.sheet sheet.now) list.old.items }
    requires same { course.sheet ≡ sheet.now }
    ensures keys { keys.new.keys ≡ map (λ w. key_of w.sheet) list.new.items }
    ensures list { OnOk result (list.new.items ≡ list.old.items ++ course ∷ []) }
{
    list.reserve(1)?;
    keys.insert(CopyKey::of(sheet))?;
    list.push_reserved(course);
    Ok(())
}

/// A plan of a copy that has no course begins one.
fn begin(
    keys: &mut IndexSet<CopyKey>,
    list: &mut Vec<Course>,
    sheet: &SheetName,
    location: Name,
    points: &[Tick],
    acts: &[Name],
) -> Result<(), Memory>
    requires keys { keys.old.keys ≡ map (λ w. key_of w.sheet) list.old.items }
    requires is_new { None ≡ position (λ w. is_same_copy w.sheet sheet.now) list.old.items }
    ensures keys { keys.new.keys ≡ map (λ w. key_of w.sheet) list.new.items }
    ensures list { OnOk result (list.new.items
        ≡ list.old.items ++ fresh sheet.now location points.now acts.now ∷ []) }
{
    let course = Course::new(*list.allocator(), sheet, location, points, acts)?;
    add_new(keys, list, sheet, course)
}

/// The record changes the course at the place of the copy.
fn change_at(
    list: &mut Vec<Course>,
    at: usize,
    moment: Tick,
    sheet: &SheetName,
    rec: &Record,
) -> Result<(), Memory>
    requires { Some at ≡ position (λ w. is_same_copy w.sheet sheet.now) list.old.items }
    ensures list { OnOk result (list.new.items
        ≡ changed sheet.now (tell_course moment rec.now) list.old.items) }
    ensures keys { map (λ w. key_of w.sheet) list.new.items
        ≡ map (λ w. key_of w.sheet) list.old.items }
{
    list[at].tell(moment, rec)
}

/// The course at the place of the copy goes on by a plan.
fn join_at(
    list: &mut Vec<Course>,
    at: usize,
    sheet: &SheetName,
    location: Name,
    points: &[Tick],
    acts: &[Name],
) -> Result<(), Memory>
    requires { Some at ≡ position (λ w. is_same_copy w.sheet sheet.now) list.old.items }
    ensures list { OnOk result (list.new.items ≡ planned sheet.now
        (joined location points.now acts.now)
        (fresh sheet.now location points.now acts.now) list.old.items) }
    ensures keys { map (λ w. key_of w.sheet) list.new.items
        ≡ map (λ w. key_of w.sheet) list.old.items }
{
    list[at].join(location, points, acts)
}

/// Takes the course at the place of the copy out.
fn remove_at(keys: &mut IndexSet<CopyKey>, list: &mut Vec<Course>, at: usize, sheet: &SheetName)
    requires keys { keys.old.keys ≡ map (λ w. key_of w.sheet) list.old.items }
    requires place { Some at ≡ position (λ w. is_same_copy w.sheet sheet.now) list.old.items }
    ensures keys { keys.new.keys ≡ map (λ w. key_of w.sheet) list.new.items }
    ensures list { list.new.items ≡ without sheet.now list.old.items }
{
    let _ = keys.shift_remove_index(at);
    let _ = list.remove(at);
}

impl Courses {
    pub(crate) fn new(alloc: Global) -> Courses
        ensures { result ≡ [] }
    {
        Courses {
            keys: IndexSet::new(alloc),
            list: Vec::new(alloc),
        }
    }

    pub(crate) fn as_slice(&self) -> &[Course]
        ensures { result.now ≡ self.now }
    {
        &self.list
    }

    /// The place of the copy's course.
    fn find(&self, sheet: &SheetName) -> Option<usize>
        ensures { result ≡ position (λ w. is_same_copy w.sheet sheet.now) self.now }
    {
        self.keys.get_index_of(&CopyKey::of(sheet))
    }

    pub(crate) fn has(&self, sheet: &SheetName) -> bool
        ensures { result ≡ has_way sheet.now self.now }
    {
        self.find(sheet).is_some()
    }

    /// The record changes the course of its copy, if it has one.
    pub(crate) fn change(
        &mut self,
        moment: Tick,
        sheet: &SheetName,
        rec: &Record,
    ) -> Result<(), Memory>
        ensures { OnOk result (self.new
            ≡ changed sheet.now (tell_course moment rec.now) self.old) }
    {
        match self.find(sheet) {
            Some(at) => change_at(&mut self.list, at, moment, sheet, rec),
            None => Ok(()),
        }
    }

    /// A plan of the copy: its course goes on by it, or begins.
    pub(crate) fn plan(
        &mut self,
        sheet: &SheetName,
        location: Name,
        points: &[Tick],
        acts: &[Name],
    ) -> Result<(), Memory>
        ensures { OnOk result (self.new ≡ planned sheet.now
            (joined location points.now acts.now)
            (fresh sheet.now location points.now acts.now) self.old) }
    {
        match self.find(sheet) {
            Some(at) => join_at(&mut self.list, at, sheet, location, points, acts),
            None => begin(
                &mut self.keys,
                &mut self.list,
                sheet,
                location,
                points,
                acts,
            ),
        }
    }

    /// One more course, last, if the copy has none.
    pub(crate) fn add(&mut self, course: Course) -> Result<(), Memory>
        ensures { OnOk result (self.new ≡ with_way self.old course) }
    {
        let sheet = *course.sheet();
        match self.find(&sheet) {
            Some(_) => Ok(()),
            None => add_new(&mut self.keys, &mut self.list, &sheet, course),
        }
    }

    /// The copy has no course any more.
    pub(crate) fn leave(&mut self, sheet: &SheetName)
        ensures { self.new ≡ without sheet.now self.old }
    {
        if let Some(at) = self.find(sheet) {
            remove_at(&mut self.keys, &mut self.list, at, sheet);
        }
    }
}
