//! The lines: the jobs that came, and the copies that wait.
ghost use Rattle.std.specs.Prelude.{◌≡◌, ◌≢◌, ◌+◌, ◌<◌, ◌^◌, length, slice_get, option_map, Some, None, IsSome, IsSomeAnd, IfSome, IfOk, IfErr, OnOk, OnErr};
ghost use Rattle.tp_jobs.specs.Backlogs.{mark_broken, next_copy};
ghost use Rattle.tp_jobs.specs.JobRefusals.{job_fault, refusal_in, tray_named};
ghost use Rattle.tp_jobs.specs.WaitingCopies.{find_waiting, has_waiting, put_waiting, without_waiting, sheets_of, new_job, with_job};
ghost use Rattle.tp_jobs.specs.declared.fault.JobFault.TheVariants.{Memory as WantsMemory};

use crate::blocked::Blocked;
use crate::fault::JobFault;
use crate::given_lists::{list_of, names_of, rows_of};
use crate::job_check::{count_sheets, find_tray, has_feeder};
use crate::line_changes::{
    break_in, copy_broken, copy_waiting, keep_waiting, make_whole, put_job, wait_again,
};
use crate::new_copies::make_copies;
use crate::parts::{Job, WaitingCopy};
use crate::standing::{JobRows, WaitRows};
use crate::waiting_queue::{first_open, has_copy_for, place_behind, place_of};
use indexmap::IndexSet;
use std::alloc::Global;
use std::collections::VecDeque;
use std::marker::Model;
use tp_base::{Memory, Name};
use tp_machine::{LocId, Machine, Sheet};
use tp_schedule::SheetId;
use tp_script::Group;

const MOST_WAITING: u64 = 4096;

/// The jobs that were accepted, and which of their copies wait.
///
/// A name is looked up by hash and a copy by a binary search, so no call but `copy` looks at all
/// jobs. `wait` and `taken` move the copies before the one that they put in or take out, or those
/// behind it, whichever are fewer.
///
/// `mark` remembers the lines as they are and `undo` goes back to them: what is kept of a mark is how
/// many jobs there were, the copies that waited, and the jobs that broke since.
pub struct Lines {
    names: IndexSet<Name>,
    jobs: Vec<Job>,
    waiting: VecDeque<WaitingCopy>,
    kept_jobs: usize,
    kept_waiting: Vec<WaitingCopy>,
    broken: Vec<u32>,
}

// What becomes of its parts is proved here, once for all who let go of one.
impl Drop for Lines {
    fn drop(self) {
        let Lines {
            names: _,
            jobs: _,
            waiting: _,
            kept_jobs: _,
            kept_waiting: _,
            broken: _,
        } = self;
    }
}

// Clauses see the jobs in the order of arrival, the copies that wait in the order of copies, and both
// as they were at the last mark.
impl Model for Lines {
    ghost use Rattle.tp_jobs.specs.Backlogs.{Backlog};

    ghost Value = { Backlog };

    ghost use Rattle.tp_jobs.specs.LineInvariants.{KeepsMark, backlog_of};

    ghost view = { backlog_of };

    ghost invariant = { KeepsMark };
}

impl Lines {
    ghost use Rattle.tp_jobs.specs.Backlogs.{IsBacklog, no_backlog, marked, undone, unmarked};
    ghost use Rattle.tp_jobs.specs.NextTry.{next_to_try};

    /// No job. It takes no memory.
    pub fn new(alloc: Global) -> Lines
        ensures { result ≡ no_backlog }
    {
        Lines {
            names: IndexSet::new(alloc),
            jobs: Vec::new(alloc),
            waiting: VecDeque::new(alloc),
            kept_jobs: 0,
            kept_waiting: Vec::new(alloc),
            broken: Vec::new(alloc),
        }
    }

    /// Lines with exactly these jobs, in this order, and these copies that wait; the last mark is before the first job. Takes
    /// the time of all jobs.
    pub fn rebuild(alloc: Global, jobs: &JobRows, waiting: &WaitRows) -> Result<Lines, Memory>
        requires { IsBacklog (unmarked jobs.now waiting.now) }
        ensures { IfOk result (λ lines. lines ≡ unmarked jobs.now waiting.now) }
    {
        let jobs = jobs.as_slice();
        let mut broken = Vec::new(alloc);
        broken.reserve(jobs.len())?;
        Ok(Lines {
            jobs: Vec::from_slice(alloc, jobs)?,
            waiting: VecDeque::from_vec(Vec::from_slice(alloc, waiting.as_slice())?),
            // For the prover: names come last, since each exit after them proves their drop again.
            names: names_of(alloc, jobs)?,
            kept_jobs: 0,
            kept_waiting: Vec::new(alloc),
            broken,
        })
    }

    /// The jobs in the order of arrival, as `rebuild` takes them. Takes the time of all jobs.
    pub fn job_rows(&self, alloc: Global) -> Result<JobRows, Memory>
        ensures { IfOk result (λ rows. rows ≡ self.now.jobs) }
    {
        list_of(alloc, self.jobs.as_slice())
    }

    /// The copies that wait, in their order, as `rebuild` takes them.
    pub fn wait_rows(&self, alloc: Global) -> Result<WaitRows, Memory>
        ensures { IfOk result (λ rows. rows ≡ self.now.waiting) }
    {
        rows_of(alloc, &self.waiting)
    }

    /// Every value keeps this. The call does nothing.
    pub fn kept(&self)
        ensures { IsBacklog self.now }
    {
        // For the prover: brings what every value keeps.
        let _ = self.names.len();
    }

    /// How many jobs came.
    pub fn jobs(&self) -> u32
        ensures { result ≡ length self.now.jobs }
    {
        self.jobs.len() as u32
    }

    /// How many copies wait.
    pub fn waiting(&self) -> u32
        ensures { result ≡ length self.now.waiting }
    {
        self.waiting.len() as u32
    }

    /// Whether a copy waits whose job is for the tray.
    pub fn waits_for(&self, tray: LocId) -> bool
        ensures { result ≡ has_waiting self.now.jobs self.now.waiting tray }
    {
        has_copy_for(&self.waiting, self.jobs.as_slice(), tray)
    }

    pub fn name_of(&self, job: u32) -> Name
        requires { job < length self.now.jobs }
        ensures { IsSomeAnd (slice_get self.now.jobs job) (λ j. j.name ≡ result) }
    {
        self.jobs[job as usize].name
    }

    pub fn tray_of(&self, job: u32) -> LocId
        requires { job < length self.now.jobs }
        ensures { IsSomeAnd (slice_get self.now.jobs job) (λ j. j.tray ≡ result) }
    {
        self.jobs[job as usize].tray
    }

    pub fn is_broken(&self, job: u32) -> bool
        requires { job < length self.now.jobs }
        ensures { IsSomeAnd (slice_get self.now.jobs job) (λ j. j.broken ≡ result) }
    {
        self.jobs[job as usize].broken
    }

    /// The sheet that is wanted of a copy that waits.
    pub fn want_of(&self, sheet: SheetId) -> Sheet
        requires { IsSome (find_waiting sheet self.now.waiting) }
        ensures { option_map (λ w. w.want) (find_waiting sheet self.now.waiting) ≡ Some result }
    {
        self.waiting[place_of(&self.waiting, sheet)].want
    }

    /// Returns a copy of all jobs, waiting copies and names. Time is linear in the jobs.
    pub fn copy(&self, alloc: Global) -> Result<Lines, Memory>
        ensures { IfOk result (λ copy. copy ≡ self.now) }
    {
        let waiting = copy_waiting(alloc, &self.waiting, self.kept_waiting.len())?;
        let broken = copy_broken(alloc, self.broken.as_slice(), self.jobs.len())?;
        Ok(Lines {
            jobs: Vec::from_slice(alloc, self.jobs.as_slice())?,
            kept_waiting: Vec::from_slice(alloc, self.kept_waiting.as_slice())?,
            // For the prover: names come last, since each exit after them proves their drop again.
            names: copy_names(&self.names)?,
            waiting,
            kept_jobs: self.kept_jobs,
            broken,
        })
    }

    /// Remembers the lines as they are, in place of an earlier mark. Takes the time of the copies that
    /// wait, however many jobs came.
    pub fn mark(&mut self) -> Result<(), Memory>
        ensures kept { OnOk result (self.new ≡ marked self.old) }
        ensures memory { OnErr result (self.new ≡ self.old) }
    {
        keep_waiting(&mut self.kept_waiting, &self.waiting)?;
        self.kept_jobs = self.jobs.len();
        self.broken.clear();
        Ok(())
    }

    /// The lines are again as they were at the last mark, or empty where there was none. Takes the time
    /// of the jobs that came or broke since and of the copies that waited, and no memory.
    pub fn undo(&mut self)
        ensures { self.new ≡ undone self.old }
    {
        self.names.truncate(self.kept_jobs);
        self.jobs.truncate(self.kept_jobs);
        make_whole(&mut self.jobs, self.broken.as_slice());
        self.broken.clear();
        wait_again(&mut self.waiting, self.kept_waiting.as_slice());
    }

    /// Accepts a job: it gets the next number, and the first copies of its sheets wait behind all
    /// others. Takes the time of its own sheets, however many jobs came before and copies wait.
    pub fn add(
        &mut self,
        machine: &Machine,
        name: Name,
        tray: Name,
        media: Name,
        groups: &[Group],
    ) -> Result<u32, JobFault>
        requires jobs { length self.old.jobs + 1 < 2 ^ 32 }
        requires groups { length groups.now < 2 ^ 32 }
        ensures refused { refusal_in result ≡ job_fault machine.now self.old.jobs
            (length self.old.waiting) name tray media groups.now }
        ensures number { IfOk result (λ job. job ≡ length self.old.jobs) }
        ensures added { OnOk result (self.new ≡ with_job
            (new_job machine.now name tray groups.now)
            (sheets_of media groups.now) self.old) }
        ensures kept { OnErr result (self.new ≡ self.old) }
    {
        let tray = self.check(machine, &name, &tray, &media, groups)?;
        let number = self.jobs.len() as u32;
        let copies = make_copies(*self.jobs.allocator(), number, media, groups)?;
        let mut copies = VecDeque::from_vec(copies);
        let job = Job {
            name,
            tray,
            broken: false,
        };
        put_job(
            &mut self.names,
            &mut self.jobs,
            &mut self.waiting,
            &mut self.broken,
            job,
            &mut copies,
        )?;
        Ok(number)
    }

    /// The tray of a job, or why it would be refused now. Takes no memory.
    pub fn check(
        &self,
        machine: &Machine,
        name: &Name,
        tray: &Name,
        media: &Name,
        groups: &[Group],
    ) -> Result<LocId, JobFault>
        requires { length groups.now < 2 ^ 32 }
        ensures refused { refusal_in result ≡ job_fault machine.now self.now.jobs
            (length self.now.waiting) name.now tray.now media.now groups.now }
        ensures tray { IfOk result (λ loc. tray_named machine.now tray.now ≡ Some loc) }
        ensures no_memory { IfErr result (λ fault. fault ≢ WantsMemory) }
    {
        let Some(loc) = find_tray(machine, tray) else {
            return Err(JobFault::UnknownTray(*tray));
        };
        if !has_feeder(machine.feeders.as_slice(), media) {
            return Err(JobFault::UnknownMedia(*media));
        }
        if self.names.contains(name) {
            return Err(JobFault::TwiceNamed(*name));
        }
        let waiting = self.waiting();
        let asked = count_sheets(groups);
        if u64::from(waiting) + asked > MOST_WAITING {
            return Err(JobFault::TooManyWaiting { waiting, asked });
        }
        Ok(loc)
    }

    /// The copy waits with this want, in its place in the order of copies.
    pub fn wait(&mut self, sheet: SheetId, want: Sheet) -> Result<(), Memory>
        requires job { sheet.job < length self.old.jobs }
        requires new_copy { find_waiting sheet self.old.waiting ≡ None }
        requires room { length self.old.waiting + 1 < 2 ^ 32 }
        ensures waits { OnOk result
            (self.new ≡ record self.old {
              waiting = put_waiting self.old.waiting (record { sheet = sheet; want = want });
            }) }
        ensures memory { OnErr result (self.new ≡ self.old) }
    {
        let at = place_behind(&self.waiting, sheet);
        self.waiting.insert(at, WaitingCopy { sheet, want })?;
        Ok(())
    }

    /// The next copy of the sheet waits with this want, in its place in the order of copies, and is
    /// the answer.
    pub fn again(&mut self, sheet: SheetId, want: Sheet) -> Result<SheetId, Memory>
        requires job { sheet.job < length self.old.jobs }
        requires number { sheet.copy + 1 < 2 ^ 32 }
        requires new_copy { find_waiting (next_copy sheet) self.old.waiting ≡ None }
        requires room { length self.old.waiting + 1 < 2 ^ 32 }
        ensures next { IfOk result (λ copy. copy ≡ next_copy sheet) }
        ensures waits { OnOk result
            (self.new ≡ record self.old {
              waiting = put_waiting self.old.waiting
                  (record { sheet = next_copy sheet; want = want });
            }) }
        ensures memory { OnErr result (self.new ≡ self.old) }
    {
        let next = SheetId {
            job: sheet.job,
            number: sheet.number,
            copy: sheet.copy + 1,
        };
        self.wait(next, want)?;
        Ok(next)
    }

    /// The job is broken. Its copies that wait stay: whoever breaks it takes them.
    pub fn break_job(&mut self, job: u32)
        requires { job < length self.old.jobs }
        ensures { self.new ≡ record self.old { jobs = mark_broken job self.old.jobs } }
    {
        break_in(&mut self.jobs, &mut self.broken, job);
    }

    /// The copy waits no more.
    pub fn taken(&mut self, sheet: SheetId)
        requires { IsSome (find_waiting sheet self.old.waiting) }
        ensures { self.new ≡ record self.old
            { waiting = without_waiting sheet self.old.waiting } }
    {
        let at = place_of(&self.waiting, sheet);
        self.waiting.remove(at);
    }

    /// The first copy that waits behind the one that was tried last, and whose line is not blocked.
    /// Goes there by a binary search, and passes over the copies of blocked lines between the two,
    /// so that a phase of asks looks once at each copy that waits.
    pub fn next_to_try(&self, after: Option<SheetId>, blocked: &Blocked) -> Option<SheetId>
        ensures next { result ≡ next_to_try self.now after blocked.now }
        ensures waits { IfSome result (λ copy. IsSome (find_waiting copy self.now.waiting)) }
        ensures job { IfSome result (λ copy. copy.job < length self.now.jobs) }
    {
        let from = match after {
            Some(last) => place_behind(&self.waiting, last),
            None => 0,
        };
        first_open(&self.waiting, from, self.jobs.as_slice(), blocked)
    }
}

fn copy_names(names: &IndexSet<Name>) -> Result<IndexSet<Name>, Memory>
    ensures { IfOk result (λ copy. copy.keys ≡ names.now.keys) }
{
    Ok(names.clone()?)
}
