//! What changes of the lines, and how it is taken back.
ghost use Rattle.std.specs.Prelude.{ℕ, ◌≡◌, ◌+◌, ◌<◌, ◌≤◌, ◌++◌, ◌∷◌, [], false, length, vec_len, vec_capacity, IfOk, OnOk, OnErr};
ghost use Rattle.std.specs.List.{IsDistinct, list_any};
ghost use Rattle.std.specs.Str.{bytes_eq};
ghost use Rattle.std.specs.VecDeque.{deque_capacity};
ghost use Rattle.tp_jobs.specs.Backlogs.{mark_broken};
ghost use Rattle.tp_jobs.specs.LineInvariants.{jobs_then, mark_all_whole, whole_count};

use crate::parts::{Job, WaitingCopy};
use indexmap::IndexSet;
use std::alloc::Global;
use std::collections::VecDeque;
use tp_base::{Memory, Name};

/// The copies that wait are kept in place of those that were.
pub(crate) fn keep_waiting(
    kept: &mut Vec<WaitingCopy>,
    waiting: &VecDeque<WaitingCopy>,
) -> Result<(), Memory>
    ensures kept { OnOk result (kept.new.items ≡ waiting.now.items) }
    ensures memory { OnErr result (kept.new.items ≡ kept.old.items) }
{
    kept.reserve(waiting.len().saturating_sub(kept.len()))?;
    kept.clear();
    let (first, rest) = waiting.as_slices();
    if kept.extend_from_slice(first).is_err() || kept.extend_from_slice(rest).is_err() {
        unreachable!();
    }
    Ok(())
}

/// Copies the queue of the copies that wait, with room for at least `room` of them.
pub(crate) fn copy_waiting(
    alloc: Global,
    waiting: &VecDeque<WaitingCopy>,
    room: usize,
) -> Result<VecDeque<WaitingCopy>, Memory>
    ensures waits { IfOk result (λ copy. copy.items ≡ waiting.now.items) }
    ensures room { IfOk result (λ copy. room ≤ deque_capacity copy) }
{
    let mut copy = Vec::new(alloc);
    keep_waiting(&mut copy, waiting)?;
    copy.reserve(room)?;
    Ok(VecDeque::from_vec(copy))
}

/// Copies the list of the jobs that broke, with room for `more` behind them.
pub(crate) fn copy_broken(alloc: Global, broken: &[u32], more: usize) -> Result<Vec<u32>, Memory>
    ensures broken { IfOk result (λ copy. copy.items ≡ broken.now) }
    ensures room { IfOk result (λ copy. vec_len copy + more ≤ vec_capacity copy) }
{
    let mut copy = Vec::from_slice(alloc, broken)?;
    copy.reserve(more)?;
    Ok(copy)
}

/// Puts a job of a new name behind the others and its copies behind those that wait, and reserves room to break each job.
/// If it returns an error, each list is unchanged.
pub(crate) fn put_job(
    names: &mut IndexSet<Name>,
    jobs: &mut Vec<Job>,
    waiting: &mut VecDeque<WaitingCopy>,
    broken: &mut Vec<u32>,
    job: Job,
    copies: &mut VecDeque<WaitingCopy>,
) -> Result<(), Memory>
    requires { list_any (bytes_eq job.name) names.old.keys ≡ false }
    ensures names { OnOk result ((names.new.keys ≡ names.old.keys ++ job.name ∷ [])
        × IsDistinct bytes_eq names.new.keys) }
    ensures jobs { OnOk result (jobs.new.items ≡ jobs.old.items ++ job ∷ []) }
    ensures waiting { OnOk result (waiting.new.items ≡ waiting.old.items ++ copies.old.items) }
    ensures room { OnOk result (vec_len broken.new + length jobs.new.items
        ≤ vec_capacity broken.new) }
    ensures same_names { OnErr result (names.new.keys ≡ names.old.keys) }
    ensures same_jobs { OnErr result (jobs.new.items ≡ jobs.old.items) }
    ensures same_waiting { OnErr result (waiting.new.items ≡ waiting.old.items) }
    ensures broken { broken.new.items ≡ broken.old.items }
    ensures len { vec_len broken.new ≡ vec_len broken.old }
    ensures to_break { vec_capacity broken.old ≤ vec_capacity broken.new }
    ensures to_wait { deque_capacity waiting.old ≤ deque_capacity waiting.new }
{
    jobs.reserve(1)?;
    waiting.reserve(copies.len())?;
    broken.reserve(jobs.len() + 1)?;
    names.insert(job.name)?;
    if jobs.push(job).is_err() || waiting.append(copies).is_err() {
        unreachable!();
    }
    Ok(())
}

/// The copies that were kept wait again, in place of those that do. There is room for them.
pub(crate) fn wait_again(waiting: &mut VecDeque<WaitingCopy>, kept: &[WaitingCopy])
    requires room { length kept.now ≤ deque_capacity waiting.old }
    ensures waits { waiting.new.items ≡ kept.now }
    ensures room { deque_capacity waiting.new ≡ deque_capacity waiting.old }
{
    waiting.clear();
    for copy in kept {
        waiting.push_back_reserved(*copy);
    }
}

/// The job is broken, and remembered where it was not.
pub(crate) fn break_in(jobs: &mut Vec<Job>, broken: &mut Vec<u32>, job: u32)
    requires job { job < length jobs.old.items }
    requires room { vec_len broken.old + whole_count jobs.old.items ≤ vec_capacity broken.old }
    ensures jobs { jobs.new.items ≡ mark_broken job jobs.old.items }
    ensures kept { (came : ℕ) → jobs_then came broken.new.items jobs.new.items
        ≡ jobs_then came broken.old.items jobs.old.items }
    ensures room { vec_len broken.new + whole_count jobs.new.items ≤ vec_capacity broken.new }
{
    let place = job as usize;
    if !jobs[place].broken {
        jobs[place].broken = true;
        broken.push_reserved(job);
    }
}

/// The jobs of these numbers are whole again.
pub(crate) fn make_whole(jobs: &mut Vec<Job>, broken: &[u32])
    ensures jobs { jobs.new.items ≡ mark_all_whole broken.now jobs.old.items }
{
    for job in broken {
        let place = *job as usize;
        if place < jobs.len() {
            jobs[place].broken = false;
        }
    }
}
