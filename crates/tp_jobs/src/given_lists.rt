//! Lists that are given, and the names of the jobs in them.

ghost use Rattle.std.specs.Prelude.{◌≡◌, ◌≢◌, ◌<◌, ◌^◌, AllPairs, IfOk, length};
ghost use Rattle.std.specs.List.{IsDistinct};
ghost use Rattle.std.specs.Str.{bytes_eq};
ghost use Rattle.tp_jobs.specs.Backlogs.{names_of};

use crate::parts::{Job, WaitingCopy};
use indexmap::IndexSet;
use std::alloc::Global;
use std::collections::VecDeque;
use tp_base::{Items, Memory, Name};

/// The names of the jobs, in their order.
pub(crate) fn names_of(alloc: Global, jobs: &[Job]) -> Result<IndexSet<Name>, Memory>
    requires { AllPairs (λ i j. i.name ≢ j.name) jobs.now }
    ensures names { IfOk result (λ names. names.keys ≡ names_of jobs.now) }
    ensures distinct { IfOk result (λ names. IsDistinct bytes_eq names.keys) }
{
    let mut names = IndexSet::new(alloc);
    for job in jobs {
        names.insert(job.name)?;
    }
    Ok(names)
}

/// These items as a list of its own.
pub(crate) fn list_of<T: Copy + Drop>(alloc: Global, items: &[T]) -> Result<Items<T>, Memory>
    requires { length items.now < 2 ^ 32 }
    ensures { IfOk result (λ list. list ≡ items.now) }
{
    let mut list = Items::new(alloc);
    for item in items {
        list.push(*item)?;
    }
    Ok(list)
}

/// The copies that wait as a list of their own.
pub(crate) fn rows_of(
    alloc: Global,
    waiting: &VecDeque<WaitingCopy>,
) -> Result<Items<WaitingCopy>, Memory>
    requires { length waiting.now.items < 2 ^ 32 }
    ensures { IfOk result (λ rows. rows ≡ waiting.now.items) }
{
    let mut rows = Items::new(alloc);
    for copy in waiting {
        rows.push(*copy)?;
    }
    Ok(rows)
}
