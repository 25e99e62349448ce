//! The names of a snapshot's jobs, by which their copies are found.
ghost use Rattle.std.specs.Prelude.{◌≡◌, ◌<◌, ◌^◌, IfOk, IfSome, None};
ghost use Rattle.tp_jobs.specs.Backlogs.{names_of};
ghost use Rattle.tp_snapshot.specs.Jobs.{DoNamesDiffer};

use indexmap::IndexSet;
use std::alloc::Global;
use tp_base::{Memory, Name};
use tp_jobs::JobRow;

/// The names of the jobs, in their order, where no two have one name.
pub(crate) fn names_of(alloc: Global, jobs: &[JobRow]) -> Result<Option<IndexSet<Name>>, Memory>
    ensures names { IfOk result (λ read. IfSome read
        (λ names. names.keys ≡ names_of jobs.now)) }
    ensures differ { IfOk result (λ read. IfSome read (λ _. DoNamesDiffer jobs.now)) }
    ensures none { IfOk result (λ read. read ≡ None → ¬ DoNamesDiffer jobs.now) }
{
    let mut names = IndexSet::new(alloc);
    for job in jobs {
        if !names.insert(job.name)? {
            return Ok(None);
        }
    }
    Ok(Some(names))
}
