//! What every standing keeps. The call does nothing but pass over the jobs: its contract is the law.
ghost use Rattle.std.specs.Prelude.{All};
ghost use Rattle.tp_snapshot.specs.Laws.{IsSpelled};
ghost use Rattle.tp_words.specs.Fields.{IsName};

use tp_jobs::{JobRow, Standing};

/// The name of a job is a name.
fn job_law(job: &JobRow)
    ensures { IsName job.now.name }
{
    // For the prover: brings that the bytes of a name are a name.
    let _bytes = job.name.as_bytes();
}

/// So it is with all jobs.
fn jobs_law(jobs: &[JobRow])
    ensures { All (λ j. IsName j.name) jobs.now }
{
    for job in jobs {
        job_law(job);
    }
}

/// The names of its jobs are names, and its modules that are out fit in 64 bits.
pub(crate) fn standing_law(standing: &Standing)
    ensures { IsSpelled standing.entry.now }
{
    // For the prover: brings outs < 2^64.
    let _outs = standing.outs.0;
    jobs_law(standing.jobs.as_slice());
}
