//! What lines tell of copies.

ghost use Rattle.std.specs.Prelude.{◌≡◌, ◌<◌, length};
ghost use Rattle.tp_jobs.specs.Backlogs.{next_copy, tray_of};
ghost use Rattle.tp_event_rules.specs.Labels.{job_name, label};
ghost use Rattle.tp_event_rules.specs.Lines.{is_job_broken};
ghost use Rattle.tp_event_rules.specs.Seen.{HasNextCopy};

use tp_base::Name;
use tp_jobs::Lines;
use tp_machine::LocId;
use tp_schedule::{SheetId, SheetName};

/// The name of a job.
pub(crate) fn job_name(lines: &Lines, job: u32) -> Name
    requires { job < length lines.now.jobs }
    ensures { result ≡ job_name lines.now.jobs job }
{
    lines.name_of(job)
}

/// The tray for which a copy is asked.
pub(crate) fn tray_of(lines: &Lines, sheet: SheetId) -> LocId
    requires { sheet.job < length lines.now.jobs }
    ensures { result ≡ tray_of lines.now.jobs sheet }
{
    lines.tray_of(sheet.job)
}

pub(crate) fn is_job_broken(lines: &Lines, job: u32) -> bool
    requires { job < length lines.now.jobs }
    ensures { result ≡ is_job_broken lines.now.jobs job }
{
    lines.is_broken(job)
}

/// A copy by the name of its job.
pub(crate) fn label(lines: &Lines, sheet: SheetId) -> SheetName
    requires { sheet.job < length lines.now.jobs }
    ensures { result ≡ label lines.now.jobs sheet }
{
    tp_event_records::label(job_name(lines, sheet.job), sheet)
}

/// The next copy of the sheet.
pub(crate) fn next_copy(sheet: SheetId) -> SheetId
    requires { HasNextCopy sheet }
    ensures { result ≡ next_copy sheet }
{
    SheetId {
        job: sheet.job,
        number: sheet.number,
        copy: sheet.copy + 1,
    }
}
