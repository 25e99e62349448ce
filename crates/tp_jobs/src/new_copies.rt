//! The copies that a new job puts into its line.
ghost use Rattle.std.specs.Prelude.{◌≡◌, ◌+◌, ◌<◌, ◌^◌, ◌++◌, replicate, vec_len, IfOk, OnOk};
ghost use Rattle.tp_jobs.specs.JobRefusals.{sheet_count};
ghost use Rattle.tp_jobs.specs.WaitingCopies.{first_copies, sheets_of};

use crate::parts::WaitingCopy;
use std::alloc::Global;
use tp_base::{Memory, Name};
use tp_machine::Sheet;
use tp_schedule::SheetId;
use tp_script::Group;

/// The first copies of a job's sheets.
pub(crate) fn make_copies(
    alloc: Global,
    job: u32,
    media: Name,
    groups: &[Group],
) -> Result<Vec<WaitingCopy>, Memory>
    requires { sheet_count groups.now + 1 < 2 ^ 32 }
    ensures { IfOk result (λ copies. copies.items
        ≡ first_copies job 1 (sheets_of media groups.now)) }
{
    let mut copies = Vec::new(alloc);
    for group in groups {
        let want = Sheet {
            media,
            front: group.front,
            back: group.back,
            face: group.face,
        };
        put_copies(&mut copies, job, &want, group.count)?;
    }
    Ok(copies)
}

/// The first copies of the job's next sheets.
fn put_copies(
    copies: &mut Vec<WaitingCopy>,
    job: u32,
    want: &Sheet,
    count: u32,
) -> Result<(), Memory>
    requires { vec_len copies.old + count + 1 < 2 ^ 32 }
    ensures { OnOk result (copies.new.items ≡ copies.old.items
        ++ first_copies job (vec_len copies.old + 1) (replicate count want.now)) }
{
    for put in 0..count {
        let number = copies.len() as u32 + 1;
        copies.push(WaitingCopy {
            sheet: SheetId {
                job,
                number,
                copy: 1,
            },
            want: *want,
        })?;
    }
    Ok(())
}
