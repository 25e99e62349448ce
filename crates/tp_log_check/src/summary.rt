//! The line that tells what an accepted log has.

ghost use Rattle.std.specs.Prelude.{◌≡◌, ◌++◌, IfOk, OnOk, decimal};
ghost use Rattle.tp_log_check.specs.Summary.{counts_text};

use crate::Counts;
use std::alloc::Global;
use tp_base::Memory;

/// Writes a number behind a text.
fn put_count(out: &mut Vec<u8>, lead: &str, count: u64) -> Result<(), Memory>
    ensures { OnOk result (out.new.items ≡ out.old.items ++ (lead.now ++ decimal count)) }
{
    out.extend_from_slice(lead.as_bytes())?;
    let digits = format!(in *out.allocator(); "{count}")?;
    out.extend_from_slice(digits.as_bytes())?;
    Ok(())
}

/// The line of what was counted, with its LF.
#[tactic(auto, unfolding(crate::specs::Summary::counts_text))]
pub fn summary_line(alloc: Global, counts: &Counts) -> Result<Vec<u8>, Memory>
    ensures { IfOk result (λ line. line.items ≡ counts_text counts.now) }
{
    let mut line = Vec::new(alloc);
    put_count(&mut line, "accepted ", counts.events)?;
    put_count(&mut line, " events ", counts.plans)?;
    put_count(&mut line, " plans ", counts.nones)?;
    put_count(&mut line, " nones ", counts.budgets)?;
    line.extend_from_slice(b" budgets\n")?;
    Ok(line)
}
