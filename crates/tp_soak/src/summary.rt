//! The line that tells what was counted.

ghost use Rattle.std.specs.Prelude.{◌≡◌, ◌++◌, OnOk, decimal};
ghost use Rattle.tp_soak.specs.SoakCounts.{head_text, summary_text, tail_text};

use crate::record_counts::RecordCounts;
use tp_base::Memory;

/// Writes a number behind a text.
fn put_count(out: &mut Vec<u8>, lead: &str, count: usize) -> Result<(), Memory>
    ensures { OnOk result (out.new.items ≡ out.old.items ++ (lead.now ++ decimal count)) }
{
    out.extend_from_slice(lead.as_bytes())?;
    let digits = format!(in *out.allocator(); "{count}")?;
    out.extend_from_slice(digits.as_bytes())?;
    Ok(())
}

#[tactic(auto, unfolding(crate::specs::SoakCounts::head_text))]
fn put_head(out: &mut Vec<u8>, arg: u32, counts: &RecordCounts) -> Result<(), Memory>
    ensures { OnOk result (out.new.items ≡ out.old.items ++ head_text arg counts.now) }
{
    put_count(out, "soak ", arg as usize)?;
    put_count(out, " events ", counts.events)?;
    put_count(out, " plans ", counts.plans)?;
    put_count(out, " moves ", counts.moves)?;
    put_count(out, " releases ", counts.releases)?;
    Ok(())
}

#[tactic(auto, unfolding(crate::specs::SoakCounts::tail_text))]
fn put_tail(out: &mut Vec<u8>, counts: &RecordCounts) -> Result<(), Memory>
    ensures { OnOk result (out.new.items ≡ out.old.items ++ tail_text counts.now) }
{
    put_count(out, " dones ", counts.dones)?;
    put_count(out, " lost ", counts.lost)?;
    put_count(out, " nones ", counts.nones)?;
    put_count(out, " budgets ", counts.budgets)?;
    out.push(b'\n')?;
    Ok(())
}

/// Writes the counts of the case of a number as a line, with its LF.
pub(crate) fn put_summary(out: &mut Vec<u8>, arg: u32, counts: &RecordCounts) -> Result<(), Memory>
    ensures { OnOk result (out.new.items ≡ out.old.items ++ summary_text arg counts.now) }
{
    put_head(out, arg, counts)?;
    put_tail(out, counts)?;
    Ok(())
}
