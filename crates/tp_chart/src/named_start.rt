//! The machine text or the snapshot that the shelf has under a name.
ghost use Rattle.std.specs.Prelude.{◌≡◌, ◌≤◌, ◌||◌, length, IfOk, IfErr, IfSome, IsTrue};
ghost use Rattle.tp_outside.specs.Outside.{Rises, file_at};
ghost use Rattle.tp_chart.specs.Runs.{IsLongText, IsRefused, IsShelved, is_of_shelf, is_of_text, is_refusal, most_text};
ghost use Rattle.tp_chart.specs.Starts.{IsStart};

use crate::chart_status::{ChartStatus, LongText};
use crate::start::{SNAPSHOT_BYTES, Start, most_bytes, read_start};
use std::alloc::Global;
use tp_outside::{ReadError, Shelf, read_file};

/// Reads the text of this name. An `Err` is the status that the run ends with.
fn find_text<H: Shelf>(alloc: Global, shelf: &mut H, name: &str) -> Result<Vec<u8>, ChartStatus>
    ensures known { IfOk result (λ text. IfSome (H.known shelf.old)
        (λ files. file_at files name.now ≡ Some text.items)) }
    ensures fits { IfOk result (λ text. length text.items ≤ most_text text.items) }
    ensures too_long { IfErr result (λ s. s ≡ ChartStatus.TooLong LongText.MachineText
        → IsLongText (H.known shelf.old) name.now) }
    ensures shelf { IfErr result (λ s. s ≡ ChartStatus.Shelf
        → Rises (H.faults shelf.old) (H.faults shelf.new)) }
    ensures which { IfErr result (λ s. IsTrue (is_of_shelf s)) }
{
    let text = match read_file(alloc, shelf, name, SNAPSHOT_BYTES) {
        Ok(text) => text,
        Err(ReadError::Memory) => return Err(ChartStatus::Memory),
        Err(ReadError::Failed) => return Err(ChartStatus::Shelf),
        Err(ReadError::TooLong) => return Err(ChartStatus::TooLong(LongText::MachineText)),
    };
    if text.len() > most_bytes(&text) {
        return Err(ChartStatus::TooLong(LongText::MachineText));
    }
    Ok(text)
}

/// Reads the machine text or the snapshot of this name. An `Err` is the status that the run ends with.
pub(crate) fn find_start<H: Shelf>(
    alloc: Global,
    shelf: &mut H,
    name: &str,
) -> Result<Start, ChartStatus>
    ensures found { IfOk result (λ start. IsShelved (H.known shelf.old) name.now
        (λ text. IsStart text start.machine start.scene)) }
    ensures too_long { IfErr result (λ s. s ≡ ChartStatus.TooLong LongText.MachineText
        → IsLongText (H.known shelf.old) name.now) }
    ensures refused { IfErr result (λ s. IsTrue (is_refusal s)
        → IsShelved (H.known shelf.old) name.now (IsRefused s)) }
    ensures shelf { IfErr result (λ s. s ≡ ChartStatus.Shelf
        → Rises (H.faults shelf.old) (H.faults shelf.new)) }
    ensures which { IfErr result (λ s. IsTrue (is_of_shelf s || is_of_text s)) }
{
    let text = match find_text(alloc, shelf, name) {
        Ok(text) => text,
        Err(status) => return Err(status),
    };
    read_start(alloc, &text)
}
