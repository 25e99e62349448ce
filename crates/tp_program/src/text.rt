//! The text that the shelf has under a name.

ghost use Rattle.std.specs.Prelude.{◌≡◌, ◌≤◌, Some, length, IfOk, IfErr, IfSome, IsSome, OnOk};
ghost use Rattle.tp_outside.specs.Outside.{IsCounted, Rises, file_at};
ghost use Rattle.tp_program.specs.Texts.{NoText, most_text};

use crate::{Long, Status};
use std::alloc::Global;
use tp_outside::{ReadError, Shelf, read_file};

/// The most bytes of a text.
const MOST_BYTES: usize = 1_048_576;

/// Reads the text of this name. An `Err` is the status that all ends with.
pub(crate) fn find_text<H: Shelf>(
    alloc: Global,
    shelf: &mut H,
    name: &str,
) -> Result<Vec<u8>, Status>
    ensures known { IfOk result (λ text. IfSome (H.known shelf.old)
        (λ files. file_at files name.now ≡ Some text.items)) }
    ensures fits { IfOk result (λ text. length text.items ≤ most_text) }
    ensures none { IfErr result (NoText (H.known shelf.old) name.now) }
    ensures shelf { IfErr result (λ s. s ≡ Status.Shelf
        → Rises (H.faults shelf.old) (H.faults shelf.new)) }
    ensures amiss { IfErr result (λ s. s ≡ Status.Shelf → IfSome (H.known shelf.old) (λ files.
        IsSome (file_at files name.now) → Rises (H.amiss shelf.old) (H.amiss shelf.new))) }
    ensures known_stays { H.known shelf.new ≡ H.known shelf.old }
    ensures counted { IsCounted (H.faults shelf.old) (H.faults shelf.new) }
    ensures not_amiss { OnOk result (IfSome (H.known shelf.old)
        (λ _. H.amiss shelf.new ≡ H.amiss shelf.old)) }
{
    match read_file(alloc, shelf, name, MOST_BYTES) {
        Ok(text) => Ok(text),
        Err(ReadError::Memory) => Err(Status::Memory),
        Err(ReadError::Failed) => Err(Status::Shelf),
        Err(ReadError::TooLong) => Err(Status::TooLong(Long::MachineText)),
    }
}
