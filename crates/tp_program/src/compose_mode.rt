//! A machine text composed of a rack's.

ghost use Rattle.std.specs.Prelude.{◌≡◌, ◌⊎◌, IfOk, IfErr, IfSome, IsSome};
ghost use Rattle.tp_compose.specs.Texts.{IsComposed, IsSoundRack};
ghost use Rattle.tp_outside.specs.Outside.{Rises, file_at};
ghost use Rattle.tp_program.specs.ComposeEnds.{NoRack, WritesComposed};
ghost use Rattle.tp_program.specs.Texts.{IsShelved};

use crate::Status;
use crate::text::find_text;
use std::alloc::Global;
use tp_compose::{RackFault, compose};
use tp_outside::{Failed, Shelf, Sink, write_all};

/// The machine text that is composed of the rack text of this name. An `Err` is the status that composing ends with.
fn composed<H: Shelf>(alloc: Global, shelf: &mut H, name: &str) -> Result<Vec<u8>, Status>
    ensures composed { IfOk result (λ bytes. IsShelved (H.known shelf.old) name.now
        (λ text. IsSoundRack text × IsComposed text bytes.items)) }
    ensures none { IfErr result (NoRack (H.known shelf.old) name.now) }
    ensures shelf { IfErr result (λ s. s ≡ Status.Shelf
        → Rises (H.faults shelf.old) (H.faults shelf.new)) }
    ensures amiss { IfErr result (λ s. s ≡ Status.Shelf → IfSome (H.known shelf.old) (λ files.
        IsSome (file_at files name.now) → Rises (H.amiss shelf.old) (H.amiss shelf.new))) }
{
    let text = match find_text(alloc, shelf, name) {
        Ok(text) => text,
        Err(status) => return Err(status),
    };
    match compose(alloc, &text) {
        Ok(bytes) => Ok(bytes),
        Err(RackFault::Memory) => Err(Status::Memory),
        Err(RackFault::NotToml) => Err(Status::Rack(RackFault::NotToml)),
        Err(RackFault::Rule(n)) => Err(Status::Rack(RackFault::Rule(n))),
        Err(RackFault::Flat(n)) => Err(Status::Rack(RackFault::Flat(n))),
    }
}

/// Writes the machine text that is composed of the rack text of this name.
pub(crate) fn compose_to<H: Shelf, K: Sink>(
    alloc: Global,
    name: &str,
    shelf: &mut H,
    sink: &mut K,
) -> Status
    ensures ends { (NoRack (H.known shelf.old) name.now result × (sink.new ≡ sink.old))
        ⊎ WritesComposed (H.known shelf.old) name.now (K.taken sink.old) (K.taken sink.new)
        result }
    ensures shelf { result ≡ Status.Shelf → Rises (H.faults shelf.old) (H.faults shelf.new) }
    ensures amiss { result ≡ Status.Shelf → IfSome (H.known shelf.old) (λ files.
        IsSome (file_at files name.now) → Rises (H.amiss shelf.old) (H.amiss shelf.new)) }
    ensures sink { result ≡ Status.Sink → Rises (K.faults sink.old) (K.faults sink.new) }
{
    let bytes = match composed(alloc, shelf, name) {
        Ok(bytes) => bytes,
        Err(status) => return status,
    };
    match write_all(sink, &bytes) {
        Ok(()) => Status::Done,
        Err(Failed) => Status::Sink,
    }
}
