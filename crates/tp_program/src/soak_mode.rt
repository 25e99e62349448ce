//! The case of a number, run and summed up.

ghost use Rattle.std.specs.Prelude.{◌≡◌, ◌⊎◌, IsSome};
ghost use Rattle.tp_command.specs.App.{seen};
ghost use Rattle.tp_command.specs.Form.{seed_in};
ghost use Rattle.tp_outside.specs.Outside.{Rises};
ghost use Rattle.tp_program.specs.SoakEnds.{WritesSummary};

use crate::Status;
use std::alloc::Global;
use tp_command::{Request, read_seed};
use tp_outside::{Failed, Sink, write_all};
use tp_soak::soak;

/// Runs the case of the number that is asked for, and writes the line of what its log tells.
pub(crate) fn soak_to<K: Sink>(alloc: Global, request: &Request<'_>, sink: &mut K) -> Status
    requires { IsSome (seed_in request.now.arg.now) }
    ensures ends { ((result ≡ Status.Memory) × (sink.new ≡ sink.old))
        ⊎ WritesSummary (seen request.now) (K.taken sink.old) (K.taken sink.new) result }
    ensures sink { result ≡ Status.Sink → Rises (K.faults sink.old) (K.faults sink.new) }
{
    let Some(number) = read_seed(request.arg) else {
        unreachable!()
    };
    let line = match soak(alloc, number, request.budget) {
        Ok(line) => line,
        Err(_) => return Status::Memory,
    };
    match write_all(sink, &line) {
        Ok(()) => Status::Done,
        Err(Failed) => Status::Sink,
    }
}
