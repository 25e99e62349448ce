//! A run of the program over the outside of a case.

use crate::case::Outside;
use crate::case_shelf::{CaseShelf, TEXT};
use std::alloc::Global;
use std::rt::Files;
use std::test::Fail;
use tp_outside::{FileShelf, MemShelf, MemSink, MemSource};
use tp_program::{Status, printer_main};

/// The room of the sink in bytes.
const ROOM: u32 = 1_048_576;

/// What a run is given.
#[derive(Clone, Copy)]
pub(crate) struct Given<'a> {
    pub(crate) words: &'a [String],
    /// The bytes of the shelf's file `text`.
    pub(crate) text: &'a [u8],
    pub(crate) input: &'a [u8],
    pub(crate) outside: &'a Outside,
}

/// How a run ended, and what it wrote.
#[derive(Drop)]
pub(crate) struct Ended {
    pub(crate) status: Status,
    pub(crate) output: Vec<u8>,
}

fn shelf_of<R: Files + Drop>(alloc: Global, rt: R, given: Given<'_>) -> Result<CaseShelf<R>, Fail> {
    let mut own = MemShelf::new(alloc, given.outside.shelf.to_vec(alloc)?);
    let name = String::from_str(alloc, TEXT)?;
    own.add(name, given.text.to_vec(alloc)?)
        .ok()
        .ok_or("memory")?;
    Ok(CaseShelf {
        own,
        files: FileShelf::new(alloc, rt),
        faults: 0,
    })
}

fn status_of<R: Files + Drop>(
    alloc: Global,
    shelf: &mut CaseShelf<R>,
    sink: &mut MemSink,
    given: Given<'_>,
) -> Result<Status, Fail> {
    let input = given.input.to_vec(alloc)?;
    let failing = given.outside.source.to_vec(alloc)?;
    let mut source = MemSource::new(input, given.outside.read_most.max(1), failing);
    let status = printer_main(alloc, given.words, shelf, &mut source, sink);
    drop(source);
    Ok(status)
}

fn run_with<R: Files + Drop>(
    alloc: Global,
    shelf: &mut CaseShelf<R>,
    given: Given<'_>,
) -> Result<Ended, Fail> {
    let failing = given.outside.sink.to_vec(alloc)?;
    let mut sink = MemSink::new(alloc, ROOM, given.outside.write_most.max(1), failing)
        .ok()
        .ok_or("memory")?;
    let status = status_of(alloc, shelf, &mut sink, given);
    let written = sink.bytes().to_vec(alloc);
    drop(sink);
    Ok(Ended {
        status: status?,
        output: written?,
    })
}

/// Runs the program. Fails only if there is no memory for what it is given.
pub(crate) fn run<R: Files + Drop>(alloc: Global, rt: R, given: Given<'_>) -> Result<Ended, Fail> {
    let mut shelf = shelf_of(alloc, rt, given)?;
    let ended = run_with(alloc, &mut shelf, given);
    drop(shelf);
    ended
}
