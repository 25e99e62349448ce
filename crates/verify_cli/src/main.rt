//! The checker of logs over the system's files, input and output.
#![tactic(auto)]

use std::io;
use std::process::ExitCode;
use tp_outside::{FileShelf, StdSink, StdSource, words};
use tp_verify::{VerifyStatus, verify_main};

fn run(rt: &HostRuntime) -> VerifyStatus {
    let alloc = rt.alloc();
    let Ok(words) = words(alloc, rt) else {
        return VerifyStatus::Memory;
    };
    let mut shelf = FileShelf::new(alloc, rt);
    let mut source = StdSource::new(rt.reader());
    let mut sink = StdSink::new(io::writer(rt));
    verify_main(alloc, &words, &mut shelf, &mut source, &mut sink)
}

fn main(rt: HostRuntime) -> ExitCode {
    let status = run(&rt);
    if status != VerifyStatus::Done {
        // A standard error that can't be written changes no status.
        let _ = eprintln!(rt; "{status}");
    }
    ExitCode::from(status.number())
}
