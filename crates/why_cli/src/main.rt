//! Where a text breaks a rule, over the system's files and output.
#![tactic(auto)]

use std::io;
use std::process::ExitCode;
use tp_outside::{FileShelf, StdSink, words};
use tp_why::{WhyStatus, why_main};

fn run(rt: &HostRuntime) -> WhyStatus {
    let alloc = rt.alloc();
    let Ok(words) = words(alloc, rt) else {
        return WhyStatus::Memory;
    };
    let mut shelf = FileShelf::new(alloc, rt);
    let mut sink = StdSink::new(io::writer(rt));
    why_main(alloc, &words, &mut shelf, &mut sink)
}

fn main(rt: HostRuntime) -> ExitCode {
    let status = run(&rt);
    if status != WhyStatus::Done {
        // A standard error that can't be written changes no status.
        let _ = eprintln!(rt; "{status}");
    }
    ExitCode::from(status.number())
}
