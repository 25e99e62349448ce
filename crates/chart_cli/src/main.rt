//! A picture of a log's schedule over the system's files, input and output.
#![tactic(auto)]

use std::io;
use std::process::ExitCode;
use tp_chart::{ChartStatus, chart_main};
use tp_outside::{FileShelf, StdSink, StdSource, words};

fn run(rt: &HostRuntime) -> ChartStatus {
    let alloc = rt.alloc();
    let Ok(words) = words(alloc, rt) else {
        return ChartStatus::Memory;
    };
    let mut shelf = FileShelf::new(alloc, rt);
    let mut source = StdSource::new(rt.reader());
    let mut sink = StdSink::new(io::writer(rt));
    chart_main(alloc, &words, &mut shelf, &mut source, &mut sink)
}

fn main(rt: HostRuntime) -> ExitCode {
    let status = run(&rt);
    if status != ChartStatus::Done {
        // A standard error that can't be written changes no status.
        let _ = eprintln!(rt; "{status}");
    }
    ExitCode::from(status.number())
}
