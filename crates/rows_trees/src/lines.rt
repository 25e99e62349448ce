//! Lines of logs with bounds, each read by itself.
use std::alloc::Global;
use tp_log::{LogLine, read_log_line};
use tp_script::LineFault;

/// The longest line of a row.
const MOST: usize = 4096;

/// What the line tells of, or why it tells nothing.
fn told_of(alloc: Global, line: &[u8]) -> &'static str {
    if line.len() > MOST {
        return "a longer line than a row has";
    }
    match read_log_line(alloc, line) {
        Ok(LogLine::Event(_)) => "event",
        Ok(LogLine::Note(_)) => "record",
        Ok(LogLine::Room(_)) => "row",
        Ok(LogLine::Node(_)) => "node",
        Err(LineFault::Syntax) => "off the grammar",
        Err(LineFault::Memory) => "no memory",
    }
}

#[test]
fn lines_of_logs(rt: HostRuntime) {
    let rows: [(&[u8], &str); 12] = [
        (b"> job j1 t plain 2*M-:F\n", "event"),
        (b"> ?\n", "event"),
        (b"plan j1.2.1 t 3 feed 5 print1 14 out 17\n", "record"),
        (b"move j1.1.1 5 7 13 16\n", "record"),
        (b"b room f:F00 0\n", "row"),
        (b"b 0 goal t:F10 split\n", "node"),
        (b"b 2 at rt 0 0 loop *0 rt:*/1>j1.1.1/3 l:*0\n", "node"),
        (b"b 4 at r2\n", "off the grammar"),
        (b"b 0 goal t:F10 split", "off the grammar"),
        (b"> b room f:F00 0\n", "off the grammar"),
        (b"b\n", "off the grammar"),
        (b"\n", "off the grammar"),
    ];
    for (line, wanted) in rows {
        assert_eq!(rt; told_of(rt.alloc(), line), wanted, "{line:?}");
    }
}
