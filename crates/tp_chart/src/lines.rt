//! The lines of an input that are those of the log to be drawn.
ghost use Rattle.std.specs.Prelude.{◌≡◌, ◌≤◌, length, IfOk};
ghost use Rattle.tp_chart.specs.Lines.{log_in, log_line, own_line};

use std::alloc::Global;
use tp_base::Memory;
use tp_words::first_line;

/// A line of this machine of a farm, without the machine's digit and the space behind it; nothing of another machine's line.
fn own_line(number: Option<u32>, line: &[u8]) -> &[u8]
    ensures own { result.now ≡ own_line number line.now }
    ensures shorter { length result.now ≤ length line.now }
{
    let Some(number) = number else {
        return line;
    };
    match line {
        [digit, space, rest @ ..] => {
            if u64::from(*digit) == 48 + u64::from(number) && *space == b' ' {
                rest
            } else {
                &[]
            }
        }
        _ => &[],
    }
}

/// A line of a log; nothing of the line of a snapshot.
fn log_line(line: &[u8]) -> &[u8]
    ensures line { result.now ≡ log_line line.now }
    ensures shorter { length result.now ≤ length line.now }
{
    match line {
        [sign, space, ..] => {
            if *sign == b'=' && *space == b' ' {
                &[]
            } else {
                line
            }
        }
        _ => line,
    }
}

/// The log in the text: all lines, or those of this machine of a farm, but for the lines of snapshots.
pub(crate) fn log_in(alloc: Global, number: Option<u32>, text: &[u8]) -> Result<Vec<u8>, Memory>
    ensures log { IfOk result (λ log. log.items ≡ log_in number text.now) }
    ensures shorter { IfOk result (λ log. length log.items ≤ length text.now) }
{
    let mut log = Vec::new(alloc);
    let mut rest = text;
    'lines: while !rest.is_empty() {
        let (line, more) = first_line(rest);
        log.extend_from_slice(log_line(own_line(number, line)))?;
        rest = more;
    }
    Ok(log)
}
