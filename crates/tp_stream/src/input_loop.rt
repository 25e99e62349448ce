//! The whole input, line by line.

ghost use Rattle.std.specs.Prelude.{◌≡◌, ◌≢◌, ◌+◌, ◌<◌, ◌≤◌, ◌^◌, ℕ, List, [], length, true, Option, Err, OnOk, IfErr, IsErrOf};
ghost use Rattle.tp_outside.specs.Outside.{Rises, IsCounted};
ghost use Rattle.tp_words.specs.Parts.{lacks};
ghost use Rattle.tp_stream.specs.Takes.{EndsIn, IsAtEnd, IsReadFrom, IsUnderWay, Stops, StopsBefore, TakesAll, place_of};
ghost use Rattle.tp_stream.specs.declared.stop.Stop.{Stop};

use crate::limits::Limits;
use crate::pieces::{answer_line, take_chunk};
use crate::stop::Stop;
use crate::taker::LineTaker;
use std::alloc::Global;
use tp_outside::{Sink, Source};

/// How many bytes are read at a time.
const CHUNK: usize = 4096;

/// Answers the last line, if there is one that no LF ends.
fn end_input<T: LineTaker, K: Sink>(
    taker: &mut T,
    sink: &mut K,
    line: &[u8],
    count: u64,
    limits: Limits,
) -> Result<(), Stop>
    requires { IsUnderWay limits line.now count (T.room taker.old) (T.text taker.old) }
    ensures all { OnOk result (EndsIn T.answers limits.bytes limits.lines
        (place_of (T.state taker.old) count (K.taken sink.old)) line.now (T.state taker.new)
        (K.taken sink.new)) }
    ensures stops { (left left' : Option (List ℕ)) → IsAtEnd left left'
        → IfErr result (λ stop.
        StopsBefore T.answers T.refuses limits.bytes limits.lines left left' stop line.now
        (place_of (T.state taker.old) count (K.taken sink.old)) (T.state taker.new)
        (K.taken sink.new)) }
    ensures clear { OnOk result (T.text taker.new ≡ []) }
    ensures source { result ≢ Err Stop.Source }
    ensures sink { IsErrOf result Stop.Sink → Rises (K.faults sink.old) (K.faults sink.new) }
    ensures counted { IsCounted (K.faults sink.old) (K.faults sink.new) }
{
    if line.is_empty() {
        return Ok(());
    }
    if count == limits.lines {
        return Err(Stop::Lines);
    }
    match answer_line(taker, sink, line) {
        Ok(()) => Ok(()),
        Err(stop) => Err(stop),
    }
}

/// Reads the source to its end, answers each line, and writes each answer's text before the next line is handled. Lines
/// beyond the limits are not answered.
pub fn stream<T: LineTaker, S: Source, K: Sink>(
    alloc: Global,
    taker: &mut T,
    source: &mut S,
    sink: &mut K,
    limits: Limits,
) -> Result<(), Stop>
    requires bytes { limits.bytes + 2 < 2 ^ 32 }
    requires lines { limits.lines + 1 < 2 ^ 64 }
    requires room { limits.lines ≤ T.room taker.old }
    requires clear { T.text taker.old ≡ [] }
    // All lines are answered, and the source was read to its end.
    ensures all { OnOk result ((bytes : List ℕ) × IsReadFrom (S.left source.old) bytes
        (S.left source.new)
        × TakesAll T.answers limits.bytes limits.lines
        (place_of (T.state taker.old) 0 (K.taken sink.old)) bytes (T.state taker.new)
        (K.taken sink.new)) }
    ensures end { OnOk result (IsAtEnd (S.left source.old) (S.left source.new)) }
    // Else the first lines are answered, up to the cause.
    ensures stops { IfErr result (λ stop.
        (bytes : List ℕ) × IsReadFrom (S.left source.old) bytes (S.left source.new)
        × Stops T.answers T.refuses limits.bytes limits.lines (S.left source.old)
        (S.left source.new) (place_of (T.state taker.old) 0 (K.taken sink.old)) bytes stop
        (T.state taker.new) (K.taken sink.new)) }
    ensures source { IsErrOf result Stop.Source → Rises (S.faults source.old)
        (S.faults source.new) }
    ensures sink { IsErrOf result Stop.Sink → Rises (K.faults sink.old) (K.faults sink.new) }
    ensures source_counted { IsCounted (S.faults source.old) (S.faults source.new) }
    ensures sink_counted { IsCounted (K.faults sink.old) (K.faults sink.new) }
{
    let mut line = Vec::new(alloc);
    let mut count: u64 = 0;
    let mut chunk = [0u8; CHUNK];
    'chunks: loop {
        let n = match source.read(&mut chunk) {
            Ok(n) => n,
            Err(_) => return Err(Stop::Source),
        };
        if n == 0 {
            match end_input(taker, sink, &line, count, limits) {
                Ok(()) => return Ok(()),
                Err(stop) => return Err(stop),
            }
        }
        match take_chunk(taker, sink, &mut line, &mut count, &chunk[..n], limits) {
            Ok(()) => {}
            Err(stop) => return Err(stop),
        }
    }
}
