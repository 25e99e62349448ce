//! A piece of the input, line by line.

ghost use Rattle.std.specs.Prelude.{◌≡◌, ◌≢◌, ◌+◌, ◌<◌, ◌≤◌, ◌^◌, ◌++◌, ℕ, List, [], ◌∷◌, length, Option, true, OnOk, IfErr, IsErrOf, Err};
ghost use Rattle.tp_outside.specs.Outside.{Rises, IsCounted};
ghost use Rattle.tp_words.specs.Parts.{lacks};
ghost use Rattle.tp_stream.specs.Takes.{IsAnswered, IsNotAnswered, IsOpenStop, IsUnderWay, Stops, StopsBefore, Takes, place_of};
ghost use Rattle.tp_stream.specs.declared.stop.Stop.{Stop};

use crate::limits::Limits;
use crate::stop::{Refusal, Stop};
use crate::taker::LineTaker;
use tp_outside::{Sink, write_all};
use tp_words::cut;

/// Answers one line and writes the text of the answer.
pub(crate) fn answer_line<T: LineTaker, K: Sink>(
    taker: &mut T,
    sink: &mut K,
    line: &[u8],
) -> Result<(), Stop>
    requires room { 0 < T.room taker.old }
    requires short { length line.now + 1 < 2 ^ 32 }
    requires clear { T.text taker.old ≡ [] }
    ensures answered { (count : ℕ) → OnOk result (IsAnswered T.answers
        (place_of (T.state taker.old) count (K.taken sink.old)) line.now (T.state taker.new)
        (K.taken sink.new)) }
    ensures stops { (count : ℕ) → IfErr result (IsNotAnswered T.answers T.refuses
        (place_of (T.state taker.old) count (K.taken sink.old)) line.now (T.state taker.new)
        (K.taken sink.new)) }
    ensures clear { OnOk result (T.text taker.new ≡ []) }
    ensures room { OnOk result (T.room taker.old ≤ T.room taker.new + 1) }
    ensures source { result ≢ Err Stop.Source }
    ensures sink { IsErrOf result Stop.Sink → Rises (K.faults sink.old) (K.faults sink.new) }
    ensures counted { IsCounted (K.faults sink.old) (K.faults sink.new) }
{
    match taker.take_line(line) {
        Ok(()) => {}
        Err(Refusal::Memory) => return Err(Stop::Memory),
        Err(Refusal::Refused) => return Err(Stop::Refused),
    }
    match write_all(sink, taker.text()) {
        Ok(()) => {
            taker.clear_text();
            Ok(())
        }
        Err(_) => Err(Stop::Sink),
    }
}

/// Ends the open line with the body, and answers it.
fn end_line<T: LineTaker, K: Sink>(
    taker: &mut T,
    sink: &mut K,
    line: &mut Vec<u8>,
    count: &mut u64,
    body: &[u8],
    limits: Limits,
) -> Result<(), Stop>
    requires under_way { IsUnderWay limits line.old.items count.old (T.room taker.old)
        (T.text taker.old) }
    requires body { lacks 10 body.now ≡ true }
    ensures answered { OnOk result (IsAnswered T.answers
        (place_of (T.state taker.old) count.old (K.taken sink.old))
        (line.old.items ++ body.now ++ 10 ∷ []) (T.state taker.new) (K.taken sink.new)) }
    ensures fits { OnOk result (length line.old.items + length body.now ≤ limits.bytes) }
    ensures empty { OnOk result (line.new.items ≡ []) }
    ensures next { OnOk result (count.new ≡ count.old + 1) }
    ensures under_way { OnOk result (IsUnderWay limits line.new.items count.new
        (T.room taker.new) (T.text taker.new)) }
    ensures stops { (left left' : Option (List ℕ)) (more : List ℕ) → IfErr result (λ stop.
        StopsBefore T.answers T.refuses limits.bytes limits.lines left left' stop
        (line.old.items ++ body.now ++ 10 ∷ more) (place_of (T.state taker.old) count.old
        (K.taken sink.old)) (T.state taker.new) (K.taken sink.new)) }
    ensures source { result ≢ Err Stop.Source }
    ensures sink { IsErrOf result Stop.Sink → Rises (K.faults sink.old) (K.faults sink.new) }
    ensures counted { IsCounted (K.faults sink.old) (K.faults sink.new) }
{
    if body.len() > limits.bytes - line.len() {
        return Err(Stop::Line(*count + 1));
    }
    if *count == limits.lines {
        return Err(Stop::Lines);
    }
    line.extend_from_slice(body)?;
    line.push(b'\n')?;
    if let Err(stop) = answer_line(taker, sink, line) {
        return Err(stop);
    }
    line.clear();
    *count += 1;
    Ok(())
}

/// Adds to the open line what no LF ends yet.
fn add_open(line: &mut Vec<u8>, count: u64, piece: &[u8], limits: Limits) -> Result<(), Stop>
    requires bytes { limits.bytes + 2 < 2 ^ 32 }
    requires open { lacks 10 line.old.items ≡ true }
    requires few { count ≤ limits.lines }
    requires lines { limits.lines + 1 < 2 ^ 64 }
    requires piece { lacks 10 piece.now ≡ true }
    requires fits { length line.old.items ≤ limits.bytes }
    ensures added { OnOk result (line.new.items ≡ line.old.items ++ piece.now) }
    ensures open { OnOk result (lacks 10 line.new.items ≡ true) }
    ensures fits { OnOk result (length line.new.items ≤ limits.bytes) }
    ensures stops { IfErr result (IsOpenStop limits.bytes count (line.old.items ++ piece.now)) }
{
    if piece.len() > limits.bytes - line.len() {
        return Err(Stop::Line(count + 1));
    }
    line.extend_from_slice(piece)?;
    Ok(())
}

/// Answers each line that ends in the chunk, and adds what stands behind the last LF to the open line.
pub(crate) fn take_chunk<T: LineTaker, K: Sink>(
    taker: &mut T,
    sink: &mut K,
    line: &mut Vec<u8>,
    count: &mut u64,
    chunk: &[u8],
    limits: Limits,
) -> Result<(), Stop>
    requires under_way { IsUnderWay limits line.old.items count.old (T.room taker.old)
        (T.text taker.old) }
    ensures takes { OnOk result (Takes T.answers limits.bytes
        (place_of (T.state taker.old) count.old (K.taken sink.old)) (line.old.items ++ chunk.now)
        line.new.items (place_of (T.state taker.new) count.new (K.taken sink.new))) }
    ensures under_way { OnOk result (IsUnderWay limits line.new.items count.new
        (T.room taker.new) (T.text taker.new)) }
    ensures stops { (left left' : Option (List ℕ)) → IfErr result (λ stop.
        Stops T.answers T.refuses limits.bytes limits.lines left left'
        (place_of (T.state taker.old) count.old (K.taken sink.old)) (line.old.items ++ chunk.now)
        stop (T.state taker.new) (K.taken sink.new)) }
    ensures source { result ≢ Err Stop.Source }
    ensures sink { IsErrOf result Stop.Sink → Rises (K.faults sink.old) (K.faults sink.new) }
    ensures counted { IsCounted (K.faults sink.old) (K.faults sink.new) }
{
    let mut rest = chunk;
    'pieces: loop {
        match cut(rest, b'\n') {
            Some((body, more)) => {
                match end_line(taker, sink, line, count, body, limits) {
                    Ok(()) => rest = more,
                    Err(stop) => return Err(stop),
                }
            }
            None => {
                return match add_open(line, *count, rest, limits) {
                    Ok(()) => Ok(()),
                    Err(stop) => Err(stop),
                };
            }
        }
    }
}
