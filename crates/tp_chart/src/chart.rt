//! A run, from the words to the bytes of the picture.
ghost use Rattle.std.specs.Prelude.{◌≡◌, ◌⊎◌, ℕ, ◌<◌, None, length, map, string_bytes, IfSome, IsFalse, IsTrue};
ghost use Rattle.tp_log.specs.Logs.{IsFirstOff};
ghost use Rattle.tp_outside.specs.Outside.{Rises};
ghost use Rattle.tp_chart.specs.Runs.{IsCharted, IsRefused, NamesLongText, NamesText, OfLog, is_refusal, may_have_written, most_log};
ghost use Rattle.tp_chart.specs.Words.{chart_asked};

use crate::chart_status::{ChartStatus, LongText};
use crate::log_picture::show;
use crate::named_start::find_start;
use crate::page::{PAGE_FOOT, PAGE_HEAD};
use crate::words::{ChartWordsFault, read_words};
use std::alloc::Global;
use tp_outside::{Shelf, Sink, Source};

/// Runs the words, given without the program's name, over this outside: reads the machine text or the snapshot that they name,
/// then the log of the source, and writes the picture, or a page with it. The first check that fails ends the run: the words; the
/// shelf, the length and the rules of the machine text or the snapshot; the source, the length and the lines of the log; the sink.
pub fn chart_main<H: Shelf, S: Source, K: Sink>(
    alloc: Global,
    words: &[String],
    shelf: &mut H,
    source: &mut S,
    sink: &mut K,
) -> ChartStatus
    // The words ask for no picture. Want of memory may come first.
    ensures usage { result ≡ ChartStatus.Usage
        → chart_asked (map string_bytes words.now) ≡ None }
    ensures used { chart_asked (map string_bytes words.now) ≡ None
        → (result ≡ ChartStatus.Usage) ⊎ (result ≡ ChartStatus.Memory) }

    // The machine text or the snapshot is too long, or is none, for the cause that the status says.
    ensures long_text { result ≡ ChartStatus.TooLong LongText.MachineText
        → NamesLongText (map string_bytes words.now) (H.known shelf.old) }
    ensures refused { IsTrue (is_refusal result)
        → NamesText (map string_bytes words.now) (H.known shelf.old) (IsRefused result) }

    // The log is too long, or a line of it is off the grammar.
    ensures long_log { result ≡ ChartStatus.TooLong LongText.Log
        → IfSome (S.left source.old) (λ bytes. most_log < length bytes) }
    ensures line { (n : ℕ) → result ≡ ChartStatus.Line n
        → OfLog (map string_bytes words.now) (S.left source.old) (IsFirstOff n) }

    // The outside failed.
    ensures shelf { result ≡ ChartStatus.Shelf
        → Rises (H.faults shelf.old) (H.faults shelf.new) }
    ensures source { result ≡ ChartStatus.Source
        → Rises (S.faults source.old) (S.faults source.new) }
    ensures sink { result ≡ ChartStatus.Sink → Rises (K.faults sink.old) (K.faults sink.new) }

    // Nothing is written but a whole picture, or a part of it where the sink failed.
    ensures silent { IsFalse (may_have_written result) → sink.new ≡ sink.old }

    // The bars of the picture are those of the log's schedule.
    ensures done { result ≡ ChartStatus.Done
        → IsCharted (map string_bytes words.now) (H.known shelf.old) PAGE_HEAD.now PAGE_FOOT.now
        (S.left source.old) (K.taken sink.old) (K.taken sink.new) }
{
    let request = match read_words(alloc, words) {
        Ok(request) => request,
        Err(ChartWordsFault::Memory) => return ChartStatus::Memory,
        Err(ChartWordsFault::Usage) => return ChartStatus::Usage,
    };
    match find_start(alloc, shelf, request.machine) {
        Ok(start) => show(alloc, start, &request, source, sink),
        Err(status) => status,
    }
}
