//! A log read, its schedule drawn, and the picture written.
ghost use Rattle.std.specs.Prelude.{◌≡◌, ◌≢◌, ℕ, ◌<◌, ◌≤◌, length, IfOk, IfErr, IfSome, IsFalse, IsTrue};
ghost use Rattle.tp_log.specs.Logs.{IsFirstOff, IsLog, log_text};
ghost use Rattle.tp_outside.specs.Outside.{Rises};
ghost use Rattle.tp_chart.specs.Lines.{log_in};
ghost use Rattle.tp_chart.specs.Runs.{DrawsView, IsDrawn, Shows, is_of_input, is_of_show, may_have_written, most_log};
ghost use Rattle.tp_chart.specs.Scenes.{sight_from};
ghost use Rattle.tp_chart.specs.Words.{seen};

use crate::chart_status::{ChartStatus, LongText};
use crate::lines::log_in;
use crate::page::{PAGE_FOOT, PAGE_HEAD, page_of};
use crate::picture::draw;
use crate::scene::{Scene, scene_of};
use crate::start::Start;
use crate::view::{View, scope_of};
use crate::words::ChartRequest;
use std::alloc::Global;
use tp_base::Memory;
use tp_log::{Item, LogFault, read_log};
use tp_machine::Machine;
use tp_outside::{ReadError, Sink, Source, read_all, write_all};

/// The most bytes of a log.
const LOG_BYTES: usize = 1_073_741_824;

/// Reads the lines of the log. An `Err` is the status that the run ends with.
fn read_lines<S: Source>(
    alloc: Global,
    number: Option<u32>,
    source: &mut S,
) -> Result<Vec<u8>, ChartStatus>
    ensures read { IfOk result (λ log. IfSome (S.left source.old)
        (λ bytes. log_in number bytes ≡ log.items)) }
    ensures fits { IfOk result (λ log. length log.items ≤ most_log) }
    ensures too_long { IfErr result (λ s. s ≡ ChartStatus.TooLong LongText.Log
        → IfSome (S.left source.old) (λ bytes. most_log < length bytes)) }
    ensures source { IfErr result (λ s. s ≡ ChartStatus.Source
        → Rises (S.faults source.old) (S.faults source.new)) }
    ensures which { IfErr result (λ s. IsTrue (is_of_input s)) }
    ensures no_line { IfErr result (λ s. (n : ℕ) → s ≢ ChartStatus.Line n) }
{
    let text = match read_all(alloc, source, LOG_BYTES) {
        Ok(text) => text,
        Err(ReadError::Memory) => return Err(ChartStatus::Memory),
        Err(ReadError::Failed) => return Err(ChartStatus::Source),
        Err(ReadError::TooLong) => return Err(ChartStatus::TooLong(LongText::Log)),
    };
    match log_in(alloc, number, &text) {
        Ok(log) => Ok(log),
        Err(Memory) => Err(ChartStatus::Memory),
    }
}

/// Reads the log of the source: all lines, or those of this machine of a farm. An `Err` is the status that the run ends with.
fn read_items<S: Source>(
    alloc: Global,
    number: Option<u32>,
    source: &mut S,
) -> Result<Vec<Item>, ChartStatus>
    ensures log { IfOk result (λ log. IsLog log.items) }
    ensures read { IfOk result (λ log. IfSome (S.left source.old)
        (λ bytes. log_in number bytes ≡ log_text log.items)) }
    ensures too_long { IfErr result (λ s. s ≡ ChartStatus.TooLong LongText.Log
        → IfSome (S.left source.old) (λ bytes. most_log < length bytes)) }
    ensures line { IfErr result (λ s. (n : ℕ) → s ≡ ChartStatus.Line n
        → IfSome (S.left source.old) (λ bytes. IsFirstOff n (log_in number bytes))) }
    ensures source { IfErr result (λ s. s ≡ ChartStatus.Source
        → Rises (S.faults source.old) (S.faults source.new)) }
    ensures which { IfErr result (λ s. IsTrue (is_of_input s)) }
{
    let log = match read_lines(alloc, number, source) {
        Ok(log) => log,
        Err(status) => return Err(status),
    };
    match read_log(alloc, &log) {
        Ok(items) => Ok(items),
        Err(LogFault::Memory) => Err(ChartStatus::Memory),
        Err(LogFault::Bad(n)) => Err(ChartStatus::Line(n)),
    }
}

/// The picture of the schedule, begun so, that the log tells, at the moment or at its end.
fn picture_of(
    alloc: Global,
    machine: &Machine,
    start: Scene,
    view: &View,
    items: &[Item],
) -> Result<Vec<u8>, Memory>
    ensures { IfOk result (λ text. DrawsView view.now machine.now
        (sight_from machine.now view.now.until start items.now) text.items) }
{
    let scene = scene_of(machine, view.until, start, items)?;
    let scope = scope_of(view, scene.courses());
    draw(alloc, &scope, machine, &scene)
}

/// What is written: the picture, alone or in a page.
fn written_of(
    alloc: Global,
    start: Start,
    request: &ChartRequest<'_>,
    items: &[Item],
) -> Result<Vec<u8>, Memory>
    ensures { IfOk result (λ text. IsDrawn PAGE_HEAD.now PAGE_FOOT.now start.machine start.scene
        (seen request.now) items.now text.items) }
{
    let Start { machine, scene } = start;
    let picture = picture_of(alloc, &machine, scene, &request.view, items)?;
    page_of(alloc, request.is_page, picture)
}

/// Reads the log and writes its picture.
pub(crate) fn show<S: Source, K: Sink>(
    alloc: Global,
    start: Start,
    request: &ChartRequest<'_>,
    source: &mut S,
    sink: &mut K,
) -> ChartStatus
    ensures done { result ≡ ChartStatus.Done
        → Shows PAGE_HEAD.now PAGE_FOOT.now start.machine start.scene (seen request.now)
        (S.left source.old) (K.taken sink.old) (K.taken sink.new) }
    ensures too_long { result ≡ ChartStatus.TooLong LongText.Log
        → IfSome (S.left source.old) (λ bytes. most_log < length bytes) }
    ensures line { (n : ℕ) → result ≡ ChartStatus.Line n → IfSome (S.left source.old)
        (λ bytes. IsFirstOff n (log_in request.now.number bytes)) }
    ensures source { result ≡ ChartStatus.Source
        → Rises (S.faults source.old) (S.faults source.new) }
    ensures sink { result ≡ ChartStatus.Sink → Rises (K.faults sink.old) (K.faults sink.new) }
    ensures silent { IsFalse (may_have_written result) → sink.new ≡ sink.old }
    ensures which { IsTrue (is_of_show result) }
{
    let items = match read_items(alloc, request.number, source) {
        Ok(items) => items,
        Err(status) => return status,
    };
    let Ok(text) = written_of(alloc, start, request, &items) else {
        return ChartStatus::Memory;
    };
    match write_all(sink, &text) {
        Ok(()) => ChartStatus::Done,
        Err(_) => ChartStatus::Sink,
    }
}
