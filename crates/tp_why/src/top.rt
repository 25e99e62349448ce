//! A run, from the words to the bytes of the answer.
ghost use Rattle.std.specs.Prelude.{◌≡◌, ◌⊎◌, ◌<◌, None, length, map, option_map, string_bytes, IfOk, IfErr, IfSome, IsFalse};
ghost use Rattle.std.specs.Option.{IsSomeAnd};
ghost use Rattle.tp_outside.specs.Outside.{Rises, file_at};
ghost use Rattle.tp_why.specs.Answers.{TellsMachine};
ghost use Rattle.tp_why.specs.Runs.{asked, asked_of, is_option as is_option_text, mode_of, most_text, may_have_written, IsAnswered, IsTold, NamesLongText, Tells};

use crate::machine_answer::tell_machine;
use crate::why_status::WhyStatus;
use std::alloc::Global;
use tp_outside::{ReadError, Shelf, Sink, read_file, write_all};

/// The most bytes of a text.
const TEXT_BYTES: usize = 1_048_576;

/// What the text is to be.
#[derive(Clone, Copy)]
pub enum WhyMode {
    Machine,
}

fn mode_of(word: &str) -> Option<WhyMode>
    ensures { result ≡ mode_of word.now }
{
    match word {
        "machine" => Some(WhyMode::Machine),
        _ => None,
    }
}

/// Whether the word has at least two bytes and begins with `-`.
fn is_option(word: &[u8]) -> bool
    ensures { result ≡ is_option_text word.now }
{
    match word {
        [first, _, ..] => *first == b'-',
        _ => false,
    }
}

/// The mode and the name that the words give.
fn asked(words: &[String]) -> Option<(WhyMode, &str)>
    ensures { option_map (λ a. (a.0, a.1.now)) result ≡ asked (map string_bytes words.now) }
{
    let [mode, name] = words else {
        return None;
    };
    let mode = mode_of(mode.as_str())?;
    if is_option(name.as_bytes()) {
        return None;
    }
    Some((mode, name.as_str()))
}

/// The answer to the text of this name. An `Err` is the status that the run ends with.
fn tell<H: Shelf>(
    alloc: Global,
    mode: WhyMode,
    name: &str,
    shelf: &mut H,
) -> Result<String, WhyStatus>
    ensures told { IfOk result (λ answer.
        IsTold (H.known shelf.old) mode name.now (string_bytes answer)) }
    ensures too_long { IfErr result (λ s. s ≡ WhyStatus.TooLong → IfSome (H.known shelf.old)
        (λ files. IsSomeAnd (file_at files name.now) (λ text. most_text < length text))) }
    ensures shelf { IfErr result (λ s. s ≡ WhyStatus.Shelf
        → Rises (H.faults shelf.old) (H.faults shelf.new)) }
    ensures which { IfErr result (λ s. (s ≡ WhyStatus.Memory) ⊎ ((s ≡ WhyStatus.Shelf)
        ⊎ (s ≡ WhyStatus.TooLong))) }
{
    let text = match read_file(alloc, shelf, name, TEXT_BYTES) {
        Ok(text) => text,
        Err(ReadError::Memory) => return Err(WhyStatus::Memory),
        Err(ReadError::Failed) => return Err(WhyStatus::Shelf),
        Err(ReadError::TooLong) => return Err(WhyStatus::TooLong),
    };
    let told = match mode {
        WhyMode::Machine => tell_machine(alloc, &text),
    };
    match told {
        Ok(answer) => Ok(answer),
        Err(_) => Err(WhyStatus::Memory),
    }
}

/// Runs the words, given without the program's name, over this outside: reads the text that they name, and writes the
/// answer. The first check that fails ends the run: the words; the shelf, the length of the text; the sink.
pub fn why_main<H: Shelf, K: Sink>(
    alloc: Global,
    words: &[String],
    shelf: &mut H,
    sink: &mut K,
) -> WhyStatus
    // The words ask for nothing.
    ensures usage { result ≡ WhyStatus.Usage → asked (map string_bytes words.now) ≡ None }
    ensures used { asked (map string_bytes words.now) ≡ None → result ≡ WhyStatus.Usage }

    // The text is too long.
    ensures long_text { result ≡ WhyStatus.TooLong
        → NamesLongText (map string_bytes words.now) (H.known shelf.old) }

    // The outside failed.
    ensures shelf { result ≡ WhyStatus.Shelf → Rises (H.faults shelf.old) (H.faults shelf.new) }
    ensures sink { result ≡ WhyStatus.Sink → Rises (K.faults sink.old) (K.faults sink.new) }

    // Nothing is written but a whole answer, or a part of it where the sink failed.
    ensures silent { IsFalse (may_have_written result) → sink.new ≡ sink.old }

    // The answer is right.
    ensures done { result ≡ WhyStatus.Done → IsAnswered (map string_bytes words.now)
        (H.known shelf.old) (K.taken sink.old) (K.taken sink.new) }
{
    let Some((mode, name)) = asked(words) else {
        return WhyStatus::Usage;
    };
    let answer = match tell(alloc, mode, name, shelf) {
        Ok(answer) => answer,
        Err(status) => return status,
    };
    match write_all(sink, answer.as_bytes()) {
        Ok(()) => WhyStatus::Done,
        Err(_) => WhyStatus::Sink,
    }
}
