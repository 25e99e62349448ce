//! The lines of a farm's script.

ghost use Rattle.std.specs.Prelude.{◌≡◌, ◌+◌, ◌<◌, ◌≤◌, ◌^◌, ◌∷◌, codes, length, None, Some, IfOk, IfSome};
ghost use Rattle.tp_farm.specs.Addresses.{IsPlain, IsRead, at_words, bad_line, is_of_one, line_address, number_of, plain_address, with_number, without_number};
ghost use Rattle.tp_script.specs.Printed.{IsEchoed};
ghost use Rattle.tp_script.specs.EventReaders.{event_of};
ghost use Rattle.tp_script.specs.Script.{words_of_line};

use crate::address::Addressed;
use std::alloc::Global;
use tp_base::Memory;
use tp_script::{Event, LineFault, read_line};
use tp_words::cut;

/// The first word of a line that has a space behind it, and what stands behind that space. None where the line has at most
/// one word.
fn first_word(line: &[u8]) -> Option<(&[u8], &[u8])>
    ensures first { IfSome result
        (λ parts. words_of_line line.now ≡ parts.0.now ∷ words_of_line parts.1.now) }
    ensures shorter { IfSome result (λ parts. length parts.1.now ≤ length line.now) }
    ensures none { result ≡ None → length (words_of_line line.now) ≤ 1 }
{
    let mut rest = line;
    'words: while let Some((word, more)) = cut(rest, b' ') {
        if !word.is_empty() {
            return Some((word, more));
        }
        rest = more;
    }
    None
}

/// The event of a line; None where it is blank, a comment or off the grammar.
fn read_event(alloc: Global, line: &[u8]) -> Result<Option<Event>, Memory>
    requires { length line.now + 1 < 2 ^ 32 }
    ensures event { IfOk result (λ event. event ≡ event_of (words_of_line line.now)) }
    ensures echoed { IfOk result (λ event. IfSome event IsEchoed) }
{
    match read_line(alloc, line) {
        Ok(Some(event)) => Ok(Some(event)),
        Ok(None) => Ok(None),
        Err(LineFault::Syntax) => Ok(None),
        Err(LineFault::Memory) => Err(Memory),
    }
}

/// A line off the grammar goes to machine 1.
fn bad_line() -> Addressed
    ensures { result ≡ bad_line }
{
    Addressed {
        event: Event::Bad,
        number: 1,
    }
}

/// Whether `at K` stands before the event.
fn is_of_one(event: &Event) -> bool
    ensures { result ≡ is_of_one event.now }
{
    match event {
        Event::Jam { .. } | Event::Off { .. } | Event::On { .. } | Event::Refill { .. } => true,
        Event::Bad | Event::Job { .. } | Event::Clock { .. } => false,
    }
}

/// The machine that the word names: one digit from 1 to their count.
fn read_number(count: usize, word: &[u8]) -> Option<u32>
    requires { count ≤ 8 }
    ensures { result ≡ number_of count word.now }
{
    let [digit] = word else {
        return None;
    };
    if b'1' <= *digit && usize::from(*digit) <= usize::from(b'0') + count {
        Some(u32::from(*digit - b'0'))
    } else {
        None
    }
}

/// The address of an event with this number before it.
fn with_number(event: Event, number: u32) -> Addressed
    requires { IsEchoed event }
    ensures address { result ≡ with_number (Some event) (Some number) }
    ensures echoed { IsEchoed result.event }
{
    if is_of_one(&event) {
        Addressed { event, number }
    } else {
        bad_line()
    }
}

/// The address of an event without a number.
fn without_number(event: Event) -> Addressed
    requires { IsEchoed event }
    ensures address { result ≡ without_number (Some event) }
    ensures echoed { IsEchoed result.event }
{
    if is_of_one(&event) {
        bad_line()
    } else {
        Addressed { event, number: 1 }
    }
}

/// The address of a line that begins with `at`, by the next word and what stands behind it.
fn read_numbered(
    alloc: Global,
    count: usize,
    word: &[u8],
    behind: &[u8],
) -> Result<Addressed, Memory>
    requires count { count ≤ 8 }
    requires short { length behind.now + 1 < 2 ^ 32 }
    ensures address { IfOk result (λ a. a ≡ with_number (event_of (words_of_line behind.now))
        (number_of count word.now)) }
    ensures echoed { IfOk result (λ a. IsEchoed a.event) }
{
    match read_event(alloc, behind) {
        Ok(Some(event)) => match read_number(count, word) {
            Some(number) => Ok(with_number(event, number)),
            None => Ok(bad_line()),
        },
        Ok(None) => Ok(bad_line()),
        Err(error) => Err(error),
    }
}

/// The address of a line that begins with `at`, by what stands behind that word.
fn read_at(alloc: Global, count: usize, rest: &[u8]) -> Result<Addressed, Memory>
    requires count { count ≤ 8 }
    requires short { length rest.now + 1 < 2 ^ 32 }
    ensures address { IfOk result (λ a. a ≡ at_words count (words_of_line rest.now)) }
    ensures echoed { IfOk result (λ a. IsEchoed a.event) }
{
    match first_word(rest) {
        Some((word, behind)) => read_numbered(alloc, count, word, behind),
        None => Ok(bad_line()),
    }
}

/// The address of any other line; None for a blank line or a comment.
fn read_other(alloc: Global, line: &[u8]) -> Result<Option<Addressed>, Memory>
    requires short { length line.now + 1 < 2 ^ 32 }
    ensures address { IfOk result (λ a. a ≡ plain_address line.now) }
    ensures echoed { IfOk result IsRead }
{
    match read_line(alloc, line) {
        Ok(Some(event)) => Ok(Some(without_number(event))),
        Ok(None) => Ok(None),
        Err(LineFault::Syntax) => Ok(Some(bad_line())),
        Err(LineFault::Memory) => Err(Memory),
    }
}

/// Whether the word `at` begins the line; then what stands behind it.
fn behind_at(line: &[u8]) -> Option<&[u8]>
    ensures some { IfSome result
        (λ rest. words_of_line line.now ≡ codes "at" ∷ words_of_line rest.now) }
    ensures shorter { IfSome result (λ rest. length rest.now ≤ length line.now) }
    ensures none { result ≡ None → IsPlain (words_of_line line.now) }
{
    match first_word(line) {
        Some((word, rest)) => {
            if word == b"at".as_slice() {
                Some(rest)
            } else {
                None
            }
        }
        None => None,
    }
}

/// The event of a line of a farm with so many machines, and the machine that the line names. None for a blank line or a
/// comment.
pub(crate) fn read_address(
    alloc: Global,
    count: usize,
    line: &[u8],
) -> Result<Option<Addressed>, Memory>
    requires count { count ≤ 8 }
    requires short { length line.now + 1 < 2 ^ 32 }
    ensures address { IfOk result (λ a. a ≡ line_address count line.now) }
    ensures echoed { IfOk result IsRead }
{
    match behind_at(line) {
        Some(rest) => match read_at(alloc, count, rest) {
            Ok(address) => Ok(Some(address)),
            Err(error) => Err(error),
        },
        None => read_other(alloc, line),
    }
}
