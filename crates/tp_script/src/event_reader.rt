//! Lines as events.
ghost use Rattle.std.specs.Prelude.{◌≡◌, ◌↔◌, ◌≤◌, ◌+◌, ◌<◌, ◌^◌, ◌++◌, ℕ, length, Ok, None, Some};
ghost use Rattle.tp_words.specs.Parts.{shown};
ghost use Rattle.tp_script.specs.Script.{is_passed, bare, ends_with_byte, words_of_line, Reads};
ghost use Rattle.tp_script.specs.EventReaders.{Gives, groups_of, one_name, number_of, after_clock, after_refill, job_of, after_job, event_after, event_of};

use crate::event::{Event, Group};
use crate::fault::LineFault;
use crate::group::read_group;
use crate::verb::Verb;
use std::alloc::Global;
use tp_base::{Items, Name};
use tp_words::{read_digits, read_name, words};

#[tactic(auto, unfolding(crate::specs::EventReaders::one_name))]
fn only_name(words: &[&[u8]]) -> Option<Name>
    ensures { result ≡ one_name (shown words.now) }
{
    let [name] = words else {
        return None;
    };
    read_name(name)
}

/// A number of 1 to 10 digits that 32 bits hold.
#[tactic(auto, unfolding(crate::specs::EventReaders::number_of))]
fn read_number(digits: &[u8]) -> Option<u32>
    ensures { result ≡ number_of digits.now }
{
    match read_digits(digits, 10) {
        Some(number) if number < 1 << 32 => Some(number as u32),
        _ => None,
    }
}

#[tactic(auto, unfolding(crate::specs::EventReaders::after_clock))]
fn read_clock(words: &[&[u8]]) -> Option<Event>
    ensures { result ≡ after_clock (shown words.now) }
{
    let [digits] = words else {
        return None;
    };
    let to = read_number(digits)?;
    Some(Event::Clock { to })
}

#[tactic(auto, unfolding(crate::specs::EventReaders::after_refill))]
fn read_refill(words: &[&[u8]]) -> Option<Event>
    ensures { result ≡ after_refill (shown words.now) }
{
    let [name, digits] = words else {
        return None;
    };
    let feeder = read_name(name)?;
    let count = read_number(digits)?;
    Some(Event::Refill { feeder, count })
}

fn read_groups(alloc: Global, words: &[&[u8]]) -> Result<Items<Group>, LineFault>
    requires { length words.now + 1 < 2 ^ 32 }
    ensures { Gives result (groups_of (shown words.now)) }
{
    let mut groups = Items::new(alloc);
    for word in words {
        match read_group(word) {
            None => return Err(LineFault::Syntax),
            Some(group) => groups.push(group)?,
        }
    }
    Ok(groups)
}

#[tactic(auto, unfolding(crate::specs::EventReaders::job_of))]
fn read_job_parts(
    alloc: Global,
    name: &[u8],
    tray: &[u8],
    media: &[u8],
    groups: &[&[u8]],
) -> Result<Event, LineFault>
    requires { length groups.now + 1 < 2 ^ 32 }
    ensures { Gives result (job_of name.now tray.now media.now (shown groups.now)) }
{
    let Some(name) = read_name(name) else {
        return Err(LineFault::Syntax);
    };
    let Some(tray) = read_name(tray) else {
        return Err(LineFault::Syntax);
    };
    let Some(media) = read_name(media) else {
        return Err(LineFault::Syntax);
    };
    let groups = read_groups(alloc, groups)?;
    Ok(Event::Job {
        name,
        tray,
        media,
        groups,
    })
}

#[tactic(auto, unfolding(crate::specs::EventReaders::after_job))]
fn read_job(alloc: Global, words: &[&[u8]]) -> Result<Event, LineFault>
    requires { length words.now + 1 < 2 ^ 32 }
    ensures { Gives result (after_job (shown words.now)) }
{
    match words {
        [name, tray, media, groups @ ..] if !groups.is_empty() => {
            read_job_parts(alloc, name, tray, media, groups)
        }
        _ => Err(LineFault::Syntax),
    }
}

fn some_event(event: Option<Event>) -> Result<Event, LineFault>
    ensures { Gives result event }
{
    match event {
        Some(event) => Ok(event),
        None => Err(LineFault::Syntax),
    }
}

#[tactic(auto, unfolding(crate::specs::EventReaders::event_after))]
fn read_after(alloc: Global, verb: Verb, words: &[&[u8]]) -> Result<Event, LineFault>
    requires { length words.now + 1 < 2 ^ 32 }
    ensures { Gives result (event_after verb (shown words.now)) }
{
    match verb {
        Verb::Job => read_job(alloc, words),
        Verb::Clock => some_event(read_clock(words)),
        Verb::Jam => some_event(only_name(words).map(|module| Event::Jam { module })),
        Verb::Off => some_event(only_name(words).map(|module| Event::Off { module })),
        Verb::On => some_event(only_name(words).map(|module| Event::On { module })),
        Verb::Refill => some_event(read_refill(words)),
    }
}

#[tactic(auto, unfolding(crate::specs::EventReaders::event_of))]
fn read_event(alloc: Global, words: &[&[u8]]) -> Result<Event, LineFault>
    requires { length words.now < 2 ^ 32 }
    ensures { Gives result (event_of (shown words.now)) }
{
    let [first, others @ ..] = words else {
        return Err(LineFault::Syntax);
    };
    match Verb::read(first) {
        None => Err(LineFault::Syntax),
        Some(verb) => read_after(alloc, verb, others),
    }
}

fn passes(words: &[&[u8]]) -> bool
    ensures { result ≡ is_passed (shown words.now) }
{
    match words {
        [] => true,
        [first, ..] => !first.is_empty() && first[0] == b'#',
    }
}

#[tactic(auto, unfolding(crate::specs::Script::bare))]
fn bare_line(line: &[u8]) -> &[u8]
    ensures bare { result.now ≡ bare line.now }
    ensures shorter { length result.now ≤ length line.now }
{
    if !ends_with(line, b'\n') {
        return line;
    }
    let line = &line[..line.len() - 1];
    if ends_with(line, b'\r') {
        &line[..line.len() - 1]
    } else {
        line
    }
}

fn ends_with(text: &[u8], byte: u8) -> bool
    requires { 1 ≤ byte }
    ensures { result ≡ ends_with_byte byte text.now }
{
    !text.is_empty() && text[text.len() - 1] == byte
}

/// The event of a script's line, given with its LF if it has one. A blank line and a comment give
/// `None`. One CR just before the LF is no part of the line.
pub fn read_line(alloc: Global, line: &[u8]) -> Result<Option<Event>, LineFault>
    requires { length line.now + 1 < 2 ^ 32 }
    ensures { Reads (words_of_line line.now) result }
{
    let words = words(alloc, bare_line(line))?;
    if passes(&words) {
        return Ok(None);
    }
    match read_event(alloc, &words) {
        Ok(event) => Ok(Some(event)),
        Err(fault) => Err(fault),
    }
}
