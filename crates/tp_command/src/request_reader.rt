//! What the words ask for.

ghost use Rattle.std.specs.Prelude.{◌≡◌, IfOk, IfErr, Some, None, length, map, option_map, string_bytes};
ghost use Rattle.clap.specs.Words.{found_of, rows_of};
ghost use Rattle.tp_command.specs.Form.{asked_at, asked_with, budget_in, budget_of, form, is_arg, mode_of, seed_in};
ghost use Rattle.tp_command.specs.App.{asked_in, seen, shown, values_in, values_or_none};

use crate::request::{Mode, Request, WordsFault};
use crate::word_matches::{match_words, values};
use clap::ArgMatches;
use std::alloc::Global;
use tp_words::read_digits;

/// The mode of this name.
#[tactic(auto, unfolding(crate::specs::Form::mode_of))]
fn mode_of(text: &str) -> Option<Mode>
    ensures { result ≡ mode_of text.now }
{
    match text {
        "run" => Some(Mode::Run),
        "save" => Some(Mode::Save),
        "resume" => Some(Mode::Resume),
        "check" => Some(Mode::Check),
        "soak" => Some(Mode::Soak),
        "compose" => Some(Mode::Compose),
        "farm" => Some(Mode::Farm),
        _ => None,
    }
}

/// The budget that a text spells: 1 to 200,000, without a leading zero.
fn budget_in(text: &[u8]) -> Option<u32>
    ensures { result ≡ budget_in text.now }
{
    if text.first() == Some(&b'0') {
        return None;
    }
    match read_digits(text, 6) {
        Some(n) if n >= 1 && n <= 200_000 => Some(n as u32),
        _ => None,
    }
}

/// The number of a case that a text spells: at most 4,294,967,295, in at most 10 digits.
pub fn read_seed(text: &str) -> Option<u32>
    ensures { result ≡ seed_in text.now }
{
    match read_digits(text.as_bytes(), 10) {
        Some(n) if n <= 4_294_967_295 => Some(n as u32),
        _ => None,
    }
}

/// The budget of the texts that are given as one: there is at most one such text.
fn budget_of(texts: &[&str]) -> Option<Option<u32>>
    ensures { result ≡ budget_of (shown texts.now) }
{
    match texts {
        [] => Some(None),
        [text] => match budget_in(text.as_bytes()) {
            Some(budget) => Some(Some(budget)),
            None => None,
        },
        _ => None,
    }
}

/// Whether the mode can be asked for with this ARG.
fn is_arg(mode: Mode, arg: &str) -> bool
    ensures { result ≡ is_arg mode arg.now }
{
    match mode {
        Mode::Run => true,
        Mode::Save => true,
        Mode::Resume => true,
        Mode::Check => true,
        Mode::Soak => read_seed(arg).is_some(),
        Mode::Compose => true,
        Mode::Farm => true,
    }
}

/// What is asked for by a mode with its ARG and options.
fn ask<'a>(mode: Mode, arg: &'a str, bounds: usize, budgets: &[&str]) -> Option<Request<'a>>
    ensures { option_map seen result ≡ asked_with arg.entry.now bounds (shown budgets.now) mode }
{
    if !is_arg(mode, arg) || bounds > 1 {
        return None;
    }
    let budget = budget_of(budgets)?;
    Some(Request {
        mode,
        arg,
        bounds: bounds == 1,
        budget,
    })
}

/// Returns what the words ask for. `places` are the words that are no options: a mode and its ARG.
fn ask_at<'a>(places: &[&'a str], bounds: usize, budgets: &[&str]) -> Option<Request<'a>>
    ensures { option_map seen result ≡ asked_at (shown places.now) bounds (shown budgets.now) }
{
    let [mode, arg] = places else {
        return None;
    };
    let mode = mode_of(mode)?;
    ask(mode, arg, bounds, budgets)
}

/// How often an id stands in the words.
fn count(matches: &ArgMatches<'_>, id: &str) -> usize
    ensures { result ≡ length (values_or_none
        (values_in id.now (rows_of (found_of matches.now)))) }
{
    match values(matches, id) {
        Some(texts) => texts.len(),
        None => 0,
    }
}

/// What is asked for by the words as the library tells them.
fn asked<'a>(matches: &ArgMatches<'a>) -> Option<Request<'a>>
    ensures { option_map seen result ≡ asked_in (rows_of (found_of matches.now)) }
{
    let places = values(matches, "words")?;
    let bounds = count(matches, "bounds");
    match values(matches, "budget") {
        Some(budgets) => ask_at(places, bounds, budgets),
        None => ask_at(places, bounds, &[]),
    }
}

/// What the words ask for, the program's own name left out. `Usage` comes exactly where they are not of the form.
pub fn read_request<'a>(alloc: Global, words: &'a [String]) -> Result<Request<'a>, WordsFault>
    ensures ok { IfOk result (λ r. form (map string_bytes words.entry.now) ≡ Some (seen r)) }
    ensures usage { IfErr result (λ e.
        e ≡ WordsFault.Usage → form (map string_bytes words.entry.now) ≡ None) }
{
    let matches = match match_words(alloc, words) {
        Ok(matches) => matches,
        Err(fault) => return Err(fault),
    };
    match asked(&matches) {
        Some(request) => Ok(request),
        None => Err(WordsFault::Usage),
    }
}
