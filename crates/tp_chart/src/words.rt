//! What the words of the command line ask for.
ghost use Rattle.std.specs.Prelude.{◌≡◌, IfOk, IfErr, [], Some, None, false, length, map, option_map, string_bytes};
ghost use Rattle.clap.specs.Words.{app_of, found_of, fault_of, matches_of, rows_of, rule_of};
ghost use Rattle.tp_chart.specs.Words.{asked_at, asked_in, bare, chart, chart_asked, flag_rule, is_of_farm, option_rule, seen, shown, tick_of, values_in, values_of, view_in, view_of};

use crate::view::View;
use clap::{Arg, ArgAction, ArgMatches, Command};
use std::alloc::{AllocError, Global};
use tp_base::Tick;
use tp_words::read_number;

/// What the words ask for: the picture of a schedule on the machine of this name, alone or in a page, from all lines or from
/// those of the machine of a farm with this number.
#[derive(Clone, Copy, Debug, PartialEq, Eq)]
pub struct ChartRequest<'a> {
    pub machine: &'a str,
    pub view: View,
    pub is_page: bool,
    pub number: Option<u32>,
}

/// Why the words ask for nothing.
#[derive(Clone, Copy, Debug, PartialEq, Eq)]
pub enum ChartWordsFault {
    Memory,
    Usage,
}

fn option<'a>(alloc: Global, id: &'static str) -> Arg<'a>
    ensures rule { rule_of result ≡ option_rule id.now }
    ensures local { result.global ≡ false }
{
    Arg::new(alloc, id).long(id).action(ArgAction::Append)
}

fn flag<'a>(alloc: Global, id: &'static str) -> Arg<'a>
    ensures rule { rule_of result ≡ flag_rule id.now }
    ensures local { result.global ≡ false }
{
    Arg::new(alloc, id)
        .long(id)
        .action(ArgAction::Append)
        .num_args(0usize)
        .default_missing_value("set")
}

fn bare<'a>(alloc: Global) -> Command<'a>
    ensures { app_of result ≡ bare }
{
    Command::new(alloc, "chart")
        .no_binary_name(true)
        .disable_help_flag(true)
}

/// Words in their order, flags, and options with a value. How many there are is counted later.
fn command<'a>(alloc: Global) -> Result<Command<'a>, AllocError>
    ensures { IfOk result (λ c. app_of c ≡ chart) }
{
    bare(alloc)
        .arg(Arg::new(alloc, "words").action(ArgAction::Append))?
        .arg(flag(alloc, "sheets"))?
        .arg(flag(alloc, "html"))?
        .arg(option(alloc, "from"))?
        .arg(option(alloc, "at"))?
        .arg(option(alloc, "machine"))
}

fn match_words<'a>(alloc: Global, words: &'a [String]) -> Result<ArgMatches<'a>, ChartWordsFault>
    ensures taken { IfOk result (λ _. fault_of chart (map string_bytes words.entry.now) ≡ []) }
    ensures rows { IfOk result (λ m.
        rows_of (found_of m) ≡ matches_of chart (map string_bytes words.entry.now)) }
    ensures usage { IfErr result (λ e.
        e ≡ ChartWordsFault.Usage → ¬ (fault_of chart (map string_bytes words.entry.now) ≡ [])) }
{
    let Ok(command) = command(alloc) else {
        return Err(ChartWordsFault::Memory);
    };
    match command.try_get_matches_from(words) {
        Ok(matches) => Ok(matches),
        Err(error) => match error.kind() {
            clap::error::ErrorKind::OutOfMemory => Err(ChartWordsFault::Memory),
            _ => Err(ChartWordsFault::Usage),
        },
    }
}

/// The values of an id, if it stands in the words.
fn values<'m, 'a>(matches: &'m ArgMatches<'a>, id: &str) -> Option<&'m [&'a str]>
    ensures { option_map (λ s. map (λ v. v.now) s.now) result ≡ values_in id.now
        (rows_of (found_of matches.now)) }
{
    matches.get_strs(id)
}

/// How often an id stands in the words.
fn count(matches: &ArgMatches<'_>, id: &str) -> usize
    ensures { result ≡ length (values_of id.now (rows_of (found_of matches.now))) }
{
    match values(matches, id) {
        Some(texts) => texts.len(),
        None => 0,
    }
}

/// The tick of the texts that are given as one: there is at most one such text.
fn read_tick(texts: &[&str]) -> Option<Option<Tick>>
    ensures { result ≡ tick_of (shown texts.now) }
{
    match texts {
        [] => Some(None),
        [text] => match read_number(text.as_bytes()) {
            Some(tick) => Some(Some(tick)),
            None => None,
        },
        _ => None,
    }
}

/// The tick of an option.
fn tick(matches: &ArgMatches<'_>, id: &str) -> Option<Option<Tick>>
    ensures { result ≡ tick_of (values_of id.now (rows_of (found_of matches.now))) }
{
    match values(matches, id) {
        Some(texts) => read_tick(texts),
        None => Some(None),
    }
}

/// How the schedule is to be shown, with so many flags and these ticks.
fn view_of(sheets: usize, from: Option<Option<Tick>>, until: Option<Option<Tick>>) -> Option<View>
    ensures { result ≡ view_of sheets from until }
{
    let (Some(from), Some(until)) = (from, until) else {
        return None;
    };
    if sheets > 1 {
        return None;
    }
    Some(View {
        by_copies: sheets == 1,
        from,
        until,
    })
}

fn is_of_farm(number: Option<u32>) -> bool
    ensures { result ≡ is_of_farm number }
{
    match number {
        Some(number) => 1 <= number && number <= 8,
        None => true,
    }
}

/// What is asked for by the words that are no options, with so many flags for a page, from this machine's lines.
fn ask<'a>(
    places: &[&'a str],
    view: Option<View>,
    pages: usize,
    number: Option<Option<u32>>,
) -> Option<ChartRequest<'a>>
    ensures { option_map seen result ≡ asked_at (shown places.now) view pages number }
{
    let [machine] = places else {
        return None;
    };
    let (Some(view), Some(number)) = (view, number) else {
        return None;
    };
    if pages > 1 || !is_of_farm(number) {
        return None;
    }
    Some(ChartRequest {
        machine,
        view,
        is_page: pages == 1,
        number,
    })
}

fn view_in(matches: &ArgMatches<'_>) -> Option<View>
    ensures { result ≡ view_in (rows_of (found_of matches.now)) }
{
    view_of(
        count(matches, "sheets"),
        tick(matches, "from"),
        tick(matches, "at"),
    )
}

/// What is asked for by the words as the library tells them.
fn asked<'a>(matches: &ArgMatches<'a>) -> Option<ChartRequest<'a>>
    ensures { option_map seen result ≡ asked_in (rows_of (found_of matches.now)) }
{
    let places = values(matches, "words")?;
    ask(
        places,
        view_in(matches),
        count(matches, "html"),
        tick(matches, "machine"),
    )
}

/// What the words ask for, the program's own name left out. `Usage` comes exactly where they are not of the form.
pub(crate) fn read_words<'a>(
    alloc: Global,
    words: &'a [String],
) -> Result<ChartRequest<'a>, ChartWordsFault>
    ensures ok { IfOk result (λ r. chart_asked
        (map string_bytes words.entry.now) ≡ Some (seen r)) }
    ensures usage { IfErr result (λ e.
        e ≡ ChartWordsFault.Usage → chart_asked (map string_bytes words.entry.now) ≡ None) }
{
    let matches = match match_words(alloc, words) {
        Ok(matches) => matches,
        Err(fault) => return Err(fault),
    };
    match asked(&matches) {
        Some(request) => Ok(request),
        None => Err(ChartWordsFault::Usage),
    }
}
