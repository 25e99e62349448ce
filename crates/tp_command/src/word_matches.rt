//! What the library of command lines makes of the words.

ghost use Rattle.std.specs.Prelude.{◌≡◌, IfOk, IfErr, [], map, option_map, string_bytes};
ghost use Rattle.clap.specs.Words.{app_of, found_of, fault_of, matches_of, rows_of};
ghost use Rattle.tp_command.specs.App.{printer, values_in};

use crate::request::WordsFault;
use clap::{Arg, ArgAction, ArgMatches, Command};
use std::alloc::{AllocError, Global};

/// Words in their order, a flag, and an option with a value. How many there are is looked at later.
fn command<'a>(alloc: Global) -> Result<Command<'a>, AllocError>
    ensures { IfOk result (λ c. app_of c ≡ printer) }
{
    Command::new(alloc, "printer")
        .no_binary_name(true)
        .disable_help_flag(true)
        .arg(Arg::new(alloc, "words").action(ArgAction::Append))?
        .arg(
            Arg::new(alloc, "bounds")
                .long("bounds")
                .action(ArgAction::Append)
                .num_args(0usize)
                .default_missing_value("set"),
        )?
        .arg(
            Arg::new(alloc, "budget")
                .long("budget")
                .action(ArgAction::Append),
        )
}

pub(crate) fn match_words<'a>(
    alloc: Global,
    words: &'a [String],
) -> Result<ArgMatches<'a>, WordsFault>
    ensures taken { IfOk result (λ _. fault_of printer (map string_bytes words.entry.now) ≡ []) }
    ensures rows { IfOk result (λ m.
        rows_of (found_of m) ≡ matches_of printer (map string_bytes words.entry.now)) }
    ensures usage { IfErr result (λ e.
        e ≡ WordsFault.Usage → ¬ (fault_of printer
        (map string_bytes words.entry.now) ≡ [])) }
{
    let Ok(command) = command(alloc) else {
        return Err(WordsFault::Memory);
    };
    match command.try_get_matches_from(words) {
        Ok(matches) => Ok(matches),
        Err(error) => match error.kind() {
            clap::error::ErrorKind::OutOfMemory => Err(WordsFault::Memory),
            _ => Err(WordsFault::Usage),
        },
    }
}

/// The values of an id, if it stands in the words.
pub(crate) fn values<'m, 'a>(matches: &'m ArgMatches<'a>, id: &str) -> Option<&'m [&'a str]>
    ensures { option_map (λ s. map (λ v. v.now) s.now) result ≡ values_in id.now
        (rows_of (found_of matches.now)) }
{
    matches.get_strs(id)
}
