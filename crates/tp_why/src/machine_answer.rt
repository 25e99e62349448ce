//! The answer to a machine text.
ghost use Rattle.std.specs.Prelude.{◌≡◌, ◌≤◌, ◌++◌, decimal, length, Some, IfOk, OnOk, string_bytes};
ghost use Rattle.toml.specs.Errors.{IsWithin};
ghost use Rattle.toml.specs.View.{table_view};
ghost use Rattle.tp_why.specs.Answers.{place_from, place_after, not_toml_text, position_text, cause_text, place_text, told, NamesPlace, TellsMachine};
ghost use Rattle.tp_machine_text.specs.MachineSlips.{first_slip};

use crate::sentence::put_slip;
use std::alloc::{AllocError, Global};
use toml::Table;
use toml::de::Error;
use tp_machine_text::{Slip, first_slip};

/// The line and the column after the bytes, both from 1. A column counts characters.
fn place_after(before: &[u8]) -> (u64, u64)
    ensures { result ≡ place_after before.now }
{
    let mut line: u64 = 1;
    let mut column: u64 = 1;
    let mut rest = before;
    'bytes: while let [byte, others @ ..] = rest {
        if *byte == 10 {
            line += 1;
            column = 1;
        } else if !(128 <= *byte && *byte <= 191) {
            column += 1;
        }
        rest = others;
    }
    (line, column)
}

/// Where in the text the error stands.
fn start_in(text: &[u8], error: &Error) -> usize
    requires { IsWithin text.now error.now }
    ensures { result ≤ length text.now }
{
    match error.span() {
        Some(span) => span.start,
        None => 0,
    }
}

fn put_number(out: &mut String, word: &str, number: u64) -> Result<(), AllocError>
    ensures { OnOk result (string_bytes out.new ≡ string_bytes out.old
        ++ (word.now ++ decimal number)) }
{
    write!(out, "{word}{number}")
}

/// Writes two numbers, each behind a word.
fn put_numbers(
    out: &mut String,
    first: &str,
    line: u64,
    second: &str,
    column: u64,
) -> Result<(), AllocError>
    ensures { OnOk result (string_bytes out.new ≡ string_bytes out.old
        ++ ((first.now ++ decimal line) ++ (second.now ++ decimal column))) }
{
    put_number(out, first, line)?;
    put_number(out, second, column)
}

fn put_position(out: &mut String, line: u64, column: u64) -> Result<(), AllocError>
    ensures { OnOk result (string_bytes out.new ≡ string_bytes out.old
        ++ position_text line column) }
{
    put_numbers(out, "not TOML: line ", line, ", column ", column)
}

fn put_cause(out: &mut String, cause: &str) -> Result<(), AllocError>
    ensures { OnOk result (string_bytes out.new ≡ string_bytes out.old ++ cause_text cause.now) }
{
    out.push_str(": ")?;
    out.push_str(cause)?;
    out.push_str("\n")
}

fn put_place(out: &mut String, place: (u64, u64), cause: &str) -> Result<(), AllocError>
    ensures { OnOk result (string_bytes out.new ≡ string_bytes out.old
        ++ place_text place cause.now) }
{
    put_position(out, place.0, place.1)?;
    put_cause(out, cause)
}

fn put_error(out: &mut String, before: &[u8], cause: &str) -> Result<(), AllocError>
    ensures { OnOk result (string_bytes out.new ≡ string_bytes out.old
        ++ not_toml_text before.now cause.now) }
{
    put_place(out, place_after(before), cause)
}

fn error_text(alloc: Global, before: &[u8], cause: &str) -> Result<String, AllocError>
    ensures { IfOk result (λ answer. string_bytes answer ≡ not_toml_text before.now cause.now) }
{
    let mut answer = String::new(alloc);
    put_error(&mut answer, before, cause)?;
    Ok(answer)
}

/// The answer to a text that is not TOML.
pub(crate) fn tell_error(alloc: Global, text: &[u8], error: &Error) -> Result<String, AllocError>
    requires { IsWithin text.now error.now }
    ensures { IfOk result (λ answer. NamesPlace text.now (string_bytes answer)) }
{
    let start = start_in(text, error);
    error_text(alloc, &text[..start], error.message())
}

/// The answer to a table.
fn tell_table(alloc: Global, table: &Table) -> Result<String, AllocError>
    ensures { IfOk result (λ answer. string_bytes answer
        ≡ told (table_view table.now) (first_slip (table_view table.now))) }
{
    let mut answer = String::new(alloc);
    match first_slip(table) {
        None => answer.push_str("no rule is broken\n")?,
        Some(slip) => put_rule(&mut answer, table, slip)?,
    }
    Ok(answer)
}

fn put_rule(out: &mut String, table: &Table, slip: Slip) -> Result<(), AllocError>
    ensures { OnOk result (string_bytes out.new ≡ string_bytes out.old
        ++ told (table_view table.now) (Some slip)) }
{
    let rule = slip.rule;
    write!(out, "rule {rule}: ")?;
    put_slip(out, table, slip)?;
    out.push_str("\n")
}

/// Says whether the text is a machine text, else where it is not TOML or breaks a rule.
pub fn tell_machine(alloc: Global, text: &[u8]) -> Result<String, AllocError>
    ensures { IfOk result (λ answer. TellsMachine text.now (string_bytes answer)) }
{
    match toml::table_from_slice(alloc, text) {
        Ok(table) => tell_table(alloc, &table),
        Err(error) if error.is_memory() => Err(AllocError),
        Err(error) => tell_error(alloc, text, &error),
    }
}
