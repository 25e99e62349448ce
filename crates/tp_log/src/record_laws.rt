//! What holds of every record, as its parts are. The calls change nothing: their contracts are the laws. For the prover: a value
//! that is read brings what its type keeps.

ghost use Rattle.std.specs.List.{AllByRecursion};
ghost use Rattle.tp_bounds.specs.Sheets.{IsSheet};
ghost use Rattle.tp_log.specs.Grammar.{HasFields, IsCause, IsGoal};
ghost use Rattle.tp_words.specs.Fields.{IsName};
ghost use Rattle.tp_words.specs.Numbers.{IsNumber};

use tp_base::{Name, Tick};
use tp_schedule::{Cause, Record, SheetName};

/// A name is a name.
fn name_law(name: &Name)
    ensures { IsName name.now }
{
    let _bytes = name.as_bytes();
}

/// A copy's name is a name, and its numbers fit in 32 bits.
fn sheet_law(sheet: &SheetName)
    ensures { IsSheet sheet.now }
{
    let _number = sheet.number;
    let _copy = sheet.copy;
    name_law(&sheet.job);
}

fn goal_law(goal: &Option<Name>)
    ensures { IsGoal goal.now }
{
    if let Some(name) = goal {
        name_law(name);
    }
}

fn ticks_law(ticks: &[Tick])
    ensures { AllByRecursion IsNumber ticks.now }
{
    if let [first, rest @ ..] = ticks {
        let _value = *first;
        ticks_law(rest);
    }
}

fn names_law(names: &[Name])
    ensures { AllByRecursion IsName names.now }
{
    if let [first, rest @ ..] = names {
        name_law(first);
        names_law(rest);
    }
}

fn cause_law(cause: &Cause)
    ensures { IsCause cause.now }
{
    match cause {
        Cause::Syntax | Cause::Waiting | Cause::End => {}
        Cause::Back(now) => {
            let _now = *now;
        }
        Cause::Tray(name)
        | Cause::Media(name)
        | Cause::Named(name)
        | Cause::Module(name)
        | Cause::Out(name)
        | Cause::NotOn(name)
        | Cause::Feeder(name)
        | Cause::Endless(name)
        | Cause::Stock(name) => name_law(name),
    }
}

/// The names in a record are names, and its numbers fit in 32 bits.
pub fn record_law(rec: &Record)
    ensures { HasFields rec.now }
{
    match rec {
        Record::Plan {
            sheet,
            place,
            points,
            acts,
        } => {
            sheet_law(sheet);
            name_law(place);
            ticks_law(points.as_slice());
            names_law(acts.as_slice());
        }
        Record::Move { sheet, points } => {
            sheet_law(sheet);
            ticks_law(points.as_slice());
        }
        Record::Never { sheet, goal } => {
            sheet_law(sheet);
            goal_law(goal);
        }
        Record::Budget { sheet, goal, bound } => {
            sheet_law(sheet);
            goal_law(goal);
            let _bound = *bound;
        }
        Record::Release {
            sheet,
            act,
            name,
            start,
            end,
        } => {
            sheet_law(sheet);
            name_law(name);
            let _numbers = (*act, *start, *end);
        }
        Record::Done { sheet, place, at } => {
            sheet_law(sheet);
            name_law(place);
            let _at = *at;
        }
        Record::Recall { sheet, act } => {
            sheet_law(sheet);
            let _act = *act;
        }
        Record::Stuck { sheet, module } => {
            sheet_law(sheet);
            name_law(module);
        }
        Record::Broken { job } => name_law(job),
        Record::Refused { cause } => cause_law(cause),
        Record::FullUp { sheet }
        | Record::Lost { sheet }
        | Record::Withdraw { sheet }
        | Record::Cut { sheet }
        | Record::Purge { sheet }
        | Record::Again { sheet }
        | Record::Drop { sheet } => sheet_law(sheet),
    }
}
