//! Records read: what the words of a line tell.
ghost use Rattle.std.specs.Prelude.{◌≡◌, ◌+◌, ◌<◌, ◌^◌, length};
ghost use Rattle.tp_words.specs.Parts.{shown};
ghost use Rattle.tp_words.specs.Fields.{name_of, two_of, five_of};
ghost use Rattle.tp_words.specs.Numbers.{number_of};
ghost use Rattle.tp_script.specs.EventReaders.{Gives};
ghost use Rattle.tp_bounds.specs.Sheets.{sheet_of};
ghost use Rattle.tp_log.specs.RecordReaders.{goal_of, three_of, record_after, record_of};

use crate::causes::read_cause;
use crate::fields::{only_name, only_sheet, read_goal};
use crate::heading::Heading;
use crate::plans::{read_move, read_plan};
use std::alloc::Global;
use tp_bounds::read_sheet;
use tp_schedule::Record;
use tp_script::LineFault;
use tp_words::{read_name, read_number};

#[tactic(auto, unfolding(tp_words::specs::Fields::two_of))]
fn read_never(words: &[&[u8]]) -> Option<Record>
    ensures { result ≡ two_of sheet_of goal_of (λ s g. Record.Never s g) (shown words.now) }
{
    let [sheet, goal] = words else {
        return None;
    };
    let sheet = read_sheet(sheet)?;
    let goal = read_goal(goal)?;
    Some(Record::Never { sheet, goal })
}

#[tactic(auto, unfolding(crate::specs::RecordReaders::three_of))]
fn read_budget(words: &[&[u8]]) -> Option<Record>
    ensures { result ≡ three_of sheet_of goal_of number_of (λ s g n. Record.Budget s g n)
        (shown words.now) }
{
    let [sheet, goal, bound] = words else {
        return None;
    };
    let sheet = read_sheet(sheet)?;
    let goal = read_goal(goal)?;
    let bound = read_number(bound)?;
    Some(Record::Budget { sheet, goal, bound })
}

#[tactic(auto, unfolding(tp_words::specs::Fields::five_of))]
fn read_release(words: &[&[u8]]) -> Option<Record>
    ensures { result ≡ five_of sheet_of number_of name_of number_of number_of
        (λ s i a p q. Record.Release s i a p q) (shown words.now) }
{
    let [sheet, act, name, start, end] = words else {
        return None;
    };
    let sheet = read_sheet(sheet)?;
    let act = read_number(act)?;
    let name = read_name(name)?;
    let start = read_number(start)?;
    let end = read_number(end)?;
    Some(Record::Release {
        sheet,
        act,
        name,
        start,
        end,
    })
}

#[tactic(auto, unfolding(crate::specs::RecordReaders::three_of))]
fn read_done(words: &[&[u8]]) -> Option<Record>
    ensures { result ≡ three_of sheet_of name_of number_of (λ s l n. Record.Done s l n)
        (shown words.now) }
{
    let [sheet, place, at] = words else {
        return None;
    };
    let sheet = read_sheet(sheet)?;
    let place = read_name(place)?;
    let at = read_number(at)?;
    Some(Record::Done { sheet, place, at })
}

#[tactic(auto, unfolding(tp_words::specs::Fields::two_of))]
fn read_recall(words: &[&[u8]]) -> Option<Record>
    ensures { result ≡ two_of sheet_of number_of (λ s i. Record.Recall s i) (shown words.now) }
{
    let [sheet, act] = words else {
        return None;
    };
    let sheet = read_sheet(sheet)?;
    let act = read_number(act)?;
    Some(Record::Recall { sheet, act })
}

#[tactic(auto, unfolding(tp_words::specs::Fields::two_of))]
fn read_stuck(words: &[&[u8]]) -> Option<Record>
    ensures { result ≡ two_of sheet_of name_of (λ s m. Record.Stuck s m) (shown words.now) }
{
    let [sheet, module] = words else {
        return None;
    };
    let sheet = read_sheet(sheet)?;
    let module = read_name(module)?;
    Some(Record::Stuck { sheet, module })
}

fn some_record(rec: Option<Record>) -> Result<Record, LineFault>
    ensures { Gives result rec }
{
    match rec {
        Some(rec) => Ok(rec),
        None => Err(LineFault::Syntax),
    }
}

#[tactic(auto, unfolding(crate::specs::RecordReaders::record_after))]
fn read_after(alloc: Global, heading: Heading, words: &[&[u8]]) -> Result<Record, LineFault>
    requires { length words.now + 1 < 2 ^ 32 }
    ensures { Gives result (record_after heading (shown words.now)) }
{
    match heading {
        Heading::Plan => read_plan(alloc, words),
        Heading::Move => read_move(alloc, words),
        Heading::Never => some_record(read_never(words)),
        Heading::Budget => some_record(read_budget(words)),
        Heading::FullUp => { some_record(only_sheet(words).map(|sheet| Record::FullUp { sheet })) }
        Heading::Release => some_record(read_release(words)),
        Heading::Done => some_record(read_done(words)),
        Heading::Lost => some_record(only_sheet(words).map(|sheet| Record::Lost { sheet })),
        Heading::Recall => some_record(read_recall(words)),
        Heading::Withdraw => {
            some_record(only_sheet(words).map(|sheet| Record::Withdraw { sheet }))
        }
        Heading::Cut => some_record(only_sheet(words).map(|sheet| Record::Cut { sheet })),
        Heading::Purge => some_record(only_sheet(words).map(|sheet| Record::Purge { sheet })),
        Heading::Again => some_record(only_sheet(words).map(|sheet| Record::Again { sheet })),
        Heading::Stuck => some_record(read_stuck(words)),
        Heading::Broken => some_record(only_name(words).map(|job| Record::Broken { job })),
        Heading::Drop => some_record(only_sheet(words).map(|sheet| Record::Drop { sheet })),
        Heading::Refused => some_record(read_cause(words).map(|cause| Record::Refused { cause })),
    }
}

#[tactic(auto, unfolding(crate::specs::RecordReaders::record_of))]
pub(crate) fn read_record(alloc: Global, words: &[&[u8]]) -> Result<Record, LineFault>
    requires { length words.now < 2 ^ 32 }
    ensures { Gives result (record_of (shown words.now)) }
{
    let [first, others @ ..] = words else {
        return Err(LineFault::Syntax);
    };
    match Heading::read(first) {
        None => Err(LineFault::Syntax),
        Some(heading) => read_after(alloc, heading, others),
    }
}
