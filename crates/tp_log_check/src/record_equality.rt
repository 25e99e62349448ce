//! Whether two records are the same.

ghost use Rattle.std.specs.Prelude.{◌≡◌, ◌↔◌, IsTrue};
ghost use Rattle.tp_schedule.specs.declared.records.Record.TheVariants.{Plan, Move, Never, Budget, FullUp, Release, Done, Lost, Recall, Withdraw, Cut, Purge, Again, Stuck, Broken, Drop as IsDropped, Refused};

use tp_base::{Name, Tick};
use tp_schedule::{Cause, Record, SheetName};

fn are_same_names(one: &[Name], other: &[Name]) -> bool
    ensures { IsTrue result ↔ (one.now ≡ other.now) }
{
    one == other
}

fn is_plan(other: &Record, sheet: SheetName, place: Name, points: &[Tick], acts: &[Name]) -> bool
    ensures { IsTrue result ↔ (Plan sheet place points.now acts.now ≡ other.now) }
{
    match other {
        Record::Plan {
            sheet: s,
            place: l,
            points: p,
            acts: a,
        } => {
            let same_end = *s == sheet && *l == place;
            let same_way = points == p.as_slice() && are_same_names(acts, a.as_slice());
            same_end && same_way
        }
        _ => false,
    }
}

fn is_move(other: &Record, sheet: SheetName, points: &[Tick]) -> bool
    ensures { IsTrue result ↔ (Move sheet points.now ≡ other.now) }
{
    match other {
        Record::Move {
            sheet: s,
            points: p,
        } => *s == sheet && p.as_slice() == points,
        _ => false,
    }
}

fn is_release(
    other: &Record,
    sheet: SheetName,
    act: u32,
    name: Name,
    start: Tick,
    end: Tick,
) -> bool
    ensures { IsTrue result ↔ (Release sheet act name start end ≡ other.now) }
{
    match other {
        Record::Release {
            sheet: s,
            act: i,
            name: a,
            start: from,
            end: to,
        } => {
            let same_act = *s == sheet && *i == act && *a == name;
            let same_time = *from == start && *to == end;
            same_act && same_time
        }
        _ => false,
    }
}

fn is_never(other: &Record, sheet: SheetName, goal: Option<Name>) -> bool
    ensures { IsTrue result ↔ (Never sheet goal ≡ other.now) }
{
    match other {
        Record::Never { sheet: s, goal: g } => *s == sheet && *g == goal,
        _ => false,
    }
}

fn is_budget(other: &Record, sheet: SheetName, goal: Option<Name>, bound: Tick) -> bool
    ensures { IsTrue result ↔ (Budget sheet goal bound ≡ other.now) }
{
    match other {
        Record::Budget {
            sheet: s,
            goal: g,
            bound: b,
        } => *s == sheet && *g == goal && *b == bound,
        _ => false,
    }
}

fn is_done(other: &Record, sheet: SheetName, place: Name, at: Tick) -> bool
    ensures { IsTrue result ↔ (Done sheet place at ≡ other.now) }
{
    match other {
        Record::Done {
            sheet: s,
            place: l,
            at: t,
        } => *s == sheet && *l == place && *t == at,
        _ => false,
    }
}

fn is_recall(other: &Record, sheet: SheetName, act: u32) -> bool
    ensures { IsTrue result ↔ (Recall sheet act ≡ other.now) }
{
    match other {
        Record::Recall { sheet: s, act: i } => *s == sheet && *i == act,
        _ => false,
    }
}

fn is_stuck(other: &Record, sheet: SheetName, part: Name) -> bool
    ensures { IsTrue result ↔ (Stuck sheet part ≡ other.now) }
{
    match other {
        Record::Stuck {
            sheet: s,
            module: m,
        } => *s == sheet && *m == part,
        _ => false,
    }
}

fn is_full(other: &Record, sheet: SheetName) -> bool
    ensures { IsTrue result ↔ (FullUp sheet ≡ other.now) }
{
    match other {
        Record::FullUp { sheet: s } => *s == sheet,
        _ => false,
    }
}

fn is_lost(other: &Record, sheet: SheetName) -> bool
    ensures { IsTrue result ↔ (Lost sheet ≡ other.now) }
{
    match other {
        Record::Lost { sheet: s } => *s == sheet,
        _ => false,
    }
}

fn is_withdrawn(other: &Record, sheet: SheetName) -> bool
    ensures { IsTrue result ↔ (Withdraw sheet ≡ other.now) }
{
    match other {
        Record::Withdraw { sheet: s } => *s == sheet,
        _ => false,
    }
}

fn is_cut(other: &Record, sheet: SheetName) -> bool
    ensures { IsTrue result ↔ (Cut sheet ≡ other.now) }
{
    match other {
        Record::Cut { sheet: s } => *s == sheet,
        _ => false,
    }
}

fn is_purged(other: &Record, sheet: SheetName) -> bool
    ensures { IsTrue result ↔ (Purge sheet ≡ other.now) }
{
    match other {
        Record::Purge { sheet: s } => *s == sheet,
        _ => false,
    }
}

fn is_again(other: &Record, sheet: SheetName) -> bool
    ensures { IsTrue result ↔ (Again sheet ≡ other.now) }
{
    match other {
        Record::Again { sheet: s } => *s == sheet,
        _ => false,
    }
}

fn is_dropped(other: &Record, sheet: SheetName) -> bool
    ensures { IsTrue result ↔ (IsDropped sheet ≡ other.now) }
{
    match other {
        Record::Drop { sheet: s } => *s == sheet,
        _ => false,
    }
}

fn is_broken(other: &Record, job: Name) -> bool
    ensures { IsTrue result ↔ (Broken job ≡ other.now) }
{
    match other {
        Record::Broken { job: j } => *j == job,
        _ => false,
    }
}

fn is_refused(other: &Record, cause: Cause) -> bool
    ensures { IsTrue result ↔ (Refused cause ≡ other.now) }
{
    match other {
        Record::Refused { cause: c } => *c == cause,
        _ => false,
    }
}

/// Whether both records tell the same.
pub fn same_record(one: &Record, other: &Record) -> bool
    ensures { IsTrue result ↔ (one.now ≡ other.now) }
{
    match one {
        Record::Plan {
            sheet,
            place,
            points,
            acts,
        } => is_plan(other, *sheet, *place, points.as_slice(), acts.as_slice()),
        Record::Move { sheet, points } => is_move(other, *sheet, points.as_slice()),
        Record::Never { sheet, goal } => is_never(other, *sheet, *goal),
        Record::Budget { sheet, goal, bound } => is_budget(other, *sheet, *goal, *bound),
        Record::FullUp { sheet } => is_full(other, *sheet),
        Record::Release {
            sheet,
            act,
            name,
            start,
            end,
        } => is_release(other, *sheet, *act, *name, *start, *end),
        Record::Done { sheet, place, at } => is_done(other, *sheet, *place, *at),
        Record::Lost { sheet } => is_lost(other, *sheet),
        Record::Recall { sheet, act } => is_recall(other, *sheet, *act),
        Record::Withdraw { sheet } => is_withdrawn(other, *sheet),
        Record::Cut { sheet } => is_cut(other, *sheet),
        Record::Purge { sheet } => is_purged(other, *sheet),
        Record::Again { sheet } => is_again(other, *sheet),
        Record::Stuck { sheet, module } => is_stuck(other, *sheet, *module),
        Record::Broken { job } => is_broken(other, *job),
        Record::Drop { sheet } => is_dropped(other, *sheet),
        Record::Refused { cause } => is_refused(other, *cause),
    }
}
