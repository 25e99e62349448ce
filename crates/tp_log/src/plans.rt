//! Plans and moves, read and written.
ghost use Rattle.std.specs.Prelude.{◌≡◌, ◌+◌, ◌<◌, ◌^◌, ◌++◌, ◌∷◌, length, map, OnOk, decimal};
ghost use Rattle.std.specs.List.{flat_map};
ghost use Rattle.tp_words.specs.Parts.{shown};
ghost use Rattle.tp_words.specs.Each.{each_read};
ghost use Rattle.tp_words.specs.Numbers.{number_of};
ghost use Rattle.tp_script.specs.EventReaders.{Gives};
ghost use Rattle.tp_log.specs.Records.{turns_words};
ghost use Rattle.tp_log.specs.RecordReaders.{turns_of, plan_with, plan_of, move_with, move_of};

use std::alloc::Global;
use tp_base::{Items, Memory, Name, Tick};
use tp_bounds::read_sheet;
use tp_schedule::Record;
use tp_script::LineFault;
use tp_words::{put_number_word, put_word, read_name, read_number};

fn read_turns(alloc: Global, words: &[&[u8]]) -> Result<(Items<Tick>, Items<Name>), LineFault>
    requires { length words.now + 1 < 2 ^ 32 }
    ensures { Gives result (turns_of (shown words.now)) }
{
    let mut points = Items::new(alloc);
    let mut acts = Items::new(alloc);
    let mut rest = words;
    while let [point, act, more @ ..] = rest {
        let Some(point) = read_number(point) else {
            return Err(LineFault::Syntax);
        };
        let Some(act) = read_name(act) else {
            return Err(LineFault::Syntax);
        };
        points.push(point)?;
        acts.push(act)?;
        rest = more;
    }
    let [point, ..] = rest else {
        return Err(LineFault::Syntax);
    };
    let Some(point) = read_number(point) else {
        return Err(LineFault::Syntax);
    };
    points.push(point)?;
    Ok((points, acts))
}

#[tactic(auto, unfolding(crate::specs::RecordReaders::plan_with))]
fn read_plan_parts(
    alloc: Global,
    sheet: &[u8],
    place: &[u8],
    turns: &[&[u8]],
) -> Result<Record, LineFault>
    requires { length turns.now + 1 < 2 ^ 32 }
    ensures { Gives result (plan_with sheet.now place.now (shown turns.now)) }
{
    let Some(sheet) = read_sheet(sheet) else {
        return Err(LineFault::Syntax);
    };
    let Some(place) = read_name(place) else {
        return Err(LineFault::Syntax);
    };
    let (points, acts) = read_turns(alloc, turns)?;
    if acts.len() == 0 {
        return Err(LineFault::Syntax);
    }
    Ok(Record::Plan {
        sheet,
        place,
        points,
        acts,
    })
}

#[tactic(auto, unfolding(crate::specs::RecordReaders::plan_of))]
pub(crate) fn read_plan(alloc: Global, words: &[&[u8]]) -> Result<Record, LineFault>
    requires { length words.now + 1 < 2 ^ 32 }
    ensures { Gives result (plan_of (shown words.now)) }
{
    match words {
        [sheet, place, turns @ ..] => read_plan_parts(alloc, sheet, place, turns),
        _ => Err(LineFault::Syntax),
    }
}

fn read_points(alloc: Global, words: &[&[u8]]) -> Result<Items<Tick>, LineFault>
    requires { length words.now + 1 < 2 ^ 32 }
    ensures { Gives result (each_read number_of (shown words.now)) }
{
    let mut points = Items::new(alloc);
    for word in words {
        match read_number(word) {
            None => return Err(LineFault::Syntax),
            Some(point) => points.push(point)?,
        }
    }
    Ok(points)
}

#[tactic(auto, unfolding(crate::specs::RecordReaders::move_with))]
fn read_move_parts(alloc: Global, sheet: &[u8], points: &[&[u8]]) -> Result<Record, LineFault>
    requires { length points.now + 1 < 2 ^ 32 }
    ensures { Gives result (move_with sheet.now (shown points.now)) }
{
    let Some(sheet) = read_sheet(sheet) else {
        return Err(LineFault::Syntax);
    };
    let points = read_points(alloc, points)?;
    Ok(Record::Move { sheet, points })
}

#[tactic(auto, unfolding(crate::specs::RecordReaders::move_of))]
pub(crate) fn read_move(alloc: Global, words: &[&[u8]]) -> Result<Record, LineFault>
    requires { length words.now + 1 < 2 ^ 32 }
    ensures { Gives result (move_of (shown words.now)) }
{
    match words {
        [sheet, points @ ..] if points.len() > 1 => read_move_parts(alloc, sheet, points),
        _ => Err(LineFault::Syntax),
    }
}

/// Writes points and actions in turn.
pub(crate) fn put_turns(out: &mut Vec<u8>, points: &[Tick], acts: &[Name]) -> Result<(), Memory>
    requires { length points.now ≡ length acts.now + 1 }
    ensures { OnOk result (out.new.items ≡ out.old.items
        ++ flat_map (λ word. 32 ∷ word) (turns_words points.now acts.now)) }
{
    put_number_word(out, points[0])?;
    for i in 0..acts.len() {
        put_word(out, acts[i].as_bytes())?;
        put_number_word(out, points[i + 1])?;
    }
    Ok(())
}

pub(crate) fn put_points(out: &mut Vec<u8>, points: &[Tick]) -> Result<(), Memory>
    ensures { OnOk result (out.new.items ≡ out.old.items
        ++ flat_map (λ word. 32 ∷ word) (map decimal points.now)) }
{
    for point in points {
        put_number_word(out, *point)?;
    }
    Ok(())
}
