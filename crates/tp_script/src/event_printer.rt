//! Events as lines.
ghost use Rattle.std.specs.Prelude.{◌≡◌, ◌++◌, ◌∷◌, OnOk, OnErr, map, codes};
ghost use Rattle.std.specs.List.{flat_map};
ghost use Rattle.tp_words.specs.Texts.{spaced};
ghost use Rattle.tp_script.specs.Script.{group_text, event_text};

use crate::event::{Event, Group};
use crate::group::put_group;
use tp_base::{Memory, Name};
use tp_words::{put_number, put_number_word, put_word};

fn put_groups(out: &mut Vec<u8>, groups: &[Group]) -> Result<(), Memory>
    ensures { OnOk result (out.new.items ≡ out.old.items
        ++ flat_map (λ word. 32 ∷ word) (map group_text groups.now)) }
{
    for group in groups {
        out.push(b' ')?;
        put_group(out, group)?;
    }
    Ok(())
}

/// Writes the words of a job, with one space between each two.
fn put_job(
    out: &mut Vec<u8>,
    name: &Name,
    tray: &Name,
    media: &Name,
    groups: &[Group],
) -> Result<(), Memory>
    ensures { OnOk result (out.new.items ≡ out.old.items
        ++ spaced (codes "job" ∷ name.now ∷ tray.now ∷ media.now ∷ map group_text groups.now)) }
{
    out.extend_from_slice(b"job")?;
    put_word(out, name.as_bytes())?;
    put_word(out, tray.as_bytes())?;
    put_word(out, media.as_bytes())?;
    put_groups(out, groups)
}

/// Writes a verb and the name that follows it.
fn put_verb(out: &mut Vec<u8>, verb: &[u8], name: &Name) -> Result<(), Memory>
    ensures { OnOk result (out.new.items ≡ out.old.items ++ verb.now ++ 32 ∷ name.now) }
{
    out.extend_from_slice(verb)?;
    put_word(out, name.as_bytes())
}

/// Writes the words of the event, with one space between each two.
fn put_event(out: &mut Vec<u8>, event: &Event) -> Result<(), Memory>
    ensures { OnOk result (out.new.items ≡ out.old.items ++ event_text event.now) }
{
    match event {
        Event::Bad => out.push(b'?')?,
        Event::Job {
            name,
            tray,
            media,
            groups,
        } => put_job(out, name, tray, media, groups.as_slice())?,
        Event::Clock { to } => {
            out.extend_from_slice(b"clock ")?;
            put_number(out, *to)?;
        }
        Event::Jam { module } => put_verb(out, b"jam", module)?,
        Event::Off { module } => put_verb(out, b"off", module)?,
        Event::On { module } => put_verb(out, b"on", module)?,
        Event::Refill { feeder, count } => {
            put_verb(out, b"refill", feeder)?;
            put_number_word(out, *count)?;
        }
    }
    Ok(())
}

/// Appends the event's text, without an LF: its words with one space between, numbers without
/// leading zeros, a group of count 1 as its sheet alone, and `?` for a bad line. After `Memory` the
/// buffer is as before.
pub fn print_event(event: &Event, out: &mut Vec<u8>) -> Result<(), Memory>
    ensures printed { OnOk result (out.new.items ≡ out.old.items ++ event_text event.now) }
    ensures memory { OnErr result (out.new.items ≡ out.old.items) }
{
    let mut text = Vec::new(*out.allocator());
    put_event(&mut text, event)?;
    out.extend_from_slice(&text)?;
    Ok(())
}
