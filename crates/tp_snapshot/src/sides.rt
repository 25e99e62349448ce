//! What is wanted of the sides of a sheet: the front's want, the back's, `:`, and the side that is up.
ghost use Rattle.std.specs.Prelude.{◌≡◌, ◌++◌, OnOk};
ghost use Rattle.tp_script.specs.EventReaders.{want_of};
ghost use Rattle.tp_script.specs.Script.{spec_text, want_byte};
ghost use Rattle.tp_snapshot.specs.Copies.{sides_of};
ghost use Rattle.tp_snapshot.specs.Written.{one_sheet};

use tp_base::Memory;
use tp_machine::{Sheet, Want};
use tp_script::{Group, face_letter, read_face};

fn read_want(byte: u8) -> Option<Want>
    ensures { result ≡ want_of byte }
{
    match byte {
        b'-' => Some(Want::Blank),
        b'M' => Some(Want::Mono),
        b'C' => Some(Want::Colour),
        _ => None,
    }
}

fn want_letter(want: Want) -> u8
    ensures { result ≡ want_byte want }
{
    match want {
        Want::Blank => b'-',
        Want::Mono => b'M',
        Want::Colour => b'C',
    }
}

/// What is wanted of the sides of one sheet.
#[tactic(auto, unfolding(tp_script::specs::EventReaders::group_with))]
pub(crate) fn read_sides(text: &[u8]) -> Option<Group>
    ensures { result ≡ sides_of text.now }
{
    let [front, back, colon, face] = text else {
        return None;
    };
    let front = read_want(*front)?;
    let back = read_want(*back)?;
    let face = read_face(*face)?;
    if *colon != b':' {
        return None;
    }
    Some(Group {
        count: 1,
        front,
        back,
        face,
    })
}

pub(crate) fn put_sides(out: &mut Vec<u8>, want: &Sheet) -> Result<(), Memory>
    ensures { OnOk result (out.new.items ≡ out.old.items ++ spec_text (one_sheet want.now)) }
{
    let sides = [
        want_letter(want.front),
        want_letter(want.back),
        b':',
        face_letter(want.face),
    ];
    out.extend_from_slice(&sides)?;
    Ok(())
}
