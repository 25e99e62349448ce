//! The words of bound lines written.
ghost use Rattle.std.specs.Prelude.{◌≡◌, ◌++◌, ◌∷◌, [], All, OnOk, decimal, map};
ghost use Rattle.tp_bounds.specs.Lines.{behind_spaces};
ghost use Rattle.tp_words.specs.Fields.{IsName};
ghost use Rattle.tp_bounds.specs.Sheets.{IsSheet, sheet_text};
ghost use Rattle.tp_bounds.specs.Words.{IsPoint, IsHold, IsHop, bit_byte, state_text, point_text, hold_text, hop_text};

use crate::hops::{Hop, TreeHold, TreePoint};
use crate::sheets::put_sheet;
use crate::tree::NamedState;
use tp_base::Memory;
use tp_schedule::SheetName;
use tp_script::face_letter;
use tp_words::{put_name_word, put_number};

/// Writes a copy and a number, with the byte between.
fn put_numbered(
    out: &mut Vec<u8>,
    sheet: &SheetName,
    separator: u8,
    number: u32,
) -> Result<(), Memory>
    ensures written { OnOk result (out.new.items ≡ out.old.items
        ++ (sheet_text sheet.now ++ separator ∷ decimal number)) }
    ensures spelled { OnOk result (IsSheet sheet.now) }
{
    put_sheet(out, sheet)?;
    out.push(separator)?;
    put_number(out, number)
}

fn bit_letter(bit: bool) -> u8
    ensures { result ≡ bit_byte bit }
{
    if bit { b'1' } else { b'0' }
}

pub(crate) fn put_state_word(out: &mut Vec<u8>, state: &NamedState) -> Result<(), Memory>
    ensures written { OnOk result (out.new.items ≡ out.old.items ++ 32 ∷ state_text state.now) }
    ensures spelled { OnOk result (IsName state.now.place) }
{
    put_name_word(out, &state.place)?;
    let flags = [
        b':',
        face_letter(state.up),
        bit_letter(state.front_done),
        bit_letter(state.back_done),
    ];
    out.extend_from_slice(&flags)?;
    Ok(())
}

fn put_point(out: &mut Vec<u8>, point: &TreePoint) -> Result<(), Memory>
    ensures written { OnOk result (out.new.items ≡ out.old.items ++ point_text point.now) }
    ensures spelled { OnOk result (IsPoint point.now) }
{
    match point {
        TreePoint::Own(number) => {
            out.push(b'*')?;
            put_number(out, *number)
        }
        TreePoint::Kept { sheet, at } => put_numbered(out, sheet, b'@', *at),
    }
}

pub(crate) fn put_point_word(out: &mut Vec<u8>, point: &TreePoint) -> Result<(), Memory>
    ensures written { OnOk result (out.new.items ≡ out.old.items ++ 32 ∷ point_text point.now) }
    ensures spelled { OnOk result (IsPoint point.now) }
{
    out.push(b' ')?;
    put_point(out, point)
}

fn put_hold(out: &mut Vec<u8>, hold: &TreeHold) -> Result<(), Memory>
    ensures written { OnOk result (out.new.items ≡ out.old.items ++ hold_text hold.now) }
    ensures spelled { OnOk result (IsHold hold.now) }
{
    match hold {
        TreeHold::Own(number) => {
            out.extend_from_slice(b"*/")?;
            put_number(out, *number)
        }
        TreeHold::Kept { sheet, act } => put_numbered(out, sheet, b'/', *act),
    }
}

fn put_hop_word(out: &mut Vec<u8>, hop: &Hop) -> Result<(), Memory>
    ensures written { OnOk result (out.new.items ≡ out.old.items ++ 32 ∷ hop_text hop.now) }
    ensures spelled { OnOk result (IsHop hop.now) }
{
    match hop {
        Hop::Duration(to) => {
            out.extend_from_slice(b" d:")?;
            put_point(out, to)
        }
        Hop::Line(to) => {
            out.extend_from_slice(b" l:")?;
            put_point(out, to)
        }
        Hop::Resource {
            name,
            before,
            after,
        } => {
            put_name_word(out, name)?;
            out.push(b':')?;
            put_hold(out, before)?;
            out.push(b'>')?;
            put_hold(out, after)
        }
    }
}

pub(crate) fn put_hop_words(out: &mut Vec<u8>, hops: &[Hop]) -> Result<(), Memory>
    ensures written { OnOk result (out.new.items ≡ out.old.items
        ++ behind_spaces (map hop_text hops.now)) }
    ensures spelled { OnOk result (All IsHop hops.now) }
{
    for hop in hops {
        put_hop_word(out, hop)?;
    }
    Ok(())
}
