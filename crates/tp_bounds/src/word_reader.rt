//! The words of bound lines read: states, points, holds and hops.
ghost use Rattle.std.specs.Prelude.{◌≡◌, ◌≤◌};
ghost use Rattle.tp_words.specs.Fields.{begins_with};
ghost use Rattle.tp_words.specs.Parts.{lacks};
ghost use Rattle.tp_bounds.specs.Words.{bit_of, flags_of, state_of, numbered_of, own_point_of, point_of, own_hold_of, hold_of, holders_of, resource_hop_of, duration_hop_of, line_hop_of, hop_of};

use crate::hops::{Hop, TreeHold, TreePoint};
use crate::sheets::read_sheet;
use crate::tree::NamedState;
use tp_machine::Face;
use tp_schedule::SheetName;
use tp_script::read_face;
use tp_words::{cut, read_name, read_number};

/// What stands behind the place of a state.
#[derive(Clone, Copy, PartialEq, Eq, Debug)]
pub struct Flags {
    pub up: Face,
    pub front_done: bool,
    pub back_done: bool,
}

/// What stands behind the name of a resource.
#[derive(Clone, Copy, PartialEq, Eq, Debug)]
pub struct Holders {
    pub before: TreeHold,
    pub after: TreeHold,
}

fn read_bit(byte: u8) -> Option<bool>
    ensures { result ≡ bit_of byte }
{
    match byte {
        b'0' => Some(false),
        b'1' => Some(true),
        _ => None,
    }
}

#[tactic(auto, unfolding(crate::specs::Words::flags_of))]
fn read_flags(word: &[u8]) -> Option<Flags>
    ensures { result ≡ flags_of word.now }
{
    let [up, front, back] = word else {
        return None;
    };
    let up = read_face(*up)?;
    let front_done = read_bit(*front)?;
    let back_done = read_bit(*back)?;
    Some(Flags {
        up,
        front_done,
        back_done,
    })
}

#[tactic(auto, unfolding(crate::specs::Words::state_of, tp_words::specs::Fields::pair_of))]
pub(crate) fn read_state(word: &[u8]) -> Option<NamedState>
    ensures { result ≡ state_of word.now }
{
    let (place, flags) = cut(word, b':')?;
    let place = read_name(place)?;
    let flags = read_flags(flags)?;
    Some(NamedState {
        place,
        up: flags.up,
        front_done: flags.front_done,
        back_done: flags.back_done,
    })
}

#[tactic(auto, unfolding(tp_words::specs::Fields::pair_of))]
fn read_numbered(word: &[u8], separator: u8) -> Option<(SheetName, u32)>
    ensures { result ≡ numbered_of separator word.now }
{
    let (sheet, number) = cut(word, separator)?;
    let sheet = read_sheet(sheet)?;
    let number = read_number(number)?;
    Some((sheet, number))
}

fn begins(word: &[u8], byte: u8) -> bool
    requires { 1 ≤ byte }
    ensures { result ≡ begins_with byte word.now }
{
    !word.is_empty() && word[0] == byte
}

#[tactic(auto, unfolding(tp_words::specs::Fields::after_of))]
fn read_own_point(word: &[u8]) -> Option<TreePoint>
    ensures { result ≡ own_point_of word.now }
{
    let [star, digits @ ..] = word else {
        return None;
    };
    if *star != b'*' {
        return None;
    }
    read_number(digits).map(TreePoint::Own)
}

#[tactic(auto, unfolding(crate::specs::Words::point_of))]
pub(crate) fn read_point(word: &[u8]) -> Option<TreePoint>
    ensures { result ≡ point_of word.now }
{
    if begins(word, b'*') {
        read_own_point(word)
    } else {
        read_numbered(word, b'@').map(|(sheet, at)| TreePoint::Kept { sheet, at })
    }
}

#[tactic(auto, unfolding(tp_words::specs::Fields::after_of))]
fn read_own_hold(word: &[u8]) -> Option<TreeHold>
    ensures { result ≡ own_hold_of word.now }
{
    let [star, slash, digits @ ..] = word else {
        return None;
    };
    if *star != b'*' || *slash != b'/' {
        return None;
    }
    read_number(digits).map(TreeHold::Own)
}

#[tactic(auto, unfolding(crate::specs::Words::hold_of))]
fn read_hold(word: &[u8]) -> Option<TreeHold>
    ensures { result ≡ hold_of word.now }
{
    if begins(word, b'*') {
        read_own_hold(word)
    } else {
        read_numbered(word, b'/').map(|(sheet, act)| TreeHold::Kept { sheet, act })
    }
}

#[tactic(auto, unfolding(crate::specs::Words::holders_of, tp_words::specs::Fields::pair_of))]
fn read_holders(word: &[u8]) -> Option<Holders>
    ensures { result ≡ holders_of word.now }
{
    let (before, after) = cut(word, b'>')?;
    let before = read_hold(before)?;
    let after = read_hold(after)?;
    Some(Holders { before, after })
}

#[tactic(auto, unfolding(tp_words::specs::Fields::pair_of))]
fn read_resource_hop(word: &[u8]) -> Option<Hop>
    ensures { result ≡ resource_hop_of word.now }
{
    let (name, holders) = cut(word, b':')?;
    let name = read_name(name)?;
    let holders = read_holders(holders)?;
    Some(Hop::Resource {
        name,
        before: holders.before,
        after: holders.after,
    })
}

#[tactic(auto, unfolding(tp_words::specs::Fields::after_of))]
fn read_duration_hop(word: &[u8]) -> Option<Hop>
    ensures { result ≡ duration_hop_of word.now }
{
    let [letter, colon, point @ ..] = word else {
        return None;
    };
    if *letter != b'd' || *colon != b':' {
        return None;
    }
    read_point(point).map(Hop::Duration)
}

#[tactic(auto, unfolding(tp_words::specs::Fields::after_of))]
fn read_line_hop(word: &[u8]) -> Option<Hop>
    ensures { result ≡ line_hop_of word.now }
{
    let [letter, colon, point @ ..] = word else {
        return None;
    };
    if *letter != b'l' || *colon != b':' {
        return None;
    }
    read_point(point).map(Hop::Line)
}

fn lacks_arrow(word: &[u8]) -> bool
    ensures { result ≡ lacks 62 word.now }
{
    word.iter().all(|byte| *byte != b'>')
}

/// One hop. A resource may be named `d` or `l`: the arrow tells.
#[tactic(auto, unfolding(crate::specs::Words::hop_of))]
pub(crate) fn read_hop(word: &[u8]) -> Option<Hop>
    ensures { result ≡ hop_of word.now }
{
    if lacks_arrow(word) {
        if begins(word, b'd') {
            read_duration_hop(word)
        } else {
            read_line_hop(word)
        }
    } else {
        read_resource_hop(word)
    }
}
