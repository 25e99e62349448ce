//! Why a node is closed, read.
ghost use Rattle.std.specs.Prelude.{◌≡◌, ◌+◌, ◌<◌, ◌^◌, length, IfOk};
ghost use Rattle.tp_words.specs.Parts.{shown};
ghost use Rattle.tp_bounds.specs.Lines.{hops_of, bare_of, chain_of, loop_with, loop_of, close_of};

use crate::hops::Hops;
use crate::tree::Close;
use crate::word_reader::{read_hop, read_point};
use std::alloc::Global;
use tp_base::Memory;

fn read_hops(alloc: Global, words: &[&[u8]]) -> Result<Option<Hops>, Memory>
    requires { length words.now + 1 < 2 ^ 32 }
    ensures { IfOk result (λ hops. hops ≡ hops_of (shown words.now)) }
{
    let mut hops = Hops::new(alloc);
    for word in words {
        match read_hop(word) {
            None => return Ok(None),
            Some(hop) => hops.push(hop)?,
        }
    }
    Ok(Some(hops))
}

/// The close, if no word follows.
#[tactic(auto, unfolding(crate::specs::Lines::bare_of))]
fn bare(close: Close, words: &[&[u8]]) -> Option<Close>
    ensures { result ≡ bare_of close (shown words.now) }
{
    if words.is_empty() { Some(close) } else { None }
}

#[tactic(auto, unfolding(crate::specs::Lines::chain_of))]
fn read_chain(alloc: Global, words: &[&[u8]]) -> Result<Option<Close>, Memory>
    requires { length words.now + 1 < 2 ^ 32 }
    ensures { IfOk result (λ close. close ≡ chain_of (shown words.now)) }
{
    let [point, others @ ..] = words else {
        return Ok(None);
    };
    let Some(first) = read_point(point) else {
        return Ok(None);
    };
    match read_hops(alloc, others)? {
        None => Ok(None),
        Some(hops) => Ok(Some(Close::Chain { first, hops })),
    }
}

#[tactic(auto, unfolding(crate::specs::Lines::loop_with))]
fn read_loop_parts(alloc: Global, point: &[u8], words: &[&[u8]]) -> Result<Option<Close>, Memory>
    requires { length words.now + 1 < 2 ^ 32 }
    ensures { IfOk result (λ close. close ≡ loop_with point.now (shown words.now)) }
{
    let Some(first) = read_point(point) else {
        return Ok(None);
    };
    match read_hops(alloc, words)? {
        None => Ok(None),
        Some(hops) => Ok(Some(Close::Loop { first, hops })),
    }
}

#[tactic(auto, unfolding(crate::specs::Lines::loop_of))]
fn read_loop(alloc: Global, words: &[&[u8]]) -> Result<Option<Close>, Memory>
    requires { length words.now + 1 < 2 ^ 32 }
    ensures { IfOk result (λ close. close ≡ loop_of (shown words.now)) }
{
    match words {
        [point, others @ ..] if others.len() > 0 => read_loop_parts(alloc, point, others),
        _ => Ok(None),
    }
}

#[tactic(auto, unfolding(crate::specs::Lines::close_of))]
pub(crate) fn read_close(alloc: Global, words: &[&[u8]]) -> Result<Option<Close>, Memory>
    requires { length words.now + 1 < 2 ^ 32 }
    ensures { IfOk result (λ close. close ≡ close_of (shown words.now)) }
{
    let [word, others @ ..] = words else {
        return Ok(None);
    };
    if *word == b"split".as_slice() {
        Ok(bare(Close::Split, others))
    } else if *word == b"dead".as_slice() {
        Ok(bare(Close::Dead, others))
    } else if *word == b"chain".as_slice() {
        read_chain(alloc, others)
    } else if *word == b"loop".as_slice() {
        read_loop(alloc, others)
    } else {
        Ok(None)
    }
}
