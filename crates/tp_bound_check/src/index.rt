//! Where keys stand in a list.
ghost use Rattle.std.specs.Prelude.{◌≡◌, IfOk};
ghost use Rattle.std.specs.HashMap.{get};
ghost use Rattle.std.specs.List.{position_from};
ghost use Rattle.tp_bound_check.specs.Keys.{sheet_key, start_key};

use crate::points::Point;
use std::alloc::Global;
use std::collections::HashMap;
use std::hash::Hash;
use tp_base::{Memory, Name};
use tp_schedule::SheetName;

/// A point, as it is looked up: one of a copy, or an own one, of no copy.
#[derive(Clone, Copy, PartialEq, Eq, Hash)]
pub(crate) struct StartKey {
    pub(crate) own: bool,
    pub(crate) job: u32,
    pub(crate) number: u32,
    pub(crate) copy: u32,
    pub(crate) at: u32,
}

/// A copy by the name of its job, as it is looked up.
#[derive(Clone, Copy, PartialEq, Eq, Hash)]
pub(crate) struct SheetKey {
    pub(crate) job: Name,
    pub(crate) number: u32,
    pub(crate) copy: u32,
}

pub(crate) fn start_key(point: Point) -> StartKey
    ensures { result ≡ start_key point }
{
    match point.copy() {
        Some(copy) => StartKey {
            own: false,
            job: copy.job,
            number: copy.number,
            copy: copy.copy,
            at: point.at(),
        },
        None => StartKey {
            own: true,
            job: 0,
            number: 0,
            copy: 0,
            at: point.at(),
        },
    }
}

pub(crate) fn sheet_key(name: &SheetName) -> SheetKey
    ensures { result ≡ sheet_key name.now }
{
    SheetKey {
        job: name.job,
        number: name.number,
        copy: name.copy,
    }
}

/// The place of each of the keys: of equal ones that of the first.
pub(crate) fn places_of<K: Copy + Drop + Eq + Hash>(
    alloc: Global,
    keys: &[K],
) -> Result<HashMap<K, usize>, Memory>
    ensures { IfOk result (λ places. (key : K)
        → get K.eq places key ≡ position_from (λ k. K.eq k
        key) 0 keys.now) }
{
    let mut places = HashMap::with_capacity(alloc, keys.len())?;
    let mut at = keys.len();
    'keys: while at > 0 {
        at -= 1;
        places.insert(keys[at], at)?;
    }
    Ok(places)
}
