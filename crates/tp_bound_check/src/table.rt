//! Room rows by states.
ghost use Rattle.std.specs.Prelude.{◌≡◌, ℕ, ◌+◌, ◌*◌, ◌<◌, [], ◌∷◌, ◌++◌, length, slice_index_or, IfOk, IfSome, None, Some, set, replicate, false};
ghost use Rattle.std.specs.Prelude.{vec_len, List};
ghost use Rattle.tp_bounds.specs.declared.tree.TreeRow.{TreeRow};
ghost use Rattle.tp_bound_check.specs.Tables.{AreRooms, face_part, first_with, is_by, least_with, place_of};
ghost use Rattle.tp_bound_laws.specs.Rows.{state_of};

use std::alloc::{AllocError, Global};
use tp_base::Memory;
use tp_bounds::{NamedState, TreeRow, TreeRows};
use tp_machine::{Face, LocId, Machine, State};

/// The state of this name.
pub(crate) fn state_of(machine: &Machine, named: &NamedState) -> Option<State>
    ensures state { result ≡ state_of machine.now named.now }
    ensures known { IfSome result (λ s. s.loc.0 < length machine.now.locations) }
{
    match machine.locations.find(&named.place) {
        Some(at) => Some(State {
            loc: LocId(at),
            up: named.up,
            front_done: named.front_done,
            back_done: named.back_done,
        }),
        None => None,
    }
}

fn face_part(up: Face) -> usize
    ensures { result ≡ face_part up }
{
    match up {
        Face::Front => 0,
        Face::Back => 4,
    }
}

/// The place of a state in a table.
pub(crate) fn place_of(state: State) -> usize
    ensures place { result ≡ place_of state }
    ensures within { result < state.loc.0 * 8 + 8 }
{
    let front = if state.front_done { 2 } else { 0 };
    let back = if state.back_done { 1 } else { 0 };
    usize::from(state.loc.0) * 8 + (face_part(state.up) + (front + back))
}

fn least_with(room: u32, old: Option<u32>) -> Option<u32>
    ensures { result ≡ least_with room old }
{
    match old {
        Some(other) => Some(other.min(room)),
        None => Some(room),
    }
}

fn first_with(room: u32, old: Option<u32>) -> Option<u32>
    ensures { result ≡ first_with room old }
{
    match old {
        Some(other) => Some(other),
        None => Some(room),
    }
}

/// The numbers of the rows by the places of their states: that of the first row of a state, and the
/// least one.
#[derive(Drop)]
pub(crate) struct Table {
    firsts: Vec<Option<u32>>,
    leasts: Vec<Option<u32>>,
}

fn write_row(firsts: &mut Vec<Option<u32>>, leasts: &mut Vec<Option<u32>>, state: State, room: u32)
    requires in_firsts { place_of state < vec_len firsts.old }
    requires in_leasts { place_of state < vec_len leasts.old }
    ensures firsts { firsts.new.items ≡ set firsts.old.items (place_of state) (first_with room
        (slice_index_or firsts.old.items (place_of state) None)) }
    ensures leasts { leasts.new.items ≡ set leasts.old.items (place_of state) (least_with room
        (slice_index_or leasts.old.items (place_of state) None)) }
    ensures same_firsts { vec_len firsts.new ≡ vec_len firsts.old }
    ensures same_leasts { vec_len leasts.new ≡ vec_len leasts.old }
{
    let place = place_of(state);
    firsts[place] = first_with(room, firsts[place]);
    leasts[place] = least_with(room, leasts[place]);
}

fn note_row(
    machine: &Machine,
    row: &TreeRow,
    firsts: &mut Vec<Option<u32>>,
    leasts: &mut Vec<Option<u32>>,
)
    requires in_firsts { vec_len firsts.old ≡ length machine.now.locations * 8 }
    requires in_leasts { vec_len leasts.old ≡ length machine.now.locations * 8 }
    ensures rooms { (rows : List TreeRow) → AreRooms machine.now rows firsts.old.items
        leasts.old.items → AreRooms machine.now (rows ++ row.entry.now ∷ []) firsts.new.items
        leasts.new.items }
    ensures same_firsts { vec_len firsts.new ≡ vec_len firsts.old }
    ensures same_leasts { vec_len leasts.new ≡ vec_len leasts.old }
{
    match state_of(machine, &row.state) {
        Some(state) => write_row(firsts, leasts, state, row.room),
        None => {}
    }
}

fn nothings(alloc: Global, count: usize) -> Result<Vec<Option<u32>>, AllocError>
    ensures items { IfOk result (λ v. v.items ≡ replicate count None) }
    ensures len { IfOk result (λ v. vec_len v ≡ count) }
{
    vec![in alloc; None; count]
}

fn fill(
    machine: &Machine,
    rows: &TreeRows,
    firsts: &mut Vec<Option<u32>>,
    leasts: &mut Vec<Option<u32>>,
)
    requires in_firsts { vec_len firsts.old ≡ length machine.now.locations * 8 }
    requires in_leasts { vec_len leasts.old ≡ length machine.now.locations * 8 }
    requires empty { AreRooms machine.now [] firsts.old.items leasts.old.items }
    ensures { AreRooms machine.now rows.now firsts.new.items leasts.new.items }
{
    'rows: for at in 0..rows.len() {
        note_row(machine, rows.get(at), firsts, leasts);
    }
}

impl Table {
    pub(crate) fn new(alloc: Global, machine: &Machine, rows: &TreeRows) -> Result<Table, Memory>
        ensures { IfOk result (λ t. AreRooms machine.now rows.now t.firsts.items t.leasts.items) }
    {
        let count = machine.locations.len() as usize * 8;
        let mut firsts = nothings(alloc, count)?;
        let mut leasts = nothings(alloc, count)?;
        fill(machine, rows, &mut firsts, &mut leasts);
        Ok(Table { firsts, leasts })
    }

    /// The number of the first row of the state.
    pub(crate) fn first(&self, state: State) -> Option<u32>
        ensures { result ≡ slice_index_or self.now.firsts.items (place_of state) None }
    {
        match self.firsts.as_slice().get(place_of(state)) {
            Some(first) => *first,
            None => None,
        }
    }

    /// Whether a row of the state has at most this number.
    pub(crate) fn has_by(&self, state: State, top: u64) -> bool
        ensures { result ≡ is_by top (slice_index_or self.now.leasts.items
            (place_of state) None) }
    {
        match self.leasts.as_slice().get(place_of(state)) {
            Some(Some(room)) => u64::from(*room) <= top,
            _ => false,
        }
    }
}
