//! The check of room rows.
ghost use Rattle.std.specs.Prelude.{◌≡◌, ◌+◌, ◌<◌, ◌≤◌, [], ◌∷◌, ◌++◌, length, IfOk, None, Some, true, false, not, ◌&&◌, ◌||◌, set, slice_index_or, replicate, vec_len, List, ◌*◌};
ghost use Rattle.std.specs.List.{list_all};
ghost use Rattle.std.specs.Str.{bytes_eq};
ghost use Rattle.tp_bound_check.specs.Links.{starts_of};
ghost use Rattle.tp_bound_check.specs.Tables.{AreRooms, AreSeen, place_of};
ghost use Rattle.tp_schedule.specs.LocationSets.{has};
ghost use Rattle.tp_schedule.specs.Routes.{fresh};
ghost use Rattle.tp_bound_laws.specs.Rows.{row_of, state_of};
ghost use Rattle.tp_bound_laws.specs.Flaws.{are_starts_kept, are_steps_kept, bad_row, has_row_by, is_good_row, is_row_after, is_step_kept};
ghost use Rattle.tp_bounds.specs.declared.tree.TreeRow.{TreeRow};

use crate::links::Links;
use crate::table::{Table, place_of, state_of};
use std::alloc::{AllocError, Global};
use tp_base::Memory;
use tp_bounds::{TreeRow, TreeRows};
use tp_machine::{ActId, Feeder, Machine, State, allowed, step};
use tp_schedule::{Ask, Origin, new_sheet};

/// Rows for an ask, with a table of them, and the actions by where they start.
#[derive(Clone, Copy)]
pub(crate) struct Rows<'a> {
    pub(crate) machine: &'a Machine,
    pub(crate) ask: &'a Ask,
    pub(crate) rows: &'a TreeRows,
    pub(crate) table: &'a Table,
    pub(crate) starts: &'a Links,
    pub(crate) ghost rooms: { AreRooms machine.now rows.now table.now.firsts.items
        table.now.leasts.items },
    pub(crate) ghost starting: { starts.now.locations.items ≡ starts_of machine.now },
}

impl<'a> Rows<'a> {
    fn has_by(&self, state: State, top: u64) -> bool
        ensures { result ≡ has_row_by self.now.machine.now self.now.ask.now
            self.now.rows.now state
            top }
    {
        self.table.has_by(state, top)
    }

    /// The number of the row of a state.
    pub(crate) fn row_of(&self, state: State) -> Option<u32>
        ensures { result ≡ row_of self.now.machine.now self.now.rows.now state }
    {
        self.table.first(state)
    }

    fn is_row_after(&self, top: u64, after: Option<State>) -> bool
        ensures { result ≡ is_row_after self.now.machine.now self.now.ask.now
            self.now.rows.now top
            after }
    {
        match after {
            Some(state) => self.has_by(state, top),
            None => true,
        }
    }

    fn is_step_kept(&self, state: State, room: u32, act: u16) -> bool
        requires { act < length self.now.machine.now.actions }
        ensures { result ≡ is_step_kept self.now.machine.now self.now.ask.now self.now.rows.now
            state room (record { 0 = act }) }
    {
        if !allowed(self.machine, self.ask.outs, ActId(act)) {
            return true;
        }
        let action = self.machine.actions.get(u32::from(act));
        let top = u64::from(room) + u64::from(action.least);
        self.is_row_after(top, step(action, &self.ask.want, state))
    }

    fn are_steps_kept(&self, state: State, room: u32) -> bool
        ensures { result ≡ are_steps_kept self.now.machine.now self.now.ask.now self.now.rows.now
            state room (length self.now.machine.now.actions) }
    {
        let mut cursor = self.starts.first(state.loc.0);
        'acts: while let Some(act) = cursor {
            if !self.is_step_kept(state, room, act) {
                return false;
            }
            cursor = self.starts.after(act);
        }
        true
    }

    /// Whether the row is of a location's state that was not seen, and the steps from it are kept.
    fn is_good(&self, seen: &[bool], row: &TreeRow) -> bool
        ensures { (earlier : List TreeRow) → AreSeen self.now.machine.now earlier
            seen.now → result
            ≡ is_good_row self.now.machine.now self.now.ask.now self.now.rows.now
            earlier row.now }
    {
        match state_of(self.machine, &row.state) {
            Some(state) => !was_seen(seen, state) && self.are_steps_kept(state, row.room),
            None => false,
        }
    }

    fn is_feeder_kept(&self, feeder: &Feeder) -> bool
        ensures { result ≡ (not (bytes_eq feeder.now.media self.now.ask.now.want.media &&
            not (has self.now.ask.now.empty feeder.now.loc)) || has_row_by self.now.machine.now
            self.now.ask.now self.now.rows.now (fresh feeder.now.loc) 0) }
    {
        let fed = feeder.media == self.ask.want.media && self.ask.may_begin_at(feeder.loc);
        !fed || self.has_by(new_sheet(feeder.loc), 0)
    }

    fn are_feeders_kept(&self, feeders: &[Feeder]) -> bool
        ensures { result ≡ list_all (λ f. not (bytes_eq f.media self.now.ask.now.want.media &&
            not (has self.now.ask.now.empty f.loc)) || has_row_by self.now.machine.now
            self.now.ask.now self.now.rows.now (fresh f.loc) 0) feeders.now }
    {
        feeders.iter().all(|feeder| self.is_feeder_kept(feeder))
    }

    fn are_starts_kept(&self) -> bool
        ensures { result ≡ are_starts_kept self.now.machine.now self.now.ask.now self.now.rows.now
            self.now.ask.now.origin }
    {
        match self.ask.origin {
            Origin::Feeder => self.are_feeders_kept(self.machine.feeders.as_slice()),
            Origin::Front { state, .. } => self.has_by(state, 0),
        }
    }

    /// The number of the first row that isn't good, or that of the rows where a start state has
    /// none.
    pub(crate) fn first_bad(&self, alloc: Global) -> Result<Option<u64>, Memory>
        ensures { IfOk result (λ bad. bad ≡ bad_row self.now.machine.now self.now.ask.now
            self.now.rows.now) }
    {
        let mut seen = unseen(alloc, self.machine.locations.len() as usize * 8)?;
        'rows: for at in 0..self.rows.len() {
            let row = self.rows.get(at);
            if !self.is_good(seen.as_slice(), row) {
                return Ok(Some(at));
            }
            see(self.machine, &mut seen, row);
        }
        if self.are_starts_kept() {
            Ok(None)
        } else {
            Ok(Some(self.rows.len()))
        }
    }
}

fn unseen(alloc: Global, count: usize) -> Result<Vec<bool>, AllocError>
    ensures items { IfOk result (λ v. v.items ≡ replicate count false) }
    ensures len { IfOk result (λ v. vec_len v ≡ count) }
{
    vec![in alloc; false; count]
}

fn was_seen(seen: &[bool], state: State) -> bool
    ensures { result ≡ slice_index_or seen.now (place_of state) false }
{
    match seen.get(place_of(state)) {
        Some(was) => *was,
        None => false,
    }
}

fn write_seen(seen: &mut Vec<bool>, state: State)
    requires within { place_of state < vec_len seen.old }
    ensures seen { seen.new.items ≡ set seen.old.items (place_of state) true }
    ensures len { vec_len seen.new ≡ vec_len seen.old }
{
    let place = place_of(state);
    seen[place] = true;
}

fn see(machine: &Machine, seen: &mut Vec<bool>, row: &TreeRow)
    requires within { vec_len seen.old ≡ length machine.now.locations * 8 }
    ensures seen { (earlier : List TreeRow)
        → AreSeen machine.now earlier seen.old.items → AreSeen
        machine.now (earlier ++ row.entry.now ∷ []) seen.new.items }
    ensures len { vec_len seen.new ≡ vec_len seen.old }
{
    match state_of(machine, &row.state) {
        Some(state) => write_seen(seen, state),
        None => {}
    }
}
