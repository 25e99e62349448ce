//! What points were before they changed: for the marks in force, and before the change that is being made.
ghost use Rattle.std.specs.Prelude.{◌≡◌, ℕ, ◌+◌, ◌*◌, ◌<◌, ◌≤◌, false, true, List, [], length, take, drop, slice_get, slice_set, Some, IfOk, vec_capacity};
ghost use Rattle.tp_stn_undo.specs.declared.point_state.PointState.{PointState};
ghost use Rattle.tp_stn_undo.specs.Saved.{restored};
ghost use Rattle.tp_stn_undo.specs.Times.{IsOneMoved, KeepTimes};
ghost use Rattle.tp_stn_undo.specs.Flags.{AreHeld, AreKnown, IsSameSave, points_in};

use crate::point_state::{PointState, SavedState};
use std::alloc::{AllocError, Global};
use std::marker::Model;
use tp_base::PointId;

/// What the points were before the changes that marks can take back, and behind that what they were before the change that is
/// being made, each point once.
#[derive(Drop)]
pub(crate) struct Changes {
    entries: Vec<SavedState>,
    /// How many of them stand before those of the change that is being made.
    before: usize,
    /// For each point whether it is among those of the change that is being made.
    noted: Vec<bool>,
}

// Clauses see what was saved before, what the points were before the change, how many points there can be, and how many can be
// saved in all.
impl Model for Changes {
    ghost use Rattle.tp_stn_undo.specs.Flags.{Noted};

    ghost Value = { Noted };

    ghost use Rattle.tp_stn_undo.specs.Notes.{noted_in, IsNoted};

    ghost view = { noted_in };

    ghost invariant = { IsNoted };
}

/// Takes the flags of the entries away.
fn forget_all(entries: &[SavedState], noted: &mut [bool])
    requires { AreHeld noted.old (points_in entries.now) }
    ensures none { AreHeld noted.new [] }
    ensures len { length noted.new ≡ length noted.old }
{
    let mut left = entries.len();
    'back: while left > 0 {
        left -= 1;
        noted[entries[left].point.0 as usize] = false;
    }
}

/// Makes the points what the entries say, the last first.
fn put_all_back(entries: &[SavedState], states: &mut [PointState])
    requires { AreKnown (length states.old) entries.now }
    ensures states { states.new ≡ restored entries.now states.old }
{
    let mut left = entries.len();
    'back: while left > 0 {
        left -= 1;
        let entry = &entries[left];
        states[entry.point.0 as usize] = entry.state;
    }
}

/// Whether a point before this one has another time than one of its entries says.
fn is_one_moved(entries: &[SavedState], end: PointId, states: &[PointState]) -> bool
    requires { AreKnown (length states.now) entries.now }
    ensures same { result ≡ false
        → KeepTimes end.0 (restored entries.now states.now) states.now }
    ensures moved { result ≡ true → IsOneMoved end.0 states.now entries.now }
{
    'each: for entry in entries {
        if entry.point.0 < end.0 && states[entry.point.0 as usize].time != entry.state.time {
            return true;
        }
    }
    false
}

/// Leaves the first one of each point from a place on.
fn leave_firsts(entries: &mut Vec<SavedState>, noted: &mut [bool], from: usize)
    requires from { from ≤ length entries.old.items }
    requires known { AreKnown (length noted.old) (drop from entries.old.items) }
    requires none { AreHeld noted.old [] }
    ensures before { take from entries.new.items ≡ take from entries.old.items }
    ensures back { (states : List PointState) → restored (drop from entries.new.items) states
        ≡ restored (drop from entries.old.items) states }
    ensures known { (count : ℕ) → AreKnown count (drop from entries.old.items)
        → AreKnown count (drop from entries.new.items) }
    ensures held { AreHeld noted.new (points_in (drop from entries.new.items)) }
    ensures len { length noted.new ≡ length noted.old }
    ensures capacity { vec_capacity entries.new ≡ vec_capacity entries.old }
{
    let mut left = from;
    'each: for at in from..entries.len() {
        let entry = entries[at];
        let point = entry.point.0 as usize;
        if !noted[point] {
            noted[point] = true;
            entries[left] = entry;
            left += 1;
        }
    }
    entries.truncate(left);
}

/// Leaves no more from a place on than there can be points.
fn make_short(entries: &mut Vec<SavedState>, noted: &mut [bool], from: usize)
    requires from { from ≤ length entries.old.items }
    requires known { AreKnown (length noted.old) (drop from entries.old.items) }
    requires none { AreHeld noted.old [] }
    ensures before { take from entries.new.items ≡ take from entries.old.items }
    ensures back { (states : List PointState) → restored (drop from entries.new.items) states
        ≡ restored (drop from entries.old.items) states }
    ensures known { (count : ℕ) → AreKnown count (drop from entries.old.items)
        → AreKnown count (drop from entries.new.items) }
    ensures few { length entries.new.items ≤ from + length noted.old }
    ensures none { AreHeld noted.new [] }
    ensures len { length noted.new ≡ length noted.old }
    ensures capacity { vec_capacity entries.new ≡ vec_capacity entries.old }
{
    if entries.len() - from <= noted.len() {
        return;
    }
    leave_firsts(entries, noted, from);
    forget_all(&entries[from..], noted);
}

impl Changes {
    /// Has room for so many points once for each mark and once more.
    pub(crate) fn new(alloc: Global, points: u32, marks: u32) -> Result<Changes, AllocError>
        ensures older { IfOk result (λ c. c.older ≡ []) }
        ensures entries { IfOk result (λ c. c.entries ≡ []) }
        ensures capacity { IfOk result (λ c. c.capacity ≡ points) }
        ensures most { IfOk result (λ c. points * (marks + 1) ≤ c.most) }
    {
        let capacity = points as usize;
        let mut noted = Vec::with_capacity(alloc, capacity)?;
        let Ok(()) = noted.resize(capacity, false) else {
            unreachable!()
        };
        Ok(Changes {
            entries: Vec::with_capacity(alloc, capacity * (marks as usize + 1))?,
            before: 0,
            noted,
        })
    }

    /// Notes what a point is before it changes for the first time.
    pub(crate) fn note(&mut self, point: PointId, state: &PointState)
        requires { point.0 < self.old.capacity }
        ensures back { (states : List PointState) (x : PointState)
            → slice_get states point.0 ≡ Some state.now
            → restored self.new.entries (slice_set states point.0 x)
            ≡ restored self.old.entries states }
        ensures known { (count : ℕ) → point.0 < count → AreKnown count self.old.entries
            → AreKnown count self.new.entries }
        ensures same { IsSameSave self.old self.new }
    {
        let at = point.0 as usize;
        if !self.noted[at] {
            self.noted[at] = true;
            self.entries.push_reserved(SavedState {
                point,
                state: PointState {
                    low: state.low,
                    time: state.time,
                    cause: state.cause,
                },
            });
        }
    }

    /// How many were saved before the change.
    pub(crate) fn saved(&self) -> usize
        ensures { result ≡ length self.now.older }
    {
        self.before
    }

    /// Whether a point before this one has another time than it had when so many were saved, or since.
    pub(crate) fn is_late(&self, from: usize, end: PointId, states: &[PointState]) -> bool
        requires from { from ≤ length self.now.older }
        requires known { AreKnown (length states.now) self.now.older }
        ensures same { result ≡ false
            → KeepTimes end.0 (restored (drop from self.now.older) states.now) states.now }
        ensures moved { result ≡ true
            → IsOneMoved end.0 states.now (drop from self.now.older) }
    {
        is_one_moved(&self.entries[from..self.before], end, states)
    }

    /// Keeps what was noted, behind what was saved. From this place on no more is left than there can be points.
    pub(crate) fn keep(&mut self, from: usize)
        requires from { from ≤ length self.old.older }
        requires capacity { from + 2 * self.old.capacity ≤ self.old.most }
        requires known { AreKnown self.old.capacity self.old.older }
        requires noted { AreKnown self.old.capacity self.old.entries }
        ensures before { take from self.new.older ≡ take from self.old.older }
        ensures back { (states : List PointState) → restored (drop from self.new.older) states
            ≡ restored (drop from self.old.older) (restored self.old.entries states) }
        ensures known { (count : ℕ) → AreKnown count self.old.older
            → AreKnown count self.old.entries → AreKnown count self.new.older }
        ensures few { length self.new.older ≤ from + self.old.capacity }
        ensures entries { self.new.entries ≡ [] }
        ensures capacity { self.new.capacity ≡ self.old.capacity }
        ensures most { self.new.most ≡ self.old.most }
    {
        forget_all(&self.entries[self.before..], &mut self.noted);
        make_short(&mut self.entries, &mut self.noted, from);
        self.before = self.entries.len();
    }

    /// Forgets all.
    pub(crate) fn clear(&mut self)
        ensures older { self.new.older ≡ [] }
        ensures entries { self.new.entries ≡ [] }
        ensures capacity { self.new.capacity ≡ self.old.capacity }
        ensures most { self.new.most ≡ self.old.most }
    {
        forget_all(&self.entries[self.before..], &mut self.noted);
        self.entries.clear();
        self.before = 0;
    }

    /// Makes the points what they were before the change, and forgets it.
    pub(crate) fn put_back(&mut self, states: &mut [PointState])
        requires { AreKnown (length states.old) self.old.entries }
        ensures states { states.new ≡ restored self.old.entries states.old }
        ensures entries { self.new.entries ≡ [] }
        ensures same { IsSameSave self.old self.new }
    {
        put_all_back(&self.entries[self.before..], states);
        forget_all(&self.entries[self.before..], &mut self.noted);
        self.entries.truncate(self.before);
    }

    /// Makes the points what they were when so many were saved, and forgets what was saved since.
    pub(crate) fn back_to(&mut self, to: usize, states: &mut [PointState])
        requires to { to ≤ length self.old.older }
        requires known { AreKnown (length states.old) self.old.older }
        requires rest { self.old.entries ≡ [] }
        ensures states { states.new ≡ restored (drop to self.old.older) states.old }
        ensures older { self.new.older ≡ take to self.old.older }
        ensures entries { self.new.entries ≡ [] }
        ensures capacity { self.new.capacity ≡ self.old.capacity }
        ensures most { self.new.most ≡ self.old.most }
    {
        put_all_back(&self.entries[to..], states);
        self.entries.truncate(to);
        self.before = to;
    }
}
