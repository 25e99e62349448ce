//! The table of rooms: for each state the least time that any way to it takes.
ghost use Rattle.std.specs.Prelude.{◌≡◌, ◌+◌, ◌*◌, ◌<◌, ◌≤◌, None, length, option_map, replicate, vec_capacity, IfOk, IsSomeAnd, IsTrue, Some};
ghost use Rattle.tp_routes.specs.Index.{IsIndexOf, IsLeadIndex, number_at};
ghost use Rattle.tp_routes.specs.declared.index.ActEnd.TheVariants.{From};
ghost use Rattle.tp_routes.specs.Numbers.{number_of};
ghost use Rattle.tp_routes.specs.Tables.{sum_at, AreRooms, HasSameNumbers, HaveSameRooms, IsKnownOrigin, IsMadeFor, KeepsRooms};

use crate::index::{ActEnd, ActionIndex};
use crate::relaxation::settle;
use crate::start_states::start;
use crate::state_number::number_of;
use std::alloc::Global;
use std::marker::Model;
use tp_base::{Memory, Tick};
use tp_machine::{ActId, LocId, Machine, State};
use tp_schedule::Ask;

/// For each state of a sheet the least time that any way from a start state takes: its room, in
/// ticks. One table by state for all asks: `fill` makes it anew, and `renew` leaves it where the last
/// ask on the same machine has the same rooms.
pub struct Rooms {
    locations: u32,
    resources: u32,
    window: Tick,
    sums: Vec<Option<u32>>,
    waiting: Vec<u32>,
    index: ActionIndex,
    leads: ActionIndex,
    /// The ask for which the table was filled last.
    filled: Option<Ask>,
}

// What becomes of its parts is proved here, once for all who let go of one.
impl Drop for Rooms {
    fn drop(self) {
        let Rooms {
            locations: _,
            resources: _,
            window: _,
            sums: _,
            waiting: _,
            index: _,
            leads: _,
            filled: _,
        } = self;
    }
}

// Clauses see the table, and the numbers of the machine that it was made for.
impl Model for Rooms {
    ghost use Rattle.std.specs.Prelude.{◌≡◌, ◌*◌, ◌≤◌, length, vec_capacity};
    ghost use Rattle.tp_machine.specs.Limits.{most_actions};
    ghost use Rattle.tp_routes.specs.Tables.{RoomTable};

    ghost Value = { RoomTable };

    ghost view = { λ r. record {
      locations = r.locations;
      resources = r.resources;
      window = r.window;
      sums = r.sums.items;
      firsts = r.leads.firsts.items;
      nexts = r.leads.nexts.items;
      starts = r.index.firsts.items;
      starts_behind = r.index.nexts.items;
      filled = r.filled;
    } };

    ghost invariant = { λ r. (length r.sums.items ≡ 8 * r.locations)
        × (8 * r.locations ≤ vec_capacity r.waiting)
        × (length r.index.firsts.items ≡ r.locations)
        × (length r.index.nexts.items ≡ most_actions)
        × (length r.leads.firsts.items ≡ r.locations)
        × (length r.leads.nexts.items ≡ most_actions) };
}

impl Rooms {
    /// A table for machines with as many locations and resources and the window of this one. It
    /// takes all the memory that the table will ever need. No state has room before `fill`.
    pub fn new(alloc: Global, machine: &Machine) -> Result<Rooms, Memory>
        ensures made { IfOk result (λ rooms. IsMadeFor rooms machine.now) }
        ensures empty { IfOk result (λ rooms. rooms.sums
            ≡ replicate (8 * length machine.now.locations) None) }
    {
        let locations = machine.locations.len();
        let states = locations as usize * 8;
        Ok(Rooms {
            locations,
            resources: machine.resources.len(),
            window: machine.window,
            sums: vec![in alloc; None; states]?,
            waiting: Vec::with_capacity(alloc, states)?,
            index: ActionIndex::new(alloc, locations)?,
            leads: ActionIndex::new(alloc, locations)?,
            filled: None,
        })
    }

    /// Whether the table has the rooms for the ask: those of the last one are the same.
    fn has_rooms_for(&self, ask: &Ask) -> bool
        ensures { IsTrue result → IsSomeAnd self.now.filled
            (λ last. HaveSameRooms last ask.entry.now) }
    {
        match &self.filled {
            Some(last) => have_same_rooms(last, ask),
            None => false,
        }
    }

    /// Indexes the actions of the machine, where that wasn't done yet.
    fn index_once(&mut self, machine: &Machine)
        requires made { IsMadeFor self.old machine.now }
        requires keeps { KeepsRooms self.old machine.now }
        ensures leads { IsLeadIndex machine.now self.new.firsts self.new.nexts }
        ensures starts { IsIndexOf From machine.now self.new.starts self.new.starts_behind }
        ensures numbers { HasSameNumbers self.old self.new }
    {
        if self.filled.is_none() {
            self.index.fill(machine, ActEnd::From);
            self.leads.fill(machine, ActEnd::To);
        }
    }

    /// Finds the room of every state for the ask, where the actions are indexed.
    fn refill(&mut self, machine: &Machine, ask: &Ask)
        requires locations { self.old.locations ≡ length machine.now.locations }
        requires starts { IsIndexOf From machine.now self.old.starts self.old.starts_behind }
        requires origin { IsKnownOrigin machine.now ask.now.origin }
        ensures rooms { AreRooms machine.now ask.entry.now self.new.sums }
        ensures rest { self.new ≡ record self.old
            { sums = self.new.sums; filled = Some ask.entry.now } }
    {
        fill_table(machine, ask, &self.index, &mut self.sums, &mut self.waiting);
        self.filled = Some(*ask);
    }

    /// Forgets for which ask and machine the table was filled.
    pub fn forget(&mut self)
        ensures { self.new ≡ record self.old { filled = None } }
    {
        self.filled = None;
    }

    /// Finds the room of every state for the ask, by rising sums: one pass over the actions, and then
    /// only those from the location of each state that it settles.
    pub fn fill(&mut self, machine: &Machine, ask: &Ask)
        requires made { IsMadeFor self.old machine.now }
        requires origin { IsKnownOrigin machine.now ask.now.origin }
        ensures rooms { AreRooms machine.now ask.entry.now self.new.sums }
        ensures leads { IsLeadIndex machine.now self.new.firsts self.new.nexts }
        ensures made { IsMadeFor self.new machine.now }
        ensures keeps { KeepsRooms self.new machine.now }
    {
        self.forget();
        self.renew(machine, ask);
    }

    /// Finds the room of every state for the ask, on the machine for which the table was filled last, if it was. If the last ask
    /// had the same rooms, nothing is done. The actions are indexed once.
    pub fn renew(&mut self, machine: &Machine, ask: &Ask)
        requires made { IsMadeFor self.old machine.now }
        requires keeps { KeepsRooms self.old machine.now }
        requires origin { IsKnownOrigin machine.now ask.now.origin }
        ensures rooms { AreRooms machine.now ask.entry.now self.new.sums }
        ensures leads { IsLeadIndex machine.now self.new.firsts self.new.nexts }
        ensures made { IsMadeFor self.new machine.now }
        ensures keeps { KeepsRooms self.new machine.now }
    {
        if self.has_rooms_for(ask) {
            return;
        }
        self.index_once(machine);
        self.refill(machine, ask);
    }

    /// The room of a state for the last ask, or None where no list of allowed actions leads there.
    pub fn room(&self, state: State) -> Option<u32>
        requires { state.loc.0 < self.now.locations }
        ensures { result ≡ sum_at self.now.sums (number_of state) }
    {
        self.sums[number_of(state) as usize]
    }

    /// The first action that leads to the location, if there is one.
    pub fn first_to(&self, loc: LocId) -> Option<ActId>
        requires { loc.0 < self.now.locations }
        ensures { option_map (λ act. act.0) result ≡ number_at self.now.firsts loc.0 }
    {
        self.leads.firsts[usize::from(loc.0)].map(ActId)
    }

    /// Behind an action the next one that leads to the same location, if there is one.
    pub fn next_to(&self, act: ActId) -> Option<ActId>
        requires { act.0 < length self.now.nexts }
        ensures { option_map (λ next. next.0) result ≡ number_at self.now.nexts act.0 }
    {
        self.leads.nexts[usize::from(act.0)].map(ActId)
    }
}

/// Whether the same is wanted in both asks, which begin alike and lack the same modules.
fn have_same_rooms(last: &Ask, ask: &Ask) -> bool
    ensures { IsTrue result → HaveSameRooms last.entry.now ask.entry.now }
{
    if ask.origin != last.origin || ask.outs != last.outs || ask.empty != last.empty {
        return false;
    }
    ask.want == last.want
}

fn fill_table(
    machine: &Machine,
    ask: &Ask,
    index: &ActionIndex,
    sums: &mut [Option<u32>],
    waiting: &mut Vec<u32>,
)
    requires index { IsIndexOf From machine.now index.now.firsts.items index.now.nexts.items }
    requires states { length sums.old ≡ 8 * length machine.now.locations }
    requires room { length sums.old ≤ vec_capacity waiting.old }
    requires origin { IsKnownOrigin machine.now ask.now.origin }
    ensures rooms { AreRooms machine.now ask.entry.now sums.new }
    ensures states { length sums.new ≡ 8 * length machine.now.locations }
    ensures room { length sums.new ≤ vec_capacity waiting.new }
{
    clear(sums);
    waiting.clear();
    start(machine, ask, sums, waiting);
    settle(machine, ask, index, sums, waiting);
}

fn clear(sums: &mut [Option<u32>])
    ensures { sums.new ≡ replicate (length sums.old) None }
{
    sums.fill(None);
}
