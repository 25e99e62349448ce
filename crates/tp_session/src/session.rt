//! A session keeps the live part of its state alone.

ghost use Rattle.std.specs.Prelude.{◌≡◌, ◌+◌, ◌<◌, ◌≤◌, ◌++◌, ℕ, List, [], length, OnOk, OnErr, IfOk, IsOk};
ghost use Rattle.tp_placing.specs.Inside.{most_edges, most_points, most_steps};
ghost use Rattle.tp_script.specs.Printed.{IsEchoed};
ghost use Rattle.tp_stream.specs.Tellers.{most_events};
ghost use Rattle.tp_event_rules.specs.LiveStates.{seen};

use crate::job_probe::{first_ask, try_ask};
use crate::kept_states_stand_soundly;
use crate::session_turn::take_turn;
use crate::settings::Settings;
use crate::stock::free_sheets;
use std::alloc::Global;
use std::marker::Model;
use tp_base::{Memory, Network, Tick};
use tp_event_rules::LiveState;
use tp_event_turn::empty_state_can_begin;
use tp_jobs::{Desk, Standing};
use tp_machine::{LocId, Machine};
use tp_placing::Board;
use tp_schedule::Schedule;
use tp_script::Event;
use tp_search::Engine;
use tp_session_standing::{sound_standings_go_on, standing_of, state_of};
use tp_stn_undo::LiveNet;
use tp_stream::{Probe, Teller};

/// How many points, edges and marks in force the network of a session is made for.
const POINTS: u32 = 16_642;

const EDGES: u32 = 100_000;

const MARKS: u32 = 330;

/// A session over the live network.
pub type Session = SessionOver<LiveNet>;

/// Takes events in turn, and appends the text of each: its echo and its records. It keeps what is live of all that it
/// planned, the jobs with their lines, the modules that are out, and what was refilled. Any network serves.
pub struct SessionOver<N: Network> {
    alloc: Global,
    machine: Machine,
    budget: u32,
    bounds: bool,
    engine: Engine<N>,
    state: LiveState,
    answered: u32,
    text: Vec<u8>,
}

// What becomes of its parts is proved here, once for all who let go of one.
impl<N: Network + Drop> Drop for SessionOver<N> {
    fn drop(self) {
        let SessionOver {
            alloc: _,
            machine: _,
            budget: _,
            bounds: _,
            engine: _,
            state: _,
            answered: _,
            text: _,
        } = self;
    }
}

impl<N: Network> Model for SessionOver<N> {
    ghost use Rattle.tp_event_rules.specs.LiveStates.{seen};
    ghost use Rattle.tp_session.specs.Sessions.{IsSession, SessionValue};

    ghost Value = { SessionValue N };

    ghost view = { λ s. record {
      standing = record {
        machine = s.machine;
        budget = s.budget;
        bounds = s.bounds;
        state = seen s.state;
      };
      engine = s.engine;
      answered = s.answered;
      text = s.text.items;
    } };

    ghost invariant = { λ s. IsSession N.reading
        (record { machine = s.machine; budget = s.budget; bounds = s.bounds; state = seen s.state })
        s.engine s.answered };
}

impl SessionOver<LiveNet> {
    ghost use Rattle.tp_session.specs.Sessions.{start_of};

    /// A session at the moment 0 with nothing planned. It takes all the memory that its network and its search will ever
    /// hold.
    pub fn new(alloc: Global, machine: Machine, settings: Settings) -> Result<Session, Memory>
        ensures standing { IfOk result
            (λ s. s.standing ≡ start_of machine settings.budget settings.bounds) }
        ensures fresh { IfOk result (λ s. (s.answered ≡ 0) × (s.text ≡ [])) }
    {
        let net = LiveNet::new(alloc, POINTS, EDGES, MARKS)?;
        SessionOver::over(alloc, machine, net, settings)
    }
}

impl<N: Network + Drop> SessionOver<N> {
    ghost use Rattle.tp_session.specs.Sessions.{start_of};

    /// A session at the moment 0 with nothing planned, over a network that was made for at least 16,642 points, 100,000
    /// edges and 330 marks. It takes all the memory that its search will ever hold.
    pub fn over(
        alloc: Global,
        machine: Machine,
        net: N,
        settings: Settings,
    ) -> Result<SessionOver<N>, Memory>
        requires points { most_points ≤ N.reading.max_points net }
        requires edges { most_edges ≤ N.reading.max_edges net }
        requires marks { most_steps ≤ N.reading.max_marks net }
        ensures standing { IfOk result
            (λ s. s.standing ≡ start_of machine settings.budget settings.bounds) }
        ensures fresh { IfOk result (λ s. (s.answered ≡ 0) × (s.text ≡ [])) }
    {
        empty_state_can_begin();
        let budget = settings.budget.unwrap_or(machine.budget);
        let engine = Engine::new(alloc, &machine, net, budget, settings.bounds)?;
        Ok(SessionOver {
            alloc,
            machine,
            budget,
            bounds: settings.bounds,
            engine,
            state: LiveState::new(alloc),
            answered: 0,
            text: Vec::new(alloc),
        })
    }
}

impl<N: Network> SessionOver<N> {
    ghost use Rattle.tp_session.specs.Probes.{Probes};
    ghost use Rattle.tp_session.specs.Sessions.{Tells, gone_on};
    ghost use Rattle.tp_session.specs.Stocks.{IsFree};
    ghost use Rattle.tp_session.specs.Kept.{CanBeSaved};
    ghost use Rattle.tp_session_standing.specs.Sound.{IsSound, last_number, most_jobs};
    ghost use Rattle.tp_session_standing.specs.StandingStates.{standing_of};

    /// Does the turn of one event, and appends its text. After `Memory` all is as before, but for the board that asks are
    /// answered on.
    pub fn event(&mut self, event: &Event) -> Result<(), Memory>
        requires few { self.old.answered < most_events }
        requires echoed { IsEchoed event.now }
        ensures told { OnOk result
            ((told : List ℕ) × Tells self.old.standing event.now told self.new.standing
            × (self.new.text ≡ self.old.text ++ told)) }
        ensures counted { OnOk result (self.new.answered ≡ self.old.answered + 1) }
        ensures standing_stays { OnErr result (self.new.standing ≡ self.old.standing) }
        ensures text_stays { OnErr result (self.new.text ≡ self.old.text) }
        ensures count_stays { OnErr result (self.new.answered ≡ self.old.answered) }
    {
        let before = self.state.remember(self.alloc)?;
        let result = take_turn(
            self.alloc,
            &self.machine,
            &mut self.state,
            &mut self.engine,
            event,
            &mut self.text,
        );
        self.engine.clear_trees();
        match result {
            Ok(()) => {
                self.answered += 1;
                Ok(())
            }
            Err(error) => {
                self.state.go_back(before);
                Err(error)
            }
        }
    }

    /// What an ask for the first sheet of the job would give in the schedule as it stands; that a copy of the job's line waits, or that
    /// 256 copies are live; or that the event would be refused; the answer to an event that is no job is the same. Nothing changes but the board
    /// that asks are answered on. It takes no memory.
    pub fn probe(&mut self, event: &Event) -> Result<Probe, Memory>
        requires echoed { IsEchoed event.now }
        ensures told { IfOk result (Probes self.old.standing event.now) }
        ensures done { IsOk result }
        ensures standing_stays { self.new.standing ≡ self.old.standing }
        ensures text_stays { self.new.text ≡ self.old.text }
        ensures count_stays { self.new.answered ≡ self.old.answered }
    {
        match first_ask(&self.machine, &self.state, event) {
            Ok(ask) => {
                let given = try_ask(&mut self.engine, &self.machine, &self.state.schedule, &ask);
                Ok(given)
            }
            Err(told) => Ok(told),
        }
    }

    /// The texts of the events since it was cleared.
    pub fn text(&self) -> &[u8]
        ensures { result.now ≡ self.now.text }
    {
        &self.text
    }

    /// The machine that it plans for.
    pub fn machine(&self) -> &Machine
        ensures { result.now ≡ self.now.standing.machine }
    {
        &self.machine
    }

    /// Empties the text alone.
    pub fn clear_text(&mut self)
        ensures { self.new ≡ record self.old { text = [] } }
    {
        self.text.clear();
    }

    /// The moment of the session, in ticks.
    pub fn now(&self) -> Tick
        ensures { result ≡ self.now.standing.state.now }
    {
        self.state.moment
    }

    /// How many events it has answered: at most 100,000,000.
    pub fn events(&self) -> u32
        ensures { result ≡ self.now.answered }
    {
        self.answered
    }

    /// The plans that are live, in the order of copies.
    pub fn schedule(&self) -> &Schedule
        ensures { result.now.plans ≡ self.now.standing.state.plans }
    {
        &self.state.schedule
    }

    /// The free stock of the feeder at a location, in sheets: its stock and its refills, less the sheets of all plans made so far.
    /// None where no feeder is there or its stock is endless. Takes the time of the live plans.
    pub fn stock(&self, feeder: LocId) -> Option<u32>
        ensures { IsFree self.now.standing feeder result }
    {
        free_sheets(&self.machine, &self.state, feeder)
    }

    /// Where the session stands, as plain values. It is sound to go on from after at most 4,000,000,000 events from `new` on, of which
    /// at most 1,000,000 were jobs. Takes the time of all jobs and of the live plans.
    pub fn standing(&self, alloc: Global) -> Result<Standing, Memory>
        ensures stands { IfOk result (λ told. told
            ≡ standing_of self.now.standing.machine self.now.standing.state) }
        ensures sound { IfOk result (λ told. (events : ℕ) → events ≤ last_number
            → length self.now.standing.state.jobs ≤ most_jobs
            → CanBeSaved self.now.standing.machine events self.now.standing.state
            → IsSound self.now.standing.machine told) }
    {
        kept_states_stand_soundly();
        standing_of(alloc, &self.machine, &self.state)
    }

    /// Goes on from where a session of this machine stood. Its text, its count of events, its budget and whether it shows bounds
    /// stay. After `Memory` all is as before. Takes the time of all jobs and of the plans.
    pub fn restore(&mut self, standing: &Standing) -> Result<(), Memory>
        requires sound { IsSound self.old.standing.machine standing.now }
        ensures restored { OnOk result (self.new ≡ record self.old {
          standing = gone_on self.old.standing standing.entry.now;
        }) }
        ensures stays { OnErr result (self.new ≡ self.old) }
    {
        sound_standings_go_on();
        self.state = state_of(self.alloc, &self.machine, standing)?;
        Ok(())
    }

    /// The board that asks are answered on, as the last one left it. After an event that ended with want of memory it may show
    /// plans of that event, which the state does not have.
    pub fn board(&self) -> &Board<N>
        ensures { result.now ≡ self.now.engine.board }
    {
        self.engine.board()
    }
}

impl<N: Network> Teller for SessionOver<N> {
    ghost use Rattle.tp_session.specs.Probes.{Probes};
    ghost use Rattle.tp_session.specs.Sessions.{Standing, Tells};

    ghost State = { Standing };

    ghost state = { λ s. s.standing };

    ghost text = { λ s. s.text };

    ghost answered = { λ s. s.answered };

    ghost tells = { Tells };

    ghost probes = { Probes };

    fn probe(&mut self, event: &Event) -> Result<Probe, Memory> {
        self.probe(event)
    }

    fn event(&mut self, event: &Event) -> Result<(), Memory> {
        self.event(event)
    }

    fn text(&self) -> &[u8] {
        self.text()
    }

    fn clear_text(&mut self) {
        self.clear_text();
    }

    fn events(&self) -> u32 {
        self.events()
    }
}

impl<N: Network> Desk for SessionOver<N> {
    ghost use Rattle.tp_session_standing.specs.Sound.{IsSound};
    ghost use Rattle.tp_session_standing.specs.StandingStates.{standing_of};

    ghost machine = { λ s. s.standing.machine };

    ghost stands = { λ s. standing_of s.standing.machine s.standing.state };

    ghost sound = { IsSound };

    fn standing(&self, alloc: Global) -> Result<Standing, Memory> {
        self.standing(alloc)
    }

    fn restore(&mut self, standing: &Standing) -> Result<(), Memory> {
        sound_standings_go_on();
        self.restore(standing)
    }
}
