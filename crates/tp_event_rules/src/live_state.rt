//! What is kept of a session between events.

ghost use Rattle.std.specs.Prelude.{◌≡◌, IfOk};
ghost use Rattle.tp_event_rules.specs.States.{empty_state};

use std::alloc::Global;
use tp_base::{Memory, Tick};
use tp_jobs::Lines;
use tp_machine::Outs;
use tp_schedule::{Schedule, SheetId};
use tp_stock::Refills;

/// The live part of a session: the moment in ticks, the plans that are live at it, the copies that were lost among them,
/// the jobs with the copies that wait, the modules that are out, and what was refilled.
///
/// It is plain data, so that calls on its schedule and its lines can be made side by side; contracts speak of it as the
/// state that `seen` tells.
#[derive(Drop)]
pub struct LiveState {
    pub moment: Tick,
    pub schedule: Schedule,
    /// In the order of copies. Fronts of other copies are loose: they are replanned before an event ends.
    pub lost: Vec<SheetId>,
    pub lines: Lines,
    pub outs: Outs,
    /// What was refilled, less the sheets of plans that are forgotten.
    pub refills: Refills,
}

/// What a live state was at a moment, but for its lines, which keep a mark of their own.
#[derive(Drop)]
pub struct Remembered {
    moment: Tick,
    schedule: Schedule,
    lost: Vec<SheetId>,
    outs: Outs,
    refills: Refills,
}

impl LiveState {
    ghost use Rattle.tp_event_rules.specs.LiveStates.{remembered, seen};

    /// No plan and no job at the moment 0, no module out, and nothing refilled. It takes no memory.
    pub fn new(alloc: Global) -> LiveState
        ensures { seen result ≡ empty_state }
    {
        LiveState {
            moment: 0,
            schedule: Schedule::new(alloc),
            lost: Vec::new(alloc),
            lines: Lines::new(alloc),
            outs: Outs(0),
            refills: Refills::none(),
        }
    }

    /// Remembers the state as it is, and marks its lines. Takes the time of the live plans and of the copies that wait.
    pub fn remember(&mut self, alloc: Global) -> Result<Remembered, Memory>
        ensures stays { seen self.new ≡ seen self.old }
        ensures is { IfOk result (λ r. remembered r self.new.lines.kept ≡ seen self.old) }
    {
        let schedule = self.schedule.copy(alloc)?;
        let lost = Vec::from_slice(alloc, self.lost.as_slice())?;
        self.lines.mark()?;
        Ok(Remembered {
            moment: self.moment,
            schedule,
            lost,
            outs: self.outs,
            refills: self.refills,
        })
    }

    /// The state as it was remembered: its lines are those of their mark. Takes no memory.
    pub fn go_back(&mut self, to: Remembered)
        ensures { seen self.new ≡ remembered to self.old.lines.kept }
    {
        let Remembered {
            moment,
            schedule,
            lost,
            outs,
            refills,
        } = to;
        self.moment = moment;
        self.schedule = schedule;
        self.lost = lost;
        self.outs = outs;
        self.refills = refills;
        self.lines.undo();
    }
}
