//! Small machines with gaps and modes, made at random. The schedules of their sessions are looked at tick by tick.

use crate::sessions::{session_on, take_line};
use rows_machine::machines::machine_of;
use std::alloc::Global;
use std::test::Fail;
use tp_base::Tick;
use tp_machine::{Machine, ResId};
use tp_schedule::Schedule;
use tp_session::Session;

// In each template `?` with two digits behind it stands for a random number from the one to the other.

const FRAME: &str = r#"format = 2
lead = ?03
window = 150
locations = ["f", "a", "b", "t", "p"]
modules = ["FEED", "M0", "M1", "M2", "M3", "OUT", "DUMP"]
trays = ["t"]
purge = ["p"]

[feeders]
f = "plain"

[resources]
r0 = "M?03"
r1 = "M?03"
r2 = "OUT"

[[actions]]
name = "feed"
module = "FEED"
from = "f"
to = "a"
least = 2
most = ?49
holds = [{ resource = "r?01", begin = ["start", 0], end = ["start", ?13], mode = ?02 }]

[[actions]]
name = "out"
module = "OUT"
from = "b"
to = "t"
least = ?24
most = 3?09
holds = [{ resource = "r2", begin = ["end", -?12], end = ["end", ?03], mode = ?02 }]

[[actions]]
name = "dump"
module = "DUMP"
from = "b"
to = "p"
least = 3
most = 3
"#;

/// An engine of this name and module, from one location to another, with what it does and holds.
macro_rules! engine {
    ($name:literal, $from:literal, $to:literal, $does:literal) => {
        concat!(
            "\n[[actions]]\nname = \"",
            $name,
            "\"\nmodule = \"",
            $name,
            "\"\nfrom = \"",
            $from,
            "\"\nto = \"",
            $to,
            "\"\nleast = ?57\nmost = ?79\n",
            $does
        )
    };
}

/// The engines. A machine has two to four of them in a row, where the first follows the last.
const ENGINES: [&str; 4] = [
    engine!(
        "M0",
        "a",
        "b",
        r#"prints = ["mono"]
holds = [{ resource = "r?01", begin = ["start", ?02], end = ["end", -?02], mode = ?02 }]
"#
    ),
    engine!(
        "M1",
        "a",
        "b",
        r#"prints = ["mono", "colour"]
holds = [
    { resource = "r?01", begin = ["start", 0], end = ["end", ?03], mode = ?02 },
    { resource = "r2", begin = ["end", -?02], end = ["end", ?13], mode = ?02 },
]
"#
    ),
    engine!(
        "M2",
        "b",
        "a",
        r#"flip = true
holds = [
    { resource = "r?01", begin = ["end", -?03], end = ["end", ?13], mode = ?02 },
    { resource = "r2", begin = ["start", ?02], end = ["start", ?36], mode = ?02 },
]
"#
    ),
    engine!(
        "M3",
        "a",
        "b",
        r#"prints = ["colour", "mono"]
holds = [{ resource = "r?01", begin = ["start", ?02], end = ["end", ?03], mode = ?02 }]
"#
    ),
];

const GAPS: &str = r#"
[gaps]
r0 = ?03
r1 = ?03
r2 = ?03
"#;

const SCRIPT: [&str; 11] = [
    "job j1 t plain M-:F ?23*C-:F",
    "clock ?39",
    "job j2 t plain C-:F M-:F",
    "jam M1",
    "clock 1?09",
    "on M1",
    "off M3",
    "clock 2?09",
    "on M3",
    "job j3 t plain C-:F MC:B",
    "clock 4?09",
];

/// Numbers that look random, each made from the one before.
#[derive(Clone, Copy)]
pub(crate) struct Dice {
    state: u64,
}

impl Dice {
    pub(crate) fn new(number: u64) -> Dice {
        Dice {
            state: number.wrapping_mul(0x9E37_79B9_7F4A_7C15),
        }
    }

    /// A number from the one to the other.
    pub(crate) fn between(&mut self, low: u8, high: u8) -> u8 {
        self.state = self
            .state
            .wrapping_mul(6_364_136_223_846_793_005)
            .wrapping_add(1_442_695_040_888_963_407);
        let sides = u64::from(high.saturating_sub(low)) + 1;
        low.saturating_add(((self.state >> 33) % sides) as u8)
    }

    /// Appends what is made from the template.
    pub(crate) fn fill(&mut self, template: &str, out: &mut Vec<u8>) -> Result<(), Fail> {
        let mut rest = template.as_bytes();
        'bytes: while let [byte, others @ ..] = rest {
            rest = others;
            if *byte == b'?'
                && let [low, high, others @ ..] = rest
            {
                out.push(self.between(*low, *high))?;
                rest = others;
            } else {
                out.push(*byte)?;
            }
        }
        Ok(())
    }
}

/// The text of the machine of this number, with its gaps in this form.
fn text_of(alloc: Global, number: u64, gaps: &str) -> Result<Vec<u8>, Fail> {
    let mut dice = Dice::new(number);
    let mut text = Vec::new(alloc);
    dice.fill(FRAME, &mut text)?;
    let first = usize::from(dice.between(0, 3));
    for place in first..first + usize::from(dice.between(2, 4)) {
        dice.fill(ENGINES[place % 4], &mut text)?;
    }
    dice.fill(gaps, &mut text)?;
    Ok(text)
}

/// What was seen: how many plans, the sum of the last ends of all schedules, at how many ticks a resource was looked at,
/// and at how many of them it is not as the machine asks.
#[derive(Clone, Copy, Default, Debug)]
struct AnswersSeen {
    plans: u64,
    ends: u64,
    ticks: u64,
    broken: u64,
}

/// The last end of a plan.
fn last_end(schedule: &Schedule) -> Tick {
    let mut last = 0;
    for at in 0..schedule.len() {
        for point in schedule.plan_at(at).points.as_slice() {
            last = last.max(*point);
        }
    }
    last
}

impl AnswersSeen {
    /// Looks at each resource at each tick until all holds have ended, as all do 9 ticks after their plan.
    fn look(&mut self, schedule: &Schedule, machine: &Machine) {
        let last = last_end(schedule);
        self.plans = self.plans.saturating_add(u64::from(schedule.len()));
        self.ends = self.ends.saturating_add(u64::from(last));
        for resource in 0..3 {
            for at in 0..last.saturating_add(9) {
                self.ticks = self.ticks.saturating_add(1);
                if !schedule.legal_at(machine, ResId(resource), at) {
                    self.broken = self.broken.saturating_add(1);
                }
            }
        }
    }

    /// Looks at the schedule after each event of the script of this number.
    fn watch(
        &mut self,
        alloc: Global,
        session: &mut Session,
        machine: &Machine,
        number: u64,
    ) -> Result<(), Fail> {
        let mut dice = Dice::new(number);
        for template in SCRIPT {
            let mut line = Vec::new(alloc);
            dice.fill(template, &mut line)?;
            take_line(alloc, session, line.as_slice())?;
            self.look(session.schedule(), machine);
        }
        Ok(())
    }

    /// Runs a session on the machine of this number, with its gaps in this form, and looks at it as the other machine
    /// has it.
    fn run(
        &mut self,
        alloc: Global,
        number: u64,
        gaps: &str,
        machine: &Machine,
    ) -> Result<(), Fail> {
        let text = text_of(alloc, number, gaps)?;
        let mut session = session_on(alloc, text.as_slice(), None)?;
        let watched = self.watch(alloc, &mut session, machine, number);
        drop(session);
        watched
    }
}

/// Runs sessions with the gaps of this number's machine and without any, and looks at both as the machine has it.
fn run_both(
    alloc: Global,
    number: u64,
    machine: &Machine,
    apart: &mut AnswersSeen,
    close: &mut AnswersSeen,
) -> Result<(), Fail> {
    apart.run(alloc, number, GAPS, machine)?;
    close.run(alloc, number, "", machine)
}

fn compare(
    alloc: Global,
    number: u64,
    apart: &mut AnswersSeen,
    close: &mut AnswersSeen,
) -> Result<(), Fail> {
    let text = text_of(alloc, number, GAPS)?;
    let machine = machine_of(alloc, text.as_slice())?;
    let compared = run_both(alloc, number, &machine, apart, close);
    drop(machine);
    compared
}

#[test]
fn schedules_of_random_machines(rt: HostRuntime) -> Result<(), Fail> {
    let mut apart = AnswersSeen::default();
    let mut close = AnswersSeen::default();
    for number in 0..60 {
        compare(rt.alloc(), number, &mut apart, &mut close)?;
    }
    assert!(rt; apart.broken == 0);
    assert!(rt; apart.plans > 2000 && apart.ticks > 90_000, "{apart:?}");
    // Without the gaps plans stand closer together and end earlier.
    assert!(rt; close.broken > 3000 && close.ends < apart.ends, "{close:?}");
    Ok(())
}
