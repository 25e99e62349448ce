//! In racks made at random a list of actions is a route of a new copy exactly where it is a walk through the rack.

use crate::drawn_racks::{Deed, FEEDER, Join, PartPort, Rack, RackDraws};
use std::alloc::Global;
use std::test::Fail;
use tp_base::Name;
use tp_compose::compose;
use tp_machine::{Action, Face, LocId, Machine, Sheet, State, Want, step};
use tp_machine_text::read_machine;

/// An action of a part.
#[derive(Clone, Copy)]
struct Pair {
    part: u32,
    deed: Deed,
}

/// The END that a sheet came to, which side is up, and which sides are done.
#[derive(Clone, Copy)]
struct WalkStop {
    end: PartPort,
    up: Face,
    front_done: bool,
    back_done: bool,
}

/// Where a list of actions leads in the rack and in its machine.
#[derive(Clone, Copy)]
struct ListTrial {
    walk: Option<WalkStop>,
    route: Option<State>,
}

fn is_one_place(joins: &[Join], one: PartPort, other: PartPort) -> bool {
    one == other
        || joins.iter().any(|j| {
            (j.first == one && j.second == other) || (j.first == other && j.second == one)
        })
}

/// The actions of all parts.
fn pairs_of(alloc: Global, rack: &Rack) -> Result<Vec<Pair>, Fail> {
    let mut pairs = Vec::new(alloc);
    let mut part: u32 = 0;
    for kind in rack.parts.as_slice() {
        for deed in rack.deeds.as_slice() {
            if deed.kind == *kind {
                pairs.push(Pair { part, deed: *deed })?;
            }
        }
        part = part.saturating_add(1);
    }
    Ok(pairs)
}

/// Whether the machine's actions are those of the parts.
fn are_named(alloc: Global, actions: &[Action], pairs: &[Pair]) -> Result<bool, Fail> {
    for (action, pair) in actions.iter().zip(pairs) {
        let name = format!(in alloc; "p{}-d{}", pair.part, pair.deed.number)?;
        if action.name.as_bytes() != name.as_bytes() {
            return Ok(false);
        }
    }
    Ok(actions.len() == pairs.len())
}

fn turned(face: Face) -> Face {
    match face {
        Face::Front => Face::Back,
        Face::Back => Face::Front,
    }
}

/// The action leads from where the sheet is. It prints the side that is up, where mono is wanted there and isn't done, and
/// may turn the sheet.
fn walked(joins: &[Join], sheet: &Sheet, stop: WalkStop, pair: Pair) -> Option<WalkStop> {
    let Pair { part, deed } = pair;
    let from = PartPort {
        part,
        port: deed.from,
    };
    let (want, is_done) = match stop.up {
        Face::Front => (sheet.front, stop.front_done),
        Face::Back => (sheet.back, stop.back_done),
    };
    if !is_one_place(joins, stop.end, from) || (deed.mono && (is_done || want != Want::Mono)) {
        return None;
    }
    Some(WalkStop {
        end: PartPort {
            part,
            port: deed.to,
        },
        up: if deed.flip { turned(stop.up) } else { stop.up },
        front_done: stop.front_done || (deed.mono && stop.up == Face::Front),
        back_done: stop.back_done || (deed.mono && stop.up == Face::Back),
    })
}

/// The lists with one more action, each.
fn longer(
    alloc: Global,
    joins: &[Join],
    sheet: &Sheet,
    actions: &[Action],
    pairs: &[Pair],
    trials: &[ListTrial],
) -> Result<Vec<ListTrial>, Fail> {
    let mut all = Vec::new(alloc);
    for trial in trials {
        for (action, pair) in actions.iter().zip(pairs) {
            let walk = match trial.walk {
                Some(stop) => walked(joins, sheet, stop, *pair),
                None => None,
            };
            let route = match trial.route {
                Some(state) => step(action, sheet, state),
                None => None,
            };
            all.push(ListTrial { walk, route })?;
        }
    }
    Ok(all)
}

/// The sheet is as it is wanted.
fn is_finished(sheet: &Sheet, up: Face, front_done: bool, back_done: bool) -> bool {
    up == sheet.face
        && front_done == (sheet.front != Want::Blank)
        && back_done == (sheet.back != Want::Blank)
}

fn is_walk(rack: &Rack, sheet: &Sheet, walk: Option<WalkStop>) -> bool {
    let Some(stop) = walk else {
        return false;
    };
    let mut is_tray = false;
    for tray in rack.trays.as_slice() {
        is_tray = is_tray || is_one_place(rack.joins.as_slice(), stop.end, *tray);
    }
    is_tray && is_finished(sheet, stop.up, stop.front_done, stop.back_done)
}

fn is_route(trays: &[LocId], sheet: &Sheet, route: Option<State>) -> bool {
    let Some(state) = route else {
        return false;
    };
    trays.contains(&state.loc) && is_finished(sheet, state.up, state.front_done, state.back_done)
}

/// The list of no action, from the one feeder.
fn start(machine: &Machine) -> Result<ListTrial, Fail> {
    let [feeder] = machine.feeders.as_slice() else {
        return Err(Fail::from("not one feeder"));
    };
    let up = Face::Front;
    Ok(ListTrial {
        walk: Some(WalkStop {
            end: FEEDER,
            up,
            front_done: false,
            back_done: false,
        }),
        route: Some(State {
            loc: feeder.loc,
            up,
            front_done: false,
            back_done: false,
        }),
    })
}

/// How many racks came to a machine, how many lists of actions were looked at, how many of them are walks, and how many
/// are either a walk or a route but not both.
#[derive(Clone, Copy, Default, Debug)]
struct WalksSeen {
    racks: u64,
    lists: u64,
    walks: u64,
    wrong: u64,
}

impl WalksSeen {
    fn count(&mut self, rack: &Rack, machine: &Machine, sheet: &Sheet, trials: &[ListTrial]) {
        for trial in trials {
            let walk = is_walk(rack, sheet, trial.walk);
            let route = is_route(machine.trays.as_slice(), sheet, trial.route);
            self.lists = self.lists.saturating_add(1);
            self.walks = self.walks.saturating_add(u64::from(walk));
            self.wrong = self.wrong.saturating_add(u64::from(walk != route));
        }
    }

    /// All lists of one to four actions.
    fn look(
        &mut self,
        alloc: Global,
        rack: &Rack,
        machine: &Machine,
        sheet: &Sheet,
        pairs: &[Pair],
    ) -> Result<(), Fail> {
        let mut trials = Vec::new(alloc);
        trials.push(start(machine)?)?;
        for _ in 0..4 {
            let actions = machine.actions.as_slice();
            let joins = rack.joins.as_slice();
            trials = longer(alloc, joins, sheet, actions, pairs, trials.as_slice())?;
            self.count(rack, machine, sheet, trials.as_slice());
        }
        Ok(())
    }

    /// Looks at the lists of a rack, for a blank sheet, one with mono on its front, the same turned over, and one with mono
    /// on both sides.
    fn look_at_sheets(
        &mut self,
        alloc: Global,
        rack: &Rack,
        machine: &Machine,
    ) -> Result<(), Fail> {
        let pairs = pairs_of(alloc, rack)?;
        if !are_named(alloc, machine.actions.as_slice(), pairs.as_slice())? {
            return Err(Fail::from("other actions than those of the parts"));
        }
        let media = Name::read(b"plain").ok_or("a name")?;
        for (front, back, face) in [
            (Want::Blank, Want::Blank, Face::Front),
            (Want::Mono, Want::Blank, Face::Front),
            (Want::Mono, Want::Blank, Face::Back),
            (Want::Mono, Want::Mono, Face::Back),
        ] {
            let sheet = Sheet {
                media,
                front,
                back,
                face,
            };
            self.look(alloc, rack, machine, &sheet, pairs.as_slice())?;
        }
        Ok(())
    }

    /// Looks at the lists of a rack, where it comes to a machine.
    fn look_at_rack(&mut self, alloc: Global, rack: &Rack) -> Result<(), Fail> {
        let Some(machine) = machine_for(alloc, rack)? else {
            return Ok(());
        };
        self.racks = self.racks.saturating_add(1);
        let looked = self.look_at_sheets(alloc, rack, &machine);
        drop(machine);
        looked
    }

    // What a function lets go of at its end is proved anew for each of its ways out. So what is large is lent to a function that may
    // fail, and then given to `drop`, which is proved once.
    fn draw(&mut self, alloc: Global, draws: &mut RackDraws) -> Result<(), Fail> {
        let rack = draws.rack(alloc)?;
        let looked = self.look_at_rack(alloc, &rack);
        drop(rack);
        looked
    }
}

/// The machine that the rack comes to.
fn machine_for(alloc: Global, rack: &Rack) -> Result<Option<Machine>, Fail> {
    let text = rack.text(alloc)?;
    let Ok(bytes) = compose(alloc, text.as_bytes()) else {
        return Ok(None);
    };
    match read_machine(alloc, bytes.as_slice()) {
        Ok(machine) => Ok(Some(machine)),
        Err(_) => Err(Fail::from("what is composed is no machine text")),
    }
}

#[test]
fn routes_are_walks(rt: HostRuntime) -> Result<(), Fail> {
    let mut draws = RackDraws(1);
    let mut seen = WalksSeen::default();
    for _ in 0..100 {
        seen.draw(rt.alloc(), &mut draws)?;
    }
    assert!(rt;
        seen.racks > 90 && seen.lists > 400_000 && seen.walks > 50,
        "{seen:?}"
    );
    assert!(rt; seen.wrong == 0, "{seen:?}");
    Ok(())
}
