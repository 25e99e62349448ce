//! The machines of the rows, and what is asked on DUO.
ghost use Rattle.std.specs.Prelude.{◌≡◌, [], IfOk};
ghost use Rattle.tp_placing.specs.LoadedBoard.{IsMadeFor};
ghost use Rattle.tp_schedule.specs.PlannerAnswers.{IsOpenGoal};
ghost use Rattle.tp_schedule.specs.declared.parts.Ask.{Ask};
ghost use Rattle.tp_schedule.specs.declared.parts.Origin.TheVariants.{Feeder};

use std::alloc::Global;
use std::test::Fail;
use tp_base::{Name, Network};
use tp_machine::{ActId, Face, Machine, Outs, Sheet, Want};
use tp_placing::Board;
use tp_schedule::{Ask, Empties, Goal, Origin, SheetId};
use tp_stn_core::PlainNet;

pub(crate) const FEED: ActId = ActId(0);

pub(crate) const PRINT1: ActId = ActId(1);

pub(crate) const PRINT2: ActId = ActId(2);

pub(crate) const OUT: ActId = ActId(3);

pub(crate) fn name_of(text: &[u8]) -> Result<Name, Fail> {
    Ok(Name::read(text).ok_or("no name")?)
}

/// The machine's first tray.
pub(crate) fn goal_of(machine: &Machine) -> Result<Goal, Fail>
    ensures { IfOk result (λ goal. (ask : Ask) → IsOpenGoal machine.now [] ask goal) }
{
    if machine.trays.len() == 0 {
        return Err(Fail::from("the tray is lost"));
    }
    Ok(Goal::Tray(*machine.trays.get(0)))
}

/// The ask for a new copy of the sheet of this number, at the moment 0, where no module is out.
pub(crate) fn ask_for(name: Name, media: Name, goal: Goal, number: u32) -> Ask
    ensures now { result.now ≡ 0 }
    ensures origin { result.origin ≡ Feeder }
    ensures goal { result.goal ≡ goal }
{
    Ask {
        sheet: SheetId {
            job: 0,
            number,
            copy: 1,
        },
        name,
        want: Sheet {
            media,
            front: Want::Mono,
            back: Want::Blank,
            face: Face::Front,
        },
        goal,
        origin: Origin::Feeder,
        outs: Outs(0),
        empty: Empties::none(),
        now: 0,
    }
}

pub(crate) fn board_for(alloc: Global, machine: &Machine) -> Result<Board<PlainNet>, Fail>
    ensures made { IfOk result (λ b. IsMadeFor b.made_for machine.now) }
    ensures marks { IfOk result (λ b. b.net.max_marks ≡ 330) }
{
    match PlainNet::new(alloc, 16_642, 100_000, 330) {
        Ok(net) => match Board::new(alloc, machine, net) {
            Ok(board) => Ok(board),
            Err(_) => Err(Fail::from("memory")),
        },
        Err(_) => Err(Fail::from("memory")),
    }
}
