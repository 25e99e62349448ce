//! Places of a hold that one node closes: as many as its reason serves for.
ghost use Rattle.std.specs.Prelude.{◌≡◌, ◌<◌, ◌≤◌, IfErr, IfOk, IfSome, Some, length, pos};
ghost use Rattle.tp_constraints.specs.Suffixes.{Suffix, order_in, with_place};
ghost use Rattle.tp_placing.specs.Boards.{suffix_of};
ghost use Rattle.tp_schedule.specs.Plans.{AreNamed};
ghost use Rattle.tp_bound_make.specs.Closes.{Closes, IsLimit};
ghost use Rattle.tp_bound_make.specs.Ranges.{IsRange};
ghost use Rattle.tp_bound_make.specs.TreeProgress.{Carries, HasMarks, IsBack, IsEarlyEnd, IsSet, IsSince, Shows, branch_by, hold_of, left_of, ways_of};

use crate::closed_places::{Places, Range};
use crate::refused_close::{close_end, close_late};
use crate::scene::{NotShown, ShowBranch, ShowScene};
use tp_base::{Late, Memory, Network, Undo};
use tp_bounds::{Close, Nodes};
use tp_placing::{Board, marks_keep_boards};

/// Why no alternative that goes through the branch that the board carries ends by the limit. None
/// where the board has an end by it.
fn late_end<N: Network>(
    board: &mut Board<N>,
    scene: ShowScene,
    child: ShowBranch,
) -> Result<Option<Close>, Memory>
    requires set { IsSet N.reading scene.machine.now scene.ask.now
        board.old }
    requires named { AreNamed board.old.plans }
    requires limit { IsLimit scene.machine.now scene.ask.now (pos scene.limit) }
    requires carries { (x : Suffix) × Carries N.reading scene.machine.now
        scene.ask.now board.old child x }
    ensures closes { IfOk result (λ o. IfSome o (λ close. (x : Suffix)
        → suffix_of board.old ≡ Some x → Closes scene.entry.machine.now board.old.plans
        scene.entry.ask.now
        (pos scene.entry.limit) x close)) }
    ensures since { IsSince N.reading board.old board.new
        scene.entry.machine.now }
{
    let _child = child;
    if board.end_bound() <= scene.limit {
        return Ok(None);
    }
    board.refuse_end(scene.limit);
    match close_end(scene.alloc, board, scene.machine, scene.limit) {
        Ok(close) => Ok(Some(close)),
        Err(Memory) => Err(Memory),
    }
}

/// Why no alternative has the next hold of the branch at a place and ends by the limit. None where
/// the board knows nothing against it.
fn refuse_place<N: Network>(
    board: &mut Board<N>,
    scene: ShowScene,
    branch: ShowBranch,
    places: Places,
    place: u32,
) -> Result<Option<Close>, Memory>
    requires set { IsSet N.reading scene.machine.now scene.ask.now
        board.old }
    requires named { AreNamed board.old.plans }
    requires limit { IsLimit scene.machine.now scene.ask.now (pos scene.limit) }
    requires carries { (x : Suffix) × Carries N.reading scene.machine.now
        scene.ask.now board.old branch x }
    requires next { hold_of scene.machine.now branch ≡ Some places.rule }
    requires within { (x : Suffix) → suffix_of board.old ≡ Some x
        → place ≤ length (order_in scene.machine.now board.old.plans x places.rule.resource.0) }
    ensures closes { IfOk result (λ o. IfSome o (λ close. (x : Suffix)
        → suffix_of board.old ≡ Some x → Closes scene.entry.machine.now board.old.plans
        scene.entry.ask.now
        (pos scene.entry.limit) (with_place place x) close)) }
    ensures since { IsSince N.reading board.old board.new
        scene.entry.machine.now }
{
    let child = ShowBranch {
        depth: branch.depth + 1,
        first: branch.first,
        count: branch.count,
        newest: branch.newest,
        places: branch.places + 1,
    };
    match board.place(scene.machine, branch.places, place) {
        Ok(()) => late_end(board, scene, child),
        Err(Late) => match close_late(scene.alloc, board, scene.machine) {
            Ok(close) => Ok(Some(close)),
            Err(Memory) => Err(Memory),
        },
    }
}

/// Why no alternative with the next hold at this place ends by the limit, or None if the board has an end by it. The board is as
/// before.
fn close_place<N: Network>(
    board: &mut Board<N>,
    scene: ShowScene,
    branch: ShowBranch,
    places: Places,
    place: u32,
) -> Result<Option<Close>, Memory>
    requires set { IsSet N.reading scene.machine.now scene.ask.now
        board.old }
    requires named { AreNamed board.old.plans }
    requires limit { IsLimit scene.machine.now scene.ask.now (pos scene.limit) }
    requires carries { (x : Suffix) × Carries N.reading scene.machine.now
        scene.ask.now board.old branch x }
    requires next { hold_of scene.machine.now branch ≡ Some places.rule }
    requires within { (x : Suffix) → suffix_of board.old ≡ Some x
        → place ≤ length (order_in scene.machine.now board.old.plans x places.rule.resource.0) }
    requires marks { HasMarks N.reading 1 board.old }
    ensures closes { IfOk result (λ o. IfSome o (λ close. (x : Suffix)
        → suffix_of board.old ≡ Some x → Closes scene.entry.machine.now board.old.plans
        scene.entry.ask.now
        (pos scene.entry.limit) (with_place place x) close)) }
    ensures back { IsBack N.reading board.old board.new
        scene.entry.machine.now }
{
    marks_keep_boards::<N>();
    let mark = board.mark();
    let close = refuse_place(board, scene, branch, places, place);
    board.undo_to(mark);
    close
}

/// The places from the first that is due on for which the close of a place serves.
fn range_at<N: Network>(
    board: &mut Board<N>,
    scene: ShowScene,
    branch: ShowBranch,
    places: Places,
    place: u32,
) -> Result<Option<Range>, Memory>
    requires set { IsSet N.reading scene.machine.now scene.ask.now
        board.old }
    requires named { AreNamed board.old.plans }
    requires limit { IsLimit scene.machine.now scene.ask.now (pos scene.limit) }
    requires carries { (x : Suffix) × Carries N.reading scene.machine.now
        scene.ask.now board.old branch x }
    requires next { hold_of scene.machine.now branch ≡ Some places.rule }
    requires last { (x : Suffix) → suffix_of board.old ≡ Some x → places.last
        ≡ length (order_in scene.machine.now board.old.plans x places.rule.resource.0) }
    requires begins { places.lo ≤ place }
    requires ends { place ≤ places.last }
    requires marks { HasMarks N.reading 1 board.old }
    ensures range { IfOk result (λ o. IfSome o (λ range. (x : Suffix)
        → suffix_of board.old ≡ Some x → IsRange scene.entry.machine.now board.old.plans
        scene.entry.ask.now
        (pos scene.entry.limit) x places.rule places.lo place places.last range)) }
    ensures back { IsBack N.reading board.old board.new
        scene.entry.machine.now }
{
    match close_place(board, scene, branch, places, place) {
        Ok(Some(close)) => Ok(Range::of(scene, branch, places, place, close)),
        Ok(None) => Ok(None),
        Err(Memory) => Err(Memory),
    }
}

/// The place half the way from one place to a later one, rounded up.
fn middle_above(low: u32, high: u32) -> u32
    requires { low < high }
    ensures above { low < result }
    ensures within { result ≤ high }
{
    high - (high - low) / 2
}

/// The most places from the first that is due on for which one close serves, as far as halving
/// finds them. None where the board knows nothing against the first.
fn widest<N: Network>(
    board: &mut Board<N>,
    scene: ShowScene,
    branch: ShowBranch,
    places: Places,
) -> Result<Option<Range>, Memory>
    requires set { IsSet N.reading scene.machine.now scene.ask.now
        board.old }
    requires named { AreNamed board.old.plans }
    requires limit { IsLimit scene.machine.now scene.ask.now (pos scene.limit) }
    requires carries { (x : Suffix) × Carries N.reading scene.machine.now
        scene.ask.now board.old branch x }
    requires next { hold_of scene.machine.now branch ≡ Some places.rule }
    requires last { (x : Suffix) → suffix_of board.old ≡ Some x → places.last
        ≡ length (order_in scene.machine.now board.old.plans x places.rule.resource.0) }
    requires some { places.lo ≤ places.last }
    requires marks { HasMarks N.reading 1 board.old }
    ensures range { IfOk result (λ o. IfSome o (λ range. (x : Suffix)
        → suffix_of board.old ≡ Some x → IsRange scene.entry.machine.now board.old.plans
        scene.entry.ask.now
        (pos scene.entry.limit) x places.rule places.lo places.lo places.last range)) }
    ensures back { IsBack N.reading board.old board.new
        scene.entry.machine.now }
{
    let first = match range_at(board, scene, branch, places, places.lo) {
        Ok(Some(range)) => range,
        Ok(None) => return Ok(None),
        Err(Memory) => return Err(Memory),
    };
    let mut range = first;
    let mut most = places.last;
    'wider: while range.hi < most {
        let middle = middle_above(range.hi, most);
        match range_at(board, scene, branch, places, middle) {
            Ok(Some(wider)) => range = wider,
            Ok(None) => most = middle - 1,
            Err(Memory) => return Err(Memory),
        }
    }
    Ok(Some(range))
}

/// Closes as many places of the next hold by one node as its reason serves for, from a way of the
/// branch on. Answers the first way that isn't gone then. Leaves the board as it was.
pub(crate) fn close_from<N: Network>(
    nodes: &mut Nodes,
    board: &mut Board<N>,
    scene: ShowScene,
    branch: ShowBranch,
    way: u64,
    count: u64,
) -> Result<u64, NotShown>
    requires set { IsSet N.reading scene.machine.now scene.ask.now
        board.old }
    requires named { AreNamed board.old.plans }
    requires limit { IsLimit scene.machine.now scene.ask.now (pos scene.limit) }
    requires carries { (x : Suffix) × Carries N.reading scene.machine.now
        scene.ask.now board.old branch x }
    requires count { (x : Suffix) → suffix_of board.old ≡ Some x → count
        ≡ ways_of scene.machine.now board.old.plans scene.ask.now x
        (hold_of scene.machine.now branch) }
    requires most { count ≤ 4294967296 }
    requires some { way < count }
    requires marks { HasMarks N.reading 1 board.old }
    ensures shown { IfOk result (λ next. (x : Suffix) → suffix_of board.old ≡ Some x
        → Shows scene.entry.machine.now board.old.plans scene.entry.ask.now
        scene.entry.rooms.now.sums scene.entry.limit nodes.old nodes.new
        (λ rows. left_of scene.entry.machine.now board.old.plans scene.entry.ask.now rows
        (branch_by branch x) (hold_of scene.entry.machine.now branch) way)
        (λ rows. left_of scene.entry.machine.now board.old.plans scene.entry.ask.now rows
        (branch_by branch x) (hold_of scene.entry.machine.now branch) next)) }
    ensures onward { IfOk result (λ next. (way ≤ next) × (next ≤ count)) }
    ensures early { IfErr result (IsEarlyEnd scene.entry.machine.now board.old.plans
        scene.entry.ask.now scene.entry.limit) }
    ensures back { IsBack N.reading board.old board.new
        scene.entry.machine.now }
{
    let Some(rule) = branch.next_hold(scene.machine) else {
        return Ok(way);
    };
    let places = Places {
        rule,
        lo: way as u32,
        last: (count - 1) as u32,
    };
    match widest(board, scene, branch, places) {
        Ok(Some(range)) => range.put(nodes, scene, branch, places),
        Ok(None) => Ok(way),
        Err(Memory) => Err(NotShown::Memory),
    }
}
