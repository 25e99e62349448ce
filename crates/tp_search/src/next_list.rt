//! Which list is opened next: one of least bound, of the goals and the stored lists that wait.
ghost use Rattle.std.specs.Prelude.{◌≡◌, ◌<◌, ◌≤◌, ◌↔◌, [], length, slice_get, All, IfSome, None, Some};
ghost use Rattle.tp_search.specs.SearchProgress.{IsNext, IsSameSpace};

use crate::goals::OpenGoal;
use crate::store::Store;

/// A list that is taken to be opened: that of a goal without choices, or of a node.
#[derive(Clone, Copy)]
pub(crate) enum Next {
    Goal(OpenGoal),
    Node(u32),
}

/// The place of a goal of least bound.
fn first_goal(goals: &[OpenGoal]) -> Option<usize>
    ensures none { result ≡ None ↔ (goals.now ≡ []) }
    ensures first { IfSome result
        (λ place. IfSome (slice_get goals.now place)
        (λ first. All (λ g. first.bound ≤ g.bound) goals.now)) }
    ensures within { IfSome result (λ place. place < length goals.now) }
{
    goals
        .iter()
        .enumerate()
        .min_by_key(|(_, goal)| goal.bound)
        .map(|(place, _)| place)
}

/// Takes one of those that wait with the least bound.
pub(crate) fn take_next(goals: &mut Vec<OpenGoal>, store: &mut Store) -> Option<Next>
    ensures none { result ≡ None ↔ ((goals.old.items ≡ []) × (store.old.waits ≡ [])) }
    ensures stays { result ≡ None → store.new ≡ store.old }
    ensures within { result ≡ None → length store.old.entries ≤ store.old.capacity }
    ensures next { IfSome result (IsNext goals.old.items store.old goals.new.items store.new) }
    ensures same { IsSameSpace goals.old goals.new store.old store.new }
{
    if let Some(place) = first_goal(goals.as_slice()) {
        let goal = goals[place];
        if !store.has_sooner(goal.bound) {
            goals.remove(place);
            return Some(Next::Goal(goal));
        }
    }
    let node = store.take()?;
    Some(Next::Node(node))
}
