//! The states that wait to be gone on from, by their rooms.
ghost use Rattle.std.specs.Prelude.{◌≡◌, ℕ, ◌+◌, ◌<◌, ◌≤◌, length, false, IsTrue, vec_capacity};
ghost use Rattle.tp_routes.specs.Tables.{sum_at};
ghost use Rattle.tp_routes.specs.FilledRooms.{is_lower, lowered, without_number, Waits, IsQueue};

/// Gives the state of this number a lower sum, and lets it wait again.
pub(crate) fn lower(sums: &mut [Option<u32>], waiting: &mut Vec<u32>, number: u32, sum: u32)
    requires known { number < length sums.old }
    requires queue { IsQueue waiting.old.items (length sums.old) }
    requires room { length sums.old ≤ vec_capacity waiting.old }
    ensures sums { sums.new ≡ lowered sums.old number sum }
    ensures queue { IsQueue waiting.new.items (length sums.new) }
    ensures room { length sums.new ≤ vec_capacity waiting.new }
    ensures kept { (n : ℕ) → Waits waiting.old.items n → Waits waiting.new.items n }
    ensures waits { IsTrue (is_lower sum (sum_at sums.old number))
        → Waits waiting.new.items number }
    ensures longer { length waiting.new.items ≤ length waiting.old.items + 1 }
    ensures same { is_lower sum (sum_at sums.old number) ≡ false → waiting.new.items
        ≡ waiting.old.items }
{
    if !is_lower(sum, sums[number as usize]) {
        return;
    }
    sums[number as usize] = Some(sum);
    take_out(waiting, number);
    let at = place_for(waiting, sums, sum);
    let Ok(()) = waiting.insert(at, number) else {
        unreachable!()
    };
}

fn take_out(waiting: &mut Vec<u32>, number: u32)
    ensures kept { waiting.new.items ≡ without_number number waiting.old.items }
    ensures capacity { vec_capacity waiting.new ≡ vec_capacity waiting.old }
{
    waiting.retain(|other| *other != number);
}

fn is_lower(sum: u32, old: Option<u32>) -> bool
    ensures { result ≡ is_lower sum old }
{
    match old {
        None => true,
        Some(old) => sum < old,
    }
}

/// Where a number with this sum waits: behind those with a greater one.
fn place_for(waiting: &[u32], sums: &[Option<u32>], sum: u32) -> usize
    ensures { result ≤ length waiting.now }
{
    waiting
        .iter()
        .position(|other| has_at_most(sums, *other, sum))
        .unwrap_or(waiting.len())
}

fn has_at_most(sums: &[Option<u32>], number: u32, sum: u32) -> bool {
    match sums.get(number as usize) {
        Some(Some(other)) => *other <= sum,
        _ => false,
    }
}
