//! Numbers put into orders, and taken out.
ghost use Rattle.std.specs.Prelude.{◌≡◌, ℕ, ◌<◌, ◌≤◌, [], length, take, drop, replicate, IfOk, vec_capacity};
ghost use Rattle.tp_timelines.specs.Orders.{numbers_of, total, HaveCapacity};
ghost use Rattle.tp_timelines.specs.Inserts.{taken_back, StandAt};

use std::alloc::{AllocError, Global};
use tp_machine::ResId;

/// Where a number was inserted.
#[derive(Clone, Copy)]
pub(crate) struct Insert {
    pub(crate) resource: ResId,
    pub(crate) place: u32,
}

/// So many orders without a number, with room for so many numbers each.
pub(crate) fn empty_orders(
    alloc: Global,
    resources: u32,
    holds: u32,
) -> Result<Vec<Vec<u32>>, AllocError>
    ensures numbers { IfOk result (λ orders. numbers_of orders.items ≡ replicate resources []) }
    ensures capacity { IfOk result (λ orders. HaveCapacity holds orders.items) }
{
    let count = resources as usize;
    let mut orders = Vec::with_capacity(alloc, count)?;
    'orders: while orders.len() < count {
        orders.push(Vec::with_capacity(alloc, holds as usize)?)?;
    }
    Ok(orders)
}

/// Takes all numbers out.
pub(crate) fn empty_all(orders: &mut Vec<Vec<u32>>)
    ensures numbers { numbers_of orders.new.items ≡ replicate (length orders.old.items) [] }
    ensures capacity { (holds : ℕ) → HaveCapacity holds orders.old.items
        → HaveCapacity holds orders.new.items }
{
    'orders: for at in 0..orders.len() {
        orders[at].clear();
    }
}

/// Takes back all inserts after the first `to`, the last first.
pub(crate) fn take_back(orders: &mut Vec<Vec<u32>>, inserted: &mut Vec<Insert>, to: usize)
    requires to { to ≤ length inserted.old.items }
    requires stand { StandAt (numbers_of orders.old.items) inserted.old.items }
    ensures numbers { numbers_of orders.new.items
        ≡ taken_back (drop to inserted.old.items) (numbers_of orders.old.items) }
    ensures inserted { inserted.new.items ≡ take to inserted.old.items }
    ensures stand { StandAt (numbers_of orders.new.items) inserted.new.items }
    ensures all { total (numbers_of orders.old.items) ≡ length inserted.old.items
        → total (numbers_of orders.new.items) ≡ length inserted.new.items }
    ensures spacious { (holds : ℕ) → HaveCapacity holds orders.old.items
        → HaveCapacity holds orders.new.items }
    ensures capacity { vec_capacity inserted.new ≡ vec_capacity inserted.old }
{
    'back: while inserted.len() > to {
        let Some(last) = inserted.pop() else {
            unreachable!()
        };
        let _number = orders[last.resource.0 as usize].remove(last.place as usize);
    }
}
