//! The pool of lists and its queue by bound.
use std::alloc::Global;
use std::test::Fail;
use tp_base::Full;
use tp_machine::{ActId, Face, LocId, State};
use tp_pool::{Buckets, Choice, Pool};

fn choice_of(act: Option<ActId>) -> Choice {
    Choice {
        act,
        goal: State {
            loc: LocId(3),
            up: Face::Front,
            front_done: true,
            back_done: false,
        },
        places: [0; 4],
    }
}

#[test]
fn full_pool(rt: HostRuntime) -> Result<(), Fail> {
    let mut pool = Pool::new(rt.alloc(), 2)?;
    let stop = choice_of(None);
    assert!(rt; pool.add(None, stop, 5) == Ok(0));
    assert!(rt; pool.add(None, stop, 7) == Ok(1));
    assert!(rt; pool.add(None, stop, 9) == Err(Full));
    assert!(rt; pool.len() == 2);
    assert!(rt; pool.bound(1) == 7);
    pool.clear();
    assert!(rt; pool.len() == 0);
    drop(pool);
    Ok(())
}

#[test]
fn three_choices(rt: HostRuntime) -> Result<(), Fail> {
    let mut pool = Pool::new(rt.alloc(), 3)?;
    let stop = choice_of(None);
    let first = choice_of(Some(ActId(4)));
    let second = choice_of(Some(ActId(2)));
    assert!(rt; pool.add(None, stop, 5) == Ok(0));
    assert!(rt; pool.add(Some(0), first, 6) == Ok(1));
    assert!(rt; pool.add(Some(1), second, 8) == Ok(2));
    assert!(rt; pool.depth(2) == 3);
    assert!(rt; pool.choice_at(2, 1) == stop);
    assert!(rt; pool.choice_at(2, 2) == first);
    assert!(rt; pool.choice_at(2, 3) == second);
    drop(pool);
    Ok(())
}

#[test]
fn least_bound_first(rt: HostRuntime) -> Result<(), Fail> {
    let mut queue = Buckets::new(rt.alloc(), 3, 4)?;
    queue.clear(14);
    queue.put(0, 16);
    queue.put(1, 14);
    queue.put_in_turn(2, 16, 0);
    assert!(rt; queue.take() == Some(1));
    assert!(rt; queue.take() == Some(0));
    assert!(rt; queue.take() == Some(2));
    assert!(rt; queue.take() == None);
    drop(queue);
    Ok(())
}
