//! Orders of holds: numbers put in, looked up and taken back.
use std::test::Fail;
use tp_base::{Full, Undo};
use tp_machine::ResId;
use tp_timelines::Timelines;

const FIRST: ResId = ResId(0);

const SECOND: ResId = ResId(1);

#[test]
fn timelines_rows(rt: HostRuntime) -> Result<(), Fail> {
    let mut lines = Timelines::new(rt.alloc(), 2, 5, 2)?;
    assert!(rt; lines.insert(FIRST, 0, 7) == Ok(()));
    assert!(rt; lines.insert(FIRST, 1, 9) == Ok(()));
    assert!(rt; lines.insert(FIRST, 1, 8) == Ok(()));
    assert!(rt; lines.len(FIRST) == 3);
    assert!(rt; lines.at(FIRST, 0) == 7);
    assert!(rt; lines.at(FIRST, 1) == 8);
    assert!(rt; lines.at(FIRST, 2) == 9);
    assert!(rt; lines.neighbours(FIRST, 1) == (Some(7), Some(9)));
    assert!(rt; lines.neighbours(FIRST, 0) == (None, Some(8)));
    let mark = lines.mark();
    assert!(rt; lines.insert(FIRST, 0, 5) == Ok(()));
    lines.undo_to(mark);
    assert!(rt; lines.len(FIRST) == 3);
    assert!(rt; lines.at(FIRST, 0) == 7);
    drop(lines);
    Ok(())
}

#[test]
fn full_over_both(rt: HostRuntime) -> Result<(), Fail> {
    let mut lines = Timelines::new(rt.alloc(), 2, 2, 1)?;
    assert!(rt; lines.insert(FIRST, 0, 7) == Ok(()));
    assert!(rt; lines.insert(SECOND, 0, 8) == Ok(()));
    assert!(rt; lines.insert(SECOND, 1, 9) == Err(Full));
    assert!(rt; lines.spare_marks() == 1);
    lines.clear();
    assert!(rt; lines.len(SECOND) == 0);
    drop(lines);
    Ok(())
}
