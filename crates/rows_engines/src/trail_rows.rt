//! The trail, which is full at its capacity.
use std::test::Fail;
use tp_base::{Full, Trail, proofs_refute};

#[test]
fn trail_rows(rt: HostRuntime) -> Result<(), Fail> {
    let mut trail = Trail::new(rt.alloc(), 2)?;
    assert!(rt; trail.push(7) == Ok(()));
    assert!(rt; trail.push(8) == Ok(()));
    assert!(rt; trail.push(9) == Err(Full));
    assert!(rt; trail.len() == 2);
    assert!(rt; trail.get(1) == 8);
    trail.reverse();
    assert!(rt; trail.as_slice() == [8, 7].as_slice());
    trail.cut_to(1);
    assert!(rt; trail.as_slice() == [8].as_slice());
    proofs_refute();
    Ok(())
}
