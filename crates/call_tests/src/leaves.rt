// What leave tests.
use super::base::{ROOM, books, books_of, record, too_short};
use std::test::Fail;
use values::Refusal;

// The view is not higher, either.
#[test]
fn lengths(rt: HostRuntime) -> Result<(), Fail> {
    let site = record(1, 2)?;
    for (i, sizes) in too_short().iter().enumerate() {
        let answer = site.may_leave(2, books_of(&ROOM, sizes)?, sizes.out);
        assert_eq!(rt; answer, Err(Refusal::Short), "length {i}");
    }
    Ok(())
}

#[test]
fn views_to_leave_for(rt: HostRuntime) -> Result<(), Fail> {
    let site = record(1, 2)?;
    for view in [0, 1, 2] {
        let answer = site.may_leave(view, books(&ROOM), 352);
        assert_eq!(rt; answer, Err(Refusal::NotHigher), "for {view}");
    }
    // the next one, and the last
    for view in [3, u32::MAX] {
        let higher = site.may_leave(view, books(&ROOM), 352)?;
        assert_eq!(rt; higher.number(), view);
    }
    let last = record(1, u32::MAX)?;
    assert!(rt; last.may_leave(u32::MAX, books(&ROOM), 352) == Err(Refusal::NotHigher));
    Ok(())
}
