// Revoked sites, over every check but the port's.
use super::leaves::{FIRST, SECOND, THIRD, one_key, three_rows};
use super::signature::{STATEMENT, TAG};
use checks::{Check, Register, RevocationList};
use std::test::Fail;

pub const NONE: [bool; 16] = [false; 16];

const ALL: [bool; 16] = [true; 16];

// A mark for one site.
pub fn only(site: usize) -> [bool; 16] {
    let mut marks = NONE;
    if let Some(mark) = marks.get_mut(site) {
        *mark = true;
    }
    marks
}

#[test]
fn revocation_over_register(rt: HostRuntime) -> Result<(), Fail> {
    let rows = three_rows()?;
    let list = RevocationList::new(only(2), Register::new(&rows));
    assert!(rt; list.vouches(1, b"abc", &FIRST));
    assert!(rt;
        !list.vouches(1, b"abd", &FIRST),
        "what the register does not vouch for"
    );
    assert!(rt; !list.vouches(2, b"", &SECOND), "a revoked site");
    let list = RevocationList::new(ALL, Register::new(&rows));
    assert!(rt; !list.vouches(1, b"abc", &FIRST), "a revoked site");
    assert!(rt;
        list.vouches(16, &[7; 64], &THIRD),
        "a site that has no mark"
    );
    Ok(())
}

#[test]
fn revocation_over_keys(rt: HostRuntime) {
    assert!(rt; RevocationList::new(NONE, one_key()).vouches(5, &STATEMENT, &TAG));
    assert!(rt; RevocationList::new(only(4), one_key()).vouches(5, &STATEMENT, &TAG));
    assert!(rt; !RevocationList::new(only(5), one_key()).vouches(5, &STATEMENT, &TAG));
}

#[test]
fn revocation_over_revocation(rt: HostRuntime) -> Result<(), Fail> {
    let rows = three_rows()?;
    let both = RevocationList::new(only(1), RevocationList::new(only(2), Register::new(&rows)));
    assert!(rt; !both.vouches(1, b"abc", &FIRST), "revoked above");
    assert!(rt; !both.vouches(2, b"", &SECOND), "revoked below");
    assert!(rt; both.vouches(16, &[7; 64], &THIRD));
    Ok(())
}
