// Which fix is forced, with which view, and by which certificate.
use super::base::{CERTIFICATE, judged, with_words};
use std::test::Fail;
use values::{Refusal, Value};
use verdicts::{Forced, Forcing, Verdict};

const D: Value = Value {
    first: 7,
    second: 600000,
    third: 30000000,
};

const E: Value = Value {
    first: 7,
    second: 600001,
    third: 30000000,
};

fn forced(value: Value, view: u32, by: Forcing) -> Result<Verdict, Refusal> {
    Ok(Verdict::Forced(Forced { value, view, by }))
}

#[test]
fn by_commit(rt: HostRuntime) -> Result<(), Fail> {
    assert!(rt; judged(&CERTIFICATE, 2)? == forced(D, 1, Forcing::Commit));
    Ok(())
}

// Sites 0 and 1 prepared e in view 1, and d is committed there.
#[test]
fn a_tie(rt: HostRuntime) -> Result<(), Fail> {
    let tie = with_words(&[(32, 600001)])?;
    assert!(rt; judged(&tie, 2)? == forced(D, 1, Forcing::Commit));
    Ok(())
}

// They prepared it in views 2 and 3, and all is for view 4.
#[test]
fn by_fast(rt: HostRuntime) -> Result<(), Fail> {
    let words = [(12, 4), (116, 4), (164, 4), (24, 2), (32, 600001), (128, 3)];
    assert!(rt; judged(&with_words(&words)?, 4)? == forced(E, 2, Forcing::Fast));
    Ok(())
}

// Site 1 committed e in view 1, as site 0 committed d.
#[test]
fn two_commits(rt: HostRuntime) -> Result<(), Fail> {
    let mut two = [0; 244];
    two[..108].copy_from_slice(&CERTIFICATE[..108]);
    two[108..212].copy_from_slice(&CERTIFICATE[4..108]);
    two[212..].copy_from_slice(&CERTIFICATE[156..]);
    two[123] = 1; // the site
    two[159] = 0xc1; // the committed fix
    two[168] = 1; // the tag
    assert!(rt; judged(&two, 2)? == Err(Refusal::Conflict));
    Ok(())
}
