// What hear tests first in every packet: the lengths of books and out, then the layout.
use super::base::{
    COMMIT, NEW_VIEW, PREPARE, ROOM, books_of, heard, proposal, record, too_short, with_words,
};
use super::bytes::start;
use super::signs::Signs;
use std::test::Fail;
use values::Refusal;

// The packet is cut as well: that is refused only where all is long enough.
#[test]
fn lengths(rt: HostRuntime) -> Result<(), Fail> {
    let site = record(0, 1)?;
    let cut = &PREPARE[..30];
    for (i, sizes) in too_short().iter().enumerate() {
        let answer = site.admit(cut, books_of(&ROOM, sizes)?, sizes.out, &Signs);
        assert_eq!(rt; answer.map(|_| ()), Err(Refusal::Short), "length {i}");
    }
    assert!(rt; heard(&site, cut) == Err(Refusal::Layout { place: 28 }));
    Ok(())
}

// Each kind without its last byte, which fills its last tag. The round is another, too.
#[test]
fn cut(rt: HostRuntime) -> Result<(), Fail> {
    let mut site = record(0, 1)?;
    site.round.number = 8;
    assert!(rt; heard(&site, start(&PREPARE, 35)?) == Err(Refusal::Layout { place: 28 }));
    assert!(rt; heard(&site, start(&COMMIT, 75)?) == Err(Refusal::Layout { place: 68 }));
    assert!(rt; heard(&site, start(&NEW_VIEW, 103)?) == Err(Refusal::Layout { place: 96 }));
    assert!(rt; heard(&site, start(&proposal(), 223)?) == Err(Refusal::Layout { place: 216 }));
    assert!(rt; heard(&site, &PREPARE) == Err(Refusal::OtherRound { place: 4 }));
    Ok(())
}

#[test]
fn other_layout_faults(rt: HostRuntime) -> Result<(), Fail> {
    let site = record(0, 1)?;
    // no byte at all, an unknown kind
    assert!(rt; heard(&site, &[]) == Err(Refusal::Layout { place: 0 }));
    let unknown = with_words(&PREPARE, &[(0, 5)])?;
    assert!(rt; heard(&site, &unknown) == Err(Refusal::Layout { place: 0 }));
    // a commit without a certificate, and a prepare with one
    let commit = with_words(&PREPARE, &[(0, 3)])?;
    assert!(rt; heard(&site, &commit) == Err(Refusal::Layout { place: 36 }));
    let prepare = with_words(&COMMIT, &[(0, 2)])?;
    assert!(rt; heard(&site, &prepare) == Err(Refusal::Layout { place: 36 }));
    Ok(())
}
