// What hear refuses of the certificates of commits and of proposals.
use super::base::{
    COMMIT, D, SILENT, TAG_OF_1, TAG_OF_3, bad_at, heard, other_commit, proposal, record,
    with_words,
};
use super::bytes::{start, with_bytes};
use std::test::Fail;
use values::{Cause, Refusal, Report};

#[test]
fn of_commits(rt: HostRuntime) -> Result<(), Fail> {
    let site = record(3, 1)?;
    // the second entry of site 0, the third of site 4, another site's tag
    let bad = with_words(&COMMIT, &[(52, 0)])?;
    assert!(rt; heard(&site, &bad) == bad_at(52, Cause::Site, 1));
    let bad = with_words(&COMMIT, &[(64, 4)])?;
    assert!(rt; heard(&site, &bad) == bad_at(64, Cause::Site, 1));
    let bad = with_words(&COMMIT, &[(60, TAG_OF_3)])?;
    assert!(rt; heard(&site, &bad) == bad_at(56, Cause::Tag, 1));
    // the earlier entry speaks
    let bad = with_words(&COMMIT, &[(60, TAG_OF_3), (64, 4)])?;
    assert!(rt; heard(&site, &bad) == bad_at(56, Cause::Tag, 1));
    Ok(())
}

// Two entries, and four: the last is of site 3.
#[test]
fn counts_of_commits(rt: HostRuntime) -> Result<(), Fail> {
    let site = record(3, 1)?;
    let two = with_words(&COMMIT, &[(36, 2)])?;
    assert!(rt; heard(&site, start(&two, 64)?) == bad_at(36, Cause::Count, 1));
    let mut four = [0; 88];
    four[..76].copy_from_slice(&COMMIT);
    let four = with_words(&four, &[(36, 4), (76, 3), (80, 1), (84, TAG_OF_3)])?;
    assert!(rt; heard(&site, &four) == bad_at(36, Cause::Count, 1));
    Ok(())
}

// A proposal with another word, at site 3.
fn with_word(at: usize, word: u32) -> Result<Result<(), Refusal>, Fail> {
    Ok(heard(&record(3, 2)?, &with_words(&proposal(), &[(at, word)])?))
}

// Each cause in the new-views, which stand at 40, 144 and 192.
#[test]
fn of_proposals(rt: HostRuntime) -> Result<(), Fail> {
    assert!(rt; with_word(148, 8)? == bad_at(148, Cause::Round, 1));
    assert!(rt; with_word(200, 3)? == bad_at(200, Cause::View, 1));
    assert!(rt; with_word(60, 0)? == bad_at(60, Cause::View, 1));
    assert!(rt; with_word(204, 1)? == bad_at(204, Cause::Site, 1));
    assert!(rt; with_word(84, 0)? == bad_at(84, Cause::Fix, 1));
    assert!(rt; with_word(188, TAG_OF_3)? == bad_at(184, Cause::Tag, 1));
    Ok(())
}

// The commit certificate of the first, at 104.
#[test]
fn inside_proposals(rt: HostRuntime) -> Result<(), Fail> {
    assert!(rt; with_word(120, 0)? == bad_at(120, Cause::Site, 2));
    assert!(rt; with_word(128, TAG_OF_3)? == bad_at(124, Cause::Tag, 2));
    // without its last entry
    let mut two = with_words(&proposal(), &[(104, 2)])?;
    two.copy_within(144.., 132);
    assert!(rt; heard(&record(3, 2)?, start(&two, 212)?) == bad_at(104, Cause::Count, 2));
    Ok(())
}

// Two new-views in view 2, and three in view 1, of which site 0 is the leader.
#[test]
fn counts_of_proposals(rt: HostRuntime) -> Result<(), Fail> {
    let two = with_words(&proposal(), &[(36, 2)])?;
    assert!(rt; heard(&record(3, 2)?, start(&two, 192)?) == bad_at(36, Cause::Count, 1));
    let first = with_words(&proposal(), &[(8, 1), (12, 0), (32, 0)])?;
    assert!(rt; heard(&record(3, 1)?, &first) == bad_at(36, Cause::Count, 1));
    Ok(())
}

// Over commits of d and e in view 1, whatever is proposed, but a bad certificate speaks before.
#[test]
fn two_commits(rt: HostRuntime) -> Result<(), Fail> {
    let packet = with_bytes(&[0; 280], 0, &proposal())?;
    let packet = with_bytes(&packet, 144, &other_commit()?)?;
    let packet = with_bytes(&packet, 248, &SILENT)?;
    let mut site = record(3, 2)?;
    assert!(rt; heard(&site, &packet) == Err(Refusal::Conflict));
    let other = with_words(&packet, &[(20, 600002)])?;
    assert!(rt; heard(&site, &other) == Err(Refusal::Conflict));
    let bad = with_words(&packet, &[(276, TAG_OF_1)])?;
    assert!(rt; heard(&site, &bad) == bad_at(272, Cause::Tag, 1));
    site.round.prepared = Some(Report { view: 2, value: D });
    assert!(rt; heard(&site, &packet) == Err(Refusal::Repeated));
    Ok(())
}

// A proposal of e where d is forced.
#[test]
fn not_forced(rt: HostRuntime) -> Result<(), Fail> {
    assert!(rt; with_word(20, 600001)? == Err(Refusal::NotForced));
    // and an entry whose tag is another site's
    let bad = with_words(&proposal(), &[(20, 600001), (220, TAG_OF_1)])?;
    assert!(rt; heard(&record(3, 2)?, &bad) == bad_at(216, Cause::Tag, 1));
    Ok(())
}
