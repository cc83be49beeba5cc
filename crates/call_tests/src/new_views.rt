// What hear refuses of new-views. They come to site 1, which leads view 2.
use super::base::{
    NEW_VIEW, PREPARED, SILENT, TAG_OF_3, bad_at, first_is_refused, gathered, heard, record,
    with_words,
};
use super::bytes::start;
use std::test::Fail;
use values::{Cause, Refusal};

// The round, the view, the reported views, the site, the reported tracks, and the tag.
#[test]
fn words_of_new_views(rt: HostRuntime) -> Result<(), Fail> {
    let words = [
        (4, 8),
        (8, 3),
        (20, 2),
        (40, 2),
        (12, 4),
        (24, 1000),
        (44, 0),
        (60, TAG_OF_3),
    ];
    let refusals = [
        Refusal::OtherRound { place: 4 },
        Refusal::WrongView { place: 8 },
        Refusal::WrongView { place: 20 },
        Refusal::WrongView { place: 40 },
        Refusal::WrongSite { place: 12 },
        Refusal::IllegalFix { place: 24 },
        Refusal::IllegalFix { place: 44 },
        Refusal::BadTag { place: 56 },
    ];
    first_is_refused(&rt, &record(1, 2)?, &NEW_VIEW, &words, &refusals)?;
    // reported views of 0
    let words = [(20, 0), (40, 0)];
    let refusals = [
        Refusal::WrongView { place: 20 },
        Refusal::WrongView { place: 40 },
    ];
    first_is_refused(&rt, &record(1, 2)?, &NEW_VIEW, &words, &refusals)
}

// The new-view of site 0 without its prepare: all that stood from 36 on stands 16 lower.
#[test]
fn a_commit_alone(rt: HostRuntime) -> Result<(), Fail> {
    let mut packet = [0; 88];
    packet[..20].copy_from_slice(&NEW_VIEW[..20]);
    packet[20..].copy_from_slice(&NEW_VIEW[36..]);
    packet[19] = 0;
    let site = record(1, 2)?;
    assert!(rt; heard(&site, &packet) == Ok(()));
    let words = [(24, 2), (28, 1000), (44, TAG_OF_3)];
    let refusals = [
        Refusal::WrongView { place: 24 },
        Refusal::IllegalFix { place: 28 },
        Refusal::BadTag { place: 40 },
    ];
    first_is_refused(&rt, &site, &packet, &words, &refusals)?;
    // its certificate is at 48, the second site of that at 64
    let bad = with_words(&packet, &[(64, 0)])?;
    assert!(rt; heard(&site, &bad) == bad_at(64, Cause::Site, 1));
    Ok(())
}

// The tags of new-views with a prepare alone, and with nothing.
#[test]
fn shorter_ones(rt: HostRuntime) -> Result<(), Fail> {
    let site = record(1, 2)?;
    let bad = with_words(&PREPARED, &[(44, TAG_OF_3)])?;
    assert!(rt; heard(&site, &bad) == Err(Refusal::BadTag { place: 40 }));
    let bad = with_words(&SILENT, &[(28, 0)])?;
    assert!(rt; heard(&site, &bad) == Err(Refusal::BadTag { place: 24 }));
    Ok(())
}

// A site that does not lead hears none, and the leader of view 1 neither.
#[test]
fn only_the_leader_hears(rt: HostRuntime) -> Result<(), Fail> {
    assert!(rt; heard(&record(3, 2)?, &NEW_VIEW) == Err(Refusal::WrongSite { place: 12 }));
    let first = with_words(&SILENT, &[(8, 1)])?;
    assert!(rt; heard(&record(0, 1)?, &first) == Err(Refusal::WrongSite { place: 12 }));
    // in view 5, which site 0 leads again, it does
    let fifth = with_words(&SILENT, &[(8, 5)])?;
    assert!(rt; heard(&record(0, 5)?, &fifth) == Ok(()));
    Ok(())
}

#[test]
fn gathered_already(rt: HostRuntime) -> Result<(), Fail> {
    // of site 2, with a report and a tag of its own
    let fourth = with_words(&NEW_VIEW, &[(12, 2), (60, 0x0200_0000)])?;
    let mut site = gathered()?;
    assert!(rt; heard(&site, &fourth) == Err(Refusal::Gathered));
    // of site 0 again: the same is said before
    assert!(rt; heard(&site, &NEW_VIEW) == Err(Refusal::Repeated));
    site.round.lengths.views[3] = 0;
    assert!(rt; heard(&site, &fourth) == Ok(()));
    // whatever it says
    let another = with_words(&NEW_VIEW, &[(28, 600001)])?;
    assert!(rt; heard(&site, &another) == Err(Refusal::Repeated));
    Ok(())
}

// Behind the tag, before the certificate.
#[test]
fn gathered_between(rt: HostRuntime) -> Result<(), Fail> {
    let site = gathered()?;
    let untagged = with_words(&NEW_VIEW, &[(60, TAG_OF_3)])?;
    assert!(rt; heard(&site, &untagged) == Err(Refusal::BadTag { place: 56 }));
    let bad = with_words(&NEW_VIEW, &[(80, 0)])?;
    assert!(rt; heard(&site, &bad) == Err(Refusal::Repeated));
    let fourth = with_words(&bad, &[(12, 2), (60, 0x0200_0000)])?;
    assert!(rt; heard(&site, &fourth) == Err(Refusal::Gathered));
    Ok(())
}

// Its commit certificate: two entries, site 0 twice, and another site's tag.
#[test]
fn certificates_of_commits(rt: HostRuntime) -> Result<(), Fail> {
    let site = record(1, 2)?;
    let two = with_words(&NEW_VIEW, &[(64, 2)])?;
    assert!(rt; heard(&site, start(&two, 92)?) == bad_at(64, Cause::Count, 1));
    let bad = with_words(&NEW_VIEW, &[(80, 0)])?;
    assert!(rt; heard(&site, &bad) == bad_at(80, Cause::Site, 1));
    let bad = with_words(&NEW_VIEW, &[(88, TAG_OF_3), (92, 4)])?;
    assert!(rt; heard(&site, &bad) == bad_at(84, Cause::Tag, 1));
    Ok(())
}
