// Each cause at each depth, with its place. The fleet has four sites, the tag limit is 4.
use super::base::{CERTIFICATE, judged, with_words};
use std::test::Fail;
use values::{Cause, Refusal};
use verdicts::Verdict;

fn bad_at(place: usize, cause: Cause, depth: u32) -> Result<Verdict, Refusal> {
    Err(Refusal::BadCertificate {
        place,
        cause,
        depth,
    })
}

// The certificate with another word at a place.
fn with_word(at: usize, word: u32) -> Result<Result<Verdict, Refusal>, Fail> {
    judged(&with_words(&[(at, word)])?, 2)
}

#[test]
fn rounds_and_views(rt: HostRuntime) -> Result<(), Fail> {
    // another round, another view
    assert!(rt; with_word(112, 8)? == bad_at(112, Cause::Round, 1));
    assert!(rt; with_word(164, 3)? == bad_at(164, Cause::View, 1));
    // prepared in view 0, prepared in view 2, committed in view 2
    assert!(rt; with_word(24, 0)? == bad_at(24, Cause::View, 1));
    assert!(rt; with_word(128, 2)? == bad_at(128, Cause::View, 1));
    assert!(rt; with_word(44, 2)? == bad_at(44, Cause::View, 1));
    Ok(())
}

#[test]
fn sites_fixes_and_tags(rt: HostRuntime) -> Result<(), Fail> {
    // a site that was there, and no site of the fleet
    assert!(rt; with_word(168, 1)? == bad_at(168, Cause::Site, 1));
    assert!(rt; with_word(168, 4)? == bad_at(168, Cause::Site, 1));
    // prepared track 1,000, committed track 0
    assert!(rt; with_word(28, 1000)? == bad_at(28, Cause::Fix, 1));
    assert!(rt; with_word(48, 0)? == bad_at(48, Cause::Fix, 1));
    // another site's tag
    assert!(rt; with_word(152, 0x0300_0000)? == bad_at(148, Cause::Tag, 1));
    Ok(())
}

#[test]
fn commit_certificates(rt: HostRuntime) -> Result<(), Fail> {
    // a site that was there, no site of the fleet, and another site's tag
    assert!(rt; with_word(84, 0)? == bad_at(84, Cause::Site, 2));
    assert!(rt; with_word(96, 4)? == bad_at(96, Cause::Site, 2));
    assert!(rt; with_word(92, 0x0300_0000)? == bad_at(88, Cause::Tag, 2));
    Ok(())
}

// Without its last entry, and without the last entry of its commit certificate.
#[test]
fn counts(rt: HostRuntime) -> Result<(), Fail> {
    let mut copy = CERTIFICATE;
    copy[3] = 2;
    assert!(rt; judged(&copy[..156], 2)? == bad_at(0, Cause::Count, 1));
    let mut short = CERTIFICATE;
    short.copy_within(108.., 96);
    short[71] = 2;
    assert!(rt; judged(&short[..176], 2)? == bad_at(68, Cause::Count, 2));
    Ok(())
}

// The first fault speaks: that of a commit certificate before the next entry's.
#[test]
fn first_fault(rt: HostRuntime) -> Result<(), Fail> {
    let mut copy = CERTIFICATE;
    copy[99] = 4;
    copy[115] = 8;
    assert!(rt; judged(&copy, 2)? == bad_at(96, Cause::Site, 2));
    copy[99] = 2;
    assert!(rt; judged(&copy, 2)? == bad_at(112, Cause::Round, 1));
    Ok(())
}

#[test]
fn judged_views(rt: HostRuntime) -> Result<(), Fail> {
    assert!(rt; judged(&CERTIFICATE, 0)? == Err(Refusal::WrongView { place: 0 }));
    assert!(rt; judged(&CERTIFICATE, 1)? == bad_at(0, Cause::Count, 1));
    assert!(rt; judged(&[0; 4], 1)? == Ok(Verdict::Free));
    assert!(rt; judged(&CERTIFICATE[..187], 0)? == Err(Refusal::Layout { place: 180 }));
    Ok(())
}
