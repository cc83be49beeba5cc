// What hear refuses of proposals, prepares and commits, but for their certificates.
use super::base::{
    COMMIT, D, E, PREPARE, TAG_OF_3, first_is_refused, heard, proposal, record, with_words,
};
use std::test::Fail;
use values::{Refusal, Report, Value};

// The round, the view, the site, the track, and the tag of another site.
const WORDS: [(usize, u32); 5] = [(4, 8), (8, 3), (12, 4), (16, 1000), (32, TAG_OF_3)];

const REFUSALS: [Refusal; 5] = [
    Refusal::OtherRound { place: 4 },
    Refusal::WrongView { place: 8 },
    Refusal::WrongSite { place: 12 },
    Refusal::IllegalFix { place: 16 },
    Refusal::BadTag { place: 28 },
];

#[test]
fn words_of_claims(rt: HostRuntime) -> Result<(), Fail> {
    let site = record(0, 1)?;
    first_is_refused(&rt, &site, &PREPARE, &WORDS, &REFUSALS)?;
    first_is_refused(&rt, &site, &COMMIT, &WORDS, &REFUSALS)?;
    first_is_refused(&rt, &record(3, 2)?, &proposal(), &WORDS, &REFUSALS)
}

// Any site may prepare and commit, but only the leader may propose: site 0 does not lead view 2.
#[test]
fn only_the_leader_proposes(rt: HostRuntime) -> Result<(), Fail> {
    let site = record(3, 2)?;
    let other = with_words(&proposal(), &[(12, 0), (32, 0)])?;
    assert!(rt; heard(&site, &other) == Err(Refusal::WrongSite { place: 12 }));
    // in view 5 it is site 0 again
    let later = with_words(&proposal(), &[(8, 5)])?;
    assert!(rt; heard(&record(3, 5)?, &later) == Err(Refusal::WrongSite { place: 12 }));
    Ok(())
}

// A packet in whose sender's rows a value stands: in that of prepares, in that of commits.
fn in_rows(
    packet: &[u8],
    sender: usize,
    rows: [Option<Value>; 2],
) -> Result<Result<(), Refusal>, Fail> {
    let mut site = record(3, 1)?;
    let [prepared, committed] = rows;
    *site.round.rows.prepares.get_mut(sender).ok_or("no row")? = prepared;
    *site.round.rows.commits.get_mut(sender).ok_or("no row")? = committed;
    Ok(heard(&site, packet))
}

#[test]
fn rows_of_senders(rt: HostRuntime) -> Result<(), Fail> {
    // the prepare of site 1, the commit of site 0
    assert!(rt; in_rows(&PREPARE, 1, [Some(D), None])? == Err(Refusal::Repeated));
    assert!(rt; in_rows(&PREPARE, 1, [Some(E), None])? == Err(Refusal::Equivocation));
    assert!(rt; in_rows(&COMMIT, 0, [None, Some(D)])? == Err(Refusal::Repeated));
    assert!(rt; in_rows(&COMMIT, 0, [None, Some(E)])? == Err(Refusal::Equivocation));
    // rows of the other kind, and of other sites
    assert!(rt; in_rows(&PREPARE, 1, [None, Some(E)])? == Ok(()));
    assert!(rt; in_rows(&COMMIT, 0, [Some(E), None])? == Ok(()));
    assert!(rt; in_rows(&PREPARE, 0, [Some(D), Some(D)])? == Ok(()));
    assert!(rt; in_rows(&COMMIT, 1, [Some(E), Some(E)])? == Ok(()));
    Ok(())
}

// The tag is tested before the rows, and the rows before the certificate.
#[test]
fn rows_between(rt: HostRuntime) -> Result<(), Fail> {
    let untagged = with_words(&PREPARE, &[(32, TAG_OF_3)])?;
    assert!(rt; in_rows(&untagged, 1, [Some(D), None])? == Err(Refusal::BadTag { place: 28 }));
    let untagged = with_words(&COMMIT, &[(32, TAG_OF_3)])?;
    assert!(rt; in_rows(&untagged, 0, [None, Some(E)])? == Err(Refusal::BadTag { place: 28 }));
    // a certificate of site 4
    let bad = with_words(&COMMIT, &[(64, 4)])?;
    assert!(rt; in_rows(&bad, 0, [None, Some(D)])? == Err(Refusal::Repeated));
    assert!(rt; in_rows(&bad, 0, [None, Some(E)])? == Err(Refusal::Equivocation));
    Ok(())
}

// How a packet is heard by a site that has prepared a value in a view, in view 2.
fn when_prepared(view: u32, value: Value, packet: &[u8]) -> Result<Result<(), Refusal>, Fail> {
    let mut site = record(3, 2)?;
    site.round.prepared = Some(Report { view, value });
    Ok(heard(&site, packet))
}

#[test]
fn second_proposals(rt: HostRuntime) -> Result<(), Fail> {
    // of the same fix or of another
    assert!(rt; when_prepared(2, D, &proposal())? == Err(Refusal::Repeated));
    assert!(rt; when_prepared(2, E, &proposal())? == Err(Refusal::Repeated));
    // prepared in the view before
    assert!(rt; when_prepared(1, E, &proposal())? == Ok(()));
    // behind the tag, before the certificate
    let untagged = with_words(&proposal(), &[(32, TAG_OF_3)])?;
    assert!(rt; when_prepared(2, D, &untagged)? == Err(Refusal::BadTag { place: 28 }));
    let bad = with_words(&proposal(), &[(148, 8)])?;
    assert!(rt; when_prepared(2, D, &bad)? == Err(Refusal::Repeated));
    Ok(())
}
