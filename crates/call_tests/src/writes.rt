// What calls write, and that a refused one changes nothing.
use super::base::{
    COMMIT, D, E, NEW_VIEW, PREPARE, PREPARED, SILENT, TAG_OF_3, bad_at, other_commit, proposal,
    view_book, with_words,
};
use super::bytes::{start, with_bytes};
use super::harbour::{Bench, GATHERED, Shelf, leading, noted};
use super::signs::Signs;
use records::BooksMut;
use site::{Heard, Site};
use std::process::Abort;
use std::test::Fail;
use values::{Cause, Refusal, Value};

// The prepare of site 1 fills its row of the tag book.
#[test]
fn a_row_of_the_tag_book(rt: HostRuntime) -> Result<(), Fail> {
    let mut site = Bench::new(0)?;
    let before = site;
    assert_eq!(rt; site.hear(&PREPARE), noted(0));
    let shelf = Shelf {
        tags: with_bytes(&[0xff; 32], 8, &PREPARE[28..])?,
        ..before.shelf
    };
    assert!(rt; site.shelf == shelf && site.out == before.out);
    let lengths = site.site.record().round.lengths;
    assert!(rt; lengths.tags[..4] == [0, 8, 0, 0]);
    Ok(())
}

// With a tag limit of 8 a row has 12 bytes. This tag has 8, and the rest of the row stays.
#[test]
fn the_rest_of_a_row(rt: HostRuntime) -> Result<(), Fail> {
    let mut site = Site::open(1, 0, 0, 8, 9)?;
    let (mut tags, mut certificate, mut views) = ([0xff; 48], [0xff; 52], [0xff; 480]);
    let mut out = [0xff; 404];
    let books = BooksMut {
        tags: &mut tags,
        certificate: &mut certificate,
        views: &mut views,
    };
    assert_eq!(rt; site.hear(&PREPARE, &Signs, books, &mut out), noted(0));
    let expected = with_bytes(&[0xff; 48], 12, &PREPARE[28..])?;
    assert!(rt; tags == expected && certificate == [0xff; 52]);
    assert!(rt; views == [0xff; 480] && out == [0xff; 404]);
    Ok(())
}

// The third prepare fills its row and the certificate book, and the draft of the commit is its
// statement and the certificate.
#[test]
fn a_commit(rt: HostRuntime) -> Result<(), Fail> {
    let mut site = Bench::new(0)?;
    for other in [2, 1, 0] {
        let prepare = with_words(&PREPARE, &[(12, other), (32, other << 24)])?;
        site.hear(&prepare)?;
    }
    assert!(rt; site.shelf.certificate[..] == COMMIT[36..]);
    assert!(rt; site.shelf.views == [0xff; 416]);
    let out = with_bytes(&[0xff; 352], 0, &COMMIT[..28])?;
    let out = with_bytes(&out, 28, &COMMIT[36..])?;
    assert!(rt; site.out == out);
    Ok(())
}

// Three new-views, in whatever order they come.
#[test]
fn rows_of_the_view_book(rt: HostRuntime) -> Result<(), Fail> {
    let site = leading([&SILENT, &PREPARED, &NEW_VIEW])?;
    assert!(rt; site.shelf.views == view_book());
    assert!(rt; site.shelf.tags == [0xff; 32] && site.shelf.certificate == [0xff; 40]);
    Ok(())
}

// The statement, and the gathered new-views as a certificate: the message without its tag.
#[test]
fn a_proposal(rt: HostRuntime) -> Result<(), Fail> {
    let packet = proposal();
    let out = with_bytes(&[0xff; 352], 0, start(&packet, 28)?)?;
    let out = with_bytes(&out, 28, &packet[36..])?;
    let mut site = leading([&SILENT, &PREPARED, &NEW_VIEW])?;
    assert_eq!(rt; site.propose(E), Ok(216));
    assert!(rt; site.out == out && site.shelf.views == view_book());
    Ok(())
}

// A packet is refused, and record, books and out are as they were.
fn unheard(rt: &impl Abort, site: &mut Bench, packet: &[u8], answer: Result<Heard, Refusal>) {
    let before = *site;
    assert_eq!(rt; site.hear(packet), answer);
    assert!(rt; *site == before);
}

// At site 0, which has heard the prepare of site 1.
#[test]
fn refused_claims(rt: HostRuntime) -> Result<(), Fail> {
    let mut site = Bench::new(0)?;
    site.hear(&PREPARE)?;
    let cut = Err(Refusal::Layout { place: 28 });
    unheard(&rt, &mut site, &PREPARE[..35], cut);
    let refusals = [
        ((4, 8), Refusal::OtherRound { place: 4 }),
        ((8, 2), Refusal::WrongView { place: 8 }),
        ((12, 4), Refusal::WrongSite { place: 12 }),
        ((16, 0), Refusal::IllegalFix { place: 16 }),
        ((32, TAG_OF_3), Refusal::BadTag { place: 28 }),
        ((20, 600001), Refusal::Equivocation),
        ((20, 600000), Refusal::Repeated),
    ];
    for (word, refusal) in refusals {
        let packet = with_words(&PREPARE, &[word])?;
        unheard(&rt, &mut site, &packet, Err(refusal));
    }
    let commit = with_words(&COMMIT, &[(60, TAG_OF_3)])?;
    unheard(&rt, &mut site, &commit, bad_at(56, Cause::Tag, 1));
    Ok(())
}

// At site 3, which is in view 2, and prepares d there.
#[test]
fn refused_proposals(rt: HostRuntime) -> Result<(), Fail> {
    let mut site = Bench::new(3)?;
    site.leave(2)?;
    let packet = proposal();
    let other = with_words(&packet, &[(20, 600001)])?;
    unheard(&rt, &mut site, &other, Err(Refusal::NotForced));
    let bad = with_words(&packet, &[(128, TAG_OF_3)])?;
    unheard(&rt, &mut site, &bad, bad_at(124, Cause::Tag, 2));
    assert_eq!(rt; site.hear(&packet), noted(28));
    unheard(&rt, &mut site, &packet, Err(Refusal::Repeated));
    // and no new-view comes to it
    let wrong = Err(Refusal::WrongSite { place: 12 });
    unheard(&rt, &mut site, &SILENT, wrong);
    Ok(())
}

#[test]
fn refused_new_views(rt: HostRuntime) -> Result<(), Fail> {
    let mut site = Bench::new(1)?;
    site.leave(2)?;
    assert_eq!(rt; site.hear(&SILENT), noted(0));
    unheard(&rt, &mut site, &SILENT, Err(Refusal::Repeated));
    let bad = with_words(&NEW_VIEW, &[(80, 0)])?;
    unheard(&rt, &mut site, &bad, bad_at(80, Cause::Site, 1));
    assert_eq!(rt; site.hear(&PREPARED), noted(0));
    assert_eq!(rt; site.hear(&NEW_VIEW), GATHERED);
    let fourth = with_words(&SILENT, &[(12, 2), (28, 0x0200_0000)])?;
    unheard(&rt, &mut site, &fourth, Err(Refusal::Gathered));
    Ok(())
}

// A value is not proposed, and record, books and out are as they were.
fn unproposed(rt: &impl Abort, site: &mut Bench, value: Value, refusal: Refusal) {
    let before = *site;
    assert_eq!(rt; site.propose(value), Err(refusal));
    assert!(rt; *site == before);
}

#[test]
fn refused_proposing(rt: HostRuntime) -> Result<(), Fail> {
    let illegal = Value { first: 0, ..D };
    let mut site = leading([&NEW_VIEW, &PREPARED, &SILENT])?;
    unproposed(&rt, &mut site, illegal, Refusal::IllegalFix { place: 0 });
    assert_eq!(rt; site.propose(D), Ok(216));
    unproposed(&rt, &mut site, D, Refusal::MayNotPropose);
    let other = other_commit()?;
    let mut site = leading([&NEW_VIEW, &other, &SILENT])?;
    unproposed(&rt, &mut site, D, Refusal::Conflict);
    // and it leaves for no view that is not higher
    let before = site;
    assert_eq!(rt; site.leave(2), Err(Refusal::NotHigher));
    assert!(rt; site == before);
    Ok(())
}

// Out is one byte too short.
#[test]
fn without_room(rt: HostRuntime) -> Result<(), Fail> {
    let short = Refusal::Short;
    let mut site = Bench::new(0)?;
    let before = site;
    let Bench {
        site: record,
        shelf,
        out,
    } = &mut site;
    let out = &mut out[1..];
    assert_eq!(rt; record.propose(D, &Signs, shelf.books(), out), Err(short));
    assert_eq!(rt; record.leave(2, shelf.books(), out), Err(short));
    assert_eq!(rt;
        record.hear(&PREPARE, &Signs, shelf.books_mut(), out),
        Err(short)
    );
    assert!(rt; site == before);
    Ok(())
}
