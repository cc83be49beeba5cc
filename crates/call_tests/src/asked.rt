// Which sites the check is asked about, and in which order: no contract can say it.
ghost use Rattle.call_tests.specs.Signs.{signed_by, Short-signed_by};

use super::base::{
    COMMIT, D, E, NEW_VIEW, PREPARE, TAG_OF_3, books, gathered, heard_by, proposal, record,
    view_book, with_words,
};
use super::signs::Signs;
use calls::Record;
use checks::Check;
use std::cell::Cell;
use std::test::Fail;
use values::{Report, Value};

// Notes which sites it is asked about, one digit for each, as the number of the site and 1.
#[derive(Drop)]
struct Noting {
    asked: Cell<u64>,
}

impl Check for Noting {
    ghost vouched = { λ c. signed_by };

    fn vouches(&self, site: u32, statement: &[u8], tag: &[u8]) -> bool {
        let so_far = self.asked.get().wrapping_mul(16);
        let digit = u64::from(site).wrapping_add(1);
        self.asked.set(so_far.wrapping_add(digit));
        Signs.vouches(site, statement, tag)
    }

    ghost short = { λ c. Short-signed_by };
}

fn nothing_asked() -> Noting {
    Noting {
        asked: Cell::new(0),
    }
}

// The sites that are asked about when a packet is heard.
fn asked(site: &Record, packet: &[u8]) -> u64 {
    let check = nothing_asked();
    let _ = heard_by(site, packet, &check);
    check.asked.get()
}

// The same for a packet with other words.
fn asked_with<const N: usize>(
    site: &Record,
    packet: &[u8; N],
    words: &[(usize, u32)],
) -> Result<u64, Fail> {
    Ok(asked(site, &with_words(packet, words)?))
}

// The sender first, then the sites of its certificate.
#[test]
fn each_tag_once(rt: HostRuntime) -> Result<(), Fail> {
    assert!(rt; asked(&record(0, 1)?, &PREPARE) == 0x2);
    assert!(rt; asked(&record(0, 1)?, &COMMIT) == 0x1_123);
    assert!(rt; asked(&record(1, 2)?, &NEW_VIEW) == 0x1_123);
    // the entries, the first with a commit certificate
    assert!(rt; asked(&record(3, 2)?, &proposal()) == 0x2_1_123_2_4);
    Ok(())
}

// The layout, the round, the view, the site and the fix are tested before the sender's tag.
#[test]
fn none_before(rt: HostRuntime) -> Result<(), Fail> {
    let site = record(0, 1)?;
    assert!(rt; asked(&site, &PREPARE[..35]) == 0);
    for word in [(4, 8), (8, 3), (12, 4), (16, 1000)] {
        assert_eq!(rt; asked_with(&site, &PREPARE, &[word])?, 0);
        assert_eq!(rt; asked_with(&site, &COMMIT, &[word])?, 0);
        assert_eq!(rt; asked_with(&record(3, 2)?, &proposal(), &[word])?, 0);
    }
    // of a new-view also the reported views and fixes, and that the site leads
    for word in [
        (4, 8),
        (8, 3),
        (20, 2),
        (40, 0),
        (12, 4),
        (24, 1000),
        (44, 0),
    ] {
        assert_eq!(rt; asked_with(&record(1, 2)?, &NEW_VIEW, &[word])?, 0);
    }
    assert!(rt; asked(&record(3, 2)?, &NEW_VIEW) == 0);
    Ok(())
}

// The sender's row is tested before its certificate.
#[test]
fn rows_before_certificates(rt: HostRuntime) -> Result<(), Fail> {
    let mut site = record(0, 1)?;
    for value in [D, E] {
        site.round.rows.commits[0] = Some(value);
        assert_eq!(rt; asked(&site, &COMMIT), 0x1);
    }
    // gathered already: that of site 0, and three others when that of site 2 comes
    let site = gathered()?;
    assert!(rt; asked(&site, &NEW_VIEW) == 0x1);
    assert!(rt; asked_with(&site, &NEW_VIEW, &[(12, 2), (60, 0x0200_0000)])? == 0x3);
    // prepared already
    let mut site = record(3, 2)?;
    site.round.prepared = Some(Report { view: 2, value: D });
    assert!(rt; asked(&site, &proposal()) == 0x2);
    Ok(())
}

#[test]
fn none_behind_a_fault(rt: HostRuntime) -> Result<(), Fail> {
    let site = record(0, 1)?;
    // the sender's tag, the second tag of the certificate, its third site
    assert!(rt; asked_with(&site, &COMMIT, &[(32, TAG_OF_3)])? == 0x1);
    assert!(rt; asked_with(&site, &COMMIT, &[(60, TAG_OF_3)])? == 0x1_12);
    assert!(rt; asked_with(&site, &COMMIT, &[(64, 4)])? == 0x1_12);
    let leader = record(1, 2)?;
    assert!(rt; asked_with(&leader, &NEW_VIEW, &[(60, TAG_OF_3)])? == 0x1);
    assert!(rt; asked_with(&leader, &NEW_VIEW, &[(88, TAG_OF_3)])? == 0x1_12);
    // the first tag of the first entry, then the round and the tag of the second
    let third = record(3, 2)?;
    assert!(rt; asked_with(&third, &proposal(), &[(32, TAG_OF_3)])? == 0x2);
    assert!(rt; asked_with(&third, &proposal(), &[(100, TAG_OF_3)])? == 0x2_1);
    assert!(rt; asked_with(&third, &proposal(), &[(148, 8)])? == 0x2_1_123);
    assert!(rt; asked_with(&third, &proposal(), &[(188, TAG_OF_3)])? == 0x2_1_123_2);
    Ok(())
}

// The sites that are asked about when a value is proposed, with other words in the view book.
fn asked_for(site: &Record, value: Value, words: &[(usize, u32)]) -> Result<u64, Fail> {
    let check = nothing_asked();
    let book = with_words(&view_book(), words)?;
    let _ = site.may_propose(value, books(&book), 352, &check);
    Ok(check.asked.get())
}

// Each gathered new-view is asked about again, and its commit certificate.
#[test]
fn for_proposals(rt: HostRuntime) -> Result<(), Fail> {
    assert!(rt; asked_for(&gathered()?, D, &[])? == 0x1_123_2_4);
    // the first tag, a tag of its certificate, the round of the second, the tag of the second
    assert!(rt; asked_for(&gathered()?, D, &[(60, TAG_OF_3)])? == 0x1);
    assert!(rt; asked_for(&gathered()?, D, &[(88, TAG_OF_3)])? == 0x1_12);
    assert!(rt; asked_for(&gathered()?, D, &[(108, 8)])? == 0x1_123);
    assert!(rt; asked_for(&gathered()?, D, &[(148, TAG_OF_3)])? == 0x1_123_2);
    Ok(())
}

#[test]
fn none_before_proposals(rt: HostRuntime) -> Result<(), Fail> {
    // in view 1, with an illegal value, and with a broken row
    assert!(rt; asked_for(&record(0, 1)?, D, &[])? == 0);
    let illegal = Value { first: 0, ..D };
    assert!(rt; asked_for(&gathered()?, illegal, &[])? == 0);
    assert!(rt; asked_for(&gathered()?, D, &[(312, 0)])? == 0);
    // when it may not propose
    let mut site = gathered()?;
    site.round.proposed = true;
    assert!(rt; asked_for(&site, D, &[])? == 0);
    Ok(())
}
