// What hear admits: it answers the parts of the message.
use super::base::{
    COMMIT, D, E, NEW_VIEW, PREPARE, PREPARED, ROOM, SILENT, TAG_OF_1, books, heard, proposal,
    record, with_words,
};
use super::bytes::{start, with_bytes};
use super::signs::Signs;
use messages::Message;
use std::test::Fail;
use values::Report;
use wire::Head;

// Who says it, in round 9.
fn head(view: u32, site: u32) -> Head {
    Head {
        round: 9,
        view,
        site,
    }
}

#[test]
fn a_prepare(rt: HostRuntime) -> Result<(), Fail> {
    let site = record(3, 1)?;
    let Message::Prepare { claim, tag } = site.admit(&PREPARE, books(&ROOM), 352, &Signs)? else {
        return Err(Fail::new("no prepare"));
    };
    assert!(rt; claim.head == head(1, 1) && claim.value == D);
    assert!(rt; tag.place == 28 && tag.bytes == [1].as_slice());
    Ok(())
}

#[test]
fn a_commit(rt: HostRuntime) -> Result<(), Fail> {
    let site = record(3, 1)?;
    let Message::Commit {
        claim,
        tag,
        certificate,
    } = site.admit(&COMMIT, books(&ROOM), 352, &Signs)?
    else {
        return Err(Fail::new("no commit"));
    };
    assert!(rt; claim.head == head(1, 0) && claim.value == D);
    assert!(rt; tag.place == 28 && tag.bytes == [0].as_slice());
    assert!(rt; certificate.place == 36 && certificate.bytes == &COMMIT[36..]);
    Ok(())
}

#[test]
fn a_proposal(rt: HostRuntime) -> Result<(), Fail> {
    let site = record(3, 2)?;
    let packet = proposal();
    let Message::Propose {
        claim,
        tag,
        progress,
    } = site.admit(&packet, books(&ROOM), 352, &Signs)?
    else {
        return Err(Fail::new("no proposal"));
    };
    assert!(rt; claim.head == head(2, 1) && claim.value == D);
    assert!(rt; tag.place == 28 && tag.bytes == [1].as_slice());
    assert!(rt; progress.place == 36 && progress.bytes == &packet[36..]);
    Ok(())
}

// In view 1 a proposal has no entries; over new-views that report nothing any fix is good.
#[test]
fn free_proposals(rt: HostRuntime) -> Result<(), Fail> {
    let first = with_bytes(&[0; 40], 0, start(&proposal(), 36)?)?;
    let first = with_words(&first, &[(8, 1), (12, 0), (32, 0)])?;
    assert!(rt; heard(&record(0, 1)?, &first) == Ok(()));
    let of_0 = with_words(&SILENT, &[(12, 0), (28, 0)])?;
    let of_1 = with_words(&SILENT, &[(12, 1), (28, TAG_OF_1)])?;
    let free = with_bytes(&[0; 136], 0, start(&proposal(), 40)?)?;
    let free = with_bytes(&free, 40, &of_0)?;
    let free = with_bytes(&free, 72, &of_1)?;
    let free = with_bytes(&free, 104, &SILENT)?;
    assert!(rt; heard(&record(3, 2)?, &free) == Ok(()));
    let free = with_words(&free, &[(20, 600001)])?;
    assert!(rt; heard(&record(3, 2)?, &free) == Ok(()));
    Ok(())
}

#[test]
fn a_new_view(rt: HostRuntime) -> Result<(), Fail> {
    let site = record(1, 2)?;
    let Message::NewView {
        change,
        tag,
        certificate,
    } = site.admit(&NEW_VIEW, books(&ROOM), 352, &Signs)?
    else {
        return Err(Fail::new("no new-view"));
    };
    assert!(rt; change.head == head(2, 0));
    assert!(rt; change.prepared == Some(Report { view: 1, value: D }));
    assert!(rt; change.committed == Some(Report { view: 1, value: D }));
    assert!(rt; tag.place == 56 && tag.bytes == [0].as_slice());
    assert!(rt; certificate.place == 64 && certificate.bytes == &NEW_VIEW[64..]);
    Ok(())
}

// That of site 1 itself, which reports no commit.
#[test]
fn a_shorter_new_view(rt: HostRuntime) -> Result<(), Fail> {
    let site = record(1, 2)?;
    let Message::NewView {
        change,
        tag,
        certificate,
    } = site.admit(&PREPARED, books(&ROOM), 352, &Signs)?
    else {
        return Err(Fail::new("no new-view"));
    };
    assert!(rt; change.head == head(2, 1));
    assert!(rt; change.prepared == Some(Report { view: 1, value: E }));
    assert!(rt; change.committed.is_none());
    assert!(rt; tag.place == 40 && tag.bytes == [1].as_slice());
    assert!(rt; certificate.bytes.is_empty());
    Ok(())
}
