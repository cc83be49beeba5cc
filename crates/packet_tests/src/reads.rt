// Each kind of packet whole, cut at each word, and damaged. The tag limit is 4.
use messages::Message;
use packets::read;
use std::process::Abort;
use std::test::Fail;
use values::{Fix, TagLimit};

// Of (7, 600000, 30000000) in round 9, view 1: proposed by site 0, prepared by site 1.
const PROPOSE: [u8; 40] =
    *b"\x00\x00\x00\x01\x00\x00\x00\x09\x00\x00\x00\x01\x00\x00\x00\x00\x00\x00\x00\x07\x00\x09\x27\xc0\x01\xc9\xc3\x80\x00\x00\x00\x02\xab\xcd\x00\x00\x00\x00\x00\x00";

const PREPARE: [u8; 36] =
    *b"\x00\x00\x00\x02\x00\x00\x00\x09\x00\x00\x00\x01\x00\x00\x00\x01\x00\x00\x00\x07\x00\x09\x27\xc0\x01\xc9\xc3\x80\x00\x00\x00\x04\x01\x02\x03\x04";

// Committed by site 2, with a certificate of one entry: site 3, tag 9.
const COMMIT: [u8; 48] =
    *b"\x00\x00\x00\x03\x00\x00\x00\x09\x00\x00\x00\x01\x00\x00\x00\x02\x00\x00\x00\x07\x00\x09\x27\xc0\x01\xc9\xc3\x80\x00\x00\x00\x00\x00\x00\x00\x01\x00\x00\x00\x03\x00\x00\x00\x01\x09\x00\x00\x00";

// Site 3 moves to view 2, prepared in view 1, committed nothing.
const NEW_VIEW: [u8; 44] =
    *b"\x00\x00\x00\x04\x00\x00\x00\x09\x00\x00\x00\x02\x00\x00\x00\x03\x00\x00\x00\x01\x00\x00\x00\x01\x00\x00\x00\x07\x00\x09\x27\xc0\x01\xc9\xc3\x80\x00\x00\x00\x00\x00\x00\x00\x00";

// The place of a layout fault, or none where the packet is read.
fn fault(rt: &impl Abort, packet: &[u8]) -> Result<Option<usize>, Fail> {
    let Err(refusal) = read(packet, TagLimit::new(4)?) else {
        return Ok(None);
    };
    assert_eq!(rt; refusal.number(), 3);
    Ok(refusal.place())
}

#[test]
fn prepare_is_read(rt: HostRuntime) -> Result<(), Fail> {
    let Message::Prepare { claim, tag } = read(&PREPARE, TagLimit::new(4)?)? else {
        return Err(Fail::new("no prepare"));
    };
    assert!(rt; claim.head.round == 9 && claim.head.view == 1 && claim.head.site == 1);
    let fix = Fix::from(claim.value);
    assert!(rt; fix.track == 7 && fix.longitude == 600000 && fix.latitude == 30000000);
    assert!(rt; tag.place == 28 && tag.bytes == [1, 2, 3, 4].as_slice());
    Ok(())
}

#[test]
fn certificates_have_places(rt: HostRuntime) -> Result<(), Fail> {
    let limit = TagLimit::new(4)?;
    let Message::Commit { certificate, .. } = read(&COMMIT, limit)? else {
        return Err(Fail::new("no commit"));
    };
    assert!(rt; certificate.place == 32 && certificate.bytes.len() == 16);
    let Message::Propose { progress, tag, .. } = read(&PROPOSE, limit)? else {
        return Err(Fail::new("no propose"));
    };
    assert!(rt; tag.bytes == [0xab, 0xcd].as_slice());
    assert!(rt; progress.place == 36 && progress.bytes.len() == 4);
    let Message::NewView {
        change,
        tag,
        certificate,
    } = read(&NEW_VIEW, limit)?
    else {
        return Err(Fail::new("no new-view"));
    };
    assert!(rt; change.prepared.is_some() && change.committed.is_none());
    assert!(rt; tag.place == 40 && certificate.place == 44 && certificate.bytes.is_empty());
    Ok(())
}

// Every cut at a word is refused at that word, but inside a tag at its length word.
fn cuts(rt: &impl Abort, packet: &[u8], tag: usize) -> Result<(), Fail> {
    for at in (0..packet.len()).step_by(4) {
        let place = if at == tag.saturating_add(4) { tag } else { at };
        assert_eq!(rt; fault(rt, &packet[..at])?, Some(place));
    }
    Ok(())
}

#[test]
fn cut_at_each_word(rt: HostRuntime) -> Result<(), Fail> {
    cuts(&rt, &PROPOSE, 28)?;
    cuts(&rt, &PREPARE, 28)?;
    cuts(&rt, &COMMIT, 40)?;
    cuts(&rt, &NEW_VIEW, 40)
}

// A packet with one byte changed is refused at a place.
fn damaged<const N: usize>(
    rt: &impl Abort,
    packet: [u8; N],
    at: usize,
    byte: u8,
    place: usize,
) -> Result<(), Fail> {
    let mut copy = packet;
    *copy.get_mut(at).ok_or("no such byte")? = byte;
    assert_eq!(rt; fault(rt, &copy)?, Some(place), "byte {at} is {byte}");
    Ok(())
}

#[test]
fn damaged_packets(rt: HostRuntime) -> Result<(), Fail> {
    assert!(rt; fault(&rt, &PREPARE)?.is_none() && fault(&rt, &COMMIT)?.is_none());
    damaged(&rt, PREPARE, 3, 5, 0)?; // kind 5
    damaged(&rt, PREPARE, 31, 5, 28)?; // a tag of 5 bytes
    damaged(&rt, PREPARE, 31, 3, 28)?; // filled with a 4
    damaged(&rt, PREPARE, 31, 0, 32)?; // left over
    damaged(&rt, COMMIT, 35, 17, 32)?; // a count of 17
    damaged(&rt, COMMIT, 35, 16, 48)?; // a count of 16, cut
    damaged(&rt, COMMIT, 45, 1, 40)?; // filled with a 1
    damaged(&rt, NEW_VIEW, 19, 2, 16)?; // a bool of 2
    damaged(&rt, NEW_VIEW, 39, 1, 44) // a committed view, cut
}
