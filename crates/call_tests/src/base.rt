// Records, packets and books for these examples. The fleet has four sites, the tag limit is 4, and
// the round is 9.
use super::signs::Signs;
use calls::Record;
use checks::Check;
use records::{Books, Lengths, Member, Round, Rows, Sizes};
use std::process::Abort;
use std::test::Fail;
use values::{Cause, Fleet, Refusal, TagLimit, Value, View};

pub const D: Value = Value {
    first: 7,
    second: 600000,
    third: 30000000,
};

pub const E: Value = Value {
    first: 7,
    second: 600001,
    third: 30000000,
};

// Site 1 prepares d in view 1. Its tag is at 28.
pub const PREPARE: [u8; 36] =
    *b"\x00\x00\x00\x02\x00\x00\x00\x09\x00\x00\x00\x01\x00\x00\x00\x01\x00\x00\x00\x07\x00\x09\x27\xc0\
      \x01\xc9\xc3\x80\x00\x00\x00\x01\x01\x00\x00\x00";

// Site 0 commits d in view 1. Its certificate, of sites 0, 1 and 2, is at 36.
pub const COMMIT: [u8; 76] =
    *b"\x00\x00\x00\x03\x00\x00\x00\x09\x00\x00\x00\x01\x00\x00\x00\x00\x00\x00\x00\x07\x00\x09\x27\xc0\
      \x01\xc9\xc3\x80\x00\x00\x00\x01\x00\x00\x00\x00\x00\x00\x00\x03\x00\x00\x00\x00\x00\x00\x00\x01\
      \x00\x00\x00\x00\x00\x00\x00\x01\x00\x00\x00\x01\x01\x00\x00\x00\x00\x00\x00\x02\x00\x00\x00\x01\
      \x02\x00\x00\x00";

// The new-view of site 0 for view 2: it prepared and committed d in view 1. Its tag is at 56, its
// certificate, of sites 0, 1 and 2, at 64.
pub const NEW_VIEW: [u8; 104] =
    *b"\x00\x00\x00\x04\x00\x00\x00\x09\x00\x00\x00\x02\x00\x00\x00\x00\x00\x00\x00\x01\x00\x00\x00\x01\
      \x00\x00\x00\x07\x00\x09\x27\xc0\x01\xc9\xc3\x80\x00\x00\x00\x01\x00\x00\x00\x01\x00\x00\x00\x07\
      \x00\x09\x27\xc0\x01\xc9\xc3\x80\x00\x00\x00\x01\x00\x00\x00\x00\x00\x00\x00\x03\x00\x00\x00\x00\
      \x00\x00\x00\x01\x00\x00\x00\x00\x00\x00\x00\x01\x00\x00\x00\x01\x01\x00\x00\x00\x00\x00\x00\x02\
      \x00\x00\x00\x01\x02\x00\x00\x00";

// That of site 1: it prepared e in view 1. Its tag is at 40.
pub const PREPARED: [u8; 48] =
    *b"\x00\x00\x00\x04\x00\x00\x00\x09\x00\x00\x00\x02\x00\x00\x00\x01\x00\x00\x00\x01\x00\x00\x00\x01\
      \x00\x00\x00\x07\x00\x09\x27\xc1\x01\xc9\xc3\x80\x00\x00\x00\x00\x00\x00\x00\x01\x01\x00\x00\x00";

// That of site 3: it reports nothing. Its tag is at 24.
pub const SILENT: [u8; 32] =
    *b"\x00\x00\x00\x04\x00\x00\x00\x09\x00\x00\x00\x02\x00\x00\x00\x03\x00\x00\x00\x00\x00\x00\x00\x00\
      \x00\x00\x00\x01\x03\x00\x00\x00";

// The statement and the tag of a proposal, and the count of its certificate.
const PROPOSED: [u8; 40] =
    *b"\x00\x00\x00\x01\x00\x00\x00\x09\x00\x00\x00\x02\x00\x00\x00\x01\x00\x00\x00\x07\x00\x09\x27\xc0\
      \x01\xc9\xc3\x80\x00\x00\x00\x01\x01\x00\x00\x00\x00\x00\x00\x03";

// The words of one tag each.
pub const TAG_OF_1: u32 = 0x0100_0000;

pub const TAG_OF_3: u32 = 0x0300_0000;

// Bytes to lend, as many as the longest book has.
pub const ROOM: [u8; 416] = [0; 416];

// How long the books and out have to be.
const NEEDED: Sizes = Sizes {
    tags: 32,
    certificate: 40,
    views: 416,
    out: 352,
};

// Site 1 proposes d in view 2 over three new-views, which stand at 40, 144 and 192. Its
// certificate is at 36. Only d may be proposed over them, since site 0 has committed it.
pub fn proposal() -> [u8; 224] {
    let mut packet = [0; 224];
    packet[..40].copy_from_slice(&PROPOSED);
    packet[40..144].copy_from_slice(&NEW_VIEW);
    packet[144..192].copy_from_slice(&PREPARED);
    packet[192..].copy_from_slice(&SILENT);
    packet
}

// The view book of site 1 with the same new-views. Behind them stands ff, and so in the row of
// site 2, which holds nothing.
pub fn view_book() -> [u8; 416] {
    let mut book = [0xff; 416];
    book[..104].copy_from_slice(&NEW_VIEW);
    book[104..152].copy_from_slice(&PREPARED);
    book[312..344].copy_from_slice(&SILENT);
    book
}

// The new-view of site 1 that reports e as committed in view 1, as that of site 0 reports d.
pub fn other_commit() -> Result<[u8; 104], Fail> {
    with_words(&NEW_VIEW, &[(12, 1), (48, 600001), (60, TAG_OF_1)])
}

// The same bytes with other words at some places.
pub fn with_words<const N: usize>(
    bytes: &[u8; N],
    words: &[(usize, u32)],
) -> Result<[u8; N], Fail> {
    let mut copy = *bytes;
    for (at, word) in words {
        let end = at.saturating_add(4);
        let slot = copy.get_mut(*at..end).ok_or("no such word")?;
        slot.copy_from_slice(&word.to_be_bytes());
    }
    Ok(copy)
}

// What a site keeps in a view in which it has heard nothing.
pub fn record(own: u32, view: u32) -> Result<Record, Fail> {
    let fleet = Fleet::new(1, 0)?;
    if own >= fleet.n() {
        return Err("no such site".into());
    }
    let member = Member {
        fleet,
        limit: TagLimit::new(4)?,
        own,
    };
    let round = Round {
        number: 9,
        view: View::new(view).ok_or("no such view")?,
        proposed: false,
        prepared: None,
        committed: None,
        rows: Rows::empty(),
        lengths: Lengths {
            tags: [0; 16],
            certificate: 0,
            views: [0; 16],
        },
        decision: None,
    };
    Ok(Record { member, round })
}

// Site 1, which leads view 2, has gathered three new-views there.
pub fn gathered() -> Result<Record, Fail> {
    let mut site = record(1, 2)?;
    site.round.lengths.views[0] = 104;
    site.round.lengths.views[1] = 48;
    site.round.lengths.views[3] = 32;
    Ok(site)
}

// Books as long as they have to be. Of the first two no byte is read in these examples.
pub fn books(views: &[u8; 416]) -> Books<'_> {
    Books {
        tags: &views[..32],
        certificate: &views[..40],
        views,
    }
}

// The lengths with one of them one byte too short.
pub fn too_short() -> [Sizes; 4] {
    [
        Sizes { tags: 31, ..NEEDED },
        Sizes {
            certificate: 39,
            ..NEEDED
        },
        Sizes {
            views: 415,
            ..NEEDED
        },
        Sizes { out: 351, ..NEEDED },
    ]
}

// Books of these lengths.
pub fn books_of<'a>(room: &'a [u8; 416], sizes: &Sizes) -> Result<Books<'a>, Fail> {
    Ok(Books {
        tags: room.get(..sizes.tags).ok_or("no tag book")?,
        certificate: room.get(..sizes.certificate).ok_or("no certificate book")?,
        views: room.get(..sizes.views).ok_or("no view book")?,
    })
}

// How a packet is heard.
pub fn heard_by<C: Check>(site: &Record, packet: &[u8], check: &C) -> Result<(), Refusal> {
    site.admit(packet, books(&ROOM), 352, check).map(|_| ())
}

pub fn heard(site: &Record, packet: &[u8]) -> Result<(), Refusal> {
    heard_by(site, packet, &Signs)
}

pub fn bad_at<T>(place: usize, cause: Cause, depth: u32) -> Result<T, Refusal> {
    Err(Refusal::BadCertificate {
        place,
        cause,
        depth,
    })
}

// Hears a packet with each of these words alone, and with it and all that come behind it: the
// first is refused, both times.
pub fn first_is_refused<const N: usize>(
    rt: &impl Abort,
    site: &Record,
    packet: &[u8; N],
    words: &[(usize, u32)],
    refusals: &[Refusal],
) -> Result<(), Fail> {
    for (i, refusal) in refusals.iter().enumerate() {
        let word = *words.get(i).ok_or("no such word")?;
        let later = words.get(i..).ok_or("no such word")?;
        let alone = heard(site, &with_words(packet, &[word])?);
        assert_eq!(rt; alone, Err(*refusal), "word {i} alone");
        let first = heard(site, &with_words(packet, later)?);
        assert_eq!(rt; first, Err(*refusal), "word {i} before the later ones");
    }
    Ok(())
}
