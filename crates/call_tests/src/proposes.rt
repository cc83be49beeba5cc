// What propose tests, and the value that it answers.
use super::base::{
    D, E, PREPARED, ROOM, SILENT, TAG_OF_1, TAG_OF_3, bad_at, books, books_of, gathered,
    other_commit, record, too_short, view_book, with_words,
};
use super::bytes::with_bytes;
use super::signs::Signs;
use calls::Record;
use std::test::Fail;
use values::{Cause, Refusal, Value};

// Track 1,000.
const ILLEGAL: Value = Value {
    first: 1000,
    second: 600000,
    third: 30000000,
};

fn proposed(site: &Record, value: Value, views: &[u8; 416]) -> Result<Value, Refusal> {
    site.may_propose(value, books(views), 352, &Signs)
}

// The lengths before the value, and the value before all else.
#[test]
fn lengths_and_values(rt: HostRuntime) -> Result<(), Fail> {
    let site = record(0, 1)?;
    for (i, sizes) in too_short().iter().enumerate() {
        let answer = site.may_propose(ILLEGAL, books_of(&ROOM, sizes)?, sizes.out, &Signs);
        assert_eq!(rt; answer, Err(Refusal::Short), "length {i}");
    }
    let illegal = Err(Refusal::IllegalFix { place: 0 });
    assert!(rt; proposed(&site, ILLEGAL, &ROOM) == illegal);
    // at a site that does not lead, and where another is forced
    assert!(rt; proposed(&record(1, 1)?, ILLEGAL, &ROOM) == illegal);
    assert!(rt; proposed(&gathered()?, ILLEGAL, &view_book()) == illegal);
    Ok(())
}

#[test]
fn may_not_propose(rt: HostRuntime) -> Result<(), Fail> {
    let refused = Err(Refusal::MayNotPropose);
    // site 0 leads view 1, and site 1 leads view 2
    assert!(rt; proposed(&record(1, 1)?, D, &ROOM) == refused);
    let mut other = record(0, 2)?;
    other.round.lengths = gathered()?.round.lengths;
    assert!(rt; proposed(&other, D, &view_book()) == refused);
    // the mark is set
    let mut again = record(0, 1)?;
    again.round.proposed = true;
    assert!(rt; proposed(&again, D, &ROOM) == refused);
    let mut again = gathered()?;
    again.round.proposed = true;
    assert!(rt; proposed(&again, D, &view_book()) == refused);
    // two new-views; the second is broken, too
    let mut few = gathered()?;
    few.round.lengths.views[3] = 0;
    assert!(rt; proposed(&few, D, &view_book()) == refused);
    assert!(rt; proposed(&few, D, &with_words(&view_book(), &[(104, 0)])?) == refused);
    Ok(())
}

// In view 1 it is the given value, and so where the new-views report nothing.
#[test]
fn free(rt: HostRuntime) -> Result<(), Fail> {
    assert!(rt; proposed(&record(0, 1)?, E, &ROOM) == Ok(E));
    let of_0 = with_words(&SILENT, &[(12, 0), (28, 0)])?;
    let of_1 = with_words(&SILENT, &[(12, 1), (28, TAG_OF_1)])?;
    let book = with_bytes(&view_book(), 0, &of_0)?;
    let book = with_bytes(&book, 104, &of_1)?;
    let mut site = gathered()?;
    site.round.lengths.views[0] = 32;
    site.round.lengths.views[1] = 32;
    assert!(rt; proposed(&site, E, &book) == Ok(E));
    Ok(())
}

// Another value is handed in than is forced: d by its commit, e by sites 0 and 1, who prepared it.
#[test]
fn forced(rt: HostRuntime) -> Result<(), Fail> {
    assert!(rt; proposed(&gathered()?, E, &view_book()) == Ok(D));
    let of_0 = with_words(&PREPARED, &[(12, 0), (44, 0)])?;
    let book = with_bytes(&view_book(), 0, &of_0)?;
    let mut site = gathered()?;
    site.round.lengths.views[0] = 48;
    assert!(rt; proposed(&site, D, &book) == Ok(E));
    Ok(())
}

// Site 1 proposes d, with another word in its view book.
fn with_word(at: usize, word: u32) -> Result<Result<Value, Refusal>, Fail> {
    Ok(proposed(&gathered()?, D, &with_words(&view_book(), &[(at, word)])?))
}

// In the certificate the new-views stand at 4, 108 and 156, in the book at 0, 104 and 312.
#[test]
fn layout_of_rows(rt: HostRuntime) -> Result<(), Fail> {
    // their kind words
    assert!(rt; with_word(0, 0)? == Err(Refusal::Layout { place: 4 }));
    assert!(rt; with_word(104, 0)? == Err(Refusal::Layout { place: 108 }));
    assert!(rt; with_word(312, 0)? == Err(Refusal::Layout { place: 156 }));
    // the tag of site 3, longer than the limit
    assert!(rt; with_word(336, 5)? == Err(Refusal::Layout { place: 180 }));
    // before the round of the first
    let broken = with_words(&view_book(), &[(4, 8), (312, 0)])?;
    assert!(rt; proposed(&gathered()?, D, &broken) == Err(Refusal::Layout { place: 156 }));
    Ok(())
}

// Site 1 proposes d, and its record says that its own row holds so many bytes.
fn with_length(length: usize) -> Result<Result<Value, Refusal>, Fail> {
    let mut site = gathered()?;
    site.round.lengths.views[1] = length;
    Ok(proposed(&site, D, &view_book()))
}

#[test]
fn lengths_of_rows(rt: HostRuntime) -> Result<(), Fail> {
    // the filling of its tag is cut: the tag is at 40 in the row
    assert!(rt; with_length(47)? == Err(Refusal::Layout { place: 148 }));
    // a byte is left over behind its 48; and the whole row, where the length is past its end
    assert!(rt; with_length(49)? == Err(Refusal::Layout { place: 156 }));
    assert!(rt; with_length(usize::MAX)? == Err(Refusal::Layout { place: 156 }));
    Ok(())
}

#[test]
fn bad_rows(rt: HostRuntime) -> Result<(), Fail> {
    // in the second row: the round, the reported track, the tag
    assert!(rt; with_word(108, 8)? == bad_at(112, Cause::Round, 1));
    assert!(rt; with_word(128, 0)? == bad_at(132, Cause::Fix, 1));
    assert!(rt; with_word(148, TAG_OF_3)? == bad_at(148, Cause::Tag, 1));
    // in the third: the view, the site
    assert!(rt; with_word(320, 3)? == bad_at(164, Cause::View, 1));
    assert!(rt; with_word(324, 1)? == bad_at(168, Cause::Site, 1));
    // in the commit certificate of the first: a site, a tag
    assert!(rt; with_word(80, 0)? == bad_at(84, Cause::Site, 2));
    assert!(rt; with_word(88, TAG_OF_3)? == bad_at(88, Cause::Tag, 2));
    Ok(())
}

// More new-views than are ever gathered: four in view 2, one in view 1.
#[test]
fn too_many_rows(rt: HostRuntime) -> Result<(), Fail> {
    let of_2 = with_words(&SILENT, &[(12, 2), (28, 0x0200_0000)])?;
    let book = with_bytes(&view_book(), 208, &of_2)?;
    let mut site = gathered()?;
    site.round.lengths.views[2] = 32;
    assert!(rt; proposed(&site, D, &book) == bad_at(0, Cause::Count, 1));
    let mut site = record(0, 1)?;
    site.round.lengths.views[1] = 48;
    assert!(rt; proposed(&site, D, &book) == bad_at(0, Cause::Count, 1));
    Ok(())
}

// Sites 0 and 1 have committed d and e in view 1.
#[test]
fn two_commits(rt: HostRuntime) -> Result<(), Fail> {
    let book = with_bytes(&view_book(), 104, &other_commit()?)?;
    let mut site = gathered()?;
    site.round.lengths.views[1] = 104;
    assert!(rt; proposed(&site, D, &book) == Err(Refusal::Conflict));
    Ok(())
}
