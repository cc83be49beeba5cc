// A certificate for these examples, and what judging it answers.
use super::signs::Signs;
use certificates::judge;
use std::test::Fail;
use values::{Fleet, Refusal, TagLimit};
use verdicts::Verdict;

// For view 2 of round 9: three new-views, of sites 0, 1 and 3, at 4, 108 and 156. Site 0 prepared
// and committed d = (7, 600000, 30000000) in view 1, with a commit certificate of sites 0, 1 and 2
// at 68. Site 1 prepared e = (7, 600001, 30000000) in view 1. Site 3 reports nothing.
pub const CERTIFICATE: [u8; 188] =
    *b"\x00\x00\x00\x03\x00\x00\x00\x04\x00\x00\x00\x09\x00\x00\x00\x02\x00\x00\x00\x00\x00\x00\x00\x01\
      \x00\x00\x00\x01\x00\x00\x00\x07\x00\x09\x27\xc0\x01\xc9\xc3\x80\x00\x00\x00\x01\x00\x00\x00\x01\
      \x00\x00\x00\x07\x00\x09\x27\xc0\x01\xc9\xc3\x80\x00\x00\x00\x01\x00\x00\x00\x00\x00\x00\x00\x03\
      \x00\x00\x00\x00\x00\x00\x00\x01\x00\x00\x00\x00\x00\x00\x00\x01\x00\x00\x00\x01\x01\x00\x00\x00\
      \x00\x00\x00\x02\x00\x00\x00\x01\x02\x00\x00\x00\x00\x00\x00\x04\x00\x00\x00\x09\x00\x00\x00\x02\
      \x00\x00\x00\x01\x00\x00\x00\x01\x00\x00\x00\x01\x00\x00\x00\x07\x00\x09\x27\xc1\x01\xc9\xc3\x80\
      \x00\x00\x00\x00\x00\x00\x00\x01\x01\x00\x00\x00\x00\x00\x00\x04\x00\x00\x00\x09\x00\x00\x00\x02\
      \x00\x00\x00\x03\x00\x00\x00\x00\x00\x00\x00\x00\x00\x00\x00\x01\x03\x00\x00\x00";

pub fn judged(certificate: &[u8], view: u32) -> Result<Result<Verdict, Refusal>, Fail> {
    let fleet = Fleet::new(1, 0)?;
    Ok(judge(fleet, TagLimit::new(4)?, 9, view, certificate, &Signs))
}

// The certificate with other words at some places.
pub fn with_words(words: &[(usize, u32)]) -> Result<[u8; 188], Fail> {
    let mut copy = CERTIFICATE;
    for (at, word) in words {
        let end = at.saturating_add(4);
        let slot = copy.get_mut(*at..end).ok_or("no such word")?;
        slot.copy_from_slice(&word.to_be_bytes());
    }
    Ok(copy)
}
