// What stands in a packet: words, tags, statements and commit certificates, read from lent bytes.
// Statements are written into them as well.
#![tactic(auto)]

mod certificate;
mod statement;
mod tag;
mod words;

pub use certificate::{Counted, Entry, count_at};
pub use statement::{
    COMMIT, Claim, Head, NEW_VIEW, PREPARE, PROPOSE, Statement, ViewChange, report_length,
};
pub use tag::{Part, pad};
pub use words::{Field, Malformed, Packet, word_at};
