// Progress certificates judged: examined entry by entry, and weighed.
#![tactic(auto)]

mod examiner;
mod fault;
mod judging;

pub use examiner::{Examiner, entries_needed};
pub use fault::{CommitFault, EntryFault, Fault};
pub use judging::judge;
