// What a progress certificate forces: the rule, and the search for it.
#![tactic(auto)]

mod rule;
mod verdict;

pub use rule::{Conflict, Forcing, Reported, weigh};
pub use verdict::{Forced, Verdict};
