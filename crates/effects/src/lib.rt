// What the calls leave once their tests are passed: the record, the books, and what is written to
// the start of `out`.
#![tactic(auto)]

mod answer;
mod counting;
mod drafting;
mod progress;
mod votes;

pub use answer::{Heard, What};
pub use counting::{count_commit, count_prepare, gather};
pub use drafting::{leave, prepare, propose};
