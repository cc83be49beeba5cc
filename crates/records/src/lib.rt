// What a site's record is made of: who the site is, what it keeps of a round, and how long the
// books must be.
#![tactic(auto)]

mod books;
mod member;
mod round;
mod rows;
mod sizes;

pub use books::{Books, BooksMut, held, row};
pub use member::Member;
pub use round::{Decision, Lengths, Round, Way};
pub use rows::Rows;
pub use sizes::Sizes;
