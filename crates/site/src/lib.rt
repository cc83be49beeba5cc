// A site, and the calls that its users make.
#![tactic(auto)]

mod calling;
mod site;

pub use effects::{Heard, What};
pub use site::Site;
