// Checks: who vouches for a statement.
#![tactic(auto)]

mod check;
mod keys;
mod port;
mod register;
mod revocation;
mod shipped;

pub use check::Check;
pub use keys::LmsKeys;
pub use port::PortPrefix;
pub use register::{Register, register_row};
pub use revocation::RevocationList;
pub use shipped::ShippedCheck;
