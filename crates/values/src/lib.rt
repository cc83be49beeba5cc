// Values that sites share: the fleet, views, the tag limit, fixes, and the refusals.
#![tactic(auto)]

mod fix;
mod fleet;
mod refusal;

pub use fix::{Angle, Fix, Report, Value};
pub use fleet::{Fleet, TagLimit, View};
pub use refusal::{Cause, Refusal};
