// The calls of a site: their definitions, and what each tests and asks before it changes anything.
#![tactic(auto)]

mod hearing;
mod proposing;
mod record;

pub use record::Record;
