// LMS signatures as RFC 8554 defines them, verified: LMS type 5 with LM-OTS type 4.
#![tactic(auto)]

mod one_time;
mod parts;
mod tree;
mod verification;

pub use verification::verify;
