// SHA-256, as FIPS 180-4 defines it.
#![tactic(auto)]

mod compression;
mod functions;
mod hashing;

pub use hashing::{Padding, hash, hash_block, hash_joined};
