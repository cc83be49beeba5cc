// A register that signs: each statement that a site makes gets a row.
use anyhow::Context;
use checks::{Register, register_row};
use std::alloc::Global;

#[derive(Drop)]
pub struct Registry {
    rows: Vec<u8>,
    // how many rows there are
    signed: u32,
}

impl Registry {
    pub fn new(heap: Global) -> Registry {
        Registry {
            rows: Vec::new(heap),
            signed: 0,
        }
    }

    // The tag of a site's statement: the number of its row.
    pub fn sign(&mut self, site: u32, statement: &[u8]) -> anyhow::Result<[u8; 4]> {
        let row = register_row(site, statement).context("a statement above 64 bytes")?;
        let tag = self.signed.to_be_bytes();
        self.rows.extend_from_slice(&row)?;
        self.signed = self.signed.checked_add(1).context("too many rows")?;
        Ok(tag)
    }

    // What vouches for all that was signed so far.
    pub fn check(&self) -> Register<'_> {
        Register::new(self.rows.as_slice())
    }
}
