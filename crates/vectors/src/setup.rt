// What the shipped check is made of, and what it says.
use super::line::Line;
use super::tally::Tally;
use anyhow::{Context, ensure};
use checks::{Check, ShippedCheck};

// Marks and keys stand apart, since the check's `new` takes them so: each layer has its own.
#[derive(Clone, Copy)]
pub struct Setup {
    revoked: [bool; 16],
    port: u32,
    keys: [[u8; 56]; 16],
}

impl Setup {
    // No site is revoked, the port is 0, and all keys are zeros.
    pub fn new() -> Setup {
        Setup {
            revoked: [false; 16],
            port: 0,
            keys: [[0; 56]; 16],
        }
    }

    // port NUMBER
    pub fn set_port(&mut self, line: Line<'_>) -> anyhow::Result<()> {
        self.port = line.read(1)?;
        line.expect(2)
    }

    // revoke SITE
    pub fn revoke(&mut self, line: Line<'_>) -> anyhow::Result<()> {
        let site = line.read::<u32>(1)? as usize;
        *self.revoked.get_mut(site).context("no such site")? = true;
        line.expect(2)
    }

    // key SITE KEY
    pub fn set_key(&mut self, line: Line<'_>) -> anyhow::Result<()> {
        let site = line.read::<u32>(1)? as usize;
        let key = line.bytes(2)?;
        ensure!(
            site < self.keys.len() && key.len() == 56,
            "no such site, or not 56 bytes"
        );
        self.keys[site].copy_from_slice(key.as_slice());
        line.expect(3)
    }

    // vouch NAME SITE STATEMENT TAG ANSWER
    pub fn run_vouch(&self, line: Line<'_>, tally: &mut Tally<'_>) -> anyhow::Result<()> {
        line.expect(6)?;
        let name = line.word(1)?;
        let answer = line.answer(5)?;
        let site = line.read(2)?;
        let statement = line.bytes(3)?;
        let tag = line.bytes(4)?;
        let check = ShippedCheck::new(self.revoked, self.port, self.keys);
        let right = check.vouches(site, statement.as_slice(), tag.as_slice()) == answer;
        tally.note(format_args!("vouched for: {name}"), right)
    }
}
