// Digests and signatures.
use super::line::{Line, Readable, UnknownWord};
use super::tally::Tally;
use anyhow::{Context, ensure};
use lms::verify;
use sha256::hash;
use std::str::FromStr;

// digest NAME TIMES MESSAGE DIGEST: the digest of the message, so many times in a row.
pub fn run_digest(line: Line<'_>, tally: &mut Tally<'_>) -> anyhow::Result<()> {
    line.expect(5)?;
    let name = line.word(1)?;
    let part = line.bytes(3)?;
    let times = line.read::<u32>(2)? as usize;
    let message = part.as_slice().repeat(line.heap, times)?;
    let digest = line.bytes(4)?;
    let right = hash(message.as_slice()).as_slice() == digest.as_slice();
    tally.note(format_args!("digest of {name}"), right)
}

// A signature that later lines speak of.
#[derive(Drop)]
pub struct Signed {
    key: Vec<u8>,
    message: Vec<u8>,
    signature: Vec<u8>,
}

// What can be changed of a signature.
#[derive(Clone, Copy)]
enum Part {
    Key,
    Message,
    Signature,
}

impl FromStr for Part {
    type Err = UnknownWord;

    fn from_str(name: &str) -> Result<Part, UnknownWord> {
        match name {
            "key" => Ok(Part::Key),
            "message" => Ok(Part::Message),
            "signature" => Ok(Part::Signature),
            _ => Err(UnknownWord),
        }
    }
}

impl Readable for Part {
    const OTHERWISE: &'static str = "no such part";
}

impl Signed {
    fn is_valid(&self) -> bool {
        verify(
            self.key.as_slice(),
            self.message.as_slice(),
            self.signature.as_slice(),
        )
    }

    fn part(&mut self, part: Part) -> &mut Vec<u8> {
        match part {
            Part::Key => &mut self.key,
            Part::Message => &mut self.message,
            Part::Signature => &mut self.signature,
        }
    }

    // Turns a bit of a byte of a part.
    fn turn(&mut self, part: Part, at: usize) {
        if let Some(byte) = self.part(part).get_mut(at) {
            *byte ^= 1 << (at % 8);
        }
    }

    // Whether it is refused with a bit turned.
    fn is_refused(&mut self, part: Part, at: usize) -> bool {
        self.turn(part, at);
        let refused = !self.is_valid();
        self.turn(part, at);
        refused
    }
}

// verify NAME KEY MESSAGE SIGNATURE ANSWER
pub fn run_verify(line: Line<'_>, tally: &mut Tally<'_>) -> anyhow::Result<Signed> {
    line.expect(6)?;
    let name = line.word(1)?;
    let answer = line.answer(5)?;
    let signed = Signed {
        key: line.bytes(2)?,
        message: line.bytes(3)?,
        signature: line.bytes(4)?,
    };
    let right = signed.is_valid() == answer;
    tally.note(format_args!("signature of {name}"), right)?;
    Ok(signed)
}

// changed PART STEP: the last signature, with a bit turned in every so many bytes of its key,
// message or signature. Each is refused.
pub fn run_changed(
    line: Line<'_>,
    signed: Option<&mut Signed>,
    tally: &mut Tally<'_>,
) -> anyhow::Result<()> {
    line.expect(3)?;
    let name = line.word(1)?;
    let part = line.read(1)?;
    let step = line.read::<u32>(2)? as usize;
    let signed = signed.context("nothing to change")?;
    let len = signed.part(part).len();
    ensure!(step > 0 && len > 0, "nothing to change");
    for at in (0..len).step_by(step) {
        let right = signed.is_refused(part, at);
        tally.note(format_args!("  changed in byte {at} of its {name}"), right)?;
    }
    Ok(())
}
