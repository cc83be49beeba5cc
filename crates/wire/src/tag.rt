// Tags: a length word, the bytes, and zeros up to a multiple of four.
ghost use Rattle.std.specs.Prelude.{◌≡◌, ◌+◌, ◌^◌, ◌<◌, ◌≤◌, length, IfOk};
ghost use Rattle.wire.specs.Contents.{padded};
ghost use Rattle.wire.specs.Layout.{zeros, tag_at};
ghost use Rattle.wire.specs.Places.{Inside, tag_read};

use super::words::{Malformed, Packet, word_at};

// A part of a packet, and its place there: of a tag the place of its length word,
// of an attachment that of its first byte.
#[derive(Clone, Copy)]
pub struct Part<'a> {
    pub place: usize,
    pub bytes: &'a [u8],
}

// The next multiple of four.
pub fn pad(len: usize) -> usize
    requires { len + 3 < 2 ^ 64 }
    ensures { result ≡ padded len }
{
    len.next_multiple_of(4)
}

fn all_zero(bytes: &[u8]) -> bool
    ensures { result ≡ zeros bytes.now }
{
    bytes.iter().all(|b| *b == 0)
}

impl<'a> Packet<'a> {
    // The tag at a place, and the place behind it.
    pub fn tag_at(self, at: usize) -> Result<(Part<'a>, usize), Malformed>
        ensures value { tag_read result ≡ tag_at self.entry.limit.bytes self.entry.bytes.now at }
        ensures within { IfOk result (λ p. Inside at p.1 self.entry.bytes.now) }
        ensures place { IfOk result (λ p. p.0.place ≡ at) }
    {
        // By places: with `get` and a match on the rest, two goals stayed open.
        let len = word_at(self.bytes, at)? as usize;
        let start = at + 4;
        let filled = pad(len);
        if len > self.limit.bytes()
            || filled > self.bytes.len() - start
            || !all_zero(&self.bytes[start + len..start + filled])
        {
            return Err(Malformed { place: at });
        }
        Ok((
            Part {
                place: at,
                bytes: &self.bytes[start..start + len],
            },
            start + filled,
        ))
    }
}
