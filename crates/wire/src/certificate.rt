// Commit certificates: a count word, and entries of site word and tag.
ghost use Rattle.std.specs.Prelude.{◌≡◌, ℕ, ◌+◌, ◌≤◌, List, length, IfOk, Result, OnOk};
ghost use Rattle.wire.specs.declared.words.Malformed.{Malformed};
ghost use Rattle.wire.specs.Layout.{count_at, vote_at, votes_at};
ghost use Rattle.wire.specs.Places.{Inside, behind, counted_end, entry_read};

use super::tag::Part;
use super::words::{Malformed, Packet, word_at};

// A site, and the tag of its prepare.
#[derive(Clone, Copy)]
pub struct Entry<'a> {
    pub site: u32,
    pub tag: Part<'a>,
}

// What a count word counts. No closure: each call would have to say what its answer means.
pub trait Counted {
    ghost ends: { ℕ → List ℕ → ℕ → Result ℕ Malformed };

    // The place behind one of them.
    fn end(packet: Packet<'_>, at: usize) -> Result<usize, Malformed>
        ensures value { result ≡ ends packet.entry.limit.bytes packet.entry.bytes.now at }
        ensures within { IfOk result (λ e. Inside at e packet.entry.bytes.now) };
}

impl Counted for Entry<'_> {
    ghost ends = { λ limit b at. behind (vote_at limit b at) };

    fn end(packet: Packet<'_>, at: usize) -> Result<usize, Malformed>
        ensures value { result ≡ behind (vote_at packet.entry.limit.bytes packet.entry.bytes.now at) }
        ensures within { IfOk result (λ e. Inside at e packet.entry.bytes.now) }
    {
        let (_, end) = packet.entry_at(at)?;
        Ok(end)
    }
}

// The count at a place: at most 16.
pub fn count_at(packet: &[u8], at: usize) -> Result<u32, Malformed>
    ensures value { result ≡ count_at packet.now at }
    ensures within { OnOk result (at + 4 ≤ length packet.now) }
{
    let count = word_at(packet, at)?;
    if count > 16 {
        return Err(Malformed { place: at });
    }
    Ok(count)
}

impl<'a> Packet<'a> {
    // The entry at a place, and the place behind it.
    pub fn entry_at(self, at: usize) -> Result<(Entry<'a>, usize), Malformed>
        ensures value { entry_read result ≡ vote_at self.entry.limit.bytes self.entry.bytes.now at }
        ensures within { IfOk result (λ p. Inside at p.1 self.entry.bytes.now) }
        ensures place { IfOk result (λ p. p.0.tag.place ≡ at + 4) }
    {
        let site = word_at(self.bytes, at)?;
        let (tag, end) = self.tag_at(at + 4)?;
        Ok((Entry { site, tag }, end))
    }

    // The place behind a count word up to 16 and so many things.
    pub fn counted_end<C: Counted>(self, at: usize) -> Result<usize, Malformed>
        ensures value { result ≡ counted_end (C.Counted.ends self.entry.limit.bytes self.entry.bytes.now) self.entry.bytes.now at }
        ensures within { IfOk result (λ e. Inside at e self.entry.bytes.now) }
    {
        let count = count_at(self.bytes, at)?;
        // No count by hand: `next` is where the next one stands.
        let mut next = at + 4;
        for _ in 0..count {
            next = C::end(self, next)?;
        }
        Ok(next)
    }

    // The place behind a commit certificate: a name, with the certificate's own definition.
    pub fn certificate_end(self, at: usize) -> Result<usize, Malformed>
        ensures value { result ≡ behind (votes_at self.entry.limit.bytes self.entry.bytes.now at) }
        ensures within { IfOk result (λ e. Inside at e self.entry.bytes.now) }
    {
        self.counted_end::<Entry<'_>>(at)
    }
}
