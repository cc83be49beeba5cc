// Packets in lent bytes, and their words: 32 bits, the highest byte first.
ghost use Rattle.std.specs.Prelude.{◌≡◌, ℕ, ◌+◌, ◌≤◌, List, length, IfOk, Result, OnOk};
ghost use Rattle.values.specs.Refusals.{layout, refused_as};
ghost use Rattle.wire.specs.declared.words.Malformed.{Malformed};
ghost use Rattle.wire.specs.Words.{word_at};
ghost use Rattle.wire.specs.Places.{Inside};

use buffers::word;
use values::{Refusal, TagLimit};

// The layout is broken at a place: refusal number 3.
#[derive(Clone, Copy, Debug, PartialEq, Eq)]
pub struct Malformed {
    pub place: usize,
}

impl From<Malformed> for Refusal {
    ghost from_gives = { λ fault r. refused_as r ≡ layout fault.place };

    fn from(fault: Malformed) -> Refusal {
        Refusal::Layout { place: fault.place }
    }
}

// The word at a place.
#[tactic(auto, unfolding(crate::specs::Words::word_at))]
pub fn word_at(packet: &[u8], at: usize) -> Result<u32, Malformed>
    ensures value { result ≡ word_at packet.now at }
    ensures within { OnOk result (at + 4 ≤ length packet.now) }
{
    // As plain as a `get`, which would have to be turned into an array before it is a word.
    if packet.len() < 4 || at > packet.len() - 4 {
        return Err(Malformed { place: at });
    }
    Ok(word(packet, at))
}

// What stands at a place of a packet, whatever the tag limit is.
pub trait Field: Sized {
    ghost reads: { List ℕ → ℕ → Result (Self × ℕ) Malformed };

    // What stands at a place, and the place behind it.
    // Here and at other readers, `within` speaks of lent bytes that no type of the answer holds.
    fn read(packet: &[u8], at: usize) -> Result<(Self, usize), Malformed>
        ensures value { result ≡ reads packet.now at }
        ensures within { IfOk result (λ p. Inside at p.1 packet.now) };
}

// The bytes of a packet or a draft, and how long a tag in them may be.
#[derive(Clone, Copy)]
pub struct Packet<'a> {
    pub bytes: &'a [u8],
    pub limit: TagLimit,
}
