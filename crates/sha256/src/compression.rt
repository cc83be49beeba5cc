// The hash value, and what one block of 64 bytes makes of it.
ghost use Rattle.std.specs.Prelude.{◌≡◌, ◌/◌};
ghost use Rattle.sha256.specs.Sha256.{round, added, first_words, schedule, compressed, after_all, digest};

use super::functions::{big_sigma0, big_sigma1, choose, majority, small_sigma0, small_sigma1};
use buffers::array;

// Eight words: a hash value, or the working variables of a round.
#[derive(Clone, Copy)]
pub struct State {
    a: u32,
    b: u32,
    c: u32,
    d: u32,
    e: u32,
    f: u32,
    g: u32,
    h: u32,
}

pub const INITIAL: State = State {
    a: 0x6a09e667,
    b: 0xbb67ae85,
    c: 0x3c6ef372,
    d: 0xa54ff53a,
    e: 0x510e527f,
    f: 0x9b05688c,
    g: 0x1f83d9ab,
    h: 0x5be0cd19,
};

const ROUND_CONSTANTS: [u32; 64] = [
    0x428a2f98, 0x71374491, 0xb5c0fbcf, 0xe9b5dba5, 0x3956c25b, 0x59f111f1, 0x923f82a4, 0xab1c5ed5,
    0xd807aa98, 0x12835b01, 0x243185be, 0x550c7dc3, 0x72be5d74, 0x80deb1fe, 0x9bdc06a7, 0xc19bf174,
    0xe49b69c1, 0xefbe4786, 0x0fc19dc6, 0x240ca1cc, 0x2de92c6f, 0x4a7484aa, 0x5cb0a9dc, 0x76f988da,
    0x983e5152, 0xa831c66d, 0xb00327c8, 0xbf597fc7, 0xc6e00bf3, 0xd5a79147, 0x06ca6351, 0x14292967,
    0x27b70a85, 0x2e1b2138, 0x4d2c6dfc, 0x53380d13, 0x650a7354, 0x766a0abb, 0x81c2c92e, 0x92722c85,
    0xa2bfe8a1, 0xa81a664b, 0xc24b8b70, 0xc76c51a3, 0xd192e819, 0xd6990624, 0xf40e3585, 0x106aa070,
    0x19a4c116, 0x1e376c08, 0x2748774c, 0x34b0bcb5, 0x391c0cb3, 0x4ed8aa4a, 0x5b9cca4f, 0x682e6ff3,
    0x748f82ee, 0x78a5636f, 0x84c87814, 0x8cc70208, 0x90befffa, 0xa4506ceb, 0xbef9a3f7, 0xc67178f2,
];

impl State {
    // One round, with its constant and its word of the schedule.
    fn round(self, k: u32, w: u32) -> State
        ensures { result ≡ round self k w }
    {
        let t1 = self
            .h
            .wrapping_add(big_sigma1(self.e))
            .wrapping_add(choose(self.e, self.f, self.g))
            .wrapping_add(k)
            .wrapping_add(w);
        let t2 = big_sigma0(self.a).wrapping_add(majority(self.a, self.b, self.c));
        State {
            a: t1.wrapping_add(t2),
            b: self.a,
            c: self.b,
            d: self.c,
            e: self.d.wrapping_add(t1),
            f: self.e,
            g: self.f,
            h: self.g,
        }
    }

    fn plus(self, other: State) -> State
        ensures { result ≡ added self other }
    {
        State {
            a: self.a.wrapping_add(other.a),
            b: self.b.wrapping_add(other.b),
            c: self.c.wrapping_add(other.c),
            d: self.d.wrapping_add(other.d),
            e: self.e.wrapping_add(other.e),
            f: self.f.wrapping_add(other.f),
            g: self.g.wrapping_add(other.g),
            h: self.h.wrapping_add(other.h),
        }
    }

    // The hash value after one more block.
    pub fn compress(self, block: &[u8; 64]) -> State
        ensures { result ≡ compressed self block.now }
    {
        let words = message_schedule(block);
        let mut v = self;
        for (k, w) in ROUND_CONSTANTS.iter().zip(&words) {
            v = v.round(*k, *w);
        }
        v.plus(self)
    }

    // The hash value after the whole blocks of some bytes.
    pub fn absorb(self, bytes: &[u8]) -> State
        ensures { result ≡ after_all self bytes.now }
    {
        let (blocks, _) = bytes.as_chunks::<64>();
        let mut state = self;
        for block in blocks {
            state = state.compress(block);
        }
        state
    }

    // The digest: the bytes of the words, the highest of each first. Named as std's `to_be_bytes`.
    #[tactic(auto, unfolding(crate::specs::Sha256::digest))]
    pub fn to_bytes(self) -> [u8; 32]
        ensures { result ≡ digest self }
    {
        let front = (self.a, (self.b, (self.c, self.d)));
        let back = (self.e, (self.f, (self.g, self.h)));
        array((front, back))
    }
}

// The 16 words of a block, and room for the others.
fn block_words(block: &[u8; 64]) -> [u32; 64]
    ensures { first_words result ≡ schedule 16 block.now }
{
    let mut w = [0; 64];
    // Counted, since a zip over `iter_mut` leaves nothing known of what was written.
    for (t, bytes) in block.as_chunks::<4>().0.iter().enumerate() {
        w[t] = u32::from_be_bytes(*bytes);
    }
    w
}

// The 64 words of the message schedule of a block.
fn message_schedule(block: &[u8; 64]) -> [u32; 64]
    ensures { result ≡ schedule 64 block.now }
{
    let mut w = block_words(block);
    // By index, since each word is made of four before it.
    for t in 16..64 {
        w[t] = small_sigma1(w[t - 2])
            .wrapping_add(w[t - 7])
            .wrapping_add(small_sigma0(w[t - 15]))
            .wrapping_add(w[t - 16]);
    }
    w
}
