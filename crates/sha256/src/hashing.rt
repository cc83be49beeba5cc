// Messages: padding, and the digest.
ghost use Rattle.std.specs.Prelude.{◌≡◌, ◌+◌, ◌%◌, ◌<◌, ◌≤◌, ◌++◌, length};
ghost use Rattle.buffers.specs.Lays.{Lays};
ghost use Rattle.sha256.specs.Sha256.{padding, H0, compressed, after_all, digest, sha256};
ghost use Rattle.sha256.specs.Laws.{PaddingIsTheShortest};

use super::compression::{INITIAL, State};
use buffers::{Piece, Zeros, array};

// What stands behind a message of so many bytes.
#[derive(Clone, Copy)]
pub struct Padding(pub usize);

impl Piece for Padding {
    ghost bytes = { λ p. padding p.0 };

    fn put(self, out: &mut [u8], at: usize) -> usize {
        let Padding(len) = self;
        let bits = (len as u64).wrapping_mul(8);
        (&[0x80], (Zeros((119 - len % 64) % 64), &bits.to_be_bytes())).put(out, at)
    }
}

// The digest of a message, of which `rest` is still to be hashed: `before` bytes, whole blocks,
// have led to the hash value.
fn finish(state: State, before: usize, rest: &[u8]) -> [u8; 32]
    requires { before % 64 ≡ 0 }
    ensures { result ≡ digest (after_all state (rest.now ++ padding (before + length rest.now))) }
{
    let len = before.wrapping_add(rest.len());
    let state = state.absorb(rest);
    let (_, last) = rest.as_chunks::<64>();
    // An array that is filled up to `end`, since nothing may be allocated.
    let mut tail = [0; 128];
    let end = (last, Padding(len)).put(&mut tail, 0);
    state.absorb(&tail[..end]).to_bytes()
}

// The digest of a message.
pub fn hash(message: &[u8]) -> [u8; 32]
    ensures value { result ≡ sha256 message.now }
    ensures padding { PaddingIsTheShortest }
{
    finish(INITIAL, 0, message)
}

// The digest of less than a block of bytes with a message behind it.
pub fn hash_joined(front: &[u8], message: &[u8]) -> [u8; 32]
    requires { length front.now < 64 }
    ensures { result ≡ sha256 (front.now ++ message.now) }
{
    let free = 64 - front.len();
    if message.len() < free {
        // Filled up to `end`, since nothing may be allocated.
        let mut block = [0; 64];
        let end = (front, message).put(&mut block, 0);
        return hash(&block[..end]);
    }
    let (first, rest) = message.split_at(free);
    let block = array((front, first));
    finish(INITIAL.compress(&block), 64, rest)
}

// The digest of a message that fills one block with its padding: one compression.
pub fn hash_block(block: &[u8; 64]) -> [u8; 32]
    ensures { result ≡ digest (compressed H0 block.now) }
{
    INITIAL.compress(block).to_bytes()
}
