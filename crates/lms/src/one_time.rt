// The one-time signature of a leaf: 34 chains of hashes. `start` is the key's identifier and the
// leaf's number.
ghost use Rattle.std.specs.Prelude.{◌≡◌, ◌-◌, ◌≤◌, ◌++◌};
ghost use Rattle.lms.specs.Lms.{u32str, Cksm, Q, summed, D-PBLC, chain, ends, hashed, Kc};

use super::parts::SignatureParts;
use buffers::{Piece, array};
use sha256::{Padding, hash, hash_block, hash_joined};

// The end of chain `i`, from the string that stands at a step of it. Each step hashes one block.
fn chain_end<const N: usize>(start: &[u8; 20], i: u16, step: u8, string: &[u8; N]) -> [u8; N]
    requires { N ≤ 32 }
    ensures { result ≡ chain N start.now i step string.now (255 - step) }
{
    let mut reached = *string;
    for j in step..255 {
        let text = (start, (&i.to_be_bytes(), (&[j], &reached)));
        let digest = hash_block(&array((text, Padding(23 + N))));
        reached.copy_from_slice(&digest[..N]);
    }
    reached
}

fn checksum(digest: &[u8; 32]) -> u16
    ensures { result ≡ Cksm digest.now }
{
    digest.iter().map(|b| 255 - u16::from(*b)).sum()
}

// The steps at which the chains of a signature start: the bytes of the message's digest, and the
// two bytes of its checksum.
fn first_steps(start: &[u8; 20], randomizer: &[u8; 32], message: &[u8]) -> [u8; 34]
    ensures { result ≡ summed (Q 32 start.now randomizer.now message.now) }
{
    let text: [u8; 54] = array((start, (&[0x81, 0x81], randomizer)));
    let digest = hash_joined(&text, message);
    array((&digest, &checksum(&digest).to_be_bytes()))
}

// The hash of the ends of the 34 chains, as one string.
fn hash_ends(start: &[u8; 20], steps: &[u8; 34], strings: &[u8; 1088]) -> [u8; 32]
    ensures { result ≡ hashed 32 (start.now ++ (D-PBLC ++ ends 32 start.now steps.now strings.now 34)) }
{
    let mut text = [0; 1110];
    let mut next = (start, &[0x80, 0x80]).put(&mut text, 0);
    // Counted, since a chain's text has its number. Over a counted zip an invariant has no index.
    for (i, string) in strings.as_chunks::<32>().0.iter().enumerate() {
        let end = chain_end(start, i as u16, steps[i], string);
        next = (&end).put(&mut text, next);
    }
    hash(&text)
}

// The candidate for the one-time public key of the leaf that signed.
pub fn one_time_key(id: &[u8; 16], signed: &SignatureParts, message: &[u8]) -> [u8; 32]
    ensures { result ≡ Kc 32 34 (id.now ++ u32str signed.now.leaf) signed.now.randomizer.now signed.now.strings.now message.now }
{
    let start = array((id, signed.leaf));
    let steps = first_steps(&start, signed.randomizer, message);
    hash_ends(&start, &steps, signed.strings)
}
