// The tree over the leaves' one-time keys: a node's hash is that of its two children.
ghost use Rattle.std.specs.Prelude.{◌≡◌, ◌/◌, ◌≤◌, ◌++◌, length};
ghost use Rattle.lms.specs.Lms.{u32str, D-INTR, hashed, in_order, Tc};

use super::parts::SignatureParts;
use buffers::Piece;
use sha256::hash;

// What marks the text of a leaf, and that of a node above its children.
const LEAF: [u8; 2] = [0x82, 0x82];

const PARENT: [u8; 2] = [0x83, 0x83];

// The hash of a node: its number, a mark, and what stands below it.
fn hash_node<P: Piece>(id: &[u8; 16], node: u32, mark: &[u8; 2], below: P) -> [u8; 32]
    requires { length (P.bytes below) ≤ 64 }
    ensures { result ≡ hashed 32 (id.now ++ (u32str node ++ (mark.now ++ P.bytes below))) }
{
    // An array that is filled up to `end`, since nothing may be allocated.
    let mut text = [0; 86];
    let end = (id, (node, (mark, below))).put(&mut text, 0);
    hash(&text[..end])
}

// The hash of the node above a node and its sibling: one with an odd number is the right child.
fn hash_above(id: &[u8; 16], node: u32, value: &[u8; 32], sibling: &[u8; 32]) -> [u8; 32]
    ensures { result ≡ hashed 32 (id.now ++ (u32str (node / 2) ++ (D-INTR ++ in_order node value.now sibling.now))) }
{
    if node % 2 == 1 {
        hash_node(id, node / 2, &PARENT, (sibling, value))
    } else {
        hash_node(id, node / 2, &PARENT, (value, sibling))
    }
}

// The candidate for the root, from the one-time key of a signature's leaf and the path to the root.
pub fn root(id: &[u8; 16], signed: &SignatureParts, key: &[u8; 32]) -> [u8; 32]
    ensures { result ≡ Tc 32 5 id.now signed.now.leaf signed.now.path.now key.now }
{
    let mut node = 32 + signed.leaf;
    let mut value = hash_node(id, node, &LEAF, key);
    let path = signed.path;
    for sibling in path.as_chunks::<32>().0 {
        value = hash_above(id, node, &value, sibling);
        node /= 2;
    }
    value
}
