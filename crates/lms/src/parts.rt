// Public keys and signatures, taken apart. What they look like is read here and nowhere else.
ghost use Rattle.std.specs.Prelude.{◌≡◌, ◌+◌, ◌<◌, ◌≤◌, length};
ghost use Rattle.lms.specs.Lms.{m32_h5, part, key_of, signature_of};

use buffers::word;

// How many one-time keys a tree has.
const LEAVES: u32 = 32;

// A key's identifier, and the root of its tree.
#[derive(Clone, Copy)]
pub struct KeyParts<'a> {
    pub id: &'a [u8; 16],
    pub root: &'a [u8; 32],
}

// The leaf that signed, and what it signed with: the randomizer, the strings of the chains, and
// the strings of the path to the root.
#[derive(Clone, Copy)]
pub struct SignatureParts<'a> {
    pub leaf: u32,
    pub randomizer: &'a [u8; 32],
    pub strings: &'a [u8; 1088],
    pub path: &'a [u8; 160],
    ghost legal: { leaf < 32 },
}

impl<'a> KeyParts<'a> {
    ghost use Rattle.lms.specs.Parts.{key_read};

    pub fn read(key: &'a [u8]) -> Option<KeyParts<'a>>
        ensures { key_read result ≡ key_of key.now }
    {
        if key.len() != 56 || word(key, 0) != 5 || word(key, 4) != 4 {
            return None;
        }
        Some(KeyParts {
            id: part(key, 8),
            root: part(key, 24),
        })
    }
}

impl<'a> SignatureParts<'a> {
    ghost use Rattle.lms.specs.Parts.{signature_read};

    pub fn read(signature: &'a [u8]) -> Option<SignatureParts<'a>>
        ensures { signature_read result ≡ signature_of m32_h5 signature.now }
    {
        if signature.len() != 1292 || word(signature, 4) != 4 || word(signature, 1128) != 5 {
            return None;
        }
        let leaf = word(signature, 0);
        if leaf >= LEAVES {
            return None;
        }
        Some(SignatureParts {
            leaf,
            randomizer: part(signature, 8),
            strings: part(signature, 40),
            path: part(signature, 1132),
        })
    }
}

// So many bytes from a place on.
fn part<const N: usize>(bytes: &[u8], at: usize) -> &[u8; N]
    requires { at + N ≤ length bytes.now }
    ensures { result.now ≡ part at N bytes.now }
{
    bytes[at..].first_chunk().unwrap()
}
