// Whether a key has signed a message.
ghost use Rattle.std.specs.Prelude.{◌≡◌};
ghost use Rattle.std.specs.Str.{bytes_eq};
ghost use Rattle.lms.specs.Lms.{valid};
ghost use Rattle.lms.specs.Signing.{SignedIsValid};

use super::one_time::one_time_key;
use super::parts::{KeyParts, SignatureParts};
use super::tree::root;

// Whether two roots are the same.
fn same_root(a: &[u8; 32], b: &[u8; 32]) -> bool
    ensures { result ≡ bytes_eq a.now b.now }
{
    a == b
}

// Whether a signature of a message of any length is valid under a public key.
pub fn verify(key: &[u8], message: &[u8], signature: &[u8]) -> bool
    ensures value { result ≡ valid key.now message.now signature.now }
    ensures signed { SignedIsValid }
{
    let Some(known) = KeyParts::read(key) else {
        return false;
    };
    let Some(signed) = SignatureParts::read(signature) else {
        return false;
    };
    let once = one_time_key(known.id, &signed, message);
    same_root(&root(known.id, &signed, &once), known.root)
}
