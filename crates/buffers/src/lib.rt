// Bytes of a lent buffer: words read from it, and pieces laid into it.
#![tactic(auto)]

ghost use Rattle.std.specs.Prelude.{◌≡◌, ℕ, ◌+◌, ◌≤◌, List, ◌++◌, length, replicate};
ghost use Rattle.buffers.specs.Words.{word_from, word_bytes, optional};
ghost use Rattle.buffers.specs.Lays.{Lays};

// The word at a place. Four bytes by name are as plain as a chunk that has to be unwrapped.
pub fn word(bytes: &[u8], at: usize) -> u32
    requires { at + 4 ≤ length bytes.now }
    ensures { result ≡ word_from bytes.now at }
{
    u32::from_be_bytes([bytes[at], bytes[at + 1], bytes[at + 2], bytes[at + 3]])
}

// What is laid into a buffer.
pub trait Piece {
    ghost bytes: { Self → List ℕ };

    // Lays its bytes into a buffer at a place, and answers the place behind.
    fn put(self, out: &mut [u8], at: usize) -> usize
        requires { at + length (bytes self) ≤ length out.old }
        ensures next { result ≡ at + length (bytes self) }
        ensures after { Lays out.old at (bytes self) out.new result };
}

impl Piece for &[u8] {
    ghost bytes = { λ s. s.now };

    fn put(self, out: &mut [u8], at: usize) -> usize {
        let end = at + self.len();
        out[at..end].copy_from_slice(self);
        end
    }
}

impl<const N: usize> Piece for &[u8; N] {
    ghost bytes = { λ s. s.now };

    fn put(self, out: &mut [u8], at: usize) -> usize {
        self.as_slice().put(out, at)
    }
}

impl Piece for u32 {
    ghost bytes = { word_bytes };

    fn put(self, out: &mut [u8], at: usize) -> usize {
        (&self.to_be_bytes()).put(out, at)
    }
}

// So many zeros.
#[derive(Clone, Copy)]
pub struct Zeros(pub usize);

impl Piece for Zeros {
    ghost bytes = { λ z. replicate z.0 0 };

    fn put(self, out: &mut [u8], at: usize) -> usize {
        let end = at + self.0;
        out[at..end].fill(0);
        end
    }
}

// One piece behind the other. Three are a pair in a pair: an impl for triples would be a twin.
impl<A: Piece, B: Piece> Piece for (A, B) {
    ghost bytes = { λ p. A.bytes p.0 ++ B.bytes p.1 };

    fn put(self, out: &mut [u8], at: usize) -> usize {
        let next = self.0.put(out, at);
        self.1.put(out, next)
    }
}

// A word that says whether the piece is there, and the piece.
impl<P: Piece> Piece for Option<P> {
    ghost bytes = { optional P.bytes };

    fn put(self, out: &mut [u8], at: usize) -> usize {
        match self {
            None => 0u32.put(out, at),
            Some(piece) => (1u32, piece).put(out, at),
        }
    }
}

// The bytes of a piece, where their number is known.
pub fn array<const N: usize, P: Piece>(piece: P) -> [u8; N]
    requires { length (P.bytes piece) ≡ N }
    ensures { result ≡ P.bytes piece }
{
    let mut bytes = [0; N];
    piece.put(&mut bytes, 0);
    bytes
}
