// Tags to be written.
ghost use Rattle.std.specs.Prelude.{◌≡◌, ◌^◌, ◌<◌, length};
ghost use Rattle.values.specs.Refusals.{answered};
ghost use Rattle.wire.specs.Contents.{tag_bytes};
ghost use Rattle.writing.specs.Written.{tagging};

use buffers::{Piece, Zeros};
use values::{Refusal, TagLimit};
use wire::pad;

// A tag whose length fits a word.
#[derive(Clone, Copy)]
pub struct Tag<'a> {
    bytes: &'a [u8],
    ghost short: { length bytes.now < 2 ^ 32 },
}

impl<'a> Tag<'a> {
    pub fn new(bytes: &'a [u8]) -> Tag<'a>
        requires { length bytes.now < 2 ^ 32 }
        ensures { result.bytes.now ≡ bytes.now }
    {
        Tag { bytes }
    }

    // One that is longer than the limit is refused with 3 at place 0.
    pub fn within(limit: TagLimit, bytes: &'a [u8]) -> Result<Tag<'a>, Refusal>
        ensures { answered (λ tag. tag.bytes.now) result ≡ tagging limit.bytes bytes.now }
    {
        if bytes.len() > limit.bytes() {
            return Err(Refusal::Layout { place: 0 });
        }
        Ok(Tag::new(bytes))
    }

    // How many bytes it takes.
    pub fn length(self) -> usize
        ensures { result ≡ length (tag_bytes self.entry.bytes.now) }
    {
        4 + pad(self.bytes.len())
    }
}

// A length word, the bytes, and zeros up to a multiple of four.
impl Piece for Tag<'_> {
    ghost bytes = { λ tag. tag_bytes tag.bytes.now };

    fn put(self, out: &mut [u8], at: usize) -> usize {
        let len = self.bytes.len();
        (len as u32, (self.bytes, Zeros(pad(len) - len))).put(out, at)
    }
}
