// What a program lends to the calls of a site: buffers of its own.
#![tactic(auto)]

ghost use Rattle.std.specs.Prelude.{◌≡◌, [], replicate, IfOk};
ghost use Rattle.records.specs.Books.{held};

use records::{Books, BooksMut, Sizes, held};
use std::alloc::{AllocError, Global};

// The three books, and out.
#[derive(Drop)]
pub struct Buffers {
    pub tags: Vec<u8>,
    pub certificate: Vec<u8>,
    pub views: Vec<u8>,
    pub out: Vec<u8>,
}

impl Buffers {
    pub fn empty(heap: Global) -> Buffers
        ensures tags { result.tags.items ≡ [] }
        ensures certificate { result.certificate.items ≡ [] }
        ensures views { result.views.items ≡ [] }
        ensures out { result.out.items ≡ [] }
    {
        Buffers {
            tags: Vec::new(heap),
            certificate: Vec::new(heap),
            views: Vec::new(heap),
            out: Vec::new(heap),
        }
    }

    // So long, and filled with a byte.
    pub fn filled(heap: Global, sizes: Sizes, fill: u8) -> Result<Buffers, AllocError>
        ensures tags { IfOk result (λ b. b.tags.items ≡ replicate sizes.tags fill) }
        ensures certificate { IfOk result (λ b. b.certificate.items ≡ replicate sizes.certificate fill) }
        ensures views { IfOk result (λ b. b.views.items ≡ replicate sizes.views fill) }
        ensures out { IfOk result (λ b. b.out.items ≡ replicate sizes.out fill) }
    {
        Ok(Buffers {
            tags: vec![in heap; fill; sizes.tags]?,
            certificate: vec![in heap; fill; sizes.certificate]?,
            views: vec![in heap; fill; sizes.views]?,
            out: vec![in heap; fill; sizes.out]?,
        })
    }

    // The books to be read, and out to be written.
    pub fn lend(&mut self) -> (Books<'_>, &mut [u8])
        ensures tags { result.0.tags.now ≡ self.old.tags.items }
        ensures certificate { result.0.certificate.now ≡ self.old.certificate.items }
        ensures views { result.0.views.now ≡ self.old.views.items }
        ensures out { result.1.now ≡ self.old.out.items }
    {
        let books = Books {
            tags: self.tags.as_slice(),
            certificate: self.certificate.as_slice(),
            views: self.views.as_slice(),
        };
        (books, self.out.as_mut_slice())
    }

    // All of them to be written.
    pub fn lend_mut(&mut self) -> (BooksMut<'_>, &mut [u8])
        ensures tags { result.0.tags.now ≡ self.old.tags.items }
        ensures certificate { result.0.certificate.now ≡ self.old.certificate.items }
        ensures views { result.0.views.now ≡ self.old.views.items }
        ensures out { result.1.now ≡ self.old.out.items }
    {
        let books = BooksMut {
            tags: self.tags.as_mut_slice(),
            certificate: self.certificate.as_mut_slice(),
            views: self.views.as_mut_slice(),
        };
        (books, self.out.as_mut_slice())
    }

    // So many bytes, at the start of out.
    pub fn written(&self, length: usize) -> &[u8]
        ensures { result.now ≡ held length self.now.out.items }
    {
        held(self.out.as_slice(), length)
    }
}
