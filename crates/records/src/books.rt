// The books, which are lent to each call, and their rows.
ghost use Rattle.std.specs.Prelude.{◌≡◌, ◌+◌, ◌*◌, ◌≤◌, length};
ghost use Rattle.records.specs.Books.{books_of, writable_of, lent_sizes, book_row, held};

use super::sizes::Sizes;

// The three books, to be read.
#[derive(Clone, Copy)]
pub struct Books<'a> {
    pub tags: &'a [u8],
    pub certificate: &'a [u8],
    pub views: &'a [u8],
}

impl Books<'_> {
    // How long they are, beside an out of so many bytes.
    pub fn sizes(self, out: usize) -> Sizes
        ensures { result ≡ lent_sizes (books_of self.entry) out }
    {
        Sizes {
            tags: self.tags.len(),
            certificate: self.certificate.len(),
            views: self.views.len(),
            out,
        }
    }
}

// The three books, to be written.
#[derive(Drop)]
pub struct BooksMut<'a> {
    pub tags: &'a mut [u8],
    pub certificate: &'a mut [u8],
    pub views: &'a mut [u8],
}

impl BooksMut<'_> {
    // To be read.
    pub fn shared(&self) -> Books<'_>
        ensures { books_of result ≡ writable_of self.now }
    {
        Books {
            tags: self.tags,
            certificate: self.certificate,
            views: self.views,
        }
    }
}

// Row `r` of a book whose rows have `size` bytes.
pub fn row(book: &[u8], size: usize, r: usize) -> &[u8]
    requires { (r + 1) * size ≤ length book.now }
    ensures { result.now ≡ book_row book.now size r }
{
    &book[r * size..][..size]
}

// What a row holds: its first `length` bytes. A length past its end is all of it.
pub fn held(row: &[u8], length: usize) -> &[u8]
    ensures { result.now ≡ held length row.now }
{
    &row[..length.min(row.len())]
}
