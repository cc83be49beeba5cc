// The register: a list of statements that were made, in lent bytes.
ghost use Rattle.std.specs.Prelude.{◌≡◌};
ghost use Rattle.checks.specs.Registers.{row_of, registered, Short-registered, RowsAreVouched};

use super::check::Check;
use buffers::{Zeros, array, word};

// How many bytes a row has.
const ROW: usize = 72;

// Rows of a site, a statement's length, and the statement filled with zeros to 64 bytes. A tag is
// the number of a row, counted from 0.
#[derive(Clone, Copy)]
pub struct Register<'a> {
    rows: &'a [u8],
}

impl<'a> Register<'a> {
    pub fn new(rows: &'a [u8]) -> Register<'a>
        ensures over { result.rows.now ≡ rows.now }
        ensures vouches { RowsAreVouched }
    {
        Register { rows }
    }
}

// The row of a statement, if it is not above 64 bytes.
pub fn register_row(site: u32, statement: &[u8]) -> Option<[u8; ROW]>
    ensures { result ≡ row_of site statement.now }
{
    let len = statement.len();
    if len > 64 {
        return None;
    }
    Some(array((site, (len as u32, (statement, Zeros(64 - len))))))
}

impl Check for Register<'_> {
    ghost vouched = { λ c. registered c.rows.now };

    fn vouches(&self, site: u32, statement: &[u8], tag: &[u8]) -> bool {
        let Some(row) = register_row(site, statement) else {
            return false;
        };
        if tag.len() != 4 {
            return false;
        }
        let (rows, _) = self.rows.as_chunks::<ROW>();
        rows.get(word(tag, 0) as usize) == Some(&row)
    }

    ghost short = { λ c. Short-registered c.rows.now };
}
