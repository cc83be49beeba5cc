// The tags of the sites that prepared a value, as a commit certificate.
ghost use Rattle.std.specs.Prelude.{◌≡◌, ◌*◌, ◌<◌, ◌≤◌, List, length};
ghost use Rattle.values.specs.Fleets.{sites};
ghost use Rattle.agreement.specs.Sites.{size};
ghost use Rattle.agreement.specs.Moves.{holds, holders};
ghost use Rattle.records.specs.Sizes.{tag_row};
ghost use Rattle.records.specs.Rows.{row_of};
ghost use Rattle.records.specs.Books.{held_row};
ghost use Rattle.effects.specs.Changes.{certificate_of};

use buffers::Piece;
use calls::Record;
use records::{held, row};
use values::Value;

// Whether a row holds a value.
fn holds(row: Option<Value>, value: Value) -> bool
    ensures { result ≡ holds value row }
{
    row.is_some_and(|held| held == value)
}

// How many of so many sites' rows hold a value.
pub fn holding(rows: &[Option<Value>; 16], sites: u32, value: Value) -> u32
    requires { sites ≤ 16 }
    ensures { result ≡ size (holders (row_of rows.now) value) sites }
{
    let count = rows[..sites as usize]
        .iter()
        .filter(|row| holds(**row, value))
        .count();
    count as u32
}

// Those of a value, from the rows of prepares and the tag book.
#[derive(Clone, Copy)]
pub struct Votes<'a> {
    kept: &'a Record,
    value: Value,
    tags: &'a [u8],
    ghost room: { sites kept.now.member.fleet.f kept.now.member.fleet.t * tag_row kept.now.member.limit.bytes ≤ length tags.now },
}

impl<'a> Votes<'a> {
    pub fn new(kept: &'a Record, value: Value, tags: &'a [u8]) -> Votes<'a>
        requires { sites kept.now.member.fleet.f kept.now.member.fleet.t * tag_row kept.now.member.limit.bytes ≤ length tags.now }
        ensures kept { result.kept.now ≡ kept.now }
        ensures value { result.value ≡ value }
        ensures tags { result.tags.now ≡ tags.now }
    {
        Votes { kept, value, tags }
    }

    // The tag of a site, as it lies in its row.
    fn tag(self, site: u32) -> &'a [u8]
        requires { site < sites self.kept.now.member.fleet.f self.kept.now.member.fleet.t }
        ensures { result.now ≡ held_row self.entry.tags.now (tag_row self.entry.kept.now.member.limit.bytes) self.entry.kept.now.round.lengths.tags site }
    {
        let size = self.kept.member.limit.bytes() + 4;
        let site = site as usize;
        held(
            row(self.tags, size, site),
            self.kept.round.lengths.tags[site],
        )
    }
}

// A count word, and of each site its word and its tag; sites ascending.
impl Piece for Votes<'_> {
    ghost bytes = { λ votes. certificate_of votes.kept.now votes.tags.now votes.value };

    fn put(self, out: &mut [u8], at: usize) -> usize {
        let sites = self.kept.member.fleet.n();
        let rows = &self.kept.round.rows.prepares;
        let mut next = holding(rows, sites, self.value).put(out, at);
        for site in 0..sites {
            if holds(rows[site as usize], self.value) {
                next = (site, self.tag(site)).put(out, next);
            }
        }
        next
    }
}
