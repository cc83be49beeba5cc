// The gathered new-views, as a progress certificate.
ghost use Rattle.std.specs.Prelude.{◌≡◌, ◌*◌, ◌≤◌, length};
ghost use Rattle.values.specs.Fleets.{sites};
ghost use Rattle.records.specs.Sizes.{view_row};
ghost use Rattle.records.specs.Kept.{membership_of, kept_of};
ghost use Rattle.calls.specs.Gathering.{own_progress};

use buffers::Piece;
use calls::Record;

// Those that lie in the view book.
#[derive(Clone, Copy)]
pub struct Progress<'a> {
    kept: &'a Record,
    views: &'a [u8],
    ghost room: { sites kept.now.member.fleet.f kept.now.member.fleet.t * view_row kept.now.member.fleet.f kept.now.member.fleet.t kept.now.member.limit.bytes ≤ length views.now },
}

impl<'a> Progress<'a> {
    pub fn new(kept: &'a Record, views: &'a [u8]) -> Progress<'a>
        requires { sites kept.now.member.fleet.f kept.now.member.fleet.t * view_row kept.now.member.fleet.f kept.now.member.fleet.t kept.now.member.limit.bytes ≤ length views.now }
        ensures kept { result.kept.now ≡ kept.now }
        ensures views { result.views.now ≡ views.now }
    {
        Progress { kept, views }
    }
}

// A count word, and the new-views; sites ascending.
impl Piece for Progress<'_> {
    ghost bytes = { λ progress. own_progress (membership_of progress.kept.now.member) (kept_of progress.kept.now.round) progress.views.now };

    fn put(self, out: &mut [u8], at: usize) -> usize {
        let sites = self.kept.member.fleet.n() as usize;
        let mut next = (self.kept.gathered() as u32).put(out, at);
        for site in 0..sites {
            if self.kept.is_gathered(site) {
                next = self.kept.gathered_turn(self.views, site).put(out, next);
            }
        }
        next
    }
}
