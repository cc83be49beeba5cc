// A site's record, and what its calls test before they change anything.
ghost use Rattle.std.specs.Prelude.{◌≡◌, length};
ghost use Rattle.values.specs.Refusals.{answered};
ghost use Rattle.checks.specs.Vouching.{Vouched};
ghost use Rattle.certificates.specs.Steps.{passed};
ghost use Rattle.certificates.specs.Judging.{outcome};
ghost use Rattle.records.specs.Books.{books_of, lent_sizes};
ghost use Rattle.records.specs.Kept.{membership_of, kept_of};
ghost use Rattle.calls.specs.Gathering.{gathered};
ghost use Rattle.calls.specs.Steps.{room_steps, leads};
ghost use Rattle.calls.specs.Effects.{leaving};
ghost use Rattle.calls.specs.Calls.{leave_call};

use records::{Books, Member, Round, Sizes};
use values::{Refusal, View};

// What open took, and what the site keeps of its round.
#[derive(Clone, Copy, Debug, PartialEq, Eq)]
pub struct Record {
    pub member: Member,
    pub round: Round,
}

impl Record {
    // The books and out must be long enough.
    pub fn room(&self, books: Books<'_>, out: usize) -> Result<(), Refusal>
        ensures { (v : Vouched) → answered (λ u. u) result ≡ passed v (room_steps (membership_of self.now.member) (lent_sizes (books_of books.entry) out)) }
    {
        let needed = Sizes::of(self.member.fleet, self.member.limit);
        if !books.sizes(out).cover(&needed) {
            return Err(Refusal::Short);
        }
        Ok(())
    }

    // Whether the site leads its view.
    pub fn leads(&self) -> bool
        ensures { result ≡ leads (membership_of self.now.member) (kept_of self.now.round) }
    {
        self.member.own == self.member.fleet.leader(self.round.view)
    }

    // How many new-views are gathered.
    pub fn gathered(&self) -> usize
        ensures { result ≡ length (gathered (membership_of self.now.member) (kept_of self.now.round)) }
    {
        let sites = self.member.fleet.n() as usize;
        self.round.lengths.views[..sites]
            .iter()
            .filter(|length| **length > 0)
            .count()
    }

    // What leave tests; the view that it leaves for.
    #[tactic(auto, unfolding(crate::specs::Calls::leave_call))]
    pub fn may_leave(&self, view: u32, books: Books<'_>, out: usize) -> Result<View, Refusal>
        ensures { (v : Vouched) → answered (λ w. leaving (membership_of self.now.member) (kept_of self.now.round) (books_of books.entry) w.number) result ≡ outcome v (leave_call (membership_of self.now.member) (kept_of self.now.round) (books_of books.entry) out view) }
    {
        self.room(books, out)?;
        match View::new(view) {
            Some(higher) if view > self.round.view.number() => Ok(higher),
            _ => Err(Refusal::NotHigher),
        }
    }
}
