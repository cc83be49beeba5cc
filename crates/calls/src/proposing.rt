// What propose tests and asks: the gathered new-views are judged where they lie in the view book.
ghost use Rattle.std.specs.Prelude.{◌≡◌, ℕ, ◌+◌, ◌*◌, ◌^◌, ◌<◌, ◌≤◌, not, ◌&&◌, length, IsOk, IfOk};
ghost use Rattle.values.specs.Fleets.{sites};
ghost use Rattle.values.specs.Refusals.{answered, refused_as};
ghost use Rattle.verdicts.specs.Told.{forced_told};
ghost use Rattle.wire.specs.Contents.{Turn, change_of};
ghost use Rattle.messages.specs.Parts.{map_ok};
ghost use Rattle.certificates.specs.Steps.{passed, answering};
ghost use Rattle.certificates.specs.Examining.{entry_steps, entries_steps};
ghost use Rattle.certificates.specs.Reading.{lends};
ghost use Rattle.certificates.specs.Judging.{reports_of, outcome, verdict_call};
ghost use Rattle.records.specs.Sizes.{view_row};
ghost use Rattle.records.specs.Books.{books_of};
ghost use Rattle.records.specs.Kept.{membership_of, kept_of};
ghost use Rattle.calls.specs.Gathering.{is_gathered, gathered, gathered_turn, turn_of, turns_read, placed};
ghost use Rattle.calls.specs.Steps.{leads, due};
ghost use Rattle.calls.specs.Effects.{proposing};
ghost use Rattle.calls.specs.Calls.{propose_call};
ghost use Rattle.calls.specs.Hearing.{turns_of};

use super::record::Record;
use certificates::{Examiner, entries_needed};
use checks::Check;
use messages::read_new_view;
use records::{Books, Sizes, held, row};
use values::{Cause, Refusal, Value};
use verdicts::{Forcing, Reported, weigh};
use wire::{Malformed, Packet, ViewChange};

impl Record {
    // Whether the site may propose: it leads, has not proposed in this view, and has gathered
    // enough new-views, if the view is above 1.
    fn in_turn(&self) -> bool
        ensures { result ≡ (leads (membership_of self.now.member) (kept_of self.now.round) && not self.now.round.proposed && due (membership_of self.now.member) (kept_of self.now.round)) }
    {
        let enough = self.member.fleet.progress_quorum() as usize;
        self.leads()
            && !self.round.proposed
            && (self.round.view.number() == 1 || self.gathered() >= enough)
    }

    // Whether the new-view of a site is gathered.
    pub fn is_gathered(&self, site: usize) -> bool
        requires { site < 16 }
        ensures { result ≡ is_gathered (membership_of self.now.member) (kept_of self.now.round) site }
    {
        self.round.lengths.views[site] > 0
    }

    // The new-view of a site, as it lies in the view book.
    pub fn gathered_turn<'b>(&self, views: &'b [u8], site: usize) -> &'b [u8]
        requires site { site < 16 }
        requires room { (site + 1) * view_row self.now.member.fleet.f self.now.member.fleet.t self.now.member.limit.bytes ≤ length views.now }
        ensures value { result.now ≡ gathered_turn (membership_of self.now.member) (kept_of self.now.round) views.now site }
        ensures short { length result.now ≤ view_row self.now.member.fleet.f self.now.member.fleet.t self.now.member.limit.bytes }
    {
        let size = Sizes::view_row(self.member.fleet, self.member.limit);
        held(row(views, size, site), self.round.lengths.views[site])
    }

    // A gathered new-view must be one whole new-view. It stands at `place` in the certificate.
    fn read_row(&self, row: &[u8], place: usize) -> Result<(), Malformed>
        requires { place + length row.now < 2 ^ 64 }
        ensures { result ≡ map_ok (λ x. tt) (placed place (turn_of self.now.member.limit.bytes row.now)) }
    {
        let packet = Packet {
            bytes: row,
            limit: self.member.limit,
        };
        match read_new_view(packet) {
            Ok(()) => Ok(()),
            Err(fault) => Err(Malformed {
                place: place + fault.place,
            }),
        }
    }

    // So must all gathered new-views.
    fn read_gathered(&self, views: &[u8]) -> Result<(), Malformed>
        requires { sites self.now.member.fleet.f self.now.member.fleet.t * view_row self.now.member.fleet.f self.now.member.fleet.t self.now.member.limit.bytes ≤ length views.now }
        ensures { result ≡ map_ok (λ xs. tt) (turns_read (membership_of self.now.member) (kept_of self.now.round) views.now 4 (gathered (membership_of self.now.member) (kept_of self.now.round))) }
    {
        let mut place = 4;
        for site in 0..self.member.fleet.n() as usize {
            if self.is_gathered(site) {
                let row = self.gathered_turn(views, site);
                self.read_row(row, place)?;
                place += row.len();
            }
        }
        Ok(())
    }

    // A gathered new-view as an entry of the certificate, where it stands at `place`.
    fn gathered_entry<C: Check>(
        &self,
        row: &[u8],
        low: u32,
        place: usize,
        check: &C,
    ) -> Result<ViewChange, Refusal>
        requires reads { IsOk (turn_of self.now.member.limit.bytes row.now) }
        requires place { place + length row.now < 2 ^ 64 }
        ensures value { IfOk (turn_of self.now.member.limit.bytes row.now) (λ x. answered (λ c. c) result ≡ answering (passed (C.Check.vouched check.now) (entry_steps self.now.member.fleet.f self.now.member.fleet.t self.now.round.number self.now.round.view.number low place x)) (change_of x)) }
        ensures site { IfOk result (λ said. said.head.site < sites self.now.member.fleet.f self.now.member.fleet.t) }
    {
        let packet = Packet {
            bytes: row,
            limit: self.member.limit,
        };
        let examiner = Examiner {
            packet,
            fleet: self.member.fleet,
            round: self.round.number,
            check,
        };
        match examiner.entry(0, self.round.view.number(), low) {
            Ok((said, _)) => Ok(said),
            Err(fault) => Err(Refusal::from(fault).moved(place)),
        }
    }

    // The gathered new-views as the certificate's entries: lays what they report into `reports`,
    // and answers how many they are.
    fn examine_gathered<C: Check>(
        &self,
        views: &[u8],
        check: &C,
        reports: &mut [Reported],
    ) -> Result<usize, Refusal>
        requires slots { 16 ≤ length reports.old }
        requires room { sites self.now.member.fleet.f self.now.member.fleet.t * view_row self.now.member.fleet.f self.now.member.fleet.t self.now.member.limit.bytes ≤ length views.now }
        requires reads { IsOk (turns_read (membership_of self.now.member) (kept_of self.now.round) views.now 4 (gathered (membership_of self.now.member) (kept_of self.now.round))) }
        ensures value { answered (λ xs. xs) (lends reports.new result) ≡ answering (passed (C.Check.vouched check.now) (entries_steps self.now.member.fleet.f self.now.member.fleet.t self.now.round.number self.now.round.view.number 0 4 (turns_of (turns_read (membership_of self.now.member) (kept_of self.now.round) views.now 4 (gathered (membership_of self.now.member) (kept_of self.now.round)))))) (reports_of (turns_of (turns_read (membership_of self.now.member) (kept_of self.now.round) views.now 4 (gathered (membership_of self.now.member) (kept_of self.now.round))))) }
        ensures few { IfOk result (λ n. n ≤ 16) }
    {
        let mut count = 0;
        let mut low = 0;
        let mut place = 4;
        for site in 0..self.member.fleet.n() as usize {
            if self.is_gathered(site) {
                let row = self.gathered_turn(views, site);
                let said = self.gathered_entry(row, low, place, check)?;
                reports[count] = Reported {
                    prepared: said.prepared,
                    committed: said.committed,
                };
                count += 1;
                low = said.head.site + 1;
                place += row.len();
            }
        }
        Ok(count)
    }

    // What the gathered new-views force, judged as the certificate that they make.
    fn gathered_verdict<C: Check>(
        &self,
        views: &[u8],
        check: &C,
    ) -> Result<Option<(Value, u32, Forcing)>, Refusal>
        requires room { sites self.now.member.fleet.f self.now.member.fleet.t * view_row self.now.member.fleet.f self.now.member.fleet.t self.now.member.limit.bytes ≤ length views.now }
        requires reads { IsOk (turns_read (membership_of self.now.member) (kept_of self.now.round) views.now 4 (gathered (membership_of self.now.member) (kept_of self.now.round))) }
        ensures { answered forced_told result ≡ outcome (C.Check.vouched check.now) (verdict_call self.now.member.fleet.f self.now.member.fleet.t self.now.round.number self.now.round.view.number 0 (turns_of (turns_read (membership_of self.now.member) (kept_of self.now.round) views.now 4 (gathered (membership_of self.now.member) (kept_of self.now.round))))) }
    {
        let needed = entries_needed(self.member.fleet, self.round.view.number());
        if self.gathered() != needed as usize {
            return Err(Refusal::BadCertificate {
                place: 0,
                cause: Cause::Count,
                depth: 1,
            });
        }
        let nothing = Reported {
            prepared: None,
            committed: None,
        };
        let mut reports = [nothing; 16];
        let count = self.examine_gathered(views, check, &mut reports)?;
        Ok(weigh(&reports[..count], self.member.fleet)?)
    }

    // All that propose tests; the value that it proposes.
    pub fn may_propose<C: Check>(
        &self,
        value: Value,
        books: Books<'_>,
        out: usize,
        check: &C,
    ) -> Result<Value, Refusal>
        ensures { answered (proposing (membership_of self.now.member) (kept_of self.now.round) (books_of books.entry)) result ≡ outcome (C.Check.vouched check.now) (propose_call (membership_of self.now.member) (kept_of self.now.round) (books_of books.entry) out value) }
    {
        self.room(books, out)?;
        value.test(0)?;
        if !self.in_turn() {
            return Err(Refusal::MayNotPropose);
        }
        self.read_gathered(books.views)?;
        match self.gathered_verdict(books.views, check)? {
            None => Ok(value),
            Some((forced, _, _)) => Ok(forced),
        }
    }
}
