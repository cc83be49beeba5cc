// What hear tests and asks, kind by kind, before anything is changed.
ghost use Rattle.std.specs.Prelude.{◌≡◌, ◌+◌, true, length, Ok, IfOk, OnOk};
ghost use Rattle.values.specs.Refusals.{answered};
ghost use Rattle.wire.specs.declared.statement.Statement.TheVariants as statement;
ghost use Rattle.wire.specs.Contents.{statement_bytes, tag_bytes};
ghost use Rattle.wire.specs.Layout.{message_of};
ghost use Rattle.messages.specs.Parts.{map_ok, told, locate};
ghost use Rattle.checks.specs.Vouching.{Vouched};
ghost use Rattle.certificates.specs.Steps.{passed};
ghost use Rattle.certificates.specs.Reading.{VotesStand, votes_in, CertifiedStands, certified_in, ProgressStands, progress_in};
ghost use Rattle.certificates.specs.Judging.{outcome};
ghost use Rattle.records.specs.Books.{books_of};
ghost use Rattle.records.specs.Kept.{membership_of, kept_of};
ghost use Rattle.calls.specs.Steps.{row_steps, claim_heard, change_heard, expected, hear_propose_steps, hear_prepare_steps, hear_commit_steps, hear_new_view_steps};
ghost use Rattle.calls.specs.Hearing.{turn_with, permitted, heard_as};
ghost use Rattle.calls.specs.Calls.{hear_call};

use super::record::Record;
use certificates::Examiner;
use checks::Check;
use messages::{Message, read_message};
use records::Books;
use values::{Refusal, Report, Value};
use verdicts::Forcing;
use wire::{Claim, Packet, Part, Statement, ViewChange};

// A row that is to be filled with a value must be empty.
fn vacant(row: Option<Value>, value: Value) -> Result<(), Refusal>
    ensures { (v : Vouched) → answered (λ u. u) result ≡ passed v (row_steps row value) }
{
    match row {
        None => Ok(()),
        Some(held) if held == value => Err(Refusal::Repeated),
        Some(_) => Err(Refusal::Equivocation),
    }
}

// A verdict lets a value be proposed: it forces that, or none.
fn permits(verdict: Option<(Value, u32, Forcing)>, value: Value) -> bool
    ensures { result ≡ permitted verdict value }
{
    match verdict {
        None => true,
        Some((forced, _, _)) => forced == value,
    }
}

impl Record {
    // The round, the view, the site, the fix and the tag of a claim.
    fn heard_claim<C: Check>(
        &self,
        examiner: &Examiner<'_, C>,
        claim: Claim,
        said: Statement,
        tag: &[u8],
        known: bool,
    ) -> Result<(), Refusal>
        requires { examiner.now.round ≡ self.now.round.number }
        ensures value { answered (λ u. u) result ≡ passed (C.Check.vouched examiner.now.check.now) (claim_heard (kept_of self.now.round) known claim said tag.now) }
        ensures known { OnOk result (known ≡ true) }
    {
        let view = self.round.view.number();
        examiner
            .claim(claim, said, tag, view, known)
            .map_err(|fault| fault.in_message())
    }

    // The round, the views, the site, the fixes and the tag of a new-view.
    fn heard_change<C: Check>(
        &self,
        examiner: &Examiner<'_, C>,
        change: ViewChange,
        tag: Part<'_>,
        known: bool,
    ) -> Result<(), Refusal>
        requires round { examiner.now.round ≡ self.now.round.number }
        requires tag { tag.place ≡ length (statement_bytes (statement.NewView change)) }
        ensures value { answered (λ u. u) result ≡ passed (C.Check.vouched examiner.now.check.now) (change_heard (kept_of self.now.round) known change tag.entry.bytes.now) }
        ensures known { OnOk result (known ≡ true) }
    {
        let view = self.round.view.number();
        examiner
            .change(change, tag, view, known, 0)
            .map_err(|fault| fault.in_message())
    }

    // Whether a site may send its new-view here: to the leader of a view above 1.
    fn expects(&self, site: u32) -> bool
        ensures { result ≡ expected (membership_of self.now.member) (kept_of self.now.round) site }
    {
        site < self.member.fleet.n() && self.leads() && self.round.view.number() != 1
    }

    // A proposal, with its progress certificate at a place.
    fn admit_propose<C: Check>(
        &self,
        packet: Packet<'_>,
        claim: Claim,
        tag: &[u8],
        at: usize,
        check: &C,
    ) -> Result<(), Refusal>
        requires reads { ProgressStands packet at }
        requires place { at ≡ 28 + length (tag_bytes tag.now) }
        ensures { answered (λ u. u) result ≡ passed (C.Check.vouched check.now) (hear_propose_steps (membership_of self.now.member) (kept_of self.now.round) claim tag.now (progress_in packet.entry at)) }
    {
        let view = self.round.view.number();
        let leader = self.member.fleet.leader(self.round.view);
        let examiner = Examiner {
            packet,
            fleet: self.member.fleet,
            round: self.round.number,
            check,
        };
        let said = Statement::Propose(claim);
        self.heard_claim(&examiner, claim, said, tag, claim.head.site == leader)?;
        if self.round.prepared.is_some_and(|last| last.view == view) {
            return Err(Refusal::Repeated);
        }
        let verdict = examiner.verdict(at, view)?;
        if !permits(verdict, claim.value) {
            return Err(Refusal::NotForced);
        }
        Ok(())
    }

    // A prepare.
    fn admit_prepare<C: Check>(
        &self,
        packet: Packet<'_>,
        claim: Claim,
        tag: &[u8],
        check: &C,
    ) -> Result<(), Refusal>
        ensures { answered (λ u. u) result ≡ passed (C.Check.vouched check.now) (hear_prepare_steps (membership_of self.now.member) (kept_of self.now.round) claim tag.now) }
    {
        let known = claim.head.site < self.member.fleet.n();
        let examiner = Examiner {
            packet,
            fleet: self.member.fleet,
            round: self.round.number,
            check,
        };
        self.heard_claim(&examiner, claim, Statement::Prepare(claim), tag, known)?;
        vacant(
            self.round.rows.prepares[claim.head.site as usize],
            claim.value,
        )
    }

    // A commit, with its commit certificate at a place.
    fn admit_commit<C: Check>(
        &self,
        packet: Packet<'_>,
        claim: Claim,
        tag: &[u8],
        at: usize,
        check: &C,
    ) -> Result<(), Refusal>
        requires reads { VotesStand packet at }
        requires place { at ≡ 28 + length (tag_bytes tag.now) }
        ensures { answered (λ u. u) result ≡ passed (C.Check.vouched check.now) (hear_commit_steps (membership_of self.now.member) (kept_of self.now.round) claim tag.now (votes_in packet.entry at)) }
    {
        let known = claim.head.site < self.member.fleet.n();
        let examiner = Examiner {
            packet,
            fleet: self.member.fleet,
            round: self.round.number,
            check,
        };
        self.heard_claim(&examiner, claim, Statement::Commit(claim), tag, known)?;
        vacant(
            self.round.rows.commits[claim.head.site as usize],
            claim.value,
        )?;
        let view = self.round.view.number();
        let value = claim.value;
        Ok(examiner.commit_certificate(at, Report { view, value })?)
    }

    // A new-view, with the certificate of its reported commit at a place.
    fn admit_new_view<C: Check>(
        &self,
        packet: Packet<'_>,
        change: ViewChange,
        tag: Part<'_>,
        at: usize,
        check: &C,
    ) -> Result<(), Refusal>
        requires reads { CertifiedStands packet change.committed at }
        requires tag { tag.place ≡ length (statement_bytes (statement.NewView change)) }
        requires place { at ≡ tag.place + length (tag_bytes tag.bytes.now) }
        ensures { answered (λ u. u) result ≡ passed (C.Check.vouched check.now) (hear_new_view_steps (membership_of self.now.member) (kept_of self.now.round) (turn_with change tag.entry.bytes.now (certified_in packet.entry change.committed at))) }
    {
        let fleet = self.member.fleet;
        let known = self.expects(change.head.site);
        let examiner = Examiner {
            packet,
            fleet,
            round: self.round.number,
            check,
        };
        self.heard_change(&examiner, change, tag, known)?;
        if self.is_gathered(change.head.site as usize) {
            return Err(Refusal::Repeated);
        }
        if self.gathered() >= fleet.progress_quorum() as usize {
            return Err(Refusal::Gathered);
        }
        Ok(examiner.certified(at, change.committed)?)
    }

    // All that hear tests of a packet; the message that it is.
    pub fn admit<'a, C: Check>(
        &self,
        bytes: &'a [u8],
        books: Books<'_>,
        out: usize,
        check: &C,
    ) -> Result<Message<'a>, Refusal>
        ensures value { answered (λ message. heard_as (membership_of self.now.member) (kept_of self.now.round) (books_of books.entry) bytes.now (told message)) result ≡ outcome (C.Check.vouched check.now) (hear_call (membership_of self.now.member) (kept_of self.now.round) (books_of books.entry) out bytes.now) }
        ensures message { IfOk result (λ message. map_ok (locate bytes.now) (message_of self.now.member.limit.bytes bytes.now) ≡ Ok (told message)) }
    {
        self.room(books, out)?;
        let limit = self.member.limit;
        let packet = Packet { bytes, limit };
        let message = read_message(packet)?;
        match message {
            Message::Propose {
                claim,
                tag,
                progress,
            } => self.admit_propose(packet, claim, tag.bytes, progress.place, check)?,
            Message::Prepare { claim, tag } => self.admit_prepare(packet, claim, tag.bytes, check)?,
            Message::Commit {
                claim,
                tag,
                certificate,
            } => self.admit_commit(packet, claim, tag.bytes, certificate.place, check)?,
            Message::NewView {
                change,
                tag,
                certificate,
            } => self.admit_new_view(packet, change, tag, certificate.place, check)?,
        }
        Ok(message)
    }
}
