// Certificates that stand in a packet, examined for a fleet and a round.
ghost use Rattle.std.specs.Prelude.{◌≡◌, ℕ, ◌+◌, ◌^◌, ◌<◌, ◌≤◌, true, cond, length, Ok, Err, IsOk, IfOk, OnOk};
ghost use Rattle.values.specs.Fleets.{sites, recovery_quorum};
ghost use Rattle.values.specs.Refusals.{cause_number, answered};
ghost use Rattle.verdicts.specs.Told.{forced_told};
ghost use Rattle.wire.specs.declared.statement.Statement.TheVariants as statement;
ghost use Rattle.wire.specs.Contents.{report_bytes, change_of, statement_bytes};
ghost use Rattle.checks.specs.Vouching.{Vouched};
ghost use Rattle.certificates.specs.Steps.{granted, passed, blamed, answering};
ghost use Rattle.certificates.specs.Faults.{fault_told, at_depth, commit_told, entry_told, failing};
ghost use Rattle.certificates.specs.Examining.{rising, vote_steps, claim_steps, report_view, report_fix, change_steps, certificate_steps, certified_steps, entry_steps, entries_needed, progress_steps};
ghost use Rattle.certificates.specs.Reading.{lends, VotesStand, votes_in, CertifiedStands, certified_in, turn_in, ProgressStands, progress_in};
ghost use Rattle.certificates.specs.Judging.{reports_of, outcome, verdict_call, judging};

use super::fault::{CommitFault, EntryFault, Fault};
use buffers::Piece;
use checks::Check;
use messages::{NewView, envelope_at, read_progress};
use values::{Cause, Fleet, Refusal, Report, Value};
use verdicts::{Forcing, Reported, weigh};
use wire::{Claim, Entry, Head, Packet, Part, Statement, ViewChange, count_at, report_length};

#[derive(Drop)]
pub struct Examiner<'a, C> {
    pub packet: Packet<'a>,
    pub fleet: Fleet,
    pub round: u32,
    pub check: &'a C,
}

// A test, and what is wrong where it fails.
fn ensure(holds: bool, cause: Cause, place: usize) -> Result<(), Fault>
    ensures { failing fault_told result ≡ cond holds (Ok tt) (Err (record { cause = cause_number cause; place = place })) }
{
    if holds {
        Ok(())
    } else {
        Err(Fault { cause, place })
    }
}

// The view of a report at a place: not 0, and below `view`.
fn report_view(report: Option<Report>, view: u32, place: usize) -> Result<(), Fault>
    requires { place + length (report_bytes report) < 2 ^ 64 }
    ensures { (v : Vouched) → failing fault_told result ≡ passed v (report_view view place report) }
{
    match report {
        None => Ok(()),
        Some(report) => ensure((1..view).contains(&report.view), Cause::View, place + 4),
    }
}

// The fix of a report at a place.
fn report_fix(report: Option<Report>, place: usize) -> Result<(), Fault>
    requires { place + length (report_bytes report) < 2 ^ 64 }
    ensures { (v : Vouched) → failing fault_told result ≡ passed v (report_fix place report) }
{
    match report {
        None => Ok(()),
        Some(report) => ensure(report.value.is_legal(), Cause::Fix, place + 8),
    }
}

// How many entries a progress certificate for `view` has: none in view 1.
pub fn entries_needed(fleet: Fleet, view: u32) -> u32
    ensures { result ≡ entries_needed fleet.f fleet.t view }
{
    if view == 1 {
        0
    } else {
        fleet.progress_quorum()
    }
}

impl<C: Check> Examiner<'_, C> {
    // Whether it is a site of the fleet, and not below `low`.
    fn rises(&self, site: u32, low: u32) -> bool
        ensures { result ≡ rising (sites self.now.fleet.f self.now.fleet.t) low site }
    {
        (low..self.fleet.n()).contains(&site)
    }

    // Whether the check says that a site has made a statement.
    fn grants(&self, site: u32, said: Statement, tag: &[u8]) -> bool
        ensures { result ≡ granted (C.Check.vouched self.now.check.now) (record { site = site; said = said; tag = tag.now }) }
    {
        let mut text = [0; 56];
        let len = said.length();
        said.put(&mut text, 0);
        self.check.vouches(site, &text[..len], tag)
    }

    // An entry of a commit certificate at a place: a site of the fleet that is not below `low`,
    // and the tag of its prepare of what is reported.
    fn vote(&self, entry: Entry<'_>, report: Report, low: u32, place: usize) -> Result<(), Fault>
        requires { entry.tag.place ≡ place + 4 }
        ensures { failing fault_told result ≡ passed (C.Check.vouched self.now.check.now) (vote_steps self.now.fleet.f self.now.fleet.t self.now.round report low place (record { site = entry.entry.site; tag = entry.entry.tag.bytes.now })) }
    {
        let Entry { site, tag } = entry;
        ensure(self.rises(site, low), Cause::Site, place)?;
        let head = Head {
            round: self.round,
            view: report.view,
            site,
        };
        let prepare = Statement::Prepare(Claim {
            head,
            value: report.value,
        });
        ensure(self.grants(site, prepare, tag.bytes), Cause::Tag, tag.place)
    }

    // A claim at the start of the packet, and its tag: of the round, in the view, of a legal fix.
    // `said` is the statement that it makes; `known` says whether its site may be who it is.
    pub fn claim(
        &self,
        claim: Claim,
        said: Statement,
        tag: &[u8],
        view: u32,
        known: bool,
    ) -> Result<(), Fault>
        ensures value { failing fault_told result ≡ passed (C.Check.vouched self.now.check.now) (claim_steps self.now.round view known claim said tag.now) }
        ensures site { OnOk result (known ≡ true) }
    {
        ensure(claim.head.round == self.round, Cause::Round, 4)?;
        ensure(claim.head.view == view, Cause::View, 8)?;
        ensure(known, Cause::Site, 12)?;
        ensure(claim.value.is_legal(), Cause::Fix, 16)?;
        ensure(self.grants(claim.head.site, said, tag), Cause::Tag, 28)
    }

    // A new-view's statement and its tag: of the round, for the view, with reports of legal fixes
    // in views below. `known` says whether its site may be who it is.
    #[tactic(auto, using(crate::proofs::Passing::passed_append))]
    pub fn change(
        &self,
        said: ViewChange,
        tag: Part<'_>,
        view: u32,
        known: bool,
        place: usize,
    ) -> Result<(), Fault>
        requires { tag.place ≡ place + length (statement_bytes (statement.NewView said)) }
        ensures value { failing fault_told result ≡ passed (C.Check.vouched self.now.check.now) (change_steps self.now.round view known place said tag.entry.bytes.now) }
        ensures site { OnOk result (known ≡ true) }
    {
        let first = place + 16;
        let second = first + report_length(said.prepared);
        ensure(said.head.round == self.round, Cause::Round, place + 4)?;
        ensure(said.head.view == view, Cause::View, place + 8)?;
        report_view(said.prepared, view, first)?;
        report_view(said.committed, view, second)?;
        ensure(known, Cause::Site, place + 12)?;
        report_fix(said.prepared, first)?;
        report_fix(said.committed, second)?;
        let granted = self.grants(said.head.site, Statement::NewView(said), tag.bytes);
        ensure(granted, Cause::Tag, tag.place)
    }

    // The commit certificate of a report, at a place.
    pub fn commit_certificate(&self, at: usize, report: Report) -> Result<(), CommitFault>
        requires { VotesStand self.now.packet at }
        ensures { (depth : ℕ) → failing (commit_told depth) result ≡ passed (C.Check.vouched self.now.check.now) (blamed (at_depth depth) (certificate_steps self.now.fleet.f self.now.fleet.t self.now.round report at (votes_in self.now.packet at))) }
    {
        let count = count_at(self.packet.bytes, at)?;
        ensure(count == self.fleet.recovery_quorum(), Cause::Count, at)?;
        let mut low = 0;
        let mut next = at + 4;
        for _ in 0..count {
            let (entry, end) = self.packet.entry_at(next)?;
            self.vote(entry, report, low, next)?;
            low = entry.site + 1;
            next = end;
        }
        Ok(())
    }

    // The commit certificate of a reported commit, at a place.
    pub fn certified(&self, at: usize, committed: Option<Report>) -> Result<(), CommitFault>
        requires { CertifiedStands self.now.packet committed at }
        ensures { (depth : ℕ) → failing (commit_told depth) result ≡ passed (C.Check.vouched self.now.check.now) (blamed (at_depth depth) (certified_steps self.now.fleet.f self.now.fleet.t self.now.round at (certified_in self.now.packet committed at))) }
    {
        match committed {
            None => Ok(()),
            Some(report) => self.commit_certificate(at, report),
        }
    }

    // The entry of a progress certificate for `view` at a place: its site is not below `low`, and
    // its own commit certificate follows its tag. Answers what it says, and the place behind it.
    pub fn entry(&self, at: usize, view: u32, low: u32) -> Result<(ViewChange, usize), EntryFault>
        requires { IsOk (turn_in self.now.packet at) }
        ensures value { IfOk (turn_in self.now.packet at) (λ p. failing entry_told result ≡ answering (passed (C.Check.vouched self.now.check.now) (entry_steps self.now.fleet.f self.now.fleet.t self.now.round view low at p.0)) (change_of p.0, p.1)) }
        ensures site { IfOk result (λ p. p.0.head.site < sites self.now.fleet.f self.now.fleet.t) }
    {
        let (message, end) = envelope_at::<NewView>(self.packet, at)?;
        let said = message.statement;
        let known = self.rises(said.head.site, low);
        self.change(said, message.tag, view, known, at)?;
        self.certified(message.attachment.place, said.committed)?;
        Ok((said, end))
    }

    // The progress certificate for `view` at a place: lays what its entries report into
    // `reports`, and answers how many they are.
    fn progress(&self, at: usize, view: u32, reports: &mut [Reported]) -> Result<usize, EntryFault>
        requires room { 16 ≤ length reports.old }
        requires reads { ProgressStands self.now.packet at }
        ensures value { failing entry_told (lends reports.new result) ≡ answering (passed (C.Check.vouched self.now.check.now) (progress_steps self.now.fleet.f self.now.fleet.t self.now.round view at (progress_in self.now.packet at))) (reports_of (progress_in self.now.packet at)) }
        ensures few { IfOk result (λ n. n ≤ 16) }
    {
        let count = count_at(self.packet.bytes, at)?;
        ensure(count == entries_needed(self.fleet, view), Cause::Count, at)?;
        let mut low = 0;
        let mut next = at + 4;
        for i in 0..count as usize {
            let (said, end) = self.entry(next, view, low)?;
            reports[i] = Reported {
                prepared: said.prepared,
                committed: said.committed,
            };
            low = said.head.site + 1;
            next = end;
        }
        Ok(count as usize)
    }

    // The value that a progress certificate for `view` at a place forces, with its view and the
    // certificate that forces it.
    pub fn verdict(&self, at: usize, view: u32) -> Result<Option<(Value, u32, Forcing)>, Refusal>
        requires { ProgressStands self.now.packet at }
        ensures { answered forced_told result ≡ outcome (C.Check.vouched self.now.check.now) (verdict_call self.now.fleet.f self.now.fleet.t self.now.round view at (progress_in self.now.packet at)) }
    {
        let nothing = Reported {
            prepared: None,
            committed: None,
        };
        let mut reports = [nothing; 16];
        let count = self.progress(at, view, &mut reports)?;
        Ok(weigh(&reports[..count], self.fleet)?)
    }

    // The whole packet as a progress certificate for `view`.
    pub fn judge(&self, view: u32) -> Result<Option<(Value, u32, Forcing)>, Refusal>
        ensures { answered forced_told result ≡ judging (C.Check.vouched self.now.check.now) self.now.fleet.f self.now.fleet.t self.now.packet.limit.bytes self.now.round view self.now.packet.bytes.now }
    {
        read_progress(self.packet)?;
        if view == 0 {
            return Err(Refusal::WrongView { place: 0 });
        }
        self.verdict(0, view)
    }
}
