// A site: opened, looked at, and the calls that do not change it.
ghost use Rattle.std.specs.Prelude.{◌≡◌, ℕ, length, Ok};
ghost use Rattle.std.specs.Option.{option_map};
ghost use Rattle.values.specs.Refusals.{answered};
ghost use Rattle.verdicts.specs.Told.{verdict_told};
ghost use Rattle.checks.specs.Vouching.{Vouched};
ghost use Rattle.records.specs.Books.{Books};
ghost use Rattle.records.specs.Kept.{membership_of, kept_of, decided_as, opening};
ghost use Rattle.calls.specs.Effects.{wrote, judged, found};
ghost use Rattle.calls.specs.Calls.{to_seal, to_judge, to_read, answer_of, out_after};
ghost use Rattle.runs.specs.Laws.{RunLaws};
ghost use Rattle.runs.specs.Promises.{DecisionsAgree, LaterCertificatesForce, LaterViewsKeepIt, NeverConflict};
ghost use Rattle.runs.specs.Happens.{Happens};
ghost use Rattle.runs.specs.TwoLiars.{TwoLiars};
ghost use Rattle.liveness.specs.Sealing.{DraftsAreSealed};
ghost use Rattle.liveness.specs.Recovery.{ChosenRecover, ChosenDecideFast};
ghost use Rattle.liveness.specs.Meets.{Recovers, DecidesFast, DecidesFirst};
ghost use Rattle.wrong_sites.specs.Undecided.{WrongSitesLose};
ghost use Rattle.wrong_sites.specs.Differing.{WrongRulesDiffer};
ghost use Rattle.site.specs.Does.{does};
ghost use Rattle.site.specs.Examples.{WorkedExamples};

use calls::Record;
use certificates::judge;
use checks::Check;
use records::{Decision, Member, Round};
use values::{Fleet, Refusal, TagLimit};
use verdicts::Verdict;
use writing::seal;

#[derive(Clone, Copy, Debug, PartialEq, Eq)]
pub struct Site {
    pub(crate) record: Record,
}

impl Site {
    // Opens a round, in view 1 with nothing heard: a site with its own number in a fleet of which at
    // most `f` sites break the rules and `t` may stay away from a fast decision, with tags of at most
    // `limit` bytes.
    pub fn open(f: u32, t: u32, own: u32, limit: usize, round: u32) -> Result<Site, Refusal>
        ensures value { answered (λ site. (membership_of site.record.member, kept_of site.record.round)) result ≡ opening f t own limit round }
        ensures examples { WorkedExamples }
    {
        let fleet = Fleet::new(f, t)?;
        if own >= fleet.n() {
            return Err(Refusal::Limits);
        }
        let limit = TagLimit::new(limit)?;
        let member = Member { fleet, limit, own };
        let round = Round::opened(round);
        Ok(Site {
            record: Record { member, round },
        })
    }

    // The record, to be looked at.
    pub fn record(&self) -> &Record
        ensures { result.now ≡ self.now.record }
    {
        &self.record
    }

    // The decision, if there is one. What every run keeps of decisions, and when one comes about,
    // stands in this contract.
    pub fn read(&self) -> Option<Decision>
        ensures value { (v : Vouched) (books : Books) (out : ℕ) → answer_of (does v self.now.record books out to_read) ≡ Ok (found (option_map decided_as result)) }
        ensures agree { DecisionsAgree }
        ensures later_views { LaterViewsKeepIt }
        ensures recover { ChosenRecover }
        ensures fast { ChosenDecideFast }
        ensures laws { RunLaws }
        ensures happens { Happens }
        ensures two_liars { TwoLiars }
        ensures recovers { Recovers }
        ensures decides_fast { DecidesFast }
        ensures decides_first { DecidesFirst }
        ensures wrong_sites { WrongSitesLose }
        ensures wrong_rules { WrongRulesDiffer }
    {
        self.record.round.decision
    }

    // What a progress certificate for a view lets be proposed, in the round of the record. What
    // every run keeps of verdicts stands in this contract.
    pub fn judge<C: Check>(
        &self,
        view: u32,
        certificate: &[u8],
        check: &C,
    ) -> Result<Verdict, Refusal>
        ensures value { (books : Books) (out : ℕ) → answered (λ x. judged (verdict_told x)) result ≡ answer_of (does (C.Check.vouched check.now) self.now.record books out (to_judge view certificate.now)) }
        ensures later_certificates { LaterCertificatesForce }
        ensures conflict { NeverConflict }
    {
        let Record { member, round } = &self.record;
        judge(
            member.fleet,
            member.limit,
            round.number,
            view,
            certificate,
            check,
        )
    }

    // Puts a tag into a draft; the message stands at the start of `out`. Answers its length. That
    // any draft of a run can be sealed stands in this contract.
    pub fn seal(&self, draft: &[u8], tag: &[u8], out: &mut [u8]) -> Result<usize, Refusal>
        ensures value { (v : Vouched) (books : Books) → answered (λ n. wrote n) result ≡ answer_of (does v self.now.record books (length out.old) (to_seal draft.now tag.now)) }
        ensures after { (v : Vouched) (books : Books) → out.new ≡ out_after out.old (does v self.now.record books (length out.old) (to_seal draft.now tag.now)) }
        ensures drafts { DraftsAreSealed }
    {
        seal(draft, tag, self.record.member.limit, out)
    }
}
