// View changes.
use super::base::{D, E, NEW_VIEW, PREPARED, SILENT};
use super::harbour::{GATHERED, decision, harbour, leading, noted, prepared_by_all};
use super::signs::Signs;
use records::{Lengths, Rows, Way};
use std::test::Fail;
use values::{Refusal, Report};
use verdicts::{Forced, Forcing, Verdict};

// The certificate of a proposal whose tag has one byte.
fn certificate(proposal: &[u8]) -> Result<&[u8], Fail> {
    Ok(proposal.get(36..).ok_or("no certificate")?)
}

// All have prepared e in view 1. Site 1, which leads view 2, gathers three of their new-views, is
// handed d, and proposes e.
#[test]
fn a_forced_fix(rt: HostRuntime) -> Result<(), Fail> {
    let mut sites = harbour()?;
    let mut new_views = prepared_by_all(&mut sites, E)?;
    for (site, new_view) in sites.iter_mut().zip(new_views.iter_mut()) {
        assert_eq!(rt; site.leave(2), Ok(40));
        *new_view = site.sealed(40)?;
    }
    assert!(rt; new_views[1].bytes() == PREPARED.as_slice());
    let leader = &mut sites[1];
    let answers = [noted(0), noted(0), GATHERED, Err(Refusal::Gathered)];
    for (new_view, answer) in new_views.iter().zip(answers) {
        assert_eq!(rt; leader.hear(new_view.bytes()), answer);
    }
    // a statement of 28 bytes, a count, and three new-views of 48
    assert_eq!(rt; leader.propose(D), Ok(176));
    let offer = leader.sealed(176)?;
    assert!(rt; offer.bytes().get(16..28) == Some(&PREPARED[24..36]));
    let verdict = Verdict::Forced(Forced {
        value: E,
        view: 1,
        by: Forcing::Fast,
    });
    for site in sites.iter_mut() {
        assert_eq!(rt; site.hear(offer.bytes()), noted(28));
        let progress = certificate(offer.bytes())?;
        assert_eq!(rt; site.site.judge(2, progress, &Signs), Ok(verdict));
    }
    Ok(())
}

// Site 0 has decided d fast, and committed it, in view 1.
#[test]
fn what_leave_keeps(rt: HostRuntime) -> Result<(), Fail> {
    let mut sites = harbour()?;
    let prepares = prepared_by_all(&mut sites, D)?;
    let [mut site, ..] = sites;
    for prepare in prepares {
        site.hear(prepare.bytes())?;
    }
    let before = site;
    assert_eq!(rt; site.leave(2), Ok(96));
    let round = site.site.record().round;
    assert!(rt; round.view.number() == 2 && round.number == 9 && !round.proposed);
    let report = Some(Report { view: 1, value: D });
    assert!(rt; round.prepared == report && round.committed == report);
    assert_eq!(rt; round.decision, decision(D, Way::Fast));
    // the rows are empty; the books, and the certificate, are as they were
    assert!(rt; round.rows == Rows::empty());
    let lengths = Lengths {
        certificate: 40,
        ..Lengths::none()
    };
    assert!(rt; round.lengths == lengths && site.shelf == before.shelf);
    assert!(rt; site.site.record().member == before.site.record().member);
    assert!(rt; site.sealed(96)?.bytes() == NEW_VIEW.as_slice());
    Ok(())
}

// Site 1 leads view 6 as well. What it gathered for view 2, and that it has proposed there, counts
// no more, though the view book is as it was.
#[test]
fn gathered_for_an_earlier_view(rt: HostRuntime) -> Result<(), Fail> {
    let mut site = leading([&NEW_VIEW, &PREPARED, &SILENT])?;
    site.propose(D)?;
    let before = site;
    assert_eq!(rt; site.leave(6), Ok(24));
    assert!(rt; site.shelf == before.shelf);
    let round = site.site.record().round;
    assert!(rt; round.lengths == Lengths::none() && !round.proposed);
    assert_eq!(rt; site.propose(D), Err(Refusal::MayNotPropose));
    assert_eq!(rt; site.hear(&SILENT), Err(Refusal::WrongView { place: 8 }));
    Ok(())
}
