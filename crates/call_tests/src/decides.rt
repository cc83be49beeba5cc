// Rounds of calls that end in a decision.
use super::base::{COMMIT, D, PREPARE, with_words};
use super::harbour::{Bench, DECIDED, Packet, decision, harbour, noted, prepared_by_all};
use records::Way;
use std::process::Abort;
use std::test::Fail;

// All prepare d, and hear the prepares of all: with the third each commits, with the fourth it
// decides.
#[test]
fn a_fast_round(rt: HostRuntime) -> Result<(), Fail> {
    let mut sites = harbour()?;
    assert_eq!(rt; sites[0].propose(D), Ok(32));
    let offer = sites[0].sealed(32)?;
    let mut prepares = [offer; 4];
    for (site, prepare) in sites.iter_mut().zip(prepares.iter_mut()) {
        assert_eq!(rt; site.hear(offer.bytes()), noted(28));
        *prepare = site.sealed(28)?;
    }
    assert!(rt; prepares[1].bytes() == PREPARE.as_slice());
    let [first, second, third, fourth] = prepares;
    for site in sites.iter_mut() {
        assert_eq!(rt; site.hear(first.bytes()), noted(0));
        assert_eq!(rt; site.hear(second.bytes()), noted(0));
        assert_eq!(rt; site.hear(third.bytes()), noted(68));
        assert!(rt; site.read().is_none());
        assert_eq!(rt; site.hear(fourth.bytes()), DECIDED);
        assert_eq!(rt; site.read(), decision(D, Way::Fast));
    }
    // the commit still stands in out
    assert!(rt; sites[0].sealed(68)?.bytes() == COMMIT.as_slice());
    Ok(())
}

// The commits of all, when they have heard three prepares of d.
fn committed_by_all(sites: &mut [Bench; 4], prepares: [Packet; 4]) -> Result<[Packet; 4], Fail> {
    let mut commits = prepares;
    for (site, commit) in sites.iter_mut().zip(commits.iter_mut()) {
        for prepare in prepares.iter().take(3) {
            site.hear(prepare.bytes())?;
        }
        *commit = site.sealed(68)?;
    }
    Ok(commits)
}

// The third commit decides.
#[test]
fn a_recovery(rt: HostRuntime) -> Result<(), Fail> {
    let mut sites = harbour()?;
    let prepares = prepared_by_all(&mut sites, D)?;
    let [first, second, third, _] = committed_by_all(&mut sites, prepares)?;
    for site in sites.iter_mut() {
        assert_eq!(rt; site.hear(first.bytes()), noted(0));
        assert_eq!(rt; site.hear(second.bytes()), noted(0));
        assert!(rt; site.read().is_none());
        assert_eq!(rt; site.hear(third.bytes()), DECIDED);
        assert_eq!(rt; site.read(), decision(D, Way::Recovery));
    }
    Ok(())
}

// The packets are noted, and the decision stays.
fn only_noted(rt: &impl Abort, site: &mut Bench, packets: &[Packet]) {
    let decided = site.read();
    for packet in packets {
        assert_eq!(rt; site.hear(packet.bytes()), noted(0));
        assert_eq!(rt; site.read(), decided);
    }
}

// By three commits and then by four prepares, and the other way round.
#[test]
fn first_decisions_stay(rt: HostRuntime) -> Result<(), Fail> {
    let mut sites = harbour()?;
    let prepares = prepared_by_all(&mut sites, D)?;
    let commits = committed_by_all(&mut sites, prepares)?;
    let [mut recovered, mut fast, ..] = sites;
    for commit in commits.iter().take(3) {
        recovered.hear(commit.bytes())?;
    }
    only_noted(&rt, &mut recovered, &prepares[3..]);
    assert_eq!(rt; recovered.read(), decision(D, Way::Recovery));
    fast.hear(prepares[3].bytes())?;
    only_noted(&rt, &mut fast, &commits);
    assert_eq!(rt; fast.read(), decision(D, Way::Fast));
    Ok(())
}

// In view 2 all prepare d again: site 0 commits it again, and its decision is that of view 1.
#[test]
fn decisions_of_earlier_views_stay(rt: HostRuntime) -> Result<(), Fail> {
    let mut sites = harbour()?;
    let prepares = prepared_by_all(&mut sites, D)?;
    let [mut site, ..] = sites;
    for prepare in prepares {
        site.hear(prepare.bytes())?;
    }
    site.leave(2)?;
    let answers = [noted(0), noted(0), noted(68), noted(0)];
    for (other, answer) in (0..4).zip(answers) {
        let words = [(8, 2), (12, other), (32, other << 24)];
        let prepare = with_words(&PREPARE, &words)?;
        assert_eq!(rt; site.hear(&prepare), answer, "of site {other}");
        assert_eq!(rt; site.read(), decision(D, Way::Fast));
    }
    let committed = site.site.record().round.committed;
    assert!(rt; committed.is_some_and(|report| report.view == 2));
    Ok(())
}
