// What open, judge and seal answer, and what seal leaves in out.
use super::base::{COMMIT, D, PREPARE, bad_at, other_commit, proposal};
use super::bytes::with_bytes;
use super::harbour::Bench;
use super::signs::Signs;
use site::Site;
use std::test::Fail;
use values::{Cause, Refusal};
use verdicts::{Forced, Forcing, Verdict};

// Site 4 of four, a tag limit of 6, and a fleet of 17.
#[test]
fn not_opened(rt: HostRuntime) -> Result<(), Fail> {
    for (f, t, own, limit) in [(1, 0, 4, 4), (1, 0, 0, 6), (4, 2, 0, 4)] {
        let answer = Site::open(f, t, own, limit, 9);
        assert_eq!(rt; answer, Err(Refusal::Limits), "with f {f}, t {t}");
    }
    Ok(())
}

// A site in a view.
fn site_in(own: u32, view: u32) -> Result<Site, Fail> {
    let mut site = Bench::new(own)?;
    if view > 1 {
        site.leave(view)?;
    }
    Ok(site.site)
}

// That d is forced by its commit in view 1.
const D_IS_FORCED: Verdict = Verdict::Forced(Forced {
    value: D,
    view: 1,
    by: Forcing::Commit,
});

// The certificate of a proposal is for view 2 of round 9, whatever view the site is in.
#[test]
fn judged_for_a_view(rt: HostRuntime) -> Result<(), Fail> {
    let packet = proposal();
    let certificate = &packet[36..];
    for view in [1, 2, 3, u32::MAX] {
        let site = site_in(3, view)?;
        assert_eq!(rt;
            site.judge(2, certificate, &Signs),
            Ok(D_IS_FORCED),
            "in view {view}"
        );
        // the view of the first entry is at 12, and view 1 wants no entry
        assert_eq!(rt;
            site.judge(3, certificate, &Signs),
            bad_at(12, Cause::View, 1)
        );
        assert_eq!(rt;
            site.judge(1, certificate, &Signs),
            bad_at(0, Cause::Count, 1)
        );
        let no_view = Err(Refusal::WrongView { place: 0 });
        assert_eq!(rt; site.judge(0, certificate, &Signs), no_view);
    }
    Ok(())
}

// The round is that of the site.
#[test]
fn judged_in_the_round(rt: HostRuntime) -> Result<(), Fail> {
    let site = Site::open(1, 0, 3, 4, 8)?;
    let packet = proposal();
    let certificate = &packet[36..];
    assert!(rt; site.judge(2, certificate, &Signs) == bad_at(8, Cause::Round, 1));
    Ok(())
}

// No entry in view 1, and commits of d and e.
#[test]
fn free_and_in_conflict(rt: HostRuntime) -> Result<(), Fail> {
    let site = site_in(0, 4)?;
    assert!(rt; site.judge(1, &[0; 4], &Signs) == Ok(Verdict::Free));
    let packet = proposal();
    let two = with_bytes(&[0; 244], 0, &packet[36..144])?;
    let two = with_bytes(&two, 108, &other_commit()?)?;
    let two = with_bytes(&two, 212, &packet[192..])?;
    assert!(rt; site.judge(2, &two, &Signs) == Err(Refusal::Conflict));
    Ok(())
}

// What sealing a draft answers, and what it leaves of so many bytes ff.
fn sealed_in<const N: usize>(
    draft: &[u8],
    tag: &[u8],
) -> Result<(Result<usize, Refusal>, [u8; N]), Fail> {
    let mut out = [0xff; N];
    let answer = site_in(0, 1)?.seal(draft, tag, &mut out);
    Ok((answer, out))
}

// Drafts are the statements of these packets, and what is attached to them. The bytes behind a
// message stay.
#[test]
fn sealed(rt: HostRuntime) -> Result<(), Fail> {
    let prepare = with_bytes(&[0xff; 80], 0, &PREPARE)?;
    assert!(rt; sealed_in(&PREPARE[..28], &[1])? == (Ok(36), prepare));
    let draft = with_bytes(&[0; 68], 0, &COMMIT[..28])?;
    let draft = with_bytes(&draft, 28, &COMMIT[36..])?;
    let commit = with_bytes(&[0xff; 80], 0, &COMMIT)?;
    assert!(rt; sealed_in(&draft, &[0])? == (Ok(76), commit));
    Ok(())
}

#[test]
fn not_sealed(rt: HostRuntime) -> Result<(), Fail> {
    // a tag of five bytes, also without room
    let too_long = Err(Refusal::Layout { place: 0 });
    assert!(rt; sealed_in(&PREPARE[..28], &[1; 5])? == (too_long, [0xff; 35]));
    // room for a tag of four bytes is needed, however short it is, and though the draft is cut
    assert!(rt; sealed_in(&PREPARE[..28], &[])? == (Err(Refusal::Short), [0xff; 35]));
    assert!(rt; sealed_in(&PREPARE[..27], &[])? == (Err(Refusal::Short), [0xff; 34]));
    // a fix that is cut, and a tag where the draft should end
    let cut = Err(Refusal::Layout { place: 24 });
    assert!(rt; sealed_in(&PREPARE[..27], &[1])? == (cut, [0xff; 36]));
    let left_over = Err(Refusal::Layout { place: 28 });
    assert!(rt; sealed_in(&PREPARE, &[1])? == (left_over, [0xff; 80]));
    Ok(())
}
