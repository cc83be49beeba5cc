// Drafts, seals and messages, written into a buffer that holds nines before.
use super::fleets::value;
use packets::{draft, read, seal, write};
use std::test::Fail;
use values::{Refusal, TagLimit};
use wire::{Claim, Head, Statement};

// The prepare of (7, 600000, 30000000), round 9, view 1, site 1.
const PREPARE: [u8; 28] =
    *b"\x00\x00\x00\x02\x00\x00\x00\x09\x00\x00\x00\x01\x00\x00\x00\x01\x00\x00\x00\x07\x00\x09\x27\xc0\x01\xc9\xc3\x80";

fn prepare() -> Statement {
    Statement::Prepare(Claim {
        head: Head {
            round: 9,
            view: 1,
            site: 1,
        },
        value: value(7, 600000, 30000000),
    })
}

#[test]
fn prepare_is_drafted(rt: HostRuntime) {
    let mut out = [9u8; 32];
    assert_eq!(rt; draft(prepare(), &[], &mut out), Ok(28));
    let (drafted, behind) = out.split_at(28);
    assert_eq!(rt; drafted, PREPARE.as_slice());
    assert_eq!(rt; behind, [9; 4].as_slice(), "what lies behind stays");
    let mut small = [9u8; 27];
    assert_eq!(rt; draft(prepare(), &[], &mut small), Err(Refusal::Short));
    assert_eq!(rt; small, [9; 27], "a refusal changes nothing");
}

#[test]
fn prepare_is_sealed(rt: HostRuntime) -> Result<(), Fail> {
    let limit = TagLimit::new(4)?;
    let mut out = [9u8; 40];
    assert_eq!(rt; seal(&PREPARE, &[5, 6, 7], limit, &mut out), Ok(36));
    let (statement, behind) = out.split_at(28);
    assert_eq!(rt; statement, PREPARE.as_slice());
    assert_eq!(rt; behind, [0, 0, 0, 3, 5, 6, 7, 0, 9, 9, 9, 9].as_slice());
    let (sealed, _) = out.split_at(36);
    let mut again = [0u8; 36];
    assert_eq!(rt; write(read(sealed, limit)?, limit, &mut again), Ok(36));
    assert_eq!(rt; again.as_slice(), sealed);
    Ok(())
}

// First the tag's length, then the room, then the layout.
#[test]
fn seals_are_refused_in_order(rt: HostRuntime) -> Result<(), Fail> {
    let limit = TagLimit::new(4)?;
    let tag = [1, 2, 3, 4];
    let mut small = [9u8; 35];
    let long = seal(&PREPARE, &[1, 2, 3, 4, 5], limit, &mut small);
    assert_eq!(rt; long, Err(Refusal::Layout { place: 0 }));
    assert_eq!(rt;
        seal(&PREPARE, &tag, limit, &mut small),
        Err(Refusal::Short)
    );
    let mut out = [9u8; 36];
    let cut = seal(&PREPARE[..24], &tag, limit, &mut out);
    assert_eq!(rt; cut, Err(Refusal::Layout { place: 24 }));
    assert_eq!(rt; out, [9; 36], "refusals change nothing");
    assert_eq!(rt; seal(&PREPARE, &tag, limit, &mut out), Ok(36));
    Ok(())
}
