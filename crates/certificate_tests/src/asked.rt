// What the check is asked, and in which order: no contract can say it.
ghost use Rattle.certificate_tests.specs.Signs.{signed_by, Short-signed_by};

use super::base::{CERTIFICATE, with_words};
use super::signs::Signs;
use certificates::judge;
use checks::Check;
use std::cell::Cell;
use std::test::Fail;
use values::{Fleet, TagLimit};

// Notes which sites it is asked about, one digit for each, as the number of the site and 1.
#[derive(Drop)]
struct Noting {
    asked: Cell<u32>,
}

impl Check for Noting {
    ghost vouched = { λ c. signed_by };

    fn vouches(&self, site: u32, statement: &[u8], tag: &[u8]) -> bool {
        let so_far = self.asked.get().wrapping_mul(16);
        self.asked.set(so_far.wrapping_add(site).wrapping_add(1));
        Signs.vouches(site, statement, tag)
    }

    ghost short = { λ c. Short-signed_by };
}

// The sites that are asked about.
fn asked(certificate: &[u8]) -> Result<u32, Fail> {
    let noting = Noting {
        asked: Cell::new(0),
    };
    let fleet = Fleet::new(1, 0)?;
    let _ = judge(fleet, TagLimit::new(4)?, 9, 2, certificate, &noting);
    Ok(noting.asked.get())
}

#[test]
fn each_tag_once(rt: HostRuntime) -> Result<(), Fail> {
    // an entry, the sites of its commit certificate, the other entries
    assert!(rt; asked(&CERTIFICATE)? == 0x11_2324);
    Ok(())
}

#[test]
fn none_behind_a_fault(rt: HostRuntime) -> Result<(), Fail> {
    // the tag of the second entry, and the site of the third
    assert!(rt; asked(&with_words(&[(152, 0)])?)? == 0x1_1232);
    assert!(rt; asked(&with_words(&[(168, 1)])?)? == 0x1_1232);
    // the second tag of the commit certificate, and its third site
    assert!(rt; asked(&with_words(&[(92, 0)])?)? == 0x112);
    assert!(rt; asked(&with_words(&[(96, 1)])?)? == 0x112);
    // the round of the first entry, and a byte left over
    assert!(rt; asked(&with_words(&[(8, 8)])?)? == 0);
    assert!(rt; asked(&CERTIFICATE[..187])? == 0);
    Ok(())
}
