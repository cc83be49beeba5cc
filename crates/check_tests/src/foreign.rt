// A check of another kind than the library's, alone and below a layer of the library's.
ghost use Rattle.check_tests.specs.Echoes.{echoed, Short-echoed};

use checks::{Check, RevocationList};

// Vouches for what a tag repeats, up to so many bytes.
#[derive(Drop)]
struct Echo {
    most: u8,
}

impl Check for Echo {
    ghost vouched = { λ c. echoed c.most };

    fn vouches(&self, _site: u32, statement: &[u8], tag: &[u8]) -> bool {
        let most = self.most as usize;
        statement.len() <= 64 && statement.len() <= most && tag == statement
    }

    ghost short = { λ c. Short-echoed c.most };
}

// How many of the sites below 20 a check vouches for: code that knows no check by name.
fn count_vouched<C: Check>(check: &C, statement: &[u8], tag: &[u8]) -> usize {
    (0..20)
        .filter(|site| check.vouches(*site, statement, tag))
        .count()
}

#[test]
fn foreign_check_alone(rt: HostRuntime) {
    let echo = Echo { most: 8 };
    assert!(rt; count_vouched(&echo, b"abc", b"abc") == 20);
    assert!(rt; count_vouched(&echo, b"abc", b"abd") == 0);
    assert!(rt; count_vouched(&echo, b"abcdefghi", b"abcdefghi") == 0);
}

#[test]
fn foreign_check_below(rt: HostRuntime) {
    let mut revoked = [false; 16];
    revoked[3] = true;
    revoked[15] = true;
    let list = RevocationList::new(revoked, Echo { most: 64 });
    assert!(rt; count_vouched(&list, b"abc", b"abc") == 18);
    assert!(rt; count_vouched(&list, b"abc", b"abd") == 0);
}
