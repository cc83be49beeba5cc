// The register and the LMS keys.
use super::signature::{KEY, STATEMENT, TAG};
use buffers::array;
use checks::{Check, LmsKeys, Register, register_row};
use std::test::Fail;

// A register of three rows: site 1 said "abc", site 2 said nothing, site 16 said 64 bytes.
pub fn three_rows() -> Result<[u8; 216], Fail> {
    Ok(array((&row(1, b"abc")?, (&row(2, b"")?, &row(16, &[7; 64])?))))
}

pub fn row(site: u32, statement: &[u8]) -> Result<[u8; 72], Fail> {
    Ok(register_row(site, statement).ok_or("too long for a row")?)
}

// The number of a row, as a tag.
pub const FIRST: [u8; 4] = [0, 0, 0, 0];

pub const SECOND: [u8; 4] = [0, 0, 0, 1];

pub const THIRD: [u8; 4] = [0, 0, 0, 2];

#[test]
fn register_vouches_for_its_rows(rt: HostRuntime) -> Result<(), Fail> {
    let rows = three_rows()?;
    let register = Register::new(&rows);
    assert!(rt; register.vouches(1, b"abc", &FIRST));
    assert!(rt; register.vouches(2, b"", &SECOND));
    assert!(rt; register.vouches(16, &[7; 64], &THIRD));
    Ok(())
}

#[test]
fn register_vouches_for_nothing_else(rt: HostRuntime) -> Result<(), Fail> {
    let rows = three_rows()?;
    let register = Register::new(&rows);
    assert!(rt; !register.vouches(2, b"abc", &FIRST), "another site");
    assert!(rt; !register.vouches(1, b"abd", &FIRST), "another statement");
    assert!(rt; !register.vouches(1, b"abc\0", &FIRST), "one byte more");
    assert!(rt; !register.vouches(1, b"ab", &FIRST), "one byte less");
    assert!(rt; !register.vouches(1, b"abc", &SECOND), "another row");
    assert!(rt; !register.vouches(1, b"abc", &[0, 0, 0, 3]), "no such row");
    assert!(rt;
        !register.vouches(1, b"abc", &[255, 255, 255, 255]),
        "no such row"
    );
    assert!(rt;
        !register.vouches(1, b"abc", &[0, 0, 0]),
        "a tag of three bytes"
    );
    assert!(rt;
        !register.vouches(1, b"abc", &[0, 0, 0, 0, 0]),
        "a tag of five bytes"
    );
    assert!(rt; !register.vouches(16, &[7; 65], &THIRD), "65 bytes");
    Ok(())
}

#[test]
fn rows_are_whole(rt: HostRuntime) -> Result<(), Fail> {
    let mut rows = three_rows()?;
    assert!(rt;
        !Register::new(&rows[0..71]).vouches(1, b"abc", &FIRST),
        "a cut row"
    );
    assert!(rt; Register::new(&rows[0..72]).vouches(1, b"abc", &FIRST));
    assert!(rt;
        !Register::new(&rows[0..143]).vouches(2, b"", &SECOND),
        "a cut row"
    );
    rows[71] = 1;
    assert!(rt;
        !Register::new(&rows).vouches(1, b"abc", &FIRST),
        "the filling is not zero"
    );
    Ok(())
}

// The same key for site 5 alone.
pub fn one_key() -> LmsKeys {
    let mut keys = [[0; 56]; 16];
    keys[5] = KEY;
    LmsKeys::new(keys)
}

#[test]
fn key_vouches_for_its_signature(rt: HostRuntime) {
    let keys = one_key();
    assert!(rt; keys.vouches(5, &STATEMENT, &TAG));
    assert!(rt; !keys.vouches(4, &STATEMENT, &TAG), "another site's key");
    assert!(rt; !keys.vouches(16, &STATEMENT, &TAG), "a site without a key");
    assert!(rt;
        !keys.vouches(5, &STATEMENT[0..55], &TAG),
        "another statement"
    );
    assert!(rt; !keys.vouches(5, &[0; 65], &TAG), "65 bytes");
    assert!(rt; !keys.vouches(5, &STATEMENT, &TAG[0..1291]), "a cut tag");
}
