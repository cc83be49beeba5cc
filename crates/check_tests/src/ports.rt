// The port, over and under every other check, and the check that is shipped.
use super::leaves::{FIRST, SECOND, one_key, row};
use super::revocations::{NONE, only};
use super::signature::{KEY, STATEMENT, TAG};
use buffers::array;
use checks::{Check, PortPrefix, Register, RevocationList, ShippedCheck};
use std::test::Fail;

#[test]
fn port_over_register(rt: HostRuntime) -> Result<(), Fail> {
    let rows: [u8; 144] = array((&row(1, b"\x01\x02\x03\x04abc")?, &row(1, &[9; 64])?));
    let port = PortPrefix::new(0x01020304, Register::new(&rows));
    assert!(rt; port.vouches(1, b"abc", &FIRST));
    assert!(rt;
        !port.vouches(1, b"\x01\x02\x03\x04abc", &FIRST),
        "the port comes by itself"
    );
    let other = PortPrefix::new(0x01020305, Register::new(&rows));
    assert!(rt; !other.vouches(1, b"abc", &FIRST), "another port");
    let nines = PortPrefix::new(0x09090909, Register::new(&rows));
    assert!(rt; nines.vouches(1, &[9; 60], &SECOND), "60 bytes");
    assert!(rt; !nines.vouches(1, &[9; 61], &SECOND), "61 bytes");
    Ok(())
}

#[test]
fn port_over_keys(rt: HostRuntime) {
    assert!(rt; PortPrefix::new(5, one_key()).vouches(5, &STATEMENT[4..56], &TAG));
    assert!(rt; !PortPrefix::new(6, one_key()).vouches(5, &STATEMENT[4..56], &TAG));
    assert!(rt; !PortPrefix::new(5, one_key()).vouches(5, &STATEMENT, &TAG));
}

#[test]
fn revocation_over_port_and_back(rt: HostRuntime) -> Result<(), Fail> {
    let rows = row(1, b"\x01\x02\x03\x04abc")?;
    let list = RevocationList::new(only(2), PortPrefix::new(0x01020304, Register::new(&rows)));
    assert!(rt; list.vouches(1, b"abc", &FIRST));
    let list = RevocationList::new(only(1), PortPrefix::new(0x01020304, Register::new(&rows)));
    assert!(rt; !list.vouches(1, b"abc", &FIRST));
    let port = PortPrefix::new(
        0x01020304,
        RevocationList::new(only(2), Register::new(&rows)),
    );
    assert!(rt; port.vouches(1, b"abc", &FIRST));
    let port = PortPrefix::new(
        0x01020304,
        RevocationList::new(only(1), Register::new(&rows)),
    );
    assert!(rt; !port.vouches(1, b"abc", &FIRST));
    Ok(())
}

#[test]
fn port_over_port(rt: HostRuntime) -> Result<(), Fail> {
    let rows = row(1, b"\x00\x00\x00\x02\x00\x00\x00\x01abc")?;
    let both = PortPrefix::new(1, PortPrefix::new(2, Register::new(&rows)));
    assert!(rt;
        both.vouches(1, b"abc", &FIRST),
        "the lower port comes first"
    );
    let turned = PortPrefix::new(2, PortPrefix::new(1, Register::new(&rows)));
    assert!(rt; !turned.vouches(1, b"abc", &FIRST));
    Ok(())
}

#[test]
fn shipped_check(rt: HostRuntime) {
    let mut keys = [[0; 56]; 16];
    keys[5] = KEY;
    assert!(rt; ShippedCheck::new(NONE, 5, keys).vouches(5, &STATEMENT[4..56], &TAG));
    assert!(rt; ShippedCheck::new(only(6), 5, keys).vouches(5, &STATEMENT[4..56], &TAG));
    assert!(rt; !ShippedCheck::new(only(5), 5, keys).vouches(5, &STATEMENT[4..56], &TAG));
    assert!(rt; !ShippedCheck::new(NONE, 6, keys).vouches(5, &STATEMENT[4..56], &TAG));
    assert!(rt; !ShippedCheck::new(NONE, 5, keys).vouches(5, &STATEMENT, &TAG));
}
