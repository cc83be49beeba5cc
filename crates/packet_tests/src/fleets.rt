// Fleets, views, tag limits and fixes.
use std::test::Fail;
use values::{Fix, Fleet, Refusal, TagLimit, Value, View};

#[test]
fn quorums(rt: HostRuntime) -> Result<(), Fail> {
    let four = Fleet::new(1, 0)?;
    assert!(rt; four.n() == 4 && four.fast_quorum() == 4);
    assert!(rt; four.recovery_quorum() == 3 && four.progress_quorum() == 3);
    let six = Fleet::new(1, 1)?;
    assert!(rt; six.n() == 6 && six.fast_quorum() == 5);
    assert!(rt; six.recovery_quorum() == 4 && six.progress_quorum() == 5);
    assert!(rt; Fleet::new(3, 3)?.n() == 16 && Fleet::new(5, 0)?.n() == 16);
    Ok(())
}

#[test]
fn no_other_fleets(rt: HostRuntime) -> Result<(), Fail> {
    let refused = [
        (0, 0),
        (1, 2),
        (2, 3),
        (4, 2),
        (5, 1),
        (6, 0),
        (4294967295, 4294967295),
    ];
    for (f, t) in refused {
        let refusal = Fleet::new(f, t).err().ok_or("a fleet")?;
        assert!(rt; refusal.number() == 1 && refusal.place().is_none());
    }
    Ok(())
}

#[test]
fn leaders_take_turns(rt: HostRuntime) -> Result<(), Fail> {
    let four = Fleet::new(1, 0)?;
    assert!(rt; View::new(0).is_none());
    let leads = [(1, 0), (2, 1), (4, 3), (5, 0), (4294967295, 2)];
    for (number, site) in leads {
        let view = View::new(number).ok_or("no view")?;
        assert_eq!(rt; four.leader(view), site);
    }
    Ok(())
}

#[test]
fn tag_limits(rt: HostRuntime) -> Result<(), Fail> {
    for bytes in [4, 8, 1292, 2048] {
        assert_eq!(rt; TagLimit::new(bytes)?.bytes(), bytes);
    }
    for bytes in [0, 2, 6, 2046, 2052] {
        let refusal = TagLimit::new(bytes).err().ok_or("a limit")?;
        assert_eq!(rt; refusal.number(), 1);
    }
    Ok(())
}

// The words that a fix writes.
pub fn value(track: u32, longitude: i32, latitude: i32) -> Value {
    Value::from(Fix {
        track,
        longitude,
        latitude,
    })
}

#[test]
fn legal_fixes(rt: HostRuntime) {
    let ends = [
        (1, 108000000, 54000000),
        (999, -108000000, -54000000),
        (7, 600000, 30000000),
    ];
    for (track, longitude, latitude) in ends {
        assert!(rt; value(track, longitude, latitude).test(16).is_ok());
    }
    let beyond = [
        (0, 0, 0),
        (1000, 0, 0),
        (7, 108000001, 0),
        (7, -108000001, 0),
        (7, 0, 54000001),
        (7, 0, -54000001),
    ];
    for (track, longitude, latitude) in beyond {
        let tested = value(track, longitude, latitude).test(16);
        assert_eq!(rt; tested, Err(Refusal::IllegalFix { place: 16 }));
    }
}

#[test]
fn words_of_a_fix(rt: HostRuntime) {
    let words = Value {
        first: 7,
        second: 0xffff_ffff,
        third: 0x8000_0000,
    };
    assert_eq!(rt; value(7, -1, -2147483648), words);
    let fix = Fix::from(words);
    assert!(rt; fix.longitude == -1 && fix.latitude == -2147483648);
}
