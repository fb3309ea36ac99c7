// Margins and shortest periods of the example circuits.
use crate::arrival_trials::{COUNTER, INVERTER, ONE, TIMES, TWO, checked};
use circuit::Refusal;
use slack::{frequency, margins, shortest_period, smallest};
use std::test::Fail;

// The second register of the counter is the worst of both kinds.
#[test]
fn passed(rt: HostRuntime) -> Result<(), Fail> {
    let c = checked(&COUNTER, &TWO, &TIMES)?;
    let mut room = [9; 5];
    let least = margins(c, &mut room)?;
    assert!(rt; room == [1, 1, 0, 0, 9]);
    assert!(rt; least.setup.register == 1 && least.setup.margin == 0);
    assert!(rt; least.hold.register == 1 && least.hold.margin == 0);
    assert!(rt; shortest_period(c) == 18);
    Ok(())
}

// Below 0 a margin is just what is missing. The shortest period is the same, whatever the period is.
#[test]
fn missing(rt: HostRuntime) -> Result<(), Fail> {
    let times = [16, 2, 4, 3, 1];
    let c = checked(&INVERTER, &ONE, &times)?;
    let least = smallest(c);
    assert!(rt; least.setup.margin == -1 && least.hold.margin == 1);
    assert!(rt; shortest_period(c) == 17);
    Ok(())
}

// Room that is one too short is refused with nothing written.
#[test]
fn short_room(rt: HostRuntime) -> Result<(), Fail> {
    let c = checked(&COUNTER, &TWO, &TIMES)?;
    let mut room = [9; 3];
    assert!(rt; margins(c, &mut room).is_err_and(|e| e == Refusal::NoRoom(4)));
    assert!(rt; room == [9; 3]);
    Ok(())
}

// In thousandths of MHz, rounded down.
#[test]
fn frequencies(rt: HostRuntime) {
    assert!(rt; frequency(17_000) == Some(58_823));
    assert!(rt; frequency(1_000_000_001) == Some(0));
    assert!(rt; frequency(0).is_none());
}
