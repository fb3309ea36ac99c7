// The drawing of a counter.
use crate::arrival_trials::{COUNTER, TIMES, TWO, checked};
use drawing::{cycle, cycles};
use std::test::Fail;

// Two registers count to four.
#[test]
fn counter(rt: HostRuntime) -> Result<(), Fail> {
    let c = checked(&COUNTER, &TWO, &TIMES)?;
    let mut bits = [false; 2];
    let mut signals = [false; 4];
    for n in 0..9u32 {
        assert!(rt; u32::from(bits[0]) + 2 * u32::from(bits[1]) == n % 4);
        cycle(c, &mut bits, &mut signals)?;
    }
    cycles(c, 3, &mut bits, &mut signals)?;
    assert!(rt; bits == [false; 2]);
    Ok(())
}

// All registers take at once: two that take each other's bits exchange them.
#[test]
fn exchange(rt: HostRuntime) -> Result<(), Fail> {
    let c = checked(&[], &[1, 0, 0, 0, 0, 0], &TIMES)?;
    let mut bits = [true, false];
    cycle(c, &mut bits, &mut [false; 2])?;
    assert!(rt; bits == [false, true]);
    Ok(())
}
