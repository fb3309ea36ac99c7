// Arrival times and paths of the example circuits.
use arrival::{Arrivals, Edge, fill_from_registers};
use circuit::{Circuit, Numbers, Refusal};
use path::path;
use std::test::Fail;

pub(crate) const ONE: [u32; 3] = [1, 0, 2];

pub(crate) const TWO: [u32; 6] = [2, 0, 2, 3, 0, 2];

pub(crate) const TIMES: [u32; 5] = [18, 2, 4, 3, 1];

pub(crate) const INVERTER: [u32; 7] = [0, 0, 1, 3, 8, 3, 8];

pub(crate) const COUNTER: [u32; 14] = [0, 0, 1, 3, 8, 3, 8, 0, 1, 6, 4, 9, 2, 7];

// The circuit of these numbers.
pub(crate) fn checked<'a>(
    gates: &'a [u32],
    registers: &'a [u32],
    times: &'a [u32],
) -> Result<Circuit<'a>, Refusal> {
    Circuit::try_from(Numbers {
        gates,
        registers,
        times,
    })
}

// The counter's second gate has its latest time by its first input.
#[test]
fn counter(rt: HostRuntime) -> Result<(), Fail> {
    let c = checked(&COUNTER, &TWO, &TIMES)?;
    let (mut last, mut first) = ([0; 4], [0; 4]);
    fill_from_registers(c, &mut last, &mut first)?;
    assert!(rt; last == [6, 6, 14, 15] && first == [2, 2, 5, 4]);
    let mut room = [9; 4];
    let n = path(Arrivals::new(c, &last, &first), Edge::Late, 3, &mut room)?;
    assert!(rt; n == 3 && room == [0, 3, 0, 9]);
    Ok(())
}

// Room that is one too short is refused with nothing written.
#[test]
fn short_room(rt: HostRuntime) -> Result<(), Fail> {
    let c = checked(&COUNTER, &TWO, &TIMES)?;
    let (mut last, mut first) = ([7; 4], [7; 3]);
    let short = fill_from_registers(c, &mut last, &mut first);
    assert!(rt; short == Err(Refusal::NoRoom(4)) && last == [7; 4] && first == [7; 3]);
    Ok(())
}
