// The paths of a circuit's registers, told step by step.
#![tactic(auto)]

use arrival::{Arrivals, Edge, MOST_SIGNALS, fill_from_registers};
use circuit::{Circuit, Register};
use signoff::{LONGEST_PATH, Verdict};
use std::fmt;

mod shown;
pub mod steps;
mod wording;
mod worst;

pub use worst::{put_steps, put_worst};

// A register, and the sum that is looked at: the one of its latest or of its earliest time.
#[derive(Clone, Copy, PartialEq)]
struct Endpoint {
    edge: Edge,
    register: usize,
}

// The register that the word on a circuit names.
fn named(circuit: Circuit<'_>, room: &mut [u32; LONGEST_PATH]) -> Option<Endpoint> {
    let (edge, miss) = match signoff::verdict_on(circuit, room) {
        Verdict::TooLate(miss) => (Edge::Late, miss),
        Verdict::TooEarly(miss) => (Edge::Early, miss),
        Verdict::Passed => return None,
    };
    let register = miss.register;
    Some(Endpoint { edge, register })
}

// The table of a register's path.
fn put_table(
    out: &mut String,
    a: Arrivals<'_, '_>,
    endpoint: Endpoint,
    room: &mut [u32; LONGEST_PATH],
) -> fmt::Result {
    let Endpoint { edge, register } = endpoint;
    let Some(ends) = slack::ends(a, edge, register) else {
        return Ok(());
    };
    let row = Register::from(a.circuit.registers()[register]);
    let Ok(length) = path::path(a, edge, row.signal as usize, room) else {
        unreachable!()
    };
    wording::put_head(out, a.circuit, edge, register, row)?;
    wording::put_path(out, a, edge, &room[..length])?;
    wording::put_ends(out, ends)?;
    Ok(())
}

// Tables of a circuit's paths: of the register that its word names, if it names one; then on the register with the smallest setup
// margin and on that with the smallest hold margin, unless it is the one named.
pub fn put(out: &mut String, circuit: Circuit<'_>) -> fmt::Result {
    let mut latest = [0; MOST_SIGNALS];
    let mut earliest = [0; MOST_SIGNALS];
    let Ok(()) = fill_from_registers(circuit, &mut latest, &mut earliest) else {
        unreachable!()
    };
    let a = Arrivals::new(circuit, &latest, &earliest);
    let mut room = [0; LONGEST_PATH];
    let named = named(circuit, &mut room);
    if let Some(endpoint) = named {
        put_table(out, a, endpoint, &mut room)?;
    }
    let smallest = slack::smallest(circuit);
    let setup = Endpoint {
        edge: Edge::Late,
        register: smallest.setup.register,
    };
    let hold = Endpoint {
        edge: Edge::Early,
        register: smallest.hold.register,
    };
    for endpoint in [setup, hold] {
        if named != Some(endpoint) {
            put_table(out, a, endpoint, &mut room)?;
        }
    }
    Ok(())
}
