// The figures of a circuit's slacks.
ghost use Rattle.std.specs.Prelude.{◌≡◌, ◌+◌, ◌*◌, ◌<◌, ◌≤◌, length, slice_index_or, pos};
ghost use Rattle.circuit.specs.Checked.{of, registers_of};
ghost use Rattle.promise.specs.Machine.{machine_in};
ghost use Rattle.worst_paths.specs.Figures.{violations, total_negative, AreFigures};
ghost use Rattle.worst_paths.specs.Tally.{place_of, HasSlacks};

use arrival::Edge;
use circuit::{Circuit, MOST_REGISTERS};
use slack::Worst;

// As many slacks as a circuit can have, of both kinds.
const MOST_SLACKS: usize = 2 * MOST_REGISTERS;

/// How a circuit's registers stand in one kind of slack.
#[derive(Clone, Copy, PartialEq)]
pub struct Figures {
    /// How many registers have a slack below 0.
    pub violations: usize,
    /// The smallest slack, in picoseconds, and the first register that has it.
    pub worst: Worst,
    /// The sum of the slacks below 0, in picoseconds.
    pub total_negative: i64,
}

// The slack of a register, among those of all registers.
fn slack_in(slacks: &[i64], edge: Edge, r: usize) -> i64
    requires { 2 * r + 1 < length slacks.now }
    ensures { result ≡ slice_index_or slacks.now (place_of edge r) (pos 0) }
{
    match edge {
        Edge::Late => slacks[2 * r],
        Edge::Early => slacks[2 * r + 1],
    }
}

// How many slacks are below 0, and their sum.
fn negatives(circuit: Circuit<'_>, edge: Edge, slacks: &[i64]) -> (usize, i64)
    requires all { 2 * registers_of circuit ≤ length slacks.now }
    requires slacks { HasSlacks edge (of circuit machine_in) (registers_of circuit) slacks.now }
    ensures violations { result.0 ≡ violations edge (of circuit.entry machine_in) (registers_of circuit.entry) }
    ensures total { result.1 ≡ total_negative edge (of circuit.entry machine_in) (registers_of circuit.entry) }
{
    let mut violations = 0;
    let mut total = 0;
    for r in 0..circuit.register_count() {
        let slack = slack_in(slacks, edge, r);
        if slack < 0 {
            violations += 1;
            total += slack;
        }
    }
    (violations, total)
}

/// How many registers have a slack below 0, the smallest slack, and the sum of those below 0: of setup slacks, which
/// belong to the latest times, or of hold slacks, which belong to the earliest.
pub fn figures_of(circuit: Circuit<'_>, edge: Edge) -> Figures
    ensures { AreFigures edge (of circuit.entry machine_in) result }
{
    // There is room for any circuit's.
    let mut slacks = [0; MOST_SLACKS];
    let Ok(smallest) = slack::margins(circuit, &mut slacks) else {
        unreachable!()
    };
    let (violations, total_negative) = negatives(circuit, edge, &slacks);
    Figures {
        violations,
        worst: match edge {
            Edge::Late => smallest.setup,
            Edge::Early => smallest.hold,
        },
        total_negative,
    }
}
