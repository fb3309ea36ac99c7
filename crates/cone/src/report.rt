// All that is found of one register.
ghost use Rattle.std.specs.Prelude.{◌≡◌, ◌*◌, ◌+◌, ◌<◌, ◌≤◌, length};
ghost use Rattle.circuit.specs.Checked.{of, gates_of, registers_of, signals_of};
ghost use Rattle.circuit.specs.Lent.{takes};
ghost use Rattle.cone.specs.Alone.{IsMarked, HasInputs, IsEndpoint, IsReport};

use crate::endpoint::{Endpoint, RegisterError, RegisterReport};
use crate::marks::mark_cone;
use crate::sums::{margin, signal_of, sums_of, word_of};
use crate::times::fill_marked;
use crate::walk::path_to;
use arrival::{Edge, MOST_SIGNALS};
use circuit::Circuit;
use signoff::LONGEST_PATH;

// What is found of a register for one of its sums, where the fan-in cone of its signal is marked.
fn endpoint_of(
    circuit: Circuit<'_>,
    edge: Edge,
    r: usize,
    marks: &[bool],
    room: &mut [u32],
) -> Endpoint
    requires register { r < registers_of circuit }
    requires marks { signals_of circuit ≤ length marks.now }
    requires cone { of circuit IsMarked (takes circuit.registers.now r) marks.now }
    requires inputs { of circuit HasInputs marks.now }
    requires room { 1 + 2 * gates_of circuit ≤ length room.old }
    ensures { of circuit.entry IsEndpoint edge r result room.old room.new }
{
    let mut times = [0; MOST_SIGNALS];
    fill_marked(circuit, edge, marks, &mut times);
    let signal = signal_of(circuit, r);
    let path = path_to(circuit, edge, signal, &times, room);
    let sums = sums_of(circuit, edge, r, times[signal]);
    Endpoint {
        arrival: sums.arrival,
        limit: sums.limit,
        margin: margin(edge, sums),
        path,
    }
}

/// All that is found of one register of a circuit, from the fan-in cone of the signal that it takes: no other gate is
/// looked at. The two rooms then begin with its paths, as `path::path` writes them, the latest and the earliest. A
/// register that the circuit does not have is refused, and the rooms are left as they were.
pub fn register_report(
    circuit: Circuit<'_>,
    register: usize,
    setup_room: &mut [u32; LONGEST_PATH],
    hold_room: &mut [u32; LONGEST_PATH],
) -> Result<RegisterReport, RegisterError>
    ensures { of circuit.entry IsReport register setup_room.old setup_room.new hold_room.old hold_room.new result }
{
    if register >= circuit.register_count() {
        return Err(RegisterError::NoRegister(register));
    }
    let mut marks = [false; MOST_SIGNALS];
    mark_cone(circuit, signal_of(circuit, register), &mut marks);
    let setup = endpoint_of(circuit, Edge::Late, register, &marks, setup_room);
    let hold = endpoint_of(circuit, Edge::Early, register, &marks, hold_room);
    let word = word_of(setup.margin, hold.margin);
    Ok(RegisterReport { word, setup, hold })
}
