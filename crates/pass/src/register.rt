// What is printed of one register.
use answer::Title;
use circuit::Circuit;
use cone::{Endpoint, RegisterReport, Word, register_report};
use signoff::LONGEST_PATH;
use std::fmt;
use std::fmt::Write;

// The number of the refusal of a register that a circuit does not have.
const NO_REGISTER: u32 = 13;

fn words(word: Word) -> &'static str {
    match word {
        Word::Met => "met",
        Word::TooLate => "too late",
        Word::TooEarly => "too early",
    }
}

// The gates of a path, which is its source, and then of each gate its signal and the input by which it comes in.
fn put_gates(out: &mut String, length: usize, room: &[u32]) -> fmt::Result {
    for i in (1..length).step_by(2) {
        let Some(gate) = room.get(i) else {
            break;
        };
        write!(out, ", {gate}")?;
    }
    Ok(())
}

// One of a register's two sums: what it is called, both numbers, and the signals of the path.
fn put_sum(out: &mut String, sum: &str, endpoint: Endpoint, room: &[u32]) -> fmt::Result {
    let source = room.first().copied().unwrap_or(0);
    let (arrival, limit) = (endpoint.arrival, endpoint.limit);
    write!(out, "  {sum} {arrival} and {limit} by {source}")?;
    put_gates(out, endpoint.path, room)?;
    Ok(out.push_str("\n")?)
}

// A register's word and margins, and a line for each sum.
fn put_found(
    out: &mut String,
    register: usize,
    report: RegisterReport,
    rooms: (&[u32], &[u32]),
) -> fmt::Result {
    let RegisterReport { word, setup, hold } = report;
    writeln!(
        out,
        "register {register} {}, margin {} and {}",
        words(word),
        setup.margin,
        hold.margin
    )?;
    put_sum(out, "setup", setup, rooms.0)?;
    put_sum(out, "hold", hold, rooms.1)
}

// Puts what is found of one register of a circuit behind `out`; answers whether it meets its times. Not inlined, so that
// room for its paths is on the stack only where it is asked for.
#[inline(never)]
pub(crate) fn put_register(
    out: &mut String,
    name: &[u8],
    circuit: Circuit<'_>,
    register: usize,
) -> Result<bool, fmt::Error> {
    let mut setup = [0; LONGEST_PATH];
    let mut hold = [0; LONGEST_PATH];
    write!(out, "{}", Title(name))?;
    match register_report(circuit, register, &mut setup, &mut hold) {
        Ok(report) => {
            put_found(out, register, report, (&setup, &hold))?;
            Ok(report.word == Word::Met)
        }
        Err(e) => {
            writeln!(out, "turned away by {NO_REGISTER} at {register}: {e}")?;
            Ok(false)
        }
    }
}
