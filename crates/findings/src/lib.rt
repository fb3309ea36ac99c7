// The claims of a report on a circuit: the word and its path, the margins, and the shortest period.
#![tactic(auto)]

ghost use Rattle.std.specs.Prelude.{◌≡◌, ℕ, ◌+◌, ◌*◌, ◌^◌, ◌<◌, ◌≤◌, ◌++◌, length, IfOk, pos, vec_items};
ghost use Rattle.circuit.specs.Checked.{of};
ghost use Rattle.promise.specs.Machine.{machine_in};
ghost use Rattle.signoff.specs.Verdict.{Says};
ghost use Rattle.slack.specs.Margin.{AreSmallest};
ghost use Rattle.slack.specs.Period.{IsShortest};
ghost use Rattle.findings.specs.Findings.{gate_claim, path_claims, SmallMiss, sums_of, SmallWord, word_claims, margin_claims, worst_of, smallest_of, AreFindings, FindingsAreOne};
ghost use Rattle.findings.specs.Fitting.{FindingsFit};

use circuit::{Circuit, MOST_REGISTERS};
use claim::{Claim, Sums, Worst};
use signoff::{LONGEST_PATH, Miss, Verdict};
use slack::Smallest;
use std::alloc::{AllocError, Global};

// As many margins as a circuit can have.
const MOST_MARGINS: usize = 2 * MOST_REGISTERS;

// The word on a circuit, with the path in the room that is lent.
fn word(circuit: Circuit<'_>, room: &mut [u32; LONGEST_PATH]) -> Verdict
    ensures says { of circuit.entry Says room.old room.new result }
    ensures small { SmallWord result }
{
    signoff::verdict_on(circuit, room)
}

// The two sums of a register that is named.
fn sums(miss: Miss) -> Sums
    requires { SmallMiss miss }
    ensures { result ≡ sums_of miss }
{
    Sums {
        register: miss.register as i64,
        arrival: miss.arrival as i64,
        limit: miss.limit as i64,
    }
}

// Gate `k` of the path that a room begins with. Inputs are counted from 0 there.
fn through(room: &[u32], k: usize) -> Claim
    requires { 2 * k + 2 < length room.now }
    ensures { result ≡ gate_claim room.now k }
{
    Claim::Through {
        signal: i64::from(room[2 * k + 1]),
        input: i64::from(room[2 * k + 2]) + 1,
    }
}

// A path through so many gates, in the room that begins with it.
fn put_path(claims: &mut Vec<Claim>, room: &[u32], gates: usize) -> Result<(), AllocError>
    requires { 2 * gates < length room.now }
    ensures { IfOk result (λ _. vec_items claims.new ≡ vec_items claims.old ++ path_claims gates room.now) }
{
    claims.push(Claim::From(i64::from(room[0])))?;
    for k in 0..gates {
        claims.push(through(room, k))?;
    }
    Ok(())
}

// The word, and where it is not passed the path in the room.
fn put_word(claims: &mut Vec<Claim>, verdict: Verdict, room: &[u32]) -> Result<(), AllocError>
    requires small { SmallWord verdict }
    requires room { LONGEST_PATH ≤ length room.now }
    ensures { IfOk result (λ _. vec_items claims.new ≡ vec_items claims.old ++ word_claims verdict room.now) }
{
    let (word, miss) = match verdict {
        Verdict::Passed => {
            claims.push(Claim::Passed)?;
            return Ok(());
        }
        Verdict::TooLate(miss) => (Claim::TooLate(sums(miss)), miss),
        Verdict::TooEarly(miss) => (Claim::TooEarly(sums(miss)), miss),
    };
    claims.push(word)?;
    put_path(claims, room, miss.path / 2)
}

// Both margins of every register.
fn put_margins(claims: &mut Vec<Claim>, circuit: Circuit<'_>) -> Result<(), AllocError>
    ensures { IfOk result (λ _. vec_items claims.new ≡ vec_items claims.old ++ margin_claims (of circuit.entry machine_in)) }
{
    let mut room = [0; MOST_MARGINS];
    let Ok(_) = slack::margins(circuit, &mut room) else {
        unreachable!()
    };
    for r in 0..circuit.register_count() {
        claims.push(Claim::Margins {
            setup: room[2 * r],
            hold: room[2 * r + 1],
        })?;
    }
    Ok(())
}

// The smallest margin of one kind.
fn worst(worst: slack::Worst) -> Worst
    requires { worst.register < 2 ^ 63 }
    ensures { result ≡ worst_of worst }
{
    Worst {
        register: worst.register as i64,
        margin: worst.margin,
    }
}

// The smallest margins of a circuit.
fn smallest(circuit: Circuit<'_>) -> Claim
    ensures { (s : Smallest) × AreSmallest (of circuit.entry machine_in) s × (result ≡ smallest_of s) }
{
    let smallest = slack::smallest(circuit);
    Claim::Smallest {
        setup: worst(smallest.setup),
        hold: worst(smallest.hold),
    }
}

// The shortest period of a circuit.
fn period(circuit: Circuit<'_>) -> Claim
    ensures { (p : ℕ) × IsShortest (of circuit.entry machine_in) p × (result ≡ Claim.Period (pos p)) }
{
    Claim::Period(slack::shortest_period(circuit) as i64)
}

// What is found of a circuit: its word, and where it is not passed the path by which that is so; the margins of every
// register, the smallest of each kind, and the shortest period.
pub fn findings(heap: Global, circuit: Circuit<'_>) -> Result<Vec<Claim>, AllocError>
    ensures { IfOk result (λ v. of circuit.entry AreFindings (vec_items v)) }
{
    let mut room = [0; LONGEST_PATH];
    let verdict = word(circuit, &mut room);
    let mut claims = Vec::new(heap);
    put_word(&mut claims, verdict, &room)?;
    put_margins(&mut claims, circuit)?;
    claims.push(smallest(circuit))?;
    claims.push(period(circuit))?;
    Ok(claims)
}

// The findings of a circuit are one list.
pub fn findings_are_one() -> u8
    ensures { FindingsAreOne }
{
    0
}

// Their numbers fit 64 bits with a sign.
pub fn findings_fit() -> u8
    ensures { FindingsFit }
{
    0
}
