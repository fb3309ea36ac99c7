// Texts that are read and written: circuits and reports.
use crate::arrival_trials::{COUNTER, TIMES, TWO, checked};
use claim::{Claim, Sums};
use fields::Expected;
use std::alloc::Global;
use std::test::Fail;

const CIRCUIT: &[u8] = b"circuit counter\n\
    times 18 2 4 3 1\n\
    register 2 0 2\n\
    register 3 0 2\n\
    gate 0 0 nor 3 8 3 8\n\
    gate 0 1 xor 4 9 2 7\n\
    end\n";

// The counter in words.
#[test]
fn written(rt: HostRuntime) -> Result<(), Fail> {
    let circuit = checked(&COUNTER, &TWO, &TIMES)?;
    let text = writing::write(rt.alloc(), b"counter", circuit)?;
    assert!(rt; text.as_bytes() == CIRCUIT);
    Ok(())
}

// The counter's words, read.
#[test]
fn read(rt: HostRuntime) -> Result<(), Fail> {
    let read = text::read(rt.alloc(), CIRCUIT)?;
    assert!(rt;
        read.is_some_and(|it| it.draft.gates.as_slice() == COUNTER.as_slice()
            && it.rest.text.is_empty())
    );
    Ok(())
}

const CLAIMED: &[u8] = b"too-early 0 -3 9223372036854775807\nperiod 19\nend\n";

const CLAIMS: [Claim; 2] = [
    Claim::TooEarly(Sums {
        register: 0,
        arrival: -3,
        limit: i64::MAX,
    }),
    Claim::Period(19),
];

// Claims stand behind the circuit's own text.
#[test]
fn reported(rt: HostRuntime) -> Result<(), Fail> {
    let circuit = checked(&COUNTER, &TWO, &TIMES)?;
    let text = report::text_of(rt.alloc(), b"counter", circuit, &CLAIMS)?;
    assert!(rt; text.as_bytes().starts_with(CIRCUIT));
    assert!(rt; text.as_bytes().ends_with(CLAIMED));
    Ok(())
}

// And they are read again.
#[test]
fn reread(rt: HostRuntime) -> Result<(), Fail> {
    let mut text = Vec::from_slice(rt.alloc(), CIRCUIT)?;
    text.extend_from_slice(CLAIMED)?;
    let read = report::read(rt.alloc(), &text)?;
    assert!(rt; read.is_some_and(|it| it.claims.as_slice() == CLAIMS.as_slice()));
    Ok(())
}

// The line at which claims behind a circuit are no report, and what was expected there.
fn fault(heap: Global, claims: &[u8]) -> Result<Option<(usize, Expected)>, Fail> {
    let mut text = Vec::from_slice(heap, b"circuit\ntimes 1 0 0 0 0\nregister 0 0 0\nend\n")?;
    text.extend_from_slice(claims)?;
    Ok(
        report::read(heap, &text)
            .err()
            .map(|fault| (fault.line, fault.expected)),
    )
}

// Claims that do not end, that are none, and numbers that are too few and too large.
#[test]
fn claims_that_are_none(rt: HostRuntime) -> Result<(), Fail> {
    let heap = rt.alloc();
    assert!(rt; fault(heap, b"passed\n")? == Some((6, Expected::ReportEnd)));
    assert!(rt; fault(heap, b"Passed\nend")? == Some((5, Expected::Claim)));
    assert!(rt; fault(heap, b"period\nend")? == Some((5, Expected::Numbers(1))));
    assert!(rt; fault(heap, b"from 9223372036854775808\nend")? == Some((5, Expected::Whole)));
    Ok(())
}
