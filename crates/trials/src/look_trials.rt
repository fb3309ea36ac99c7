// Circuits that are looked at.
use crate::arrival_trials::TIMES;
use circuit::{Refusal, look};

// A gate that stands before its input is turned away, and in the other order the two are taken.
#[test]
fn swapped_gates(rt: HostRuntime) {
    let swapped = [2, 2, 1, 3, 8, 3, 8, 0, 0, 1, 3, 8, 3, 8];
    let ordered = [0, 0, 1, 3, 8, 3, 8, 1, 1, 1, 3, 8, 3, 8];
    assert!(rt; look(&swapped, &[1, 0, 2], &TIMES) == Err(Refusal::BadGate(0)));
    assert!(rt; look(&ordered, &[2, 0, 2], &TIMES).is_ok());
}

// Of several reasons the first of the list is answered, with its number and place.
#[test]
fn order(rt: HostRuntime) {
    let times = [0, 2, 1, 0, 1_000_001];
    let all = look(&[9, 9, 16, 2, 1, 2, 1], &[9, 2, 1], &times);
    assert!(rt; all == Err(Refusal::TooLarge(14)));
    assert!(rt; all.is_err_and(|e| e.number() == 3 && e.place() == 14));
    let fewer = look(&[9, 9, 16, 2, 1, 2, 1], &[9, 2, 1], &TIMES);
    assert!(rt; fewer == Err(Refusal::BadGate(0)));
}
