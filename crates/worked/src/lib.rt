//! Worked examples as theorems, each the contract of a function; times are whole moments.
#![tactic(auto)]

ghost use Rattle.worked.specs.Rows.{RowsHave};
ghost use Rattle.worked.specs.Weaker.{WeakerTestsFail};

/// The numbers of each of the seven rows of the table are a circuit that has its word.
pub fn rows_have() -> u8
    ensures { RowsHave }
{
    0
}

/// Each of five weaker tests lets a circuit through that goes wrong: at most in place of below in the hold sum; a
/// clock late everywhere and early everywhere; one delay for each input of each gate, chosen once and kept; the
/// greatest of the inputs' earliest times; and the period less the late time in place of the right setup sum.
pub fn weaker_tests_fail() -> u8
    ensures { WeakerTestsFail }
{
    0
}
