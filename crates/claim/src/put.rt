// Claims, written.
ghost use Rattle.std.specs.Prelude.{◌≡◌, ◌++◌, map, true, OnOk};
ghost use Rattle.std.specs.Fmt.{signed_decimal};
ghost use Rattle.std.specs.String.{string_bytes};
ghost use Rattle.writing.specs.Written.{ended};
ghost use Rattle.claim.specs.Claims.{word_of, numbers_of, four, claim_line, claim_fits};

use crate::kinds::Claim;
use crate::word::Word;
use std::alloc::AllocError;
use std::fmt::Write;

// Numbers, each behind a space, and the end of their line, behind the text.
fn put_numbers(text: &mut String, numbers: &[i64]) -> Result<(), AllocError>
    ensures { OnOk result (string_bytes text.new ≡ string_bytes text.old ++ ended (map signed_decimal numbers.now)) }
{
    for number in numbers {
        write!(text, " {number}")?;
    }
    text.push_str("\n")
}

impl Claim {
    // Its line, behind the text. Its numbers fit, as those of every claim that is held.
    pub fn put(self, text: &mut String) -> Result<(), AllocError>
        ensures put { OnOk result (string_bytes text.new ≡ string_bytes text.old ++ claim_line self) }
        ensures fits { claim_fits self ≡ true }
    {
        let word = self.word();
        text.push_str(word.text())?;
        put_numbers(text, &self.numbers()[..word.count()])
    }

    // The word by which it begins.
    fn word(self) -> Word
        ensures { result ≡ word_of self }
    {
        match self {
            Claim::Passed => Word::Passed,
            Claim::TooLate(_) => Word::TooLate,
            Claim::TooEarly(_) => Word::TooEarly,
            Claim::From(_) => Word::From,
            Claim::Through { .. } => Word::Through,
            Claim::Margins { .. } => Word::Margins,
            Claim::Smallest { .. } => Word::Smallest,
            Claim::Period(_) => Word::Period,
        }
    }

    // Its numbers in order, and zeros behind them.
    fn numbers(self) -> [i64; 4]
        ensures four { result ≡ four (numbers_of self) }
        ensures fits { claim_fits self ≡ true }
    {
        match self {
            Claim::Passed => [0; 4],
            Claim::TooLate(s) => [s.register, s.arrival, s.limit, 0],
            Claim::TooEarly(s) => [s.register, s.arrival, s.limit, 0],
            Claim::From(signal) => [signal, 0, 0, 0],
            Claim::Through { signal, input } => [signal, input, 0, 0],
            Claim::Margins { setup, hold } => [setup, hold, 0, 0],
            Claim::Smallest { setup, hold } => [
                setup.register,
                setup.margin,
                hold.register,
                hold.margin,
            ],
            Claim::Period(picoseconds) => [picoseconds, 0, 0, 0],
        }
    }
}
