// Claims, read.
ghost use Rattle.std.specs.Prelude.{◌≡◌};
ghost use Rattle.lines.specs.Words.{words};
ghost use Rattle.claim.specs.Claims.{claim_of, claim_with, count_of, made, ClaimsAreRead};
ghost use Rattle.claim.specs.Numbers.{integers};

use crate::kinds::{Claim, Sums, Worst};
use crate::numbers::up_to_four;
use crate::word::Word;
use fields::Expected;

impl Word {
    // Its claim, of as many of these numbers as stand after it.
    fn claim(self, numbers: [i64; 4]) -> Claim
        ensures { result ≡ claim_with self numbers }
    {
        let [first, second, third, fourth] = numbers;
        let sums = Sums {
            register: first,
            arrival: second,
            limit: third,
        };
        match self {
            Word::Passed => Claim::Passed,
            Word::TooLate => Claim::TooLate(sums),
            Word::TooEarly => Claim::TooEarly(sums),
            Word::From => Claim::From(first),
            Word::Through => Claim::Through {
                signal: first,
                input: second,
            },
            Word::Margins => Claim::Margins {
                setup: first,
                hold: second,
            },
            Word::Smallest => Claim::Smallest {
                setup: Worst {
                    register: first,
                    margin: second,
                },
                hold: Worst {
                    register: third,
                    margin: fourth,
                },
            },
            Word::Period => Claim::Period(first),
        }
    }
}

// The claim of a word, and what its line has after it.
fn claim(word: Word, rest: &[u8]) -> Result<Claim, Expected>
    ensures { result ≡ made (claim_with word) (integers (count_of word) (words rest.now)) }
{
    Ok(word.claim(up_to_four(rest, word.count())?))
}

impl Claim {
    // The claim of a line that has no comment.
    #[tactic(auto, unfolding(crate::specs::Claims::claim_of))]
    pub fn read(line: &[u8]) -> Result<Claim, Expected>
        ensures { result ≡ claim_of (words line.now) }
    {
        let Some((word, rest)) = lines::word(line) else {
            return Err(Expected::Claim);
        };
        let Some(word) = Word::of(word) else {
            return Err(Expected::Claim);
        };
        claim(word, rest)
    }
}

// A claim is read as itself.
pub fn claims_are_read() -> u8
    ensures { ClaimsAreRead }
{
    0
}
