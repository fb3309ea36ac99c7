// Whole numbers, which may have a sign, as the words of a line.
ghost use Rattle.std.specs.Prelude.{◌≡◌, ◌≤◌, length, Ok, Err, MatchResult};
ghost use Rattle.lines.specs.Words.{words};
ghost use Rattle.claim.specs.Claims.{made, four};
ghost use Rattle.claim.specs.Numbers.{integer, integers};

use fields::Expected;
use lines::Words;

// The number that a word is.
fn integer(word: &[u8]) -> Result<i64, Expected>
    ensures { result ≡ integer word.now }
{
    let Ok(text) = str::from_utf8(word) else {
        return Err(Expected::Whole);
    };
    text.parse::<i64>().map_err(|_| Expected::Whole)
}

// The numbers of a line that has just as many as there is room for.
fn fill(line: &[u8], numbers: &mut [i64]) -> Result<(), Expected>
    ensures { MatchResult result (λ _. integers (length numbers.old) (words line.now) ≡ Ok numbers.new) (λ e. integers (length numbers.old) (words line.now) ≡ Err e) }
{
    let count = numbers.len();
    let mut words = Words::new(line);
    for number in numbers {
        let Some(word) = words.next() else {
            return Err(Expected::Numbers(count));
        };
        *number = integer(word)?;
    }
    match words.next() {
        None => Ok(()),
        Some(_) => Err(Expected::Numbers(count)),
    }
}

// The numbers of a line that has just so many, and zeros behind them.
pub(crate) fn up_to_four(line: &[u8], count: usize) -> Result<[i64; 4], Expected>
    requires { count ≤ 4 }
    ensures { result ≡ made four (integers count (words line.now)) }
{
    let mut numbers = [0; 4];
    fill(line, &mut numbers[..count])?;
    Ok(numbers)
}
