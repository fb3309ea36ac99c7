// Reports, read.
ghost use Rattle.std.specs.Prelude.{◌≡◌, [], vec_items};
ghost use Rattle.lines.specs.Words.{words, lines};
ghost use Rattle.report.specs.Meaning.{said, claims_from, first_report};
ghost use Rattle.report.specs.Read.{added, WasAdded, WereRead, IsRead};
ghost use Rattle.text.specs.Meaning.{drafted};

use claim::Claim;
use fields::{Expected, Fault};
use lines::Lines;
use std::alloc::Global;
use text::Draft;

// A report that was read, with the lines after it.
#[derive(Drop)]
pub struct Report<'a> {
    pub draft: Draft,
    pub claims: Vec<Claim>,
    pub rest: Lines<'a>,
}

// What a line says behind a circuit.
#[derive(Clone, Copy)]
enum Said {
    Nothing,
    Claim(Claim),
    End,
}

impl Said {
    // What a line says that has no comment.
    fn of(line: &[u8]) -> Result<Said, Expected>
        ensures { result ≡ said (words line.now) }
    {
        let Some((word, rest)) = lines::word(line) else {
            return Ok(Said::Nothing);
        };
        if !lines::same(word, b"end") {
            return Ok(Said::Claim(Claim::read(line)?));
        }
        match lines::word(rest) {
            None => Ok(Said::End),
            Some(_) => Err(Expected::Nothing),
        }
    }
}

// The claim of a line that has no comment, behind the others. Answers whether the line ends them.
fn add(claims: &mut Vec<Claim>, line: &[u8]) -> Result<bool, Expected>
    ensures { WasAdded (added (said (words line.now)) (vec_items claims.old)) (vec_items claims.new) result }
{
    match Said::of(line)? {
        Said::Nothing => Ok(false),
        Said::Claim(claim) => {
            let Ok(()) = claims.push(claim) else {
                return Err(Expected::Memory);
            };
            Ok(false)
        }
        Said::End => Ok(true),
    }
}

// The claims up to the report's end.
fn claims<'a>(heap: Global, draft: Draft, mut rest: Lines<'a>) -> Result<Report<'a>, Fault>
    ensures { WereRead (claims_from rest.entry.number [] (lines rest.entry.text.now)) (drafted draft) rest.entry.text.now result }
{
    let mut claims = Vec::new(heap);
    while let Some((line, text)) = rest.next() {
        let ends = match add(&mut claims, lines::bare(text)) {
            Ok(ends) => ends,
            Err(expected) => return Err(Fault { line, expected }),
        };
        if ends {
            return Ok(Report {
                draft,
                claims,
                rest,
            });
        }
    }
    Err(Fault {
        line: rest.number,
        expected: Expected::ReportEnd,
    })
}

// The first report of a text, None where there is no circuit any more; lines are counted from 1.
pub fn read<'a>(heap: Global, text: &'a [u8]) -> Result<Option<Report<'a>>, Fault>
    ensures { IsRead (first_report 1 (lines text.now)) text.now result }
{
    let Some(text::Read { draft, rest }) = text::read(heap, text)? else {
        return Ok(None);
    };
    Ok(Some(claims(heap, draft, rest)?))
}
