// Reports, written.
ghost use Rattle.std.specs.Prelude.{◌≡◌, ◌++◌, true, OnOk, IfOk};
ghost use Rattle.std.specs.List.{list_all};
ghost use Rattle.std.specs.String.{string_bytes};
ghost use Rattle.claim.specs.Claims.{claim_fits};
ghost use Rattle.report.specs.Again.{IsReportedAgain};
ghost use Rattle.report.specs.Reported.{claims_text, IsReported};

use circuit::Circuit;
use claim::Claim;
use std::alloc::{AllocError, Global};
use writing::Unwritten;

// The lines of claims, and the end, behind the text. The claims' numbers fit, as those of every claim that is held.
fn put_claims(text: &mut String, claims: &[Claim]) -> Result<(), AllocError>
    ensures put { OnOk result (string_bytes text.new ≡ string_bytes text.old ++ claims_text claims.now) }
    ensures fit { OnOk result (list_all claim_fits claims.now ≡ true) }
{
    for claim in claims {
        claim.put(text)?;
    }
    text.push_str("end\n")
}

// The text of a report, which gives its name, its numbers and its claims when it is read again. A name that could not be
// read again is turned away.
#[tactic(auto, using(crate::proofs::AgainLaws::read_alone))]
pub fn text_of(
    heap: Global,
    name: &[u8],
    circuit: Circuit<'_>,
    claims: &[Claim],
) -> Result<String, Unwritten>
    ensures reported { IsReported name.now circuit.entry claims.now result }
    ensures again { IfOk result (λ text. IsReportedAgain name.now circuit.entry claims.now (string_bytes text)) }
{
    let mut text = writing::write(heap, name, circuit)?;
    put_claims(&mut text, claims)?;
    Ok(text)
}
