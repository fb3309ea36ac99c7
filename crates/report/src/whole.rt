// The report on a circuit, with all that is found of it.
ghost use Rattle.report.specs.OfCircuit.{ReportAnswer};

use crate::put::text_of;
use circuit::Circuit;
use std::alloc::Global;
use writing::Unwritten;

// The report on a circuit: its text under a name, and the claims that follow from it. A name that could not be read again
// is turned away.
pub fn write(heap: Global, name: &[u8], circuit: Circuit<'_>) -> Result<String, Unwritten>
    ensures { ReportAnswer name.now circuit.entry result }
{
    let claims = findings::findings(heap, circuit)?;
    text_of(heap, name, circuit, &claims)
}
