// The shortest period of a circuit, and frequencies.
ghost use Rattle.std.specs.Prelude.{◌≡◌, ◌/◌, IfSome, IsNone, ◌↔◌};
ghost use Rattle.circuit.specs.Checked.{of};
ghost use Rattle.promise.specs.Machine.{machine_in};
ghost use Rattle.slack.specs.Period.{IsShortest, PassedFrom, IsFrequency};

use crate::margin::smallest;
use circuit::Circuit;

// In picoseconds, a thousandth of a second: the period of a thousandth of a MHz.
const MILLISECOND: u64 = 1_000_000_000;

// The smallest period with which no register's input comes too late. It may be longer than a circuit's own can be.
pub fn shortest_period(circuit: Circuit<'_>) -> u64
    ensures shortest { IsShortest (of circuit.entry machine_in) result }
    ensures passed { PassedFrom (of circuit.entry machine_in) result }
{
    // A setup margin changes by as much as the period does.
    let shortest = i64::from(circuit.period()) - smallest(circuit).setup.margin;
    shortest.max(0) as u64
}

// The frequency of a period in picoseconds, in thousandths of MHz and rounded down; none of a period of 0.
pub fn frequency(period: u64) -> Option<u64>
    ensures none { IsNone result ↔ (period ≡ 0) }
    ensures quotient { IfSome result (λ f. f ≡ MILLISECOND / period) }
    ensures rounded_down { IfSome result (IsFrequency period) }
{
    MILLISECOND.checked_div(period)
}
