// The smallest setup margin as a part of the period.
ghost use Rattle.std.specs.Prelude.{◌^◌, ◌<◌};
ghost use Rattle.circuit.specs.Checked.{of};
ghost use Rattle.promise.specs.Machine.{machine_in};
ghost use Rattle.near.specs.Ratio.{size_of, IsRatio, IsSetupRatio};

use circuit::Circuit;
use slack::smallest;
use std::num::nearest_i64_to_f64;

// The number nearest to a margin divided by a period. Both are few enough bits for a number to hold them, so that only
// the division rounds.
fn ratio(margin: i64, period: u32) -> f64
    requires small { size_of margin < 2 ^ 35 }
    requires some { 0 < period }
    ensures { IsRatio margin period result }
{
    nearest_i64_to_f64(margin) / period as f64
}

/// The smallest setup margin of a circuit's registers divided by its period, rounded once to the nearest number, ties
/// to even; below 0 where time is missing, and `None` where the period is 0.
pub fn setup_ratio(circuit: Circuit<'_>) -> Option<f64>
    ensures { IsSetupRatio (of circuit.entry machine_in) result }
{
    let period = circuit.period();
    if period == 0 {
        return None;
    }
    Some(ratio(smallest(circuit).setup.margin, period))
}
