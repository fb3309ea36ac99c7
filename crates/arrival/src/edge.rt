// Which of the two arrival times is meant.
ghost use Rattle.std.specs.Prelude.{◌≡◌, ◌+◌, ◌-◌, ◌^◌, ◌<◌, true, false, length, slice_index};
ghost use Rattle.arrival.specs.Arrival.{delay, gate_time};

use circuit::Gate;

#[derive(Clone, Copy, PartialEq)]
pub enum Edge {
    // The latest: from when on a signal is sure.
    Late,
    // The earliest: until when it still is what it was.
    Early,
}

impl Edge {
    // The bounds of a gate's two delays that count: the greatest for latest times, the least for earliest.
    pub fn delays(self, gate: Gate) -> (u32, u32)
        ensures one { result.0 ≡ delay self false gate }
        ensures two { result.1 ≡ delay self true gate }
    {
        match self {
            Edge::Late => (gate.greatest_one, gate.greatest_two),
            Edge::Early => (gate.least_one, gate.least_two),
        }
    }

    // The time of a gate, from the times of the signals before it.
    pub(crate) fn time(self, gate: Gate, times: &[u64]) -> u64
        requires one { gate.one < length times.now }
        requires two { gate.two < length times.now }
        requires fits { (slice_index times.now gate.one < 2 ^ 64 - 2 ^ 32) × (slice_index times.now gate.two < 2 ^ 64 - 2 ^ 32) }
        ensures { result ≡ gate_time self 0 gate (slice_index times.now gate.one) (slice_index times.now gate.two) }
    {
        let (first, second) = self.delays(gate);
        let one = times[gate.one as usize] + u64::from(first);
        let two = times[gate.two as usize] + u64::from(second);
        match self {
            Edge::Late => one.max(two),
            Edge::Early => one.min(two),
        }
    }
}
