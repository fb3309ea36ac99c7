// Gates by their numbers.
ghost use Rattle.std.specs.Prelude.{◌≡◌};
ghost use Rattle.circuit.specs.Lent.{gate_of};

// A gate: the signals at its two inputs, its table, and for each input a least and a greatest delay.
#[derive(Clone, Copy)]
pub struct Gate {
    pub one: u32,
    pub two: u32,
    pub table: u32,
    pub least_one: u32,
    pub greatest_one: u32,
    pub least_two: u32,
    pub greatest_two: u32,
}

impl From<[u32; 7]> for Gate {
    ghost from_gives = { λ numbers gate. gate ≡ gate_of numbers };

    fn from(numbers: [u32; 7]) -> Gate {
        let [one, two, table, a, b, c, d] = numbers;
        Gate {
            one,
            two,
            table,
            least_one: a,
            greatest_one: b,
            least_two: c,
            greatest_two: d,
        }
    }
}
