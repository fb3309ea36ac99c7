// Registers by their numbers.
ghost use Rattle.std.specs.Prelude.{◌≡◌};
ghost use Rattle.circuit.specs.Lent.{register_of};

// A register: the signal that it takes, and the earliest and the latest that its clock comes in a cycle.
#[derive(Clone, Copy)]
pub struct Register {
    pub signal: u32,
    pub early: u32,
    pub late: u32,
}

impl From<[u32; 3]> for Register {
    ghost from_gives = { λ numbers register. register ≡ register_of numbers };

    fn from(numbers: [u32; 3]) -> Register {
        let [signal, early, late] = numbers;
        Register {
            signal,
            early,
            late,
        }
    }
}
