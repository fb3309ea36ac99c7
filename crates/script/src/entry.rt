// A statement of what is told.
ghost use Rattle.std.specs.Prelude.{◌≡◌};
ghost use Rattle.script.specs.Entries.{bit_said};

// On line `line`, counted from 0: from moment `when` on, or in cycle `when`, gate or register `who` has one value or two.
// One form for all kinds, whatever they use of it: any kind may be pushed, and order, search and first line are said once.
#[derive(Clone, Copy)]
pub struct Entry {
    pub line: usize,
    pub when: u32,
    pub who: u32,
    pub one: u32,
    pub two: u32,
}

impl Entry {
    // The bit that it has for a value: 1 is the bit 1.
    pub fn bit(self) -> bool
        ensures { result ≡ bit_said self }
    {
        self.one == 1
    }
}
