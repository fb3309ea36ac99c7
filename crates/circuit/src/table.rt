// The sixteen tables of two bits, and what they make of two bits.
ghost use Rattle.std.specs.Prelude.{◌≡◌, codes};
ghost use Rattle.circuit.specs.Gate.{output, ones_of, Named, TablesSay};

pub const NEVER: u32 = 0;

pub const NOR: u32 = 1;

pub const FIRST_ONLY: u32 = 2;

pub const NOT_SECOND: u32 = 3;

pub const SECOND_ONLY: u32 = 4;

pub const NOT_FIRST: u32 = 5;

pub const XOR: u32 = 6;

pub const NAND: u32 = 7;

pub const AND: u32 = 8;

pub const XNOR: u32 = 9;

pub const FIRST: u32 = 10;

pub const FIRST_OR_NOT_SECOND: u32 = 11;

pub const SECOND: u32 = 12;

pub const SECOND_OR_NOT_FIRST: u32 = 13;

pub const OR: u32 = 14;

pub const ALWAYS: u32 = 15;

// What a table makes of two bits: bit 0 for both 0, 1 for the first alone, 2 for the second alone, 3 for both.
pub fn output(table: u32, a: bool, b: bool) -> bool
    ensures { result ≡ output table a b }
{
    let place = u32::from(a) + 2 * u32::from(b);
    (table >> place) & 1 == 1
}

// For how many of the four pairs of bits a table's output is 1.
pub fn ones(table: u32) -> u32
    ensures { result ≡ ones_of table }
{
    (table & 15).count_ones()
}

// Each of the sixteen tables does what its name says, and each constant is the table of its name.
pub fn tables_say() -> u8
    ensures each { TablesSay }
    ensures constants { Named NEVER (codes "never") × Named NOR (codes "nor") × Named FIRST_ONLY (codes "first-only")
        × Named NOT_SECOND (codes "not-second") × Named SECOND_ONLY (codes "second-only")
        × Named NOT_FIRST (codes "not-first") × Named XOR (codes "xor") × Named NAND (codes "nand")
        × Named AND (codes "and") × Named XNOR (codes "xnor") × Named FIRST (codes "first")
        × Named FIRST_OR_NOT_SECOND (codes "first-or-not-second") × Named SECOND (codes "second")
        × Named SECOND_OR_NOT_FIRST (codes "second-or-not-first") × Named OR (codes "or")
        × Named ALWAYS (codes "always") }
{
    0
}
