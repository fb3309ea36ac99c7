// A memory of bits.
ghost use Rattle.std.specs.Prelude.{◌*◌, ◌^◌, ◌≤◌, vec_len};

// For each of some rows its bits of the last `1 << log` moments, packed. No model: what is kept is a function of row and
// moment, and a model's value is data.
#[derive(Drop)]
pub struct History {
    pub(crate) words: Vec<u64>,
    pub(crate) rows: usize,
    pub(crate) log: u32,
    ghost short: { log ≤ 31 },
    ghost few: { rows ≤ 2 ^ 31 },
    ghost room: { rows * 2 ^ log ≤ 64 * vec_len words },
}
