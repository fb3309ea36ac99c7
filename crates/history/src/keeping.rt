// Bits put into a history, and looked up.
ghost use Rattle.std.specs.Prelude.{◌≡◌, ℕ, ◌+◌, ◌*◌, ◌/◌, ◌%◌, ◌^◌, ◌<◌, ◌≤◌, length, IfOk, vec_len, ◌≢◌};
ghost use Rattle.history.specs.Kept.{bit_in, place, kept, Put, Fresh};

use crate::history::History;
use std::alloc::{AllocError, Global};

const MOST: u64 = 0x8000_0000;

// Bit `i` of packed words. Shift and mask, here and in `put_bit`, are the plain form of that.
fn bit_at(words: &[u64], i: usize) -> bool
    requires { i / 64 < length words.now }
    ensures { result ≡ bit_in words.now i }
{
    (words[i / 64] >> (i % 64)) & 1 == 1
}

fn put_bit(words: &mut [u64], i: usize, bit: bool)
    requires { i / 64 < length words.old }
    ensures here { bit_in words.new i ≡ bit }
    ensures other { (j : ℕ) → (j ≢ i) → bit_in words.new j ≡ bit_in words.old j }
{
    let old = bit_at(words, i);
    words[i / 64] ^= u64::from(old != bit) << (i % 64);
}

// The smallest number of which two to its power is above `n`.
fn bits_of(n: u64) -> u32
    ensures low { n < 2 ^ 31 → result ≤ 31 }
    ensures above { n < 2 ^ result }
    ensures least { 2 ^ result ≤ 2 * n + 1 }
{
    u64::BITS - n.leading_zeros()
}

impl History {
    // Room for so many rows, and for more than `back` moments of each, with all bits 0.
    pub fn new(heap: Global, rows: usize, back: u64) -> Result<History, AllocError>
        ensures { IfOk result (λ h. Fresh h rows back) }
    {
        let log = bits_of(back);
        // Past the limits it asks for more words than any memory has
        let count = if rows as u64 <= MOST && back < MOST {
            (rows << log).div_ceil(64)
        } else {
            usize::MAX
        };
        let words = vec![in heap; 0; count]?;
        Ok(History { words, rows, log })
    }

    fn place(&self, row: usize, at: u64) -> usize
        requires { row < self.now.rows }
        ensures spot { result ≡ place self.now.log row at }
        ensures within { result / 64 < vec_len self.now.words }
    {
        (row << self.log) + (at & ((1 << self.log) - 1)) as usize
    }

    // The bit that is kept of a row at a moment, false of a row that is not there.
    pub fn get(&self, row: usize, at: u64) -> bool
        ensures { result ≡ kept self.now row at }
    {
        row < self.rows && bit_at(&self.words, self.place(row, at))
    }

    // Keeps the bit of a row at a moment; nothing where there is no such row.
    pub fn put(&mut self, row: usize, at: u64, bit: bool)
        ensures { Put self.old self.new row at bit }
    {
        if row < self.rows {
            let i = self.place(row, at);
            put_bit(&mut self.words, i, bit);
        }
    }
}
