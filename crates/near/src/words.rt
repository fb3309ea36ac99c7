// A ratio in words.
ghost use Rattle.std.specs.Prelude.{IfOk, string_bytes};
ghost use Rattle.near.specs.Words.{IsWords};

use ryu::Buffer;
use std::alloc::{AllocError, Global};

/// What is printed of a ratio that `setup_ratio` gave: decimal digits that are read back as the same number, or
/// `no period` where there is none. The only error is want of memory.
pub fn in_words(heap: Global, ratio: Option<f64>) -> Result<String, AllocError>
    ensures { IfOk result (λ t. IsWords ratio (string_bytes t)) }
{
    let Some(ratio) = ratio else {
        return String::from_str(heap, "no period");
    };
    let mut buffer = Buffer::new();
    let number = buffer.format(ratio);
    format!(in heap; "smallest setup margin {number} of the period")
}
