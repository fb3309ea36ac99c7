// Numbers in rows of one length.
ghost use Rattle.std.specs.Prelude.{◌≡◌, ℕ, ◌+◌, ◌*◌, ◌/◌, ◌<◌, [], length, slice_index, slice_index_or};

// As many whole rows as there are.
pub(crate) fn rows<const N: usize>(numbers: &[u32]) -> &[[u32; N]]
    requires { 0 < N }
    ensures count { length result.now ≡ length numbers.now / N }
    ensures each { (k j : ℕ) → k < length numbers.now / N → j < N → slice_index (slice_index_or result.now k []) j ≡ slice_index numbers.now (N * k + j) }
{
    numbers.as_chunks().0
}
