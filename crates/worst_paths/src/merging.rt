// The first entries of two rows.
ghost use Rattle.std.specs.Prelude.{◌≡◌, ◌+◌, ◌^◌, ◌<◌, IfOk, length, drop, vec_items, slice_index_or};
ghost use Rattle.std.specs.List.{All};
ghost use Rattle.path.specs.Path.{by_second};
ghost use Rattle.worst_paths.specs.Merge.{merge, second_of, next_of};
ghost use Rattle.worst_paths.specs.Offers.{offers};

use crate::entry::Entry;
use crate::offer::Offer;
use arrival::Edge;
use std::alloc::{AllocError, Global};

// Whether of two times only the second is worse.
fn is_second(edge: Edge, one: u64, two: u64) -> bool
    ensures { result ≡ by_second edge one two }
{
    match edge {
        Edge::Late => one < two,
        Edge::Early => two < one,
    }
}

// Whether the next entry of two offers, each from an index on, is the second's; None where both are at their end.
fn next(edge: Edge, one: Offer<'_>, i: u32, two: Offer<'_>, j: u32) -> Option<bool>
    ensures { result ≡ next_of edge (drop i (offers one.entry)) (drop j (offers two.entry)) }
{
    if i as usize >= one.row.len() {
        if j as usize >= two.row.len() {
            return None;
        }
        return Some(true);
    }
    if j as usize >= two.row.len() {
        return Some(false);
    }
    Some(is_second(edge, one.at(i).time, two.at(j).time))
}

// The first `k` entries of two offers, those with the worse time first, and of equal ones the first offer's.
pub(crate) fn merge(
    heap: Global,
    edge: Edge,
    k: u32,
    one: Offer<'_>,
    two: Offer<'_>,
) -> Result<Vec<Entry>, AllocError>
    ensures { IfOk result (λ v. vec_items v ≡ merge (second_of edge) k (offers one.entry) (offers two.entry)) }
{
    let most = one.row.len().saturating_add(two.row.len());
    let mut row = Vec::with_capacity(heap, most.min(k as usize))?;
    let mut i = 0;
    let mut j = 0;
    for n in 0..k {
        let Some(second) = next(edge, one, i, two, j) else {
            return Ok(row);
        };
        if second {
            row.push(two.at(j))?;
            j += 1;
        } else {
            row.push(one.at(i))?;
            i += 1;
        }
    }
    Ok(row)
}
