//! The least old place of each node of a list that was made of another.

ghost use Rattle.std.specs.Prelude.{◌≡◌, ◌<◌, ◌≤◌, ℕ, length, slice_get, Some, IfOk};
ghost use Rattle.share_order.specs.Least.{AreLeast};

use std::alloc::{AllocError, Global};

/// For each of so many new places the least of the old places that went there. All old places are below a bound.
pub(crate) fn least_places(
    alloc: Global,
    old: &[usize],
    new: &[usize],
    count: usize,
    bound: usize,
) -> Result<Vec<usize>, AllocError>
    requires each { length new.now ≡ length old.now }
    requires bound { (i k : ℕ) → slice_get old.now i ≡ Some k → k < bound }
    requires within { (i k : ℕ) → slice_get new.now i ≡ Some k → k < count }
    requires onto { (k : ℕ) → k < count → (i : ℕ) × (slice_get new.now i ≡ Some k) }
    ensures { IfOk result (λ places. AreLeast old.now new.now count places.items) }
{
    let mut places = vec![in alloc; bound; count]?;
    for index in 0..old.len() {
        let place = new[index];
        places[place] = places[place].min(old[index]);
    }
    Ok(places)
}
