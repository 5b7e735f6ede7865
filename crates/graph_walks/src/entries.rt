//! Pairs that lead from one part into another.

ghost use Rattle.std.specs.Prelude.{◌↔◌, ◌<◌, IfOk, IsTrue, length};
ghost use Rattle.graph_walks.specs.Rings.{AreEntries, EnteredOnce, IsEntry, link_at};

use crate::levels::is_level;
use crate::marks::number_at;
use std::alloc::{AllocError, Global};

/// Whether into each part one of these pairs at most leads from another: so, if
/// it says so.
pub fn are_entered_once(
    alloc: Global,
    pairs: &[(usize, usize)],
    numbers: &[usize],
) -> Result<bool, AllocError>
    ensures { IfOk result (λ answer. IsTrue answer → EnteredOnce numbers.now pairs.now) }
{
    let entries = entries(alloc, pairs, numbers)?;
    Ok(are_entries(pairs, numbers, &entries))
}

/// For each part the place of a pair that leads into it from another. No contract
/// says so: `are_entries` looks at them.
fn entries(
    alloc: Global,
    pairs: &[(usize, usize)],
    numbers: &[usize],
) -> Result<Vec<usize>, AllocError> {
    let mut entries = vec![in alloc; 0; numbers.len().saturating_add(1)]?;
    for (place, pair) in pairs.iter().enumerate() {
        if is_level(numbers, *pair) {
            continue;
        }
        if let Some(entry) = entries.get_mut(number_at(numbers, pair.1)) {
            *entry = place;
        }
    }
    Ok(entries)
}

/// Whether each pair that leads into another part is in the place that is noted
/// for it.
fn are_entries(pairs: &[(usize, usize)], numbers: &[usize], entries: &[usize]) -> bool
    ensures { IsTrue result ↔ AreEntries numbers.now entries.now pairs.now }
{
    for place in 0..pairs.len() {
        if !is_entry(pairs, numbers, entries, place) {
            return false;
        }
    }
    true
}

/// Whether the pair in this place leads into no other part, or is in the place
/// that is noted for it.
fn is_entry(pairs: &[(usize, usize)], numbers: &[usize], entries: &[usize], place: usize) -> bool
    requires { place < length pairs.now }
    ensures { IsTrue result ↔ IsEntry numbers.now entries.now (link_at pairs.now place) place }
{
    let pair = pairs[place];
    is_level(numbers, pair) || number_at(entries, number_at(numbers, pair.1)) == place
}
