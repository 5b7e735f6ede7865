//! Sorts by ranks.

ghost use Rattle.std.specs.List.Sorted.{IsPermutation};

use std::cmp::Ordering;

/// Puts the items in order by their ranks, and those of one rank by a comparison,
/// where there is memory for it.
///
/// What it promises is that no item is lost or added. It is for what is put in order
/// once more by the comparison alone, which a list that is in order makes cheap.
pub fn sort_by_ranks<T, R, C>(items: &mut Vec<T>, rank: R, compare: C)
where
    R: Fn(&T) -> u128,
    C: Fn(&T, &T) -> Ordering,
    requires rank { R.IsAlwaysCallable rank }
    requires compare { C.IsAlwaysCallable compare }
    ensures { IsPermutation items.old.items items.new.items }
{
    let ranked = items.sort_by_cached_key(|item| rank(item));
    if ranked.is_ok() {
        sort_ties(items, &rank, &compare);
    }
}

/// Puts in order what stands side by side and has one rank.
fn sort_ties<T, R, C>(items: &mut [T], rank: &R, compare: &C)
where
    R: Fn(&T) -> u128,
    C: Fn(&T, &T) -> Ordering,
    requires rank { R.IsAlwaysCallable rank.now }
    requires compare { C.IsAlwaysCallable compare.now }
    ensures { IsPermutation items.old items.new }
{
    let mut start = 0;
    let mut tied = 0;
    for place in 0..items.len() {
        let next = rank(&items[place]);
        if next != tied {
            items[start..place].sort_unstable_by(|a, b| compare(a, b));
            start = place;
            tied = next;
        }
    }
    items[start..].sort_unstable_by(|a, b| compare(a, b));
}
