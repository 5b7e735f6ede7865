//! Sets of sorts.

ghost use Rattle.std.specs.Prelude.{◌≡◌, ◌≢◌, ◌||◌, false, true};
ghost use Rattle.profile_sorts.specs.declared.sort.Sort.{Sort};
ghost use Rattle.profile_sorts.specs.Sets.{has, number_of, set_at};

use crate::sort::Sort;
use owl_arena::ExprId;

/// A set of sorts.
#[derive(Clone, Copy, Debug)]
pub struct SortSet {
    pub(crate) bits: u32,
}

impl SortSet {
    /// No sorts.
    const NONE: SortSet = SortSet { bits: 0 };

    /// No sorts.
    pub(crate) fn none() -> SortSet
        ensures { (sort : Sort) → has result sort ≡ false }
    {
        SortSet::NONE
    }

    /// Whether the set has the sort.
    pub fn has(self, sort: Sort) -> bool
        ensures { result ≡ has self sort }
    {
        (self.bits >> sort.number()) & 1 == 1
    }

    /// The set with the sort.
    fn with(self, sort: Sort) -> SortSet
        ensures same { (other : Sort) → number_of other ≡ number_of sort
            → has result other ≡ true }
        ensures others { (other : Sort) → number_of other ≢ number_of sort
            → has result other ≡ has self other }
    {
        SortSet {
            bits: self.bits | (1 << sort.number()),
        }
    }

    /// The set, with the sort where that is so.
    pub(crate) fn with_if(self, sort: Sort, is: bool) -> SortSet
        ensures same { (other : Sort) → number_of other ≡ number_of sort
            → has result other ≡ (is || has self other) }
        ensures others { (other : Sort) → number_of other ≢ number_of sort
            → has result other ≡ has self other }
    {
        if is { self.with(sort) } else { self }
    }
}

/// The set of the tree in this place: no sorts, where there is no tree.
pub fn set_at(sets: &[SortSet], id: ExprId) -> SortSet
    ensures { result ≡ set_at sets.now id }
{
    sets.get(id.place()).copied().unwrap_or(SortSet::NONE)
}
