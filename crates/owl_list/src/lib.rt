//! Lists in ascending order, in which each item stands once.
#![tactic(auto)]

mod ranks;

ghost use Rattle.std.specs.Prelude.{◌≡◌, ◌↔◌, IsTrue, List};
ghost use Rattle.std.specs.FinMap.{IsAntisymmetric};
ghost use Rattle.owl_list.specs.Ascending.{ascending, HoldSame, IsAscending};

pub use ranks::sort_by_ranks;

/// Puts the items in ascending order, each once.
///
/// Only equal items may tie. It takes no memory.
pub fn arrange<T: Ord + Drop>(items: &mut Vec<T>)
    requires { IsAntisymmetric T.cmp }
    ensures { items.new.items ≡ ascending T.cmp items.old.items }
{
    if is_ascending(items) {
        return;
    }
    items.sort_unstable();
    items.dedup();
}

/// Whether each item comes before the next one.
fn is_ascending<T: Ord>(items: &[T]) -> bool
    ensures { IsTrue result → IsAscending T.cmp items.now }
{
    items.is_sorted_by(|a, b| a.cmp(b).is_lt())
}

/// Laws: a list has one list in ascending order with the same items, which is
/// as it stands if it ascends. Lists have the same one exactly if they have
/// the same items, in whatever order and however often.
///
/// Only equal items may tie.
pub fn lists_in_order<T: Ord>()
    requires { IsAntisymmetric T.cmp }
    ensures ascends { (xs : List T) → IsAscending T.cmp (ascending T.cmp xs) }
    ensures holds { (xs : List T) → HoldSame (ascending T.cmp xs) xs }
    ensures only { (xs ys : List T) → IsAscending T.cmp ys → HoldSame ys xs → ys ≡ ascending T.cmp xs }
    ensures again { (xs : List T) → IsAscending T.cmp xs → ascending T.cmp xs ≡ xs }
    ensures same { (xs ys : List T) → HoldSame xs ys ↔ (ascending T.cmp xs ≡ ascending T.cmp ys) }
{}
