//! Marks of axioms.

ghost use Rattle.std.specs.Prelude.{◌≡◌, ◌↔◌, ◌⊎◌, ◌<◌, ℕ, IfOk, true, false, length, slice_index_or};
ghost use Rattle.std.specs.List.{AllByRecursion};
ghost use Rattle.breach_lists.specs.Marks.{IsMarkedAmong};

use graph_walks::has_mark;
use owl_arena::ExprId;
use std::alloc::{AllocError, Global};

/// Marks by the numbers of these axioms, which stand below the count, in place of
/// marks by their places.
pub fn marks_by_number(
    alloc: Global,
    count: usize,
    axioms: &[ExprId],
    marks: &[bool],
) -> Result<Vec<bool>, AllocError>
    requires { AllByRecursion (λ id. id < count) axioms.now }
    ensures { IfOk result (λ by_number. (id : ℕ) → (slice_index_or by_number.items id false ≡ true)
        ↔ IsMarkedAmong axioms.now marks.now id) }
{
    let mut by_number = vec![in alloc; false; count]?;
    'places: for place in 0..axioms.len() {
        mark_if(has_mark(marks, place), axioms[place], &mut by_number);
    }
    Ok(by_number)
}

/// Marks the number, where it is to be marked.
fn mark_if(is_marked: bool, id: ExprId, by_number: &mut Vec<bool>)
    requires { id < length by_number.old.items }
    ensures size { length by_number.new.items ≡ length by_number.old.items }
    ensures told { (other : ℕ) → (slice_index_or by_number.new.items other false ≡ true)
        ↔ ((slice_index_or by_number.old.items other false ≡ true)
        ⊎ ((is_marked ≡ true) × (other ≡ id))) }
{
    if is_marked {
        by_number[id.place()] = true;
    }
}
