//! Lists of marks, and of numbers, by place.

ghost use Rattle.std.specs.Prelude.{◌≡◌, ◌↔◌, ◌<◌, ℕ, true, false, IsTrue, length, slice_index, slice_index_or};

/// The mark in this place: false, where there is none.
pub fn has_mark(marks: &[bool], place: usize) -> bool
    ensures { result ≡ slice_index_or marks.now place false }
{
    marks.get(place).copied().unwrap_or(false)
}

/// Whether all marks are true.
pub fn all_marked(marks: &[bool]) -> bool
    ensures { IsTrue result ↔ ((place : ℕ) → place < length marks.now
        → slice_index_or marks.now place false ≡ true) }
{
    marks.iter().all(|mark| *mark)
}

/// The number in this place: 0, where there is none.
pub fn number_at(numbers: &[usize], place: usize) -> usize
    ensures { result ≡ slice_index numbers.now place }
{
    numbers.get(place).copied().unwrap_or(0)
}
