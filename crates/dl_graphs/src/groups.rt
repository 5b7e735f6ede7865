//! Marks of things that stand in groups, one group behind the other.

ghost use Rattle.std.specs.Prelude.{◌≡◌, IfOk};
ghost use Rattle.std.specs.List.{list_any};
ghost use Rattle.dl_graphs.specs.Groups.{group_marks};

use std::alloc::{AllocError, Global};

/// For each group whether one of its marks is true. The counts say how many marks
/// each group has.
pub fn group_marks(alloc: Global, counts: &[usize], marks: &[bool]) -> Result<Vec<bool>, AllocError>
    ensures { IfOk result (λ groups. groups.items ≡ group_marks counts.now marks.now) }
{
    let mut groups = Vec::new(alloc);
    let mut rest = marks;
    'counts: for count in counts {
        let (own, behind) = rest.split_at((*count).min(rest.len()));
        groups.push(has_true(own))?;
        rest = behind;
    }
    Ok(groups)
}

/// Whether one of these marks is true.
fn has_true(marks: &[bool]) -> bool
    ensures { result ≡ list_any (λ mark. mark) marks.now }
{
    marks.iter().any(|mark| *mark)
}
