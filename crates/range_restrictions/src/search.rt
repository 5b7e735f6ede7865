//! The search for chains that lack a range.

ghost use Rattle.std.specs.Prelude.{◌≡◌, ◌∷◌, Bool, IfOk, List, map};
ghost use Rattle.graph_walks.specs.Marks.{MarkEach};
ghost use Rattle.owl_arena.specs.Held.{AreHeld, trees_at};
ghost use Rattle.range_restrictions.specs.Found.{spread};
ghost use Rattle.range_restrictions.specs.Restrictions.{LacksRangeBy};
ghost use Rattle.range_restrictions.specs.Statements.{is_chain};

use crate::found::found_by;
use crate::statements::is_chain;
use chain_ranges::lacking_chains;
use owl_arena::{Arena, ExprId};
use owl_characters::NoMemory;
use std::alloc::{AllocError, Global};

/// For each of these axioms whether it is a chain with a range that its last property
/// lacks (OWL 2 Profiles, section 2.2.6). `NoMemory` comes only where memory runs out.
pub fn chains_without_ranges(
    alloc: Global,
    arena: &Arena,
    axioms: &[ExprId],
) -> Result<Vec<bool>, NoMemory>
    requires axioms { AreHeld arena.now.trees axioms.now }
    ensures { IfOk result (λ marks. MarkEach
        (λ _ t. LacksRangeBy (trees_at arena.now.trees axioms.now) t)
        (trees_at arena.now.trees axioms.now) marks.items) }
{
    let nodes = arena.distinct();
    let found = found_by(alloc, arena, axioms)?;
    if found.lacks_none() {
        return Ok(vec![in alloc; false; axioms.len()]?);
    }
    let marks = lacking_chains(alloc, nodes, &found.steps, &found.ranges, &found.chains)?;
    Ok(axiom_marks(alloc, arena, axioms, &marks)?)
}

/// For each of these axioms whether it is a chain with a mark. The marks are of the
/// chains among them.
fn axiom_marks(
    alloc: Global,
    arena: &Arena,
    axioms: &[ExprId],
    marks: &[bool],
) -> Result<Vec<bool>, AllocError>
    requires { AreHeld arena.now.trees axioms.now }
    ensures { IfOk result (λ all. all.items
        ≡ spread (map is_chain (trees_at arena.now.trees axioms.now)) marks.now) }
{
    let mut all = Vec::new(alloc);
    let mut rest = marks;
    'axioms: for id in axioms {
        let (mark, behind) = own_mark(is_chain(arena, *id), rest);
        all.push(mark)?;
        rest = behind;
    }
    Ok(all)
}

/// The mark of an axiom, which is the first where it is a chain, and the marks behind
/// it.
fn own_mark(is_chain: bool, marks: &[bool]) -> (bool, &[bool])
    ensures { (others : List Bool) → spread (is_chain ∷ others) marks.now
        ≡ result.0 ∷ spread others result.1.now }
{
    match marks {
        [mark, behind @ ..] if is_chain => (*mark, behind),
        _ => (false, marks),
    }
}
