//! Which kid of a node is written twice.

ghost use Rattle.std.specs.Prelude.{◌≡◌};
ghost use Rattle.owl_tree.specs.Rows.{row_of};
ghost use Rattle.written_trees.specs.Written.{only_behind, repeated};

use owl_arena::ExprId;
use owl_tree::{Rest, Row, Tag};

/// The only member of a set of which two members have to be written.
pub fn repeated(tag: Tag, kids: &[ExprId]) -> Option<ExprId>
    ensures { result ≡ repeated (row_of tag) kids.now }
{
    match tag.row() {
        Row::Node(front, Rest::Set(_, least)) if 2 <= least => only_behind(front.len(), kids),
        _ => None,
    }
}

/// The kid behind so many, where it is the only one.
#[tactic(auto, using(crate::proofs::RepeatedLaws::only_there, crate::proofs::RepeatedLaws::only_not))]
fn only_behind(count: usize, kids: &[ExprId]) -> Option<ExprId>
    ensures { result ≡ only_behind count kids.now }
{
    if count < kids.len() && kids.len() - count == 1 {
        Some(kids[count])
    } else {
        None
    }
}
