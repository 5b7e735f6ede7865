//! What counts of the trees of an arena.

ghost use Rattle.std.specs.Prelude.{◌≡◌, ◌<◌, length};
ghost use Rattle.std.specs.Option.{option_map};
ghost use Rattle.dl_rules.specs.Logical.{iri_in, is_remark, operands};
ghost use Rattle.owl_arena.specs.Held.{AreHeld, tree_at, trees_at};

use owl_arena::{Arena, ExprId};
use owl_atom::Iri;
use owl_tree::{Atom, Tag};

/// Whether a tree with this tag annotates, and nothing else.
pub fn is_remark(tag: Tag) -> bool
    ensures { result ≡ is_remark tag }
{
    tag == Tag::Notes || tag == Tag::AnnotationAssertion
}

/// The IRI that the tree holds, where it is a leaf with an IRI.
pub fn iri_at(arena: &Arena, id: ExprId) -> Option<&Iri>
    requires { id < length arena.now.trees }
    ensures { option_map (λ iri. iri.now) result ≡ iri_in (tree_at arena.now.trees id) }
{
    match arena.atom(id) {
        Some(Atom::Iri(iri)) => Some(iri),
        _ => None,
    }
}

/// The kids of an axiom behind its annotations.
pub fn operands(arena: &Arena, id: ExprId) -> &[ExprId]
    requires { id < length arena.now.trees }
    ensures held { AreHeld arena.now.trees result.now }
    ensures operands { trees_at arena.now.trees result.now ≡ operands (tree_at arena.now.trees id) }
{
    match arena.kids(id) {
        [_, operands @ ..] => operands,
        [] => &[],
    }
}
