//! Whether documents say the same.

ghost use Rattle.std.specs.Prelude.{◌≡◌, ◌↔◌, ◌<◌, IsTrue, length};
ghost use Rattle.owl_doc.specs.Documents.{ontology_of};
ghost use Rattle.owl_doc.specs.Heads.{StandsBeside, head_of};
ghost use Rattle.owl_arena.specs.Held.{AreHeld, tree_at, trees_at};
ghost use Rattle.owl_doc.specs.Roots.{HaveSameRoot};
ghost use Rattle.owl_tree.specs.Ontologies.{IsSameOntology};

use crate::document::Doc;
use crate::head::Head;
use owl_arena::{Arena, ExprId};

impl Doc {
    /// Whether the ontologies are structurally equivalent (Structural
    /// Specification, section 2.1): their names, imports, annotations and
    /// axioms. Prefixes do not matter. Takes no memory.
    pub fn same(&self, other: &Doc) -> bool
        ensures { IsTrue result ↔ IsSameOntology (ontology_of self.now) (ontology_of other.now) }
    {
        are_same_heads(self.head(), other.head())
            && are_same_trees(self.arena(), self.notes(), other.arena(), other.notes())
            && are_same_trees(self.arena(), self.axioms(), other.arena(), other.axioms())
    }
}

fn are_same_heads(one: &Head, other: &Head) -> bool
    requires one { StandsBeside one.now.version one.now.iri }
    requires other { StandsBeside other.now.version other.now.iri }
    ensures { IsTrue result ↔ (head_of one.now ≡ head_of other.now) }
{
    one.iri == other.iri && one.version == other.version && one.imports == other.imports
}

/// Whether the trees have the same tag and atom, each in its own arena.
fn have_same_root(one: &Arena, id: ExprId, other: &Arena, other_id: ExprId) -> bool
    requires id { id < length one.now.trees }
    requires other_id { other_id < length other.now.trees }
    ensures { IsTrue result ↔ HaveSameRoot (tree_at one.now.trees id) (tree_at other.now.trees other_id) }
{
    one.tag(id) == other.tag(other_id) && one.atom(id) == other.atom(other_id)
}

/// Whether the trees are equal, each in its own arena. Takes no memory.
#[cycle(same)]
pub fn is_same_tree(one: &Arena, id: ExprId, other: &Arena, other_id: ExprId) -> bool
    requires id { id < length one.now.trees }
    requires other_id { other_id < length other.now.trees }
    ensures { IsTrue result ↔ (tree_at one.now.trees id ≡ tree_at other.now.trees other_id) }
{
    have_same_root(one, id, other, other_id)
        && are_same_trees(one, one.kids(id), other, other.kids(other_id))
}

/// Whether the trees are equal, place by place.
#[cycle(same)]
fn are_same_trees(one: &Arena, ids: &[ExprId], other: &Arena, other_ids: &[ExprId]) -> bool
    requires ids { AreHeld one.now.trees ids.now }
    requires other_ids { AreHeld other.now.trees other_ids.now }
    ensures { IsTrue result ↔ (trees_at one.now.trees ids.now ≡ trees_at other.now.trees other_ids.now) }
{
    if ids.len() != other_ids.len() {
        return false;
    }
    'places: for place in 0..ids.len() {
        if !is_same_tree(one, ids[place], other, other_ids[place]) {
            return false;
        }
    }
    true
}
