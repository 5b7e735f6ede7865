//! Documents that are their own normal form.

ghost use Rattle.std.specs.Prelude.{◌≡◌, ◌<◌, ◌+◌, ◌≤◌, IsTrue, length};
ghost use Rattle.std.specs.List.{AllByRecursion};
ghost use Rattle.owl_arena.specs.Held.{AreHeld, tree_at, trees_at};
ghost use Rattle.owl_arena.specs.Shared.{heaviest};
ghost use Rattle.owl_doc.specs.Documents.{ontology_of};
ghost use Rattle.owl_tree.specs.Ontologies.{ontology_weight};
ghost use Rattle.rdf_normal.specs.NormalForms.{absorbed_count, normal_form};
ghost use Rattle.rdf_normal.specs.Staying.{IsBare, IsKept, StayTidied};

use crate::needless::is_annotated;
use crate::own::is_about;
use crate::spreading::{is_paired, turned_from};
use crate::tidying::is_notes;
use owl_arena::{Arena, ExprId};
use owl_atom::Iri;
use owl_doc::Doc;

/// Whether no annotation stands at an axiom or annotation of the document, and no
/// step changes one of its axioms. Then the document is its own normal form, with
/// no axiom absorbed. Of other documents nothing is said.
pub fn is_normal(doc: &Doc) -> bool
    ensures form { IsTrue result → normal_form (ontology_of doc.now) ≡ ontology_of doc.now }
    ensures absorbed { IsTrue result → absorbed_count (ontology_of doc.now) ≡ 0 }
    ensures light { IsTrue result
        → ontology_weight (normal_form (ontology_of doc.now)) ≤ heaviest }
{
    let arena = doc.arena();
    if !are_bare(arena, doc.notes()) {
        return false;
    }
    if !are_kept(arena, &doc.head().iri, doc.axioms()) {
        return false;
    }
    are_tidy(arena)
}

/// Whether none of the trees has annotations.
fn are_bare(arena: &Arena, ids: &[ExprId]) -> bool
    requires { AreHeld arena.now.trees ids.now }
    ensures { IsTrue result → AllByRecursion IsBare (trees_at arena.now.trees ids.now) }
{
    'ids: for id in ids {
        if is_annotated(arena, *id) {
            return false;
        }
    }
    true
}

/// Whether no step has anything to do with one of the axioms, of an ontology that
/// is called so.
fn are_kept(arena: &Arena, name: &Option<Iri>, ids: &[ExprId]) -> bool
    requires { AreHeld arena.now.trees ids.now }
    ensures { IsTrue result
        → AllByRecursion (IsKept name.now) (trees_at arena.now.trees ids.now) }
{
    'ids: for id in ids {
        if !is_kept(arena, name, *id) {
            return false;
        }
    }
    true
}

/// Whether no step has anything to do with the axiom, of an ontology that is
/// called so.
fn is_kept(arena: &Arena, name: &Option<Iri>, id: ExprId) -> bool
    requires { id < length arena.now.trees }
    ensures { IsTrue result → IsKept name.now (tree_at arena.now.trees id) }
{
    !is_annotated(arena, id)
        && !is_paired(arena, id)
        && turned_from(arena, id).is_none()
        && !is_about(arena, name, id)
}

/// Whether no annotations are held, so that each tree stays when it is tidied.
fn are_tidy(arena: &Arena) -> bool
    ensures { IsTrue result → StayTidied arena.now.trees (length arena.now.trees) }
{
    'places: for place in 0..arena.distinct() {
        if !is_tidy(arena, arena.at(place)) {
            return false;
        }
    }
    true
}

/// Whether the tree is no annotations, so that it stays when it is tidied, where
/// those before it do.
fn is_tidy(arena: &Arena, id: ExprId) -> bool
    requires id { id < length arena.now.trees }
    requires before { StayTidied arena.now.trees id }
    ensures { IsTrue result → StayTidied arena.now.trees (id + 1) }
{
    // What every arena holds is canonical.
    let _trees = arena.distinct();
    let kids = arena.kids(id);
    !is_notes(arena.tag(id)) || kids.is_empty()
}
