//! Labels for the blank nodes that an ontology has no label for.

ghost use Rattle.std.specs.Prelude.{◌≡◌, ◌<◌, IfOk, OnOk, length};
ghost use Rattle.std.specs.List.{flat_map};
ghost use Rattle.blank_labels.specs.FreshLabels.{fresh_name};
ghost use Rattle.blank_labels.specs.LabelNumbers.{Counts, names_beside};
ghost use Rattle.owl_arena.specs.Held.{AreHeld, tree_at, trees_at};
ghost use Rattle.owl_doc.specs.Documents.{ontology_of};
ghost use Rattle.rdf_mapping.specs.Graphs.{labels_in, labels_of};

use blank_labels::{FreshLabels, LabelNumbers};
use owl_arena::{Arena, ExprId};
use owl_characters::NoMemory;
use owl_doc::Doc;
use owl_tree::Atom;
use std::alloc::Global;

/// Labels beside those of a document.
pub fn labels_beside(alloc: Global, doc: &Doc) -> Result<FreshLabels, NoMemory>
    ensures { IfOk result (λ labels. names_beside labels
        ≡ fresh_name (labels_of (ontology_of doc.now))) }
{
    let mut numbers = LabelNumbers::new(alloc);
    count_document(&mut numbers, doc)?;
    Ok(numbers.fresh_labels())
}

/// Counts the labels of a document.
fn count_document(numbers: &mut LabelNumbers, doc: &Doc) -> Result<(), NoMemory>
    ensures { OnOk result (Counts numbers.old numbers.new (labels_of (ontology_of doc.now))) }
{
    count_trees(numbers, doc.arena(), doc.notes())?;
    count_trees(numbers, doc.arena(), doc.axioms())
}

/// Counts the labels of trees.
#[cycle(labels)]
fn count_trees(numbers: &mut LabelNumbers, arena: &Arena, ids: &[ExprId]) -> Result<(), NoMemory>
    requires { AreHeld arena.now.trees ids.now }
    ensures { OnOk result (Counts numbers.old numbers.new
        (flat_map labels_in (trees_at arena.now.trees ids.now))) }
{
    let mut left = ids;
    while let [id, others @ ..] = left {
        count_tree(numbers, arena, *id)?;
        left = others;
    }
    Ok(())
}

/// Counts the labels of a tree.
#[cycle(labels)]
fn count_tree(numbers: &mut LabelNumbers, arena: &Arena, id: ExprId) -> Result<(), NoMemory>
    requires { id < length arena.now.trees }
    ensures { OnOk result (Counts numbers.old numbers.new
        (labels_in (tree_at arena.now.trees id))) }
{
    match arena.atom(id) {
        Some(Atom::Label(label)) => numbers.count(label),
        Some(Atom::Iri(_) | Atom::Literal(_) | Atom::Number(_)) => Ok(()),
        None => count_trees(numbers, arena, arena.kids(id)),
    }
}
