//! How trees and ontologies are written.

#![tactic(auto, using(crate::proofs::Putting::takes_then, crate::proofs::Putting::stops_more, crate::proofs::Putting::stops_then))]

ghost use Rattle.std.specs.Prelude.{◌≡◌, ◌<◌, ◌^◌, IfErr, OnOk, codes, flat_map, length};
ghost use Rattle.std.specs.List.{AllByRecursion};
ghost use Rattle.owl_arena.specs.Held.{AreHeld, tree_at, trees_at};
ghost use Rattle.owl_canon.specs.Bytes.{counted, ontology_bytes, text_bytes, tree_bytes};
ghost use Rattle.owl_canon.specs.Limits.{AreFew, HasBytes, IsCountable, IsText};
ghost use Rattle.owl_canon.specs.Sinks.{Stops, Takes};
ghost use Rattle.owl_doc.specs.Documents.{ontology_of};
ghost use Rattle.owl_doc.specs.Heads.{StandsBeside, head_of};

use crate::fault::WriteFault;
use crate::parts::{put_atom, put_number, put_optional_iri, put_text};
use crate::sink::Sink;
use owl_arena::{Arena, ExprId};
use owl_atom::Iri;
use owl_doc::Doc;

/// Writes the ontology of a document.
pub fn put_document(sink: &mut Sink, doc: &Doc) -> Result<(), WriteFault>
    ensures taken { OnOk result (Takes sink.old (ontology_bytes (ontology_of doc.now)) sink.new) }
    ensures stopped { IfErr result (Stops sink.old (ontology_bytes (ontology_of doc.now))) }
    ensures bytes { OnOk result (HasBytes (ontology_of doc.now)) }
{
    sink.put(b"OWL2C1\n")?;
    put_optional_iri(sink, &doc.head().iri)?;
    put_optional_iri(sink, &doc.head().version)?;
    put_imports(sink, &doc.head().imports)?;
    put_trees(sink, doc.arena(), doc.notes())?;
    put_trees(sink, doc.arena(), doc.axioms())
}

/// Writes how many IRIs there are, and each.
fn put_imports(sink: &mut Sink, iris: &[Iri]) -> Result<(), WriteFault>
    ensures taken { OnOk result (Takes sink.old (counted text_bytes iris.now) sink.new) }
    ensures stopped { IfErr result (Stops sink.old (counted text_bytes iris.now)) }
    ensures texts { OnOk result (AreFew IsText iris.now) }
{
    put_number(sink, iris.len() as u64)?;
    put_each_import(sink, iris)
}

/// Writes each IRI.
fn put_each_import(sink: &mut Sink, iris: &[Iri]) -> Result<(), WriteFault>
    ensures taken { OnOk result (Takes sink.old (flat_map text_bytes iris.now) sink.new) }
    ensures stopped { IfErr result (Stops sink.old (flat_map text_bytes iris.now)) }
    ensures texts { OnOk result (AllByRecursion IsText iris.now) }
{
    'iris: for iri in iris {
        put_text(sink, iri.text())?;
    }
    Ok(())
}

/// Writes how many trees there are, and each.
fn put_trees(sink: &mut Sink, arena: &Arena, ids: &[ExprId]) -> Result<(), WriteFault>
    requires { AreHeld arena.now.trees ids.now }
    ensures taken { OnOk result (Takes sink.old (counted tree_bytes (trees_at arena.now.trees ids.now)) sink.new) }
    ensures stopped { IfErr result (Stops sink.old (counted tree_bytes (trees_at arena.now.trees ids.now))) }
    ensures countable { OnOk result (AreFew IsCountable (trees_at arena.now.trees ids.now)) }
{
    put_number(sink, ids.len() as u64)?;
    put_each_tree(sink, arena, ids)
}

/// Writes a tree: the number of its tag, and what it holds or its kids.
#[cycle(putting)]
fn put_tree(sink: &mut Sink, arena: &Arena, id: ExprId) -> Result<(), WriteFault>
    requires { id < length arena.now.trees }
    ensures taken { OnOk result (Takes sink.old (tree_bytes (tree_at arena.now.trees id)) sink.new) }
    ensures stopped { IfErr result (Stops sink.old (tree_bytes (tree_at arena.now.trees id))) }
    ensures countable { OnOk result (IsCountable (tree_at arena.now.trees id)) }
{
    sink.put(&[arena.tag(id).number()])?;
    match arena.atom(id) {
        Some(atom) => put_atom(sink, atom),
        None => {
            let kids = arena.kids(id);
            put_number(sink, kids.len() as u64)?;
            put_each_tree(sink, arena, kids)
        }
    }
}

/// Writes each tree.
#[cycle(putting)]
fn put_each_tree(sink: &mut Sink, arena: &Arena, ids: &[ExprId]) -> Result<(), WriteFault>
    requires { AreHeld arena.now.trees ids.now }
    ensures taken { OnOk result (Takes sink.old (flat_map tree_bytes (trees_at arena.now.trees ids.now)) sink.new) }
    ensures stopped { IfErr result (Stops sink.old (flat_map tree_bytes (trees_at arena.now.trees ids.now))) }
    ensures countable { OnOk result (AllByRecursion IsCountable (trees_at arena.now.trees ids.now)) }
{
    'ids: for id in ids {
        put_tree(sink, arena, *id)?;
    }
    Ok(())
}
