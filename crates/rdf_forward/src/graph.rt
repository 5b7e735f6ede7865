//! The graph of an ontology.

ghost use Rattle.std.specs.Prelude.{◌≡◌, ◌<◌, IfOk, IsErrOf, OnOk, length};
ghost use Rattle.owl_doc.specs.Documents.{ontology_of};
ghost use Rattle.rdf_graph.specs.Graphs.{most_triples};
ghost use Rattle.rdf_graph.specs.declared.fault.GraphFault.{GraphFault};
ghost use Rattle.rdf_mapping.specs.GraphLaws.{triples_of};
ghost use Rattle.rdf_mapping.specs.Graphs.{graph_of};
ghost use Rattle.rdf_forward.specs.HeaderWalks.{WritesOntology};

use crate::bounds::draws_too_many;
use crate::labels::labels_beside;
use crate::writer::Writer;
use owl_characters::NoMemory;
use owl_doc::Doc;
use rdf_graph::{Gather, Graph, GraphFault};
use std::alloc::Global;

/// The graph of a document that is its own normal form, and of which all can be
/// said. `TooMany` where it has more than 2^24 triples.
#[tactic(auto, unfolding(rdf_mapping::specs::Graphs::graph_of))]
pub fn forward(alloc: Global, doc: &Doc) -> Result<Graph, GraphFault>
    ensures graph { IfOk result (λ graph. graph ≡ graph_of (ontology_of doc.now)) }
    ensures too_many { IsErrOf result GraphFault.TooMany
        → most_triples < length (graph_of (ontology_of doc.now)) }
{
    if draws_too_many(alloc, doc)? {
        return Err(GraphFault::TooMany);
    }
    let triples = triples_of(alloc, doc)?;
    triples.finish_without_index()
}

/// The triples of a document, as they are made.
fn triples_of(alloc: Global, doc: &Doc) -> Result<Gather, NoMemory>
    ensures { IfOk result (λ triples. triples ≡ triples_of (ontology_of doc.now)) }
{
    let mut writer = Writer {
        alloc,
        gather: Gather::new(alloc),
        next: 0,
        labels: labels_beside(alloc, doc)?,
    };
    writer.write_document(doc)?;
    Ok(writer.gather)
}

impl Writer {
    /// Adds the triples of a document, for which no node has a number yet.
    fn write_document(&mut self, doc: &Doc) -> Result<(), NoMemory>
        requires { self.old.next ≡ 0 }
        ensures { OnOk result (WritesOntology self.old self.new (ontology_of doc.now)) }
    {
        self.write_header(doc)?;
        self.write_all_axioms(doc.arena(), doc.axioms())
    }
}
