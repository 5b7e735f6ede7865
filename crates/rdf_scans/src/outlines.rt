//! The outline of a graph: its header, and what it declares.

ghost use Rattle.std.specs.Prelude.{◌≡◌, ◌≢◌, IfErr, IfOk, OnErr, OnOk};
ghost use Rattle.owl_doc.specs.Entities.{AddsAll, AddsSome};
ghost use Rattle.rdf_scans.specs.Outlines.{IsOutline, IsOutlineFault, declarations};
ghost use Rattle.rdf_scans.specs.declared.fault.OutlineFault.TheVariants.{Memory};

use crate::declarations::declare_graph;
use crate::fault::OutlineFault;
use crate::header::{head_of, only_header};
use owl_doc::Head;
use owl_kind::Kinds;
use rdf_graph::Graph;
use std::alloc::Global;

/// How the ontology of the graph is called and what it imports (Mapping to RDF
/// Graphs, section 3.1); and what the graph declares is declared besides what was
/// (section 3.2.1).
///
/// In this order: `NoHeader` exactly where no node is an ontology, `TwoHeaders`
/// where more than one is, `BadHeader` where a version or an import of the one
/// header is not one. At want of memory some may have been declared; after
/// another refusal nothing has changed.
pub fn outline(alloc: Global, graph: &Graph, kinds: &mut Kinds) -> Result<Head, OutlineFault>
    ensures head { IfOk result (IsOutline graph.now) }
    ensures declared { OnOk result (AddsAll kinds.old (declarations graph.now) kinds.new) }
    ensures fault { IfErr result (IsOutlineFault graph.now) }
    ensures err { OnErr result (AddsSome kinds.old (declarations graph.now) kinds.new) }
    ensures unchanged { IfErr result (λ fault. fault ≢ Memory → kinds.new ≡ kinds.old) }
{
    let head = graph_head(alloc, graph)?;
    declare_graph(graph, kinds)?;
    Ok(head)
}

/// How the ontology of the graph is called and what it imports (Mapping to RDF
/// Graphs, section 3.1). It refuses as `outline` does.
pub fn graph_head(alloc: Global, graph: &Graph) -> Result<Head, OutlineFault>
    ensures head { IfOk result (IsOutline graph.now) }
    ensures fault { IfErr result (IsOutlineFault graph.now) }
{
    let header = only_header(graph.triples())?;
    head_of(alloc, graph, header)
}
