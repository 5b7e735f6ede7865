//! What is answered for a document that is translated to Turtle.

ghost use Rattle.std.specs.Prelude.{◌≡◌, ◌≤◌, List, IfOk};
ghost use Rattle.owl_arena.specs.Shared.{heaviest};
ghost use Rattle.owl_doc.specs.Documents.{ontology_of};
ghost use Rattle.owl_documents.specs.Documents.{said_of};
ghost use Rattle.owl_kind.specs.Kinds.{Entity};
ghost use Rattle.owl_tree.specs.Ontologies.{ontology_weight};
ghost use Rattle.rdf_mapping.specs.Graphs.{graph_of};
ghost use Rattle.rdf_normal.specs.NormalForms.{normal_form};
ghost use Rattle.owl_answer.specs.GraphTexts.{HaveRoles};
ghost use Rattle.owl_answer.specs.TurtleOutcome.{IsFormTold, IsGraphTold, IsGraphTranslation, IsToldBack, IsTurtleTranslation, IsTyped, canonical_said, turtle_form};
ghost use Rattle.owl_messages.specs.Answers.{outcome_of};
ghost use Rattle.owl_messages.specs.Outcome.{IsLimited};

use crate::graph_texts::graph_text;
use crate::typing::typing_refusal;
use crate::written::translated;
use owl_characters::NoMemory;
use owl_command::Layout;
use owl_doc::Doc;
use owl_messages::{Answer, refuse_output, refuse_unsayable, too_long_output};
use owl_tree::Kinds;
use rdf_forward::{NormFault, can, forward, is_normal, normal};
use rdf_graph::{Graph, GraphFault};
use std::alloc::Global;
use ttl_write::WriteFault;

/// What is answered for a normal form, by its graph.
fn write_graph(
    alloc: Global,
    layout: Layout,
    form: &Doc,
    absorbed: u64,
    graph: &Graph,
) -> Result<Answer, NoMemory>
    requires graph { graph.now ≡ graph_of (ontology_of form.now) }
    requires roles { HaveRoles graph.now }
    ensures { IfOk result (λ answer.
        IsToldBack layout (IsLimited (IsGraphTranslation layout (said_of form.now) absorbed))
        (said_of form.now) (outcome_of answer)) }
{
    // A document is in an arena, whose trees are within the limits.
    form.notes();
    form.arena().distinct();
    match graph_text(alloc, layout, graph, form.prefixes()) {
        Ok(text) => translated(alloc, form, absorbed, text),
        Err(WriteFault::TooLong) => too_long_output(alloc),
        Err(WriteFault::Memory) => Err(NoMemory),
    }
}

/// What is answered for a normal form with this number of absorbed axioms.
fn translate_form(
    alloc: Global,
    layout: Layout,
    form: &Doc,
    absorbed: u64,
) -> Result<Answer, NoMemory>
    requires { HaveRoles (graph_of (ontology_of form.now)) }
    ensures { IfOk result (λ answer. IsToldBack layout
        (IsFormTold layout (said_of form.now) absorbed) (said_of form.now) (outcome_of answer)) }
{
    match forward(alloc, form) {
        Ok(graph) => {
            // A graph has no more than 2^24 triples.
            graph.len();
            write_graph(alloc, layout, form, absorbed, &graph)
        }
        Err(GraphFault::TooMany) => refuse_output(alloc, "Triples"),
        Err(GraphFault::Memory) => Err(NoMemory),
    }
}

/// What is answered for a document of which a graph can say all, by its normal
/// form.
fn translate_normal(alloc: Global, layout: Layout, doc: &Doc) -> Result<Answer, NoMemory>
    requires { ontology_weight (normal_form (ontology_of doc.now)) ≤ heaviest
        → HaveRoles (graph_of (normal_form (ontology_of doc.now))) }
    ensures { IfOk result (λ answer. IsToldBack layout (IsGraphTold layout (said_of doc.now))
        (turtle_form (said_of doc.now)) (outcome_of answer)) }
{
    match normal(alloc, doc) {
        Ok((form, absorbed)) => translate_form(alloc, layout, &form, absorbed),
        Err(NormFault::TooHeavy) => refuse_output(alloc, "Weight"),
        Err(NormFault::Memory) => Err(NoMemory),
    }
}

/// What is answered for a document of which a graph can say all.
fn translate_sayable(alloc: Global, layout: Layout, doc: &Doc) -> Result<Answer, NoMemory>
    requires { ontology_weight (normal_form (ontology_of doc.now)) ≤ heaviest
        → HaveRoles (graph_of (normal_form (ontology_of doc.now))) }
    ensures { IfOk result (λ answer. IsToldBack layout (IsGraphTold layout (said_of doc.now))
        (turtle_form (said_of doc.now)) (outcome_of answer)) }
{
    if is_normal(doc) {
        return translate_form(alloc, layout, doc, 0);
    }
    translate_normal(alloc, layout, doc)
}

/// What is answered for a document that is well typed.
fn translate_typed(alloc: Global, layout: Layout, doc: &Doc) -> Result<Answer, NoMemory>
    requires { (kinds : List Entity) × IsTyped kinds (ontology_of doc.now) }
    ensures { IfOk result (λ answer. (kinds : List Entity) → IsTyped kinds (ontology_of doc.now)
        → IsToldBack layout (IsTurtleTranslation layout kinds (said_of doc.now))
        (turtle_form (canonical_said (said_of doc.now))) (outcome_of answer)) }
{
    // A document is in canonical form.
    doc.notes();
    if let Some(cant) = can(doc) {
        return refuse_unsayable(alloc, doc, &cant);
    }
    translate_sayable(alloc, layout, doc)
}

/// What is answered for a document that is translated to Turtle, under the
/// kinds of its imports closure: the first refusal that there is cause for, or
/// the text of the graph of its normal form, which reads back to this graph.
pub fn translate_to_turtle(
    alloc: Global,
    layout: Layout,
    doc: &Doc,
    kinds: &Kinds,
) -> Result<Answer, NoMemory>
    ensures { IfOk result (λ answer. IsToldBack layout
        (IsTurtleTranslation layout kinds.now (said_of doc.now))
        (turtle_form (canonical_said (said_of doc.now))) (outcome_of answer)) }
{
    // A document is in canonical form.
    doc.notes();
    match typing_refusal(alloc, kinds, doc)? {
        Some(refusal) => Ok(refusal),
        None => translate_typed(alloc, layout, doc),
    }
}
