//! The texts of graphs.

ghost use Rattle.std.specs.Prelude.{◌≡◌, ◌<◌, ◌≤◌, ℕ, List, Option, length, IfOk, IsErrOf};
ghost use Rattle.std.specs.Str.{encode_utf8_all};
ghost use Rattle.owl_characters.specs.Limit.{most_bytes};
ghost use Rattle.owl_writing.specs.Tables.{written_prefixes};
ghost use Rattle.owl_writing.specs.declared.fault.WriteFault.{WriteFault};
ghost use Rattle.ttl_grammar.specs.Documents.{ReadsTurtle};
ghost use Rattle.ttl_write.specs.Text.{full_term, full_triple, turtle_text};

use crate::lines::{add_full_triple, add_graph};
use crate::terms::add_term;
use owl_atom::Prefixes;
use owl_characters::Text;
use owl_writing::{Draft, WriteFault, written_prefixes};
use rdf_graph::{Graph, Term, Triple};
use std::alloc::Global;

/// The text of the graph in Turtle (RDF 1.1 Turtle): a line for each prefix, in the order of the bytes of their names, and
/// then a line for each triple, in the order of the graph.
///
/// `owl`, `rdf`, `rdfs` and `xsd` stand among the prefixes for their own IRIs, and each IRI is abbreviated where one of the
/// prefixes leaves a plain local part. The text reads back to the same graph, under the prefixes that stand in it, whatever base
/// IRI it is read against.
///
/// `TooLong` exactly where it has more than 2^27 bytes, and `Memory` where memory runs out.
pub fn write(alloc: Global, graph: &Graph, prefixes: &Prefixes) -> Result<Text, WriteFault>
    ensures text { IfOk result (λ text. text ≡ turtle_text prefixes.now graph.now) }
    ensures within { IfOk result (λ text. length (encode_utf8_all text) ≤ most_bytes) }
    ensures too_long { IsErrOf result WriteFault.TooLong
        → most_bytes < length (encode_utf8_all (turtle_text prefixes.now graph.now)) }
    ensures reads_back { IfOk result (λ text. (base : Option (List ℕ)) →
        ReadsTurtle base (encode_utf8_all text) (written_prefixes prefixes.now) graph.now) }
{
    // What is known of every graph and of every table.
    graph.len();
    prefixes.len();
    let prefixes = written_prefixes(alloc, prefixes)?;
    let mut draft = Draft::new(alloc);
    add_graph(&mut draft, &prefixes, graph)?;
    let text = draft.into_text();
    text.as_str();
    Ok(text)
}

/// The text of a term in Turtle, with all IRIs in full.
///
/// `TooLong` exactly where it has more than 2^27 bytes, and `Memory` where memory runs out.
pub fn term_text(alloc: Global, term: &Term) -> Result<Text, WriteFault>
    ensures text { IfOk result (λ text. text ≡ full_term term.now) }
    ensures within { IfOk result (λ text. length (encode_utf8_all text) ≤ most_bytes) }
    ensures too_long { IsErrOf result WriteFault.TooLong → most_bytes < length (encode_utf8_all (full_term term.now)) }
{
    let mut draft = Draft::new(alloc);
    add_term(&mut draft, &Prefixes::empty(alloc), term)?;
    Ok(draft.into_text())
}

/// The terms of a triple in Turtle, with all IRIs in full.
///
/// `TooLong` exactly where they have more than 2^27 bytes, and `Memory` where memory runs out.
pub fn triple_text(alloc: Global, triple: &Triple) -> Result<Text, WriteFault>
    ensures text { IfOk result (λ text. text ≡ full_triple triple.now) }
    ensures within { IfOk result (λ text. length (encode_utf8_all text) ≤ most_bytes) }
    ensures too_long { IsErrOf result WriteFault.TooLong → most_bytes < length (encode_utf8_all (full_triple triple.now)) }
{
    let mut draft = Draft::new(alloc);
    add_full_triple(&mut draft, &Prefixes::empty(alloc), triple)?;
    Ok(draft.into_text())
}
