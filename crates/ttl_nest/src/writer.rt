//! The text of a graph.

ghost use Rattle.std.specs.Prelude.{◌≡◌, ◌≤◌, IfOk, IsErrOf, length};
ghost use Rattle.std.specs.Str.{encode_utf8_all};
ghost use Rattle.owl_characters.specs.Limit.{most_bytes};
ghost use Rattle.owl_writing.specs.Tables.{written_prefixes};
ghost use Rattle.owl_writing.specs.declared.fault.WriteFault.{WriteFault};
ghost use Rattle.rdf_graph.specs.declared.term.Term.TheVariants.{Blank};
ghost use Rattle.rdf_roles.specs.Tables.{IsTableOf};
ghost use Rattle.ttl_levels.specs.Nested.{IsNested};
ghost use Rattle.ttl_nested.specs.Renaming.{ReadsRenamed};
ghost use Rattle.ttl_nest.specs.NestedForm.{IsNestedText, IsTooLongText};

use crate::lines::add_lines;
use crate::source::Source;
use owl_atom::Prefixes;
use owl_characters::Text;
use owl_writing::{Draft, WriteFault, written_prefixes};
use rdf_graph::Graph;
use rdf_roles::Roles;
use std::alloc::Global;
use ttl_levels::Nests;
use ttl_write::add_prefixes;

/// The text of the graph in Turtle, where blank nodes that need no label have none: the lines of the prefixes, and then a line for
/// each triple whose subject is not nested, in the order of the graph. A node of a list, an expression or a facet is nested where it
/// is the object of exactly one triple and all its own triples are structural, within 500 levels. It is written in brackets, or, where
/// it begins a list whose cells are nested, as a collection.
///
/// The text reads back to the same graph under other labels, whatever base IRI it is read against: blank nodes that differ
/// get labels that do, and those that are not nested keep theirs.
///
/// `TooLong` exactly where it has more than 2^27 bytes, and `Memory` where memory runs out.
pub fn write(
    alloc: Global,
    graph: &Graph,
    roles: &Roles,
    prefixes: &Prefixes,
) -> Result<Text, WriteFault>
    requires { IsTableOf graph.now roles.now }
    ensures text { IfOk result (IsNestedText prefixes.now graph.now) }
    ensures within { IfOk result (λ text. length (encode_utf8_all text) ≤ most_bytes) }
    ensures too_long { IsErrOf result WriteFault.TooLong → IsTooLongText prefixes.now graph.now }
    ensures reads_back { IfOk result (λ text.
        ReadsRenamed (λ label. IsNested graph.now (Blank label)) (encode_utf8_all text)
        (written_prefixes prefixes.now) graph.now) }
{
    // What is known of every graph and of every table.
    graph.len();
    prefixes.len();
    let written = written_prefixes(alloc, prefixes)?;
    let nests = Nests::of(alloc, graph, roles)?;
    let mut draft = Draft::new(alloc);
    add_prefixes(&mut draft, &written)?;
    let source = Source {
        prefixes: &written,
        graph,
        roles,
        nests: &nests,
    };
    add_lines(&mut draft, &source)?;
    let text = draft.into_text();
    text.as_str();
    Ok(text)
}
