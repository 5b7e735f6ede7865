//! The text of a graph in Turtle, in each layout.

ghost use Rattle.std.specs.Prelude.{◌≡◌, ◌≤◌, IfOk, IsErrOf, length};
ghost use Rattle.std.specs.Str.{encode_utf8_all};
ghost use Rattle.owl_characters.specs.Limit.{most_bytes};
ghost use Rattle.owl_command.specs.declared.command.Layout.TheVariants as layouts;
ghost use Rattle.owl_writing.specs.Tables.{written_prefixes};
ghost use Rattle.owl_writing.specs.declared.fault.WriteFault.{WriteFault};
ghost use Rattle.owl_answer.specs.GraphTexts.{HaveRoles, IsTooLong};
ghost use Rattle.owl_answer.specs.TurtleOutcome.{IsGraphText, ReadsLaidOut};

use owl_atom::Prefixes;
use owl_characters::Text;
use owl_command::Layout;
use rdf_graph::Graph;
use rdf_roles::{NodeFault, Roles};
use std::alloc::Global;
use ttl_write::WriteFault;

/// The text of the graph: a line for each triple, or with brackets and collections.
pub fn graph_text(
    alloc: Global,
    layout: Layout,
    graph: &Graph,
    prefixes: &Prefixes,
) -> Result<Text, WriteFault>
    requires { HaveRoles graph.now }
    ensures text { IfOk result (IsGraphText layout prefixes.now graph.now) }
    ensures within { IfOk result (λ text. length (encode_utf8_all text) ≤ most_bytes) }
    ensures too_long { IsErrOf result WriteFault.TooLong
        → IsTooLong layout prefixes.now graph.now }
    ensures reads_back { IfOk result (λ text. ReadsLaidOut layout (encode_utf8_all text)
        (written_prefixes prefixes.now) graph.now) }
{
    match layout {
        Layout::Flat => ttl_write::write(alloc, graph, prefixes),
        Layout::Nested => nested_text(alloc, graph, prefixes),
    }
}

/// The text with brackets and collections.
fn nested_text(alloc: Global, graph: &Graph, prefixes: &Prefixes) -> Result<Text, WriteFault>
    requires { HaveRoles graph.now }
    ensures text { IfOk result (IsGraphText layouts.Nested prefixes.now graph.now) }
    ensures within { IfOk result (λ text. length (encode_utf8_all text) ≤ most_bytes) }
    ensures too_long { IsErrOf result WriteFault.TooLong
        → IsTooLong layouts.Nested prefixes.now graph.now }
    ensures reads_back { IfOk result (λ text. ReadsLaidOut layouts.Nested (encode_utf8_all text)
        (written_prefixes prefixes.now) graph.now) }
{
    match Roles::of(alloc, graph) {
        Ok(roles) => ttl_nest::write(alloc, graph, &roles, prefixes),
        Err(NodeFault::Memory) => Err(WriteFault::Memory),
        Err(_) => unreachable!(),
    }
}
