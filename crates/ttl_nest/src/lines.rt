//! The lines of a text.

ghost use Rattle.std.specs.Prelude.{◌≡◌, ◌++◌, ◌∷◌, [], flat_map, IsErrOf, List, OnOk};
ghost use Rattle.owl_writing.specs.Limits.{IsTooLong};
ghost use Rattle.owl_writing.specs.declared.fault.WriteFault.{WriteFault};
ghost use Rattle.ttl_levels.specs.Nested.{most_levels};
ghost use Rattle.ttl_nested.specs.Forms.{Form, Line};
ghost use Rattle.ttl_nested.specs.NestedText.{line_text};
ghost use Rattle.ttl_write.specs.Formed.{AreFormed, IsFormedTriple};
ghost use Rattle.ttl_nest.specs.NestedForm.{AreLinesFor, IsFormOf, IsNestedForm};
ghost use Rattle.ttl_nest.specs.Sources.{IsShallow, IsSource, line_of};

use crate::objects::add_object;
use crate::source::Source;
use owl_writing::{Draft, WriteFault};
use rdf_graph::Triple;
use ttl_levels::MOST_LEVELS;
use ttl_write::{add_term, known};

/// Adds the lines of the graph.
pub fn add_lines(draft: &mut Draft, source: &Source) -> Result<(), WriteFault>
    requires source { IsSource source.now }
    ensures ok { OnOk result ((lines : List Line) → IsNestedForm source.now.graph.now lines
        → draft.new ≡ draft.old ++ flat_map (line_text source.now.prefixes.now) lines) }
    ensures too_long { IsErrOf result WriteFault.TooLong → (lines : List Line)
        → IsNestedForm source.now.graph.now lines
        → IsTooLong (draft.old ++ flat_map (line_text source.now.prefixes.now) lines) }
    ensures formed { OnOk result (AreFormed source.now.graph.now) }
{
    let mut rest = source.graph.triples();
    while let Some((triple, behind)) = rest.split_first() {
        add_line(draft, source, triple)?;
        rest = behind;
    }
    Ok(())
}

/// Adds the line of a triple, unless its subject is nested.
fn add_line(draft: &mut Draft, source: &Source, triple: &Triple) -> Result<(), WriteFault>
    requires source { IsSource source.now }
    ensures ok { OnOk result ((lines : List Line)
        → AreLinesFor source.now.graph.now (triple.now ∷ []) lines
        → draft.new ≡ draft.old ++ flat_map (line_text source.now.prefixes.now) lines) }
    ensures too_long { IsErrOf result WriteFault.TooLong → (lines : List Line)
        → AreLinesFor source.now.graph.now (triple.now ∷ []) lines
        → IsTooLong (draft.old ++ flat_map (line_text source.now.prefixes.now) lines) }
    ensures formed { OnOk result (IsFormedTriple triple.now) }
{
    // What the terms of every triple are.
    known(&triple.subject);
    triple.predicate.text();
    known(&triple.object);
    if source.nests.is_nested(source.roles, &triple.subject) {
        return Ok(());
    }
    add_statement(draft, source, triple)
}

/// Adds the line of a triple.
fn add_statement(draft: &mut Draft, source: &Source, triple: &Triple) -> Result<(), WriteFault>
    requires source { IsSource source.now }
    ensures ok { OnOk result ((form : Form) → IsFormOf source.now.graph.now triple.now.object form
        → draft.new ≡ draft.old ++ line_text source.now.prefixes.now (line_of triple.now form)) }
    ensures too_long { IsErrOf result WriteFault.TooLong → (form : Form)
        → IsFormOf source.now.graph.now triple.now.object form
        → IsTooLong (draft.old ++ line_text source.now.prefixes.now (line_of triple.now form)) }
{
    add_term(draft, source.prefixes, &triple.subject)?;
    draft.add_ascii(" ")?;
    draft.add_iri(source.prefixes, &triple.predicate)?;
    draft.add_ascii(" ")?;
    add_object(draft, source, &triple.object, MOST_LEVELS)?;
    draft.add_ascii(" .\n")
}
