//! The lines of a text.

ghost use Rattle.std.specs.Prelude.{◌≡◌, ◌++◌, [], flat_map, IsErrOf, OnOk};
ghost use Rattle.std.specs.Str.{chars};
ghost use Rattle.owl_characters.specs.Iri.{IsIri};
ghost use Rattle.owl_writing.specs.Limits.{IsTooLong};
ghost use Rattle.owl_writing.specs.Tables.{HaveIris};
ghost use Rattle.owl_writing.specs.declared.fault.WriteFault.{WriteFault};
ghost use Rattle.ttl_write.specs.Formed.{AreFormed, IsFormedTriple};
ghost use Rattle.ttl_write.specs.Text.{full_triple, lines_of, namespace_line, prefix_line, triple_line};

use crate::terms::{add_term, known};
use owl_atom::{Iri, Prefixes};
use owl_writing::{Draft, WriteFault};
use rdf_graph::{Graph, Triple};

/// Adds the lines of a graph, in which IRIs are abbreviated by these prefixes.
#[tactic(auto, using(owl_characters::proofs::Utf8Laws::size_append))]
pub fn add_graph(draft: &mut Draft, prefixes: &Prefixes, graph: &Graph) -> Result<(), WriteFault>
    ensures ok { OnOk result (draft.new ≡ draft.old ++ lines_of prefixes.now graph.now) }
    ensures too_long { IsErrOf result WriteFault.TooLong
        → IsTooLong (draft.old ++ lines_of prefixes.now graph.now) }
    ensures iris { OnOk result (HaveIris prefixes.now) }
    ensures formed { OnOk result (AreFormed graph.now) }
{
    add_prefixes(draft, prefixes)?;
    add_triples(draft, prefixes, graph)
}

/// Adds a line for each prefix.
pub fn add_prefixes(draft: &mut Draft, prefixes: &Prefixes) -> Result<(), WriteFault>
    ensures ok { OnOk result (draft.new ≡ draft.old ++ flat_map prefix_line prefixes.now) }
    ensures too_long { IsErrOf result WriteFault.TooLong
        → IsTooLong (draft.old ++ flat_map prefix_line prefixes.now) }
    ensures iris { OnOk result (HaveIris prefixes.now) }
{
    for place in 0..prefixes.len() {
        let (name, iri) = prefixes.at(place);
        add_prefix(draft, name, iri)?;
    }
    Ok(())
}

/// Adds the line of a prefix.
#[tactic(auto, using(owl_characters::proofs::Utf8Laws::size_append))]
fn add_prefix(draft: &mut Draft, name: &str, iri: &Iri) -> Result<(), WriteFault>
    ensures ok { OnOk result (draft.new ≡ draft.old ++ namespace_line (chars name.now) iri.now) }
    ensures too_long { IsErrOf result WriteFault.TooLong
        → IsTooLong (draft.old ++ namespace_line (chars name.now) iri.now) }
    ensures iri { OnOk result (IsIri iri.now) }
{
    // What an IRI holds is one.
    iri.text();
    draft.add_ascii("@prefix ")?;
    draft.add(name)?;
    draft.add_ascii(": ")?;
    draft.add_full_iri(iri)?;
    draft.add_ascii(" .\n")
}

/// Adds a line for each triple of the graph.
fn add_triples(draft: &mut Draft, prefixes: &Prefixes, graph: &Graph) -> Result<(), WriteFault>
    ensures ok { OnOk result (draft.new
        ≡ draft.old ++ flat_map (triple_line prefixes.now) graph.now) }
    ensures too_long { IsErrOf result WriteFault.TooLong
        → IsTooLong (draft.old ++ flat_map (triple_line prefixes.now) graph.now) }
    ensures formed { OnOk result (AreFormed graph.now) }
{
    for place in 0..graph.len() {
        add_triple(draft, prefixes, graph.at(place))?;
    }
    Ok(())
}

/// Adds the line of a triple.
#[tactic(auto, using(owl_characters::proofs::Utf8Laws::size_append))]
fn add_triple(draft: &mut Draft, prefixes: &Prefixes, triple: &Triple) -> Result<(), WriteFault>
    ensures ok { OnOk result (draft.new ≡ draft.old ++ triple_line prefixes.now triple.now) }
    ensures too_long { IsErrOf result WriteFault.TooLong
        → IsTooLong (draft.old ++ triple_line prefixes.now triple.now) }
    ensures formed { OnOk result (IsFormedTriple triple.now) }
{
    // What the terms of every triple are.
    known(&triple.subject);
    triple.predicate.text();
    known(&triple.object);
    add_term(draft, prefixes, &triple.subject)?;
    draft.add_ascii(" ")?;
    draft.add_iri(prefixes, &triple.predicate)?;
    draft.add_ascii(" ")?;
    add_term(draft, prefixes, &triple.object)?;
    draft.add_ascii(" .\n")
}

/// Adds the terms of a triple, with IRIs in full.
#[tactic(auto, using(owl_characters::proofs::Utf8Laws::size_append))]
pub fn add_full_triple(
    draft: &mut Draft,
    none: &Prefixes,
    triple: &Triple,
) -> Result<(), WriteFault>
    requires { none.now ≡ [] }
    ensures ok { OnOk result (draft.new ≡ draft.old ++ full_triple triple.now) }
    ensures too_long { IsErrOf result WriteFault.TooLong
        → IsTooLong (draft.old ++ full_triple triple.now) }
{
    add_term(draft, none, &triple.subject)?;
    draft.add_ascii(" ")?;
    draft.add_full_iri(&triple.predicate)?;
    draft.add_ascii(" ")?;
    add_term(draft, none, &triple.object)
}
