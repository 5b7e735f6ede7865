//! How objects are written: by a term, in brackets, or as a collection.

ghost use Rattle.std.specs.Prelude.{◌≡◌, ◌++◌, IsErrOf, List, OnOk, codes, suc};
ghost use Rattle.std.specs.List.{AllByRecursion};
ghost use Rattle.owl_writing.specs.Limits.{IsTooLong};
ghost use Rattle.owl_writing.specs.Terms.{iri_text};
ghost use Rattle.owl_writing.specs.declared.fault.WriteFault.{WriteFault};
ghost use Rattle.rdf_graph.specs.declared.triple.Triple.{Triple};
ghost use Rattle.ttl_levels.specs.Nested.{HasCells, IsNested, IsRound};
ghost use Rattle.ttl_nested.specs.Forms.{Cells, Form, Pairs};
ghost use Rattle.ttl_nested.specs.NestedText.{cells_text, form_text, pairs_text, separator};
ghost use Rattle.ttl_nest.specs.NestedForm.{AreCellsFrom, ArePairsOf, IsFormOf};
ghost use Rattle.ttl_nest.specs.Sources.{AreShallowCells, IsShallow, IsSource};

use crate::source::Source;
use owl_writing::{Draft, WriteFault};
use rdf_graph::{Term, Triple};
use ttl_write::add_term;

/// Adds a term as an object, of so many levels at most.
#[cycle(objects)]
pub fn add_object(
    draft: &mut Draft,
    source: &Source,
    term: &Term,
    depth: usize,
) -> Result<(), WriteFault>
    requires source { IsSource source.now }
    requires shallow { IsShallow source.now.graph.now term.now depth }
    ensures ok { OnOk result ((form : Form) → IsFormOf source.now.graph.now term.now form
        → draft.new ≡ draft.old ++ form_text source.now.prefixes.now form) }
    ensures too_long { IsErrOf result WriteFault.TooLong → (form : Form)
        → IsFormOf source.now.graph.now term.now form
        → IsTooLong (draft.old ++ form_text source.now.prefixes.now form) }
{
    if !source.nests.is_nested(source.roles, term) {
        return add_term(draft, source.prefixes, term);
    }
    if depth == 0 {
        unreachable!();
    }
    let count = source.nests.cells(source.roles, term);
    if count == 0 {
        return add_square(draft, source, term, depth - 1);
    }
    add_round(draft, source, term, count, depth - 1)
}

/// Adds the node in brackets.
#[cycle(objects)]
fn add_square(
    draft: &mut Draft,
    source: &Source,
    term: &Term,
    depth: usize,
) -> Result<(), WriteFault>
    requires source { IsSource source.now }
    requires nested { IsNested source.now.graph.now term.now }
    requires not_round { IsRound source.now.graph.now term.now → ⊥ }
    requires shallow { IsShallow source.now.graph.now term.now (suc depth) }
    ensures ok { OnOk result ((form : Form) → IsFormOf source.now.graph.now term.now form
        → draft.new ≡ draft.old ++ form_text source.now.prefixes.now form) }
    ensures too_long { IsErrOf result WriteFault.TooLong → (form : Form)
        → IsFormOf source.now.graph.now term.now form
        → IsTooLong (draft.old ++ form_text source.now.prefixes.now form) }
{
    draft.add_ascii("[ ")?;
    add_pairs(draft, source, source.graph.about(term), depth)?;
    draft.add_ascii("]")
}

/// Adds the round node, which has so many cells, as a collection.
#[cycle(objects)]
fn add_round(
    draft: &mut Draft,
    source: &Source,
    term: &Term,
    count: usize,
    depth: usize,
) -> Result<(), WriteFault>
    requires source { IsSource source.now }
    requires nested { IsNested source.now.graph.now term.now }
    requires some { IsRound source.now.graph.now term.now }
    requires cells { HasCells source.now.graph.now count term.now }
    requires shallow { AreShallowCells source.now.graph.now term.now count depth }
    ensures ok { OnOk result ((form : Form) → IsFormOf source.now.graph.now term.now form
        → draft.new ≡ draft.old ++ form_text source.now.prefixes.now form) }
    ensures too_long { IsErrOf result WriteFault.TooLong → (form : Form)
        → IsFormOf source.now.graph.now term.now form
        → IsTooLong (draft.old ++ form_text source.now.prefixes.now form) }
{
    draft.add_ascii("( ")?;
    add_cells(draft, source, term, count, depth)?;
    draft.add_ascii(")")
}

/// Adds the elements of so many cells, from this one on.
#[cycle(objects)]
fn add_cells(
    draft: &mut Draft,
    source: &Source,
    term: &Term,
    count: usize,
    depth: usize,
) -> Result<(), WriteFault>
    requires source { IsSource source.now }
    requires cells { HasCells source.now.graph.now count term.now }
    requires shallow { AreShallowCells source.now.graph.now term.now count depth }
    ensures ok { OnOk result ((cells : Cells) → AreCellsFrom source.now.graph.now term.now cells
        → draft.new ≡ draft.old ++ cells_text source.now.prefixes.now cells) }
    ensures too_long { IsErrOf result WriteFault.TooLong → (cells : Cells)
        → AreCellsFrom source.now.graph.now term.now cells
        → IsTooLong (draft.old ++ cells_text source.now.prefixes.now cells) }
{
    let mut cell = term;
    let mut left = count;
    while left != 0 {
        let [first, rest] = source.graph.about(cell) else {
            unreachable!();
        };
        add_element(draft, source, &first.object, depth)?;
        cell = &rest.object;
        left -= 1;
    }
    Ok(())
}

/// Adds an element, with a space behind it.
#[cycle(objects)]
fn add_element(
    draft: &mut Draft,
    source: &Source,
    term: &Term,
    depth: usize,
) -> Result<(), WriteFault>
    requires source { IsSource source.now }
    requires shallow { IsShallow source.now.graph.now term.now depth }
    ensures ok { OnOk result ((form : Form) → IsFormOf source.now.graph.now term.now form
        → draft.new ≡ draft.old ++ (form_text source.now.prefixes.now form ++ codes " ")) }
    ensures too_long { IsErrOf result WriteFault.TooLong → (form : Form)
        → IsFormOf source.now.graph.now term.now form
        → IsTooLong (draft.old ++ (form_text source.now.prefixes.now form ++ codes " ")) }
{
    add_object(draft, source, term, depth)?;
    draft.add_ascii(" ")
}

/// Adds the predicates and objects of triples.
#[cycle(objects)]
fn add_pairs(
    draft: &mut Draft,
    source: &Source,
    triples: &[Triple],
    depth: usize,
) -> Result<(), WriteFault>
    requires source { IsSource source.now }
    requires shallow { AllByRecursion (λ t. IsShallow source.now.graph.now t.object depth)
        triples.now }
    ensures ok { OnOk result ((pairs : Pairs) → ArePairsOf source.now.graph.now triples.now pairs
        → draft.new ≡ draft.old ++ pairs_text source.now.prefixes.now pairs) }
    ensures too_long { IsErrOf result WriteFault.TooLong → (pairs : Pairs)
        → ArePairsOf source.now.graph.now triples.now pairs
        → IsTooLong (draft.old ++ pairs_text source.now.prefixes.now pairs) }
{
    let mut rest = triples;
    while let Some((triple, behind)) = rest.split_first() {
        add_pair(draft, source, triple, behind, depth)?;
        rest = behind;
    }
    Ok(())
}

/// Adds the predicate and the object of a triple, and what stands between it and those behind.
#[cycle(objects)]
fn add_pair(
    draft: &mut Draft,
    source: &Source,
    triple: &Triple,
    behind: &[Triple],
    depth: usize,
) -> Result<(), WriteFault>
    requires source { IsSource source.now }
    requires shallow { IsShallow source.now.graph.now triple.now.object depth }
    ensures ok { OnOk result ((object : Form) (more : Pairs)
        → IsFormOf source.now.graph.now triple.now.object object
        → ArePairsOf source.now.graph.now behind.now more
        → draft.new ≡ draft.old ++ (iri_text source.now.prefixes.now triple.now.predicate ++ (codes " "
        ++ ((form_text source.now.prefixes.now object ++ codes " ") ++ separator more)))) }
    ensures too_long { IsErrOf result WriteFault.TooLong → (object : Form) (more : Pairs)
        → IsFormOf source.now.graph.now triple.now.object object
        → ArePairsOf source.now.graph.now behind.now more
        → IsTooLong (draft.old ++ (iri_text source.now.prefixes.now triple.now.predicate ++ (codes " "
        ++ ((form_text source.now.prefixes.now object ++ codes " ") ++ separator more)))) }
{
    draft.add_iri(source.prefixes, &triple.predicate)?;
    draft.add_ascii(" ")?;
    add_element(draft, source, &triple.object, depth)?;
    add_separator(draft, behind)
}

/// Adds what stands in front of these triples.
fn add_separator(draft: &mut Draft, behind: &[Triple]) -> Result<(), WriteFault>
    ensures ok { OnOk result ((g : List Triple) (more : Pairs) → ArePairsOf g behind.now more
        → draft.new ≡ draft.old ++ separator more) }
    ensures too_long { IsErrOf result WriteFault.TooLong → (g : List Triple) (more : Pairs)
        → ArePairsOf g behind.now more → IsTooLong (draft.old ++ separator more) }
{
    match behind {
        [] => Ok(()),
        [_, ..] => draft.add_ascii("; "),
    }
}
