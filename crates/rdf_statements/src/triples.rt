//! The axioms that triples are, in a store.

ghost use Rattle.std.specs.Prelude.{◌≡◌, ◌<◌, ◌∷◌, [], Contains, IfErr, IfOk, OnOk, Some, length, slice_get};
ghost use Rattle.std.specs.List.{filter};
ghost use Rattle.rdf_annotations.specs.Annotations.{IsFaultOfSome};
ghost use Rattle.rdf_graph.specs.declared.triple.Triple.{Triple};
ghost use Rattle.rdf_meaning.specs.Statements.{AreAxioms, IsAxiomOf, main_triples};
ghost use Rattle.rdf_statements.specs.Holding.{Adds, HaveKnownKids, IsKnown, IsKnownFault, StandForSome, is_main_triple};
ghost use Rattle.tree_stores.specs.Stores.{Keeps};

use crate::forms::form_of_triple;
use crate::hold_forms::hold_form;
use crate::known::Known;
use crate::stated::StatedAxioms;
use rdf_nodes::Source;
use rdf_scans::{is_main, sort_of};
use tree_stores::{TreeFault, TreeStore, add_first_kids};

/// Adds the axioms that triples of the graph are.
pub(crate) fn add_triples<S: TreeStore>(
    known: &Known<S::Number>,
    store: &mut S,
    axioms: &mut StatedAxioms<S::Number>,
) -> Result<(), TreeFault<S::Heavy>>
    requires known { IsKnown (S.stands store.old) known.now }
    requires kids { HaveKnownKids (S.stands store.old) known.now axioms.old.kids }
    ensures added { OnOk result (Adds (S.stands store.old) (S.stands store.new)
        (AreAxioms known.now.annotated.reading.graph.now known.now.annotated.reading.kinds.now
        (main_triples known.now.annotated.reading.graph.now
        known.now.annotated.reading.kinds.now known.now.annotated.reading.header.now))
        axioms.old.numbers.items axioms.new.numbers.items) }
    ensures kids { OnOk result (HaveKnownKids (S.stands store.new) known.now axioms.new.kids) }
    ensures fault { IfErr result (IsKnownFault known.now) }
    ensures kept { Keeps (S.stands store.old) (S.stands store.new) }
{
    for place in 0..known.annotated.reading.graph.len() {
        add_triple(known, store, place, axioms)?;
    }
    Ok(())
}

/// Adds the axioms that the triple at this place is, where it is one.
fn add_triple<S: TreeStore>(
    known: &Known<S::Number>,
    store: &mut S,
    place: usize,
    axioms: &mut StatedAxioms<S::Number>,
) -> Result<(), TreeFault<S::Heavy>>
    requires known { IsKnown (S.stands store.old) known.now }
    requires place { place < length known.now.annotated.reading.graph.now }
    requires kids { HaveKnownKids (S.stands store.old) known.now axioms.old.kids }
    ensures added { (t : Triple) → slice_get known.now.annotated.reading.graph.now place ≡ Some t →
        OnOk result (Adds (S.stands store.old) (S.stands store.new)
        (AreAxioms known.now.annotated.reading.graph.now known.now.annotated.reading.kinds.now
        (filter (is_main_triple known.now.annotated.reading.graph.now
        known.now.annotated.reading.kinds.now known.now.annotated.reading.header.now) (t ∷ [])))
        axioms.old.numbers.items axioms.new.numbers.items) }
    ensures kids { OnOk result (HaveKnownKids (S.stands store.new) known.now axioms.new.kids) }
    ensures fault { IfErr result (IsKnownFault known.now) }
    ensures kept { Keeps (S.stands store.old) (S.stands store.new) }
{
    let reading = &known.annotated.reading;
    if !is_main(sort_of(reading, reading.graph.at(place))) {
        return Ok(());
    }
    let before = store.count();
    let mut more = hold_triple(known, store, place)?;
    axioms.kids = add_first_kids(store, before, &more, axioms.kids)?;
    axioms.numbers.append(&mut more)?;
    Ok(())
}

/// The numbers of the axioms that the triple at this place is.
fn hold_triple<S: TreeStore>(
    known: &Known<S::Number>,
    store: &mut S,
    place: usize,
) -> Result<Vec<S::Number>, TreeFault<S::Heavy>>
    requires known { IsKnown (S.stands store.old) known.now }
    requires place { place < length known.now.annotated.reading.graph.now }
    requires main { (t : Triple) → slice_get known.now.annotated.reading.graph.now place ≡ Some t →
        Contains (main_triples known.now.annotated.reading.graph.now
        known.now.annotated.reading.kinds.now known.now.annotated.reading.header.now) t }
    ensures held { (t : Triple) → slice_get known.now.annotated.reading.graph.now place ≡ Some t →
        IfOk result (λ ns. StandForSome (S.stands store.new)
        (AreAxioms known.now.annotated.reading.graph.now known.now.annotated.reading.kinds.now
        (t ∷ [])) ns.items) }
    ensures fault { (t : Triple) → slice_get known.now.annotated.reading.graph.now place ≡ Some t →
        IfErr result (IsFaultOfSome (IsAxiomOf known.now.annotated.reading.graph.now
        known.now.annotated.reading.kinds.now t)) }
    ensures kept { Keeps (S.stands store.old) (S.stands store.new) }
{
    let sets = known.annotated.variants(store, known.sets, place)?;
    let reading = known.annotated.reading;
    let source = Source {
        alloc: known.annotated.alloc,
        graph: reading.graph,
        roles: reading.roles,
        kinds: reading.kinds,
    };
    let Some(form) = form_of_triple(&source, reading.graph.at(place))? else {
        unreachable!();
    };
    hold_form(&source, store, known.ids, &form, &sets)
}
