//! The axioms that nodes stand for, in a store.

ghost use Rattle.std.specs.Prelude.{◌≡◌, ◌<◌, ◌∷◌, [], IfErr, IfOk, List, OnOk, Some, ℕ, length, slice_get};
ghost use Rattle.rdf_annotations.specs.Annotations.{IsFaultOfSome};
ghost use Rattle.rdf_graph.specs.declared.term.Term.TheVariants as held;
ghost use Rattle.rdf_meaning.specs.declared.role.Role.TheVariants as role;
ghost use Rattle.rdf_meaning.specs.Nodes.{is_role, nodes_of, role_of};
ghost use Rattle.rdf_meaning.specs.Statements.{AreNodeAxioms, IsNotedTree};
ghost use Rattle.rdf_roles.specs.Tables.{blank_nodes};
ghost use Rattle.rdf_statements.specs.BareAxioms.{AreBareAxioms};
ghost use Rattle.rdf_statements.specs.GraphTrees.{IsTreeOf};
ghost use Rattle.rdf_statements.specs.Holding.{Adds, HaveKnownKids, IsKnown, IsKnownFault, IsOnlySet, StandForSome, main_nodes};
ghost use Rattle.tree_stores.specs.Stores.{Keeps};

use crate::bare::{BareAxioms, hold_node_once};
use crate::forms::form_of_node;
use crate::hold_forms::hold_form;
use crate::known::Known;
use crate::stated::StatedAxioms;
use owl_characters::NoMemory;
use rdf_graph::Term;
use rdf_meaning::Role;
use rdf_nodes::Source;
use rdf_terms::Label;
use std::alloc::{AllocError, Global};
use tree_stores::{TreeFault, TreeStore, add_first_kids};

/// Adds the axioms that nodes of the graph stand for.
pub(crate) fn add_nodes<S: TreeStore>(
    known: &Known<S::Number>,
    store: &mut S,
    axioms: &mut StatedAxioms<S::Number>,
) -> Result<(), TreeFault<S::Heavy>>
    requires known { IsKnown (S.stands store.old) known.now }
    requires kids { HaveKnownKids (S.stands store.old) known.now axioms.old.kids }
    ensures added { OnOk result (Adds (S.stands store.old) (S.stands store.new)
        (AreNodeAxioms known.now.annotated.reading.graph.now
        known.now.annotated.reading.kinds.now
        (nodes_of known.now.annotated.reading.graph.now role.Main))
        axioms.old.numbers.items axioms.new.numbers.items) }
    ensures kids { OnOk result (HaveKnownKids (S.stands store.new) known.now axioms.new.kids) }
    ensures fault { IfErr result (IsKnownFault known.now) }
    ensures kept { Keeps (S.stands store.old) (S.stands store.new) }
{
    let reading = known.annotated.reading;
    let mut bare = BareAxioms::none(&Source {
        alloc: known.annotated.alloc,
        graph: reading.graph,
        roles: reading.roles,
        kinds: reading.kinds,
    })?;
    for number in 0..reading.roles.len() {
        add_node(known, store, &mut bare, number, axioms)?;
    }
    Ok(())
}

/// Adds the axiom that the node with this number stands for, where it does.
fn add_node<S: TreeStore>(
    known: &Known<S::Number>,
    store: &mut S,
    bare: &mut BareAxioms<S::Number>,
    number: usize,
    axioms: &mut StatedAxioms<S::Number>,
) -> Result<(), TreeFault<S::Heavy>>
    requires known { IsKnown (S.stands store.old) known.now }
    requires bare { AreBareAxioms known.now.annotated.reading.graph.now
        known.now.annotated.reading.kinds.now known.now.annotated.reading.roles.now
        (S.stands store.old) bare.old.numbers.items }
    requires number { number < length known.now.annotated.reading.roles.now.nodes }
    requires kids { HaveKnownKids (S.stands store.old) known.now axioms.old.kids }
    ensures added { (label : List ℕ)
        → slice_get (blank_nodes known.now.annotated.reading.graph.now) number ≡ Some label →
        OnOk result (Adds (S.stands store.old) (S.stands store.new)
        (AreNodeAxioms known.now.annotated.reading.graph.now
        known.now.annotated.reading.kinds.now
        (main_nodes known.now.annotated.reading.graph.now (label ∷ [])))
        axioms.old.numbers.items axioms.new.numbers.items) }
    ensures bare { OnOk result (AreBareAxioms known.now.annotated.reading.graph.now
        known.now.annotated.reading.kinds.now known.now.annotated.reading.roles.now
        (S.stands store.new) bare.new.numbers.items) }
    ensures kids { OnOk result (HaveKnownKids (S.stands store.new) known.now axioms.new.kids) }
    ensures fault { IfErr result (IsKnownFault known.now) }
    ensures kept { Keeps (S.stands store.old) (S.stands store.new) }
{
    let roles = known.annotated.reading.roles;
    let Some(label) = roles.node(number) else {
        unreachable!();
    };
    if !is_main(roles.role(label)) {
        return Ok(());
    }
    let before = store.count();
    let mut more = hold_node_once(known, store, bare, number, label)?;
    axioms.kids = add_first_kids(store, before, &more, axioms.kids)?;
    axioms.numbers.append(&mut more)?;
    Ok(())
}

/// The number of the axiom that the node stands for.
pub(crate) fn hold_node<S: TreeStore>(
    known: &Known<S::Number>,
    store: &mut S,
    label: &Label,
) -> Result<Vec<S::Number>, TreeFault<S::Heavy>>
    requires known { IsKnown (S.stands store.old) known.now }
    requires main { role_of known.now.annotated.reading.graph.now (held.Blank label.now)
        ≡ role.Main }
    ensures held { IfOk result (λ ns. StandForSome (S.stands store.new)
        (AreNodeAxioms known.now.annotated.reading.graph.now
        known.now.annotated.reading.kinds.now (held.Blank label.now ∷ [])) ns.items) }
    ensures fault { IfErr result (IsFaultOfSome (IsTreeOf known.now.annotated.reading.graph.now
        known.now.annotated.reading.kinds.now known.now.annotated.reading.header.now)) }
    ensures kept { Keeps (S.stands store.old) (S.stands store.new) }
{
    let sets = hold_only_set(known, store, label)?;
    let reading = known.annotated.reading;
    let source = Source {
        alloc: known.annotated.alloc,
        graph: reading.graph,
        roles: reading.roles,
        kinds: reading.kinds,
    };
    let Some(form) = form_of_node(&source, label)? else {
        unreachable!();
    };
    hold_form(&source, store, known.ids, &form, &sets)
}

/// The number of the set of annotations of the node, alone.
fn hold_only_set<S: TreeStore>(
    known: &Known<S::Number>,
    store: &mut S,
    label: &Label,
) -> Result<Vec<S::Number>, TreeFault<S::Heavy>>
    requires known { IsKnown (S.stands store.old) known.now }
    requires main { role_of known.now.annotated.reading.graph.now (held.Blank label.now)
        ≡ role.Main }
    ensures held { IfOk result (λ ns. IsOnlySet (S.stands store.new)
        known.now.annotated.reading.graph.now known.now.annotated.reading.kinds.now
        (held.Blank label.now) ns.items) }
    ensures fault { IfErr result (IsFaultOfSome (IsNotedTree
        known.now.annotated.reading.graph.now known.now.annotated.reading.kinds.now
        known.now.annotated.reading.header.now)) }
    ensures kept { Keeps (S.stands store.old) (S.stands store.new) }
{
    let node = Term::Blank(label.copy(known.annotated.alloc)?);
    let set = known.annotated.hold_set(store, known.sets, &node)?;
    Ok(alone(known.annotated.alloc, set)?)
}

/// The number alone.
pub(crate) fn alone<N: Copy>(alloc: Global, number: N) -> Result<Vec<N>, NoMemory>
    ensures { IfOk result (λ numbers. numbers.items ≡ number ∷ []) }
{
    let mut numbers = Vec::new(alloc);
    numbers.push(number).map_err(AllocError::from)?;
    Ok(numbers)
}

/// Whether nodes of the role stand for axioms.
fn is_main(own: Role) -> bool
    ensures { result ≡ is_role role.Main own }
{
    match own {
        Role::Main => true,
        _ => false,
    }
}
