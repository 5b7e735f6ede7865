//! Axioms without annotations that nodes stand for: those of nodes that have the same
//! triples are made once.

ghost use Rattle.std.specs.Prelude.{◌≡◌, ◌⊎◌, ◌∷◌, [], IfErr, IfOk, IsTrue, List, OnOk, Some, not, set, slice_get};
ghost use Rattle.std.specs.List.{filter};
ghost use Rattle.rdf_annotations.specs.Annotations.{IsFaultOfSome};
ghost use Rattle.rdf_graph.specs.declared.term.Term.TheVariants as held;
ghost use Rattle.rdf_graph.specs.declared.triple.Triple.{Triple};
ghost use Rattle.rdf_meaning.specs.declared.role.Role.TheVariants as role;
ghost use Rattle.rdf_meaning.specs.Nodes.{is_structural, role_of};
ghost use Rattle.rdf_meaning.specs.Statements.{AreNodeAxioms, notes_of};
ghost use Rattle.rdf_nodes.specs.Numbers.{HaveNone};
ghost use Rattle.rdf_nodes.specs.Operands.{labels};
ghost use Rattle.rdf_roles.specs.Tables.{IsTableOf};
ghost use Rattle.rdf_statements.specs.BareAxioms.{AreBareAxioms};
ghost use Rattle.rdf_statements.specs.GraphTrees.{IsTreeOf};
ghost use Rattle.rdf_statements.specs.Holding.{IsKnown, StandForSome};
ghost use Rattle.tree_stores.specs.Stores.{Keeps};

use crate::known::Known;
use crate::nodes::{alone, hold_node};
use owl_characters::NoMemory;
use rdf_asked::is_structural;
use rdf_graph::{Term, Triple};
use rdf_nodes::{Duplicates, Source, no_numbers};
use rdf_roles::Roles;
use rdf_terms::Label;
use tree_stores::{TreeFault, TreeStore};

/// The numbers of axioms without annotations, by those of the nodes that stand for
/// them.
#[derive(Debug, Drop)]
pub(crate) struct BareAxioms<N> {
    numbers: Vec<Option<N>>,
    duplicates: Duplicates,
}

impl<N: Copy> BareAxioms<N> {
    /// None yet.
    pub(crate) fn none(source: &Source) -> Result<BareAxioms<N>, NoMemory>
        requires { IsTableOf source.now.graph.now source.now.roles.now }
        ensures { IfOk result (λ bare. HaveNone bare.numbers.items) }
    {
        Ok(BareAxioms {
            numbers: no_numbers(source.alloc, source.roles.len())?,
            duplicates: Duplicates::of(source),
        })
    }

    /// Keeps the number, if it is one alone, as that of the node's axiom.
    fn keep(&mut self, number: usize, axioms: &[N])
        ensures { (self.new.numbers.items ≡ self.old.numbers.items)
            ⊎ ((n : N) × (axioms.now ≡ n ∷ [])
            × (self.new.numbers.items ≡ set self.old.numbers.items number (Some n))) }
    {
        if let [axiom] = axioms {
            if number < self.numbers.len() {
                self.numbers[number] = Some(*axiom);
            }
        }
    }
}

/// The number of the axiom that the node stands for: where it has no annotation, and a
/// node with the same triples stands for one that was held, that of the latter.
pub(crate) fn hold_node_once<S: TreeStore>(
    known: &Known<S::Number>,
    store: &mut S,
    bare: &mut BareAxioms<S::Number>,
    number: usize,
    label: &Label,
) -> Result<Vec<S::Number>, TreeFault<S::Heavy>>
    requires known { IsKnown (S.stands store.old) known.now }
    requires main { role_of known.now.annotated.reading.graph.now (held.Blank label.now)
        ≡ role.Main }
    requires at { slice_get (labels known.now.annotated.reading.roles.now) number
        ≡ Some label.now }
    requires bare { AreBareAxioms known.now.annotated.reading.graph.now
        known.now.annotated.reading.kinds.now known.now.annotated.reading.roles.now
        (S.stands store.old) bare.old.numbers.items }
    ensures held { IfOk result (λ ns. StandForSome (S.stands store.new)
        (AreNodeAxioms known.now.annotated.reading.graph.now
        known.now.annotated.reading.kinds.now (held.Blank label.now ∷ [])) ns.items) }
    ensures bare { OnOk result (AreBareAxioms known.now.annotated.reading.graph.now
        known.now.annotated.reading.kinds.now known.now.annotated.reading.roles.now
        (S.stands store.new) bare.new.numbers.items) }
    ensures fault { IfErr result (IsFaultOfSome (IsTreeOf known.now.annotated.reading.graph.now
        known.now.annotated.reading.kinds.now known.now.annotated.reading.header.now)) }
    ensures kept { Keeps (S.stands store.old) (S.stands store.new) }
{
    let reading = known.annotated.reading;
    let source = Source {
        alloc: known.annotated.alloc,
        graph: reading.graph,
        roles: reading.roles,
        kinds: reading.kinds,
    };
    if !is_bare(&source, label)? {
        return hold_node(known, store, label);
    }
    if let Some(axiom) = source.number_of_duplicate(&bare.numbers, &mut bare.duplicates, number)? {
        return Ok(alone(source.alloc, axiom)?);
    }
    let axioms = hold_node(known, store, label)?;
    bare.keep(number, &axioms);
    Ok(axioms)
}

/// Whether the node has no annotation.
fn is_bare(source: &Source, label: &Label) -> Result<bool, NoMemory>
    requires { IsTableOf source.now.graph.now source.now.roles.now }
    ensures { IfOk result (λ bare. IsTrue bare →
        notes_of source.now.graph.now (held.Blank label.now) ≡ []) }
{
    let node = Term::Blank(label.copy(source.alloc)?);
    Ok(are_structural(source.roles, source.graph.about(&node)))
}

/// Whether each of the triples makes its subject what it is.
fn are_structural(roles: &Roles, triples: &[Triple]) -> bool
    ensures { (g : List Triple) → IsTableOf g roles.now → IsTrue result →
        filter (λ t. not (is_structural g t)) triples.now ≡ [] }
{
    let mut rest = triples;
    while let Some((triple, behind)) = rest.split_first() {
        if !is_structural(roles, triple) {
            return false;
        }
        rest = behind;
    }
    true
}
