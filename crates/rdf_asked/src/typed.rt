//! Whether the triples of nodes name what they may.

ghost use Rattle.std.specs.Prelude.{◌≡◌, ◌↔◌, IfSome, IsNone, IsTrue, List, Some, option_map};
ghost use Rattle.std.specs.Option.{is_some};
ghost use Rattle.rdf_meaning.specs.Denotation.{literal_leaf};
ghost use Rattle.owl_kind.specs.Kinds.{Entity};
ghost use Rattle.rdf_graph.specs.declared.triple.Triple.{Triple};
ghost use Rattle.rdf_meaning.specs.Nodes.{is_structural, of_subject};
ghost use Rattle.rdf_faults.specs.Asked.{IsTyped};
ghost use Rattle.rdf_faults.specs.Faults.{IsUntypedPart};
ghost use Rattle.rdf_rows.specs.Fits.{CountsWords};
ghost use Rattle.rdf_asked.specs.Asking.{IsTypedNode};
ghost use Rattle.rdf_asked.specs.Listed.{IsSource};
ghost use Rattle.rdf_roles.specs.Refusals.{AreNodesFormed};
ghost use Rattle.rdf_roles.specs.FaultPlaces.{IsFirstUntyped};
ghost use Rattle.rdf_roles.specs.Tables.{IsTableOf};

use crate::asked::is_asked_for;
use crate::nodes::is_typed_node;
use crate::sorts::role_of_term;
use crate::source::Source;
use owl_kind::Kinds;
use rdf_graph::{Graph, Term, Triple};
use rdf_meaning::Role;
use rdf_roles::Roles;
use rdf_rows::{NodeWords, is_own};

/// The place of the first triple of a node that names what it may not: an object
/// that is not what the node's row asks for there, by the kinds of IRIs and the
/// roles of nodes (Mapping to RDF Graphs, section 3.2). Takes no memory, and goes
/// over a list anew for each triple that names it.
pub fn untyped(graph: &Graph, roles: &Roles, kinds: &Kinds) -> Option<usize>
    requires table { IsTableOf graph.now roles.now }
    requires formed { AreNodesFormed graph.now }
    ensures some { IfSome result (IsFirstUntyped graph.now kinds.now) }
    ensures none { IsNone result → (t : Triple) → IsUntypedPart graph.now kinds.now t → ⊥ }
{
    untyped_in(&Source {
        graph,
        roles,
        kinds,
        lists: &[],
    })
}

/// The same, in time that grows with the graph where what is known of its lists is
/// kept.
pub fn untyped_in(source: &Source) -> Option<usize>
    requires source { IsSource source.now }
    ensures some { IfSome result (IsFirstUntyped source.now.graph.now source.now.kinds.now) }
    ensures none { IsNone result → (t : Triple)
        → IsUntypedPart source.now.graph.now source.now.kinds.now t → ⊥ }
{
    let mut typed = None;
    for (place, triple) in source.graph.triples().iter().enumerate() {
        if may_be_untyped(source.roles, typed, triple) {
            if is_typed_node(source, &triple.subject) {
                typed = Some(&triple.subject);
            } else if is_untyped(source, triple) {
                return Some(place);
            }
        }
    }
    None
}

/// Whether the triple makes its subject what it is, and this is not the node of which
/// no triple is untyped.
fn may_be_untyped(roles: &Roles, typed: Option<&Term>, triple: &Triple) -> bool
    ensures { (g : List Triple) (k : List Entity) → IsTableOf g roles.now
        → IfSome typed.entry (λ x. IsTypedNode g k x.now)
        → IsUntypedPart g k triple.now → IsTrue result }
{
    !is_of_node(triple, typed) && is_structural(roles, triple)
}

/// Whether the triple is one of the node.
fn is_of_node(triple: &Triple, node: Option<&Term>) -> bool
    ensures { IsTrue result ↔ (option_map (λ x. x.now) node.entry ≡ Some triple.now.subject) }
{
    match node {
        Some(node) => triple.subject == *node,
        None => false,
    }
}

/// Whether the triple makes its subject what it is, and names what it may not.
fn is_untyped(source: &Source, triple: &Triple) -> bool
    requires source { IsSource source.now }
    ensures { IsTrue result ↔ (IsTrue (is_structural source.now.graph.now triple.now)
        × (IsTyped source.now.graph.now source.now.kinds.now triple.now → ⊥)) }
{
    is_structural(source.roles, triple) && !is_typed(source, triple)
}

/// Whether the triple, which makes its subject what it is, names what it has to.
fn is_typed(source: &Source, triple: &Triple) -> bool
    requires source { IsSource source.now }
    ensures { IsTrue result ↔ IsTyped source.now.graph.now source.now.kinds.now triple.now }
{
    let words = NodeWords::of(source.graph.about(&triple.subject));
    is_typed_by(source, &words, triple)
}

/// Whether the triple makes its subject, a node of the graph whose roles these
/// are, what it is.
#[tactic(auto, unfolding(rdf_meaning::specs::Nodes::is_structural))]
pub fn is_structural(roles: &Roles, triple: &Triple) -> bool
    ensures { (g : List Triple) → IsTableOf g roles.now → result ≡ is_structural g triple.now }
{
    is_own(role_of_term(roles, &triple.subject), triple)
}

/// Whether the triple, which makes its subject what it is, names what it has to;
/// the words of its subject are given.
fn is_typed_by(source: &Source, words: &NodeWords, triple: &Triple) -> bool
    requires source { IsSource source.now }
    requires words { CountsWords words.now (of_subject source.now.graph.now triple.now.subject) }
    ensures { IsTrue result ↔ IsTyped source.now.graph.now source.now.kinds.now triple.now }
{
    match role_of_term(source.roles, &triple.subject) {
        Role::Property | Role::Class | Role::Range | Role::Main => {
            is_asked_for(source, words, triple)
        }
        Role::Facet => is_literal(&triple.object),
        Role::List | Role::Note | Role::Header | Role::Individual => true,
    }
}

/// Whether the term is a literal.
fn is_literal(term: &Term) -> bool
    ensures { result ≡ is_some (literal_leaf term.now) }
{
    match term {
        Term::Literal(_) => true,
        Term::Iri(_) | Term::Blank(_) => false,
    }
}
