//! Laws of what is wrong with a graph, as functions that do nothing.

ghost use Rattle.std.specs.Prelude.{◌≡◌, ◌≤◌, ℕ, List, [], ◌∷◌, codes, length};
ghost use Rattle.owl_kind.specs.Kinds.{Entity};
ghost use Rattle.owl_tree.specs.Ontologies.{Head, Ontology};
ghost use Rattle.rdf_graph.specs.declared.term.Term.{Term};
ghost use Rattle.rdf_graph.specs.declared.triple.Triple.{Triple};
ghost use Rattle.rdf_meaning.specs.declared.role.Role.{Role};
ghost use Rattle.rdf_meaning.specs.Nodes.{role_of};
ghost use Rattle.rdf_meaning.specs.Statements.{IsGrounded, IsHeadOf, IsPartOfAxiom, IsSoundAs, Says, headers};
ghost use Rattle.rdf_meaning.specs.Examples.{restriction};
ghost use Rattle.rdf_faults.specs.Asked.{IsAskedFor};
ghost use Rattle.rdf_faults.specs.WorkedCases.{empty_union, half_cell, of_literal, of_object, other_link, some_values_from, v, with_literal};
ghost use Rattle.rdf_faults.specs.Faults.{IsBadCell, IsBadHeader, IsBadNode, IsCyclic, IsMixed, IsOfNothing, IsOrphan, IsReservedTriple, IsUntypedPart, IsUntypedStatement, TakesReserved};
ghost use Rattle.rdf_faults.specs.Faultless.{IsFaultless};
ghost use Rattle.rdf_faults.specs.Firsts.{HoldsForNone, IsFirst};
ghost use Rattle.rdf_faults.specs.Formed.{IsFormedAs};
ghost use Rattle.rdf_faults.specs.Meant.{AnyTree, IsMeant};

/// Laws: a node that has its form is sound.
pub fn nodes_are_formed()
    ensures sound { (g : List Triple) (role : Role) (x : Term) → IsFormedAs g role x
        → IsSoundAs g role x }
{}

/// Laws: a graph that says an ontology has one header, and that is not a bad one.
pub fn headers_have_no_fault()
    ensures some { (g : List Triple) (k : List Entity) (o : Ontology) → Says g k o → headers g ≡ []
        → ⊥ }
    ensures no_second { (g : List Triple) (k : List Entity) (o : Ontology) → Says g k o
        → 2 ≤ length (headers g) → ⊥ }
    ensures good { (g : List Triple) (k : List Entity) (o : Ontology) → Says g k o → (x : Term)
        → IsBadHeader g x → ⊥ }
{}

/// Laws: in a graph that says an ontology each node that would be a part of an
/// axiom stands for something.
pub fn nodes_are_meant()
    ensures meant { (g : List Triple) (k : List Entity) (o : Ontology) → Says g k o → (x : Term)
        → IsPartOfAxiom (role_of g x) → IsMeant g k AnyTree x }
{}

/// Laws: each node of a graph that says an ontology has one role, and the form
/// that this asks for, and no node is below itself.
pub fn nodes_have_their_form()
    ensures mixed { (g : List Triple) (k : List Entity) (o : Ontology) → Says g k o
        → (label : List ℕ) → IsMixed g label → ⊥ }
    ensures cell { (g : List Triple) (k : List Entity) (o : Ontology) → Says g k o
        → (label : List ℕ) → IsBadCell g label → ⊥ }
    ensures node { (g : List Triple) (k : List Entity) (o : Ontology) → Says g k o
        → (label : List ℕ) → IsBadNode g label → ⊥ }
    ensures cyclic { (g : List Triple) (k : List Entity) (o : Ontology) → Says g k o
        → (label : List ℕ) → IsCyclic g label → ⊥ }
{}

/// Laws: each node of a graph that says an ontology and would be a part of an
/// axiom is of one, and each reification is of an axiom or an annotation.
pub fn nodes_belong()
    ensures orphan { (g : List Triple) (k : List Entity) (o : Ontology) (h : Says g k o)
        (label : List ℕ) → IsOrphan g k h.states.header label → ⊥ }
    ensures of_nothing { (g : List Triple) (k : List Entity) (o : Ontology) (h : Says g k o)
        (label : List ℕ) → IsOfNothing g k h.states.header label → ⊥ }
{}

/// Laws: each triple of a graph that says an ontology takes no reserved IRI for
/// what it isn't, names what it may, and is the axiom or the annotation that it
/// would be.
pub fn triples_have_no_fault()
    ensures reserved { (g : List Triple) (k : List Entity) (o : Ontology) (h : Says g k o)
        (t : Triple) → IsReservedTriple g k h.states.header t → ⊥ }
    ensures part { (g : List Triple) (k : List Entity) (o : Ontology) → Says g k o → (t : Triple)
        → IsUntypedPart g k t → ⊥ }
    ensures statement { (g : List Triple) (k : List Entity) (o : Ontology) (h : Says g k o)
        (t : Triple) → IsUntypedStatement g k h.states.header t → ⊥ }
{}

/// Laws: in a graph where no node is below itself no way down from a node goes on
/// without end.
pub fn nodes_without_a_cycle_are_grounded()
    ensures grounded { (g : List Triple) → ((label : List ℕ) → IsCyclic g label → ⊥) → (x : Term)
        → IsGrounded g x }
{}

/// Laws: a graph says an ontology exactly where it has none of the faults. The one
/// header gives a head, unless it is a bad one.
pub fn graphs_without_faults_say_an_ontology()
    ensures says { (g : List Triple) (k : List Entity) → IsFaultless g k
        → (o : Ontology) × Says g k o }
    ensures no_fault { (g : List Triple) (k : List Entity) (o : Ontology) → Says g k o
        → IsFaultless g k }
    ensures head { (g : List Triple) (x : Term) → headers g ≡ x ∷ [] → (IsBadHeader g x → ⊥)
        → (head : Head) × IsHeadOf g x head }
{}

/// Laws: of some nodes at most one is the first with a fault, so of some triples,
/// and where none has it there is no first.
pub fn firsts_are_one()
    ensures node { (g : List Triple) (all : List (List ℕ)) (a b : List ℕ)
        → IsFirst (IsBadNode g) all a → IsFirst (IsBadNode g) all b → a ≡ b }
    ensures triple { (g : List Triple) (k : List Entity) (all : List Triple) (t u : Triple)
        → IsFirst (IsUntypedPart g k) all t → IsFirst (IsUntypedPart g k) all u → t ≡ u }
    ensures no_node { (g : List Triple) (all : List (List ℕ)) (a : List ℕ)
        → IsFirst (IsBadNode g) all a → HoldsForNone (IsBadNode g) all → ⊥ }
    ensures no_triple { (g : List Triple) (k : List Entity) (all : List Triple) (t : Triple)
        → IsFirst (IsUntypedPart g k) all t → HoldsForNone (IsUntypedPart g k) all → ⊥ }
{}

/// Worked cases: `_:v rdf:first :A` alone is a bad cell, and `_:u a owl:Class ;
/// owl:unionOf ()` a bad node; of `owl:someValuesFrom` nothing is asked where the
/// property is neither of objects nor of data, and where it is one of objects no
/// literal may stand there; and `:i owl:other :j` takes a reserved IRI.
pub fn faults_are_worked_out()
    ensures cell { IsBadCell half_cell v }
    ensures union { IsBadNode empty_union (codes "u") }
    ensures not_asked { IsAskedFor restriction [] some_values_from }
    ensures literal { IsUntypedPart of_literal of_object with_literal }
    ensures reserved { TakesReserved [] other_link }
{}
