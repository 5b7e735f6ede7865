//! Laws of what graphs say, as functions that do nothing.

ghost use Rattle.std.specs.Prelude.{◌≡◌, ◌↔◌, ℕ, List, []};
ghost use Rattle.owl_kind.specs.Kinds.{Entity, HasClash};
ghost use Rattle.owl_tree.specs.Ontologies.{IsSameOntology, Ontology};
ghost use Rattle.rdf_graph.specs.declared.triple.Triple.{Triple};
ghost use Rattle.rdf_meaning.specs.Statements.{Says, headers};
ghost use Rattle.rdf_scans.specs.Outlines.{declarations};
ghost use Rattle.rdf_thin.specs.Thinned.{thinned};
ghost use Rattle.rdf_reverse.specs.Guesses.{AddsGuesses, IsSaidWith, IsUnsaidWith};
ghost use Rattle.rdf_reverse.specs.Reverse.{IsLimitFault, IsSaid, IsUnsaid, IsWithin};
ghost use Rattle.rdf_reverse.specs.declared.fault.ReverseFault.{ReverseFault};

/// Laws: what a graph says within the limits is one ontology, up to structural
/// equivalence (Structural Specification, section 2.1), and why it says none is
/// one fault, and never both. A graph that says an ontology is refused for a limit
/// alone.
pub fn graphs_are_read_one_way()
    ensures ontology { (g : List Triple) (k : List Entity) (o p : Ontology) → IsSaid g k o
        → IsSaid g k p → IsSameOntology o p }
    ensures fault { (g : List Triple) (k : List Entity) (e f : ReverseFault) → IsUnsaid g k e
        → IsUnsaid g k f → e ≡ f }
    ensures apart { (g : List Triple) (k : List Entity) (o : Ontology) (f : ReverseFault)
        → IsSaid g k o → IsUnsaid g k f → ⊥ }
    ensures limit { (g : List Triple) (k : List Entity) (o : Ontology) (f : ReverseFault)
        → Says g k o → IsUnsaid g k f → IsLimitFault f }
{}

/// Law: a graph that says an ontology within the limits says it within them: none
/// of its numbers and trees passes one.
pub fn limits_are_those_of_ontologies()
    ensures { (g : List Triple) (k : List Entity) (o : Ontology) → Says g k o → IsWithin o
        → IsSaid g k o }
{}

/// Laws: what names the ontology of a graph, and what the graph declares, it names and
/// declares without its redundant triples too.
pub fn redundant_triples_name_and_declare_nothing()
    ensures headers { (g : List Triple) → headers (thinned g) ≡ headers g }
    ensures declarations { (g : List Triple) → declarations (thinned g) ≡ declarations g }
{}

/// Laws: with the declarations of the same guessed names, too, what a graph says is one
/// ontology, up to structural equivalence, and why it says none is one fault, and
/// never both. With none it is what the graph says.
pub fn guesses_are_said_one_way()
    ensures ontology { (g : List Triple) (k : List Entity) (names : List (List ℕ))
        (o p : Ontology) → IsSaidWith g k names o → IsSaidWith g k names p
        → IsSameOntology o p }
    ensures fault { (g : List Triple) (k : List Entity) (names : List (List ℕ))
        (e f : ReverseFault) → IsUnsaidWith g k names e → IsUnsaidWith g k names f → e ≡ f }
    ensures apart { (g : List Triple) (k : List Entity) (names : List (List ℕ))
        (o : Ontology) (f : ReverseFault) → IsSaidWith g k names o
        → IsUnsaidWith g k names f → ⊥ }
    ensures none { (g : List Triple) (k : List Entity) (o : Ontology) →
        IsSaidWith g k [] o ↔ IsSaid g k o }
    ensures no_fault { (g : List Triple) (k : List Entity) (f : ReverseFault) →
        IsUnsaidWith g k [] f ↔ IsUnsaid g k f }
{}

/// Law: where IRIs that may be guessed under some kinds are declared as annotation
/// properties besides, no other clash comes, and none goes.
pub fn guesses_make_no_clash()
    ensures { (kinds more : List Entity) → AddsGuesses kinds more → (iri : List ℕ) →
        HasClash more iri ↔ HasClash kinds iri }
{}
