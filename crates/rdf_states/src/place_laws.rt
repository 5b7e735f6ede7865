//! Laws of where axioms stand in the graph of an ontology, as functions that do nothing.

ghost use Rattle.std.specs.Prelude.{◌≡◌, ◌⊎◌, ℕ, List, Contains};
ghost use Rattle.owl_list.specs.Ascending.{AreApart};
ghost use Rattle.owl_tree.specs.Ontologies.{Ontology};
ghost use Rattle.owl_tree.specs.Trees.{Tree};
ghost use Rattle.rdf_graph.specs.declared.term.Term.{Term};
ghost use Rattle.rdf_graph.specs.declared.triple.Triple.{Triple};
ghost use Rattle.rdf_meaning.specs.Sound.{IsSoundBelow};
ghost use Rattle.rdf_mapping.specs.Entries.{Entry, IsOfEntry};
ghost use Rattle.rdf_mapping.specs.Forms.{Form, term_of, triples};
ghost use Rattle.rdf_mapping.specs.GraphEntries.{made_entries, made_roots};
ghost use Rattle.rdf_mapping.specs.Graphs.{made_triples};
ghost use Rattle.rdf_states.specs.Places.{IsMade, IsPlaced};
ghost use Rattle.rdf_states.specs.PlaceLaws.{AreApartPlaces, IsRootMade};
ghost use Rattle.rdf_states.specs.UnderLaws.{AreStructural, IsUnder};

/// Laws: each triple that is made of an ontology is made as one of its parts, or
/// is of a node that reifies, and each such node is of an annotation of the
/// header, or of what an axiom has, or of another. Of two places of axioms one is
/// in front of the other, or they are one.
pub fn places_are_told_apart()
    ensures made { (name : ℕ → List ℕ) (o : Ontology) (t : Triple)
        → Contains (made_triples name o) t
        → IsMade name o t ⊎ IsOfEntry name (made_entries name o) t }
    ensures root { (name : ℕ → List ℕ) (o : Ontology) (f : Entry) → Contains (made_roots name o) f
        → IsRootMade name o f }
    ensures apart { (axioms : List Tree) (b c : Tree) (m l : ℕ) (bs : List Tree) (n : ℕ)
        → IsPlaced axioms b m bs n → IsPlaced axioms c l bs n → AreApartPlaces axioms b c m l }
    ensures one { (axioms : List Tree) (b : Tree) (m l : ℕ) (bs : List Tree) (n : ℕ) → AreApart bs
        → IsPlaced axioms b m bs n → IsPlaced axioms b l bs n → m ≡ l }
{}

/// Laws: all nodes of a form are reached from where it begins, and are sound
/// where that is.
pub fn forms_are_reached()
    ensures reached { (name : ℕ → List ℕ) (g : List Triple) (r : Term) (f : Form) (n : ℕ)
        → IsUnder g r (term_of name f n) → AreStructural g (triples name f n) → (t : Triple)
        → Contains (triples name f n) t → IsUnder g r t.subject }
    ensures sound { (g : List Triple) (x y : Term) → IsUnder g x y → IsSoundBelow g x
        → IsSoundBelow g y }
{}
