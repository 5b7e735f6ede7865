//! Laws of canonical bytes, as functions that do nothing.

ghost use Rattle.std.specs.Prelude.{◌≡◌, ◌++◌, [], ℕ, List};
ghost use Rattle.owl_canon.specs.Bytes.{canonical_bytes, tree_bytes};
ghost use Rattle.owl_canon.specs.Limits.{HasBytes, IsCountable, ReadsCanonical};
ghost use Rattle.owl_tree.specs.Ontologies.{IsOntology, IsSameOntology, Ontology, canonical_ontology};
ghost use Rattle.owl_tree.specs.Shape.{IsShaped};
ghost use Rattle.owl_tree.specs.Trees.{Tree};

/// Laws: structurally equivalent ontologies (Structural Specification, section
/// 2.1) have the same canonical bytes, and ontologies with the same bytes are
/// equivalent, where lengths, numbers and counts have 64 bits.
pub fn equivalent_ontologies_have_the_same_bytes()
    ensures same { (o p : Ontology) → IsSameOntology o p → canonical_bytes o ≡ canonical_bytes p }
    ensures only { (o p : Ontology) → IsOntology o → IsOntology p →
        HasBytes (canonical_ontology o) → HasBytes (canonical_ontology p) →
        canonical_bytes o ≡ canonical_bytes p → IsSameOntology o p }
{}

/// Law: the bytes of no tree are a proper prefix of another tree's, where
/// lengths, numbers and counts have 64 bits.
pub fn no_tree_begins_another()
    ensures { (t u : Tree) (more : List ℕ) → IsShaped t → IsShaped u → IsCountable t →
        IsCountable u → tree_bytes t ++ more ≡ tree_bytes u → (t ≡ u) × (more ≡ []) }
{}

/// Laws: bytes are the canonical bytes of one ontology, up to structural
/// equivalence, and of all that are equivalent to it.
pub fn bytes_are_read_once()
    ensures once { (bytes : List ℕ) (o p : Ontology) → ReadsCanonical bytes o →
        ReadsCanonical bytes p → IsSameOntology o p }
    ensures same { (bytes : List ℕ) (o p : Ontology) → ReadsCanonical bytes o →
        IsSameOntology o p → ReadsCanonical bytes p }
{}
