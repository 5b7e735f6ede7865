//! Laws of reading, as functions that do nothing.

ghost use Rattle.std.specs.Prelude.{◌≡◌, ◌≤◌, List, ℕ, length};
ghost use Rattle.owl_atom.specs.declared.prefixes.Prefix.{Prefix};
ghost use Rattle.owl_characters.specs.Limit.{most_bytes};
ghost use Rattle.owl_reader.specs.declared.fault.ReadFault.{ReadFault};
ghost use Rattle.owl_tree.specs.Ontologies.{IsSameOntology, Ontology};
ghost use Rattle.fss_terms.specs.Functional.{ReadsFunctional};
ghost use Rattle.fss_defects.specs.FirstDefects.{IsFirstDefect};

use owl_lexer::tokens_come_one_way;
use owl_tokens::Functional;

/// Laws: bytes are read to one ontology, up to structural equivalence, and to
/// one table of prefixes; and to each ontology that is equivalent to it.
pub fn documents_are_read_one_way()
    ensures one_way { (bytes : List ℕ) (p q : List Prefix) (o u : Ontology) →
        ReadsFunctional bytes p o → ReadsFunctional bytes q u → (p ≡ q) × IsSameOntology o u }
    ensures alike { (bytes : List ℕ) (p : List Prefix) (o u : Ontology) →
        ReadsFunctional bytes p o → IsSameOntology o u → ReadsFunctional bytes p u }
{
    tokens_come_one_way::<Functional>();
}

/// A law: bytes with a defect are no document.
pub fn defects_are_of_no_document()
    ensures { (bytes : List ℕ) (fault : ReadFault) (p : List Prefix) (o : Ontology) →
        IsFirstDefect bytes fault → ReadsFunctional bytes p o → ⊥ }
{
    tokens_come_one_way::<Functional>();
}

/// A law: bytes, as many as a document may have, have one first defect at most.
pub fn one_first_defect()
    ensures { (bytes : List ℕ) (fault other : ReadFault) → length bytes ≤ most_bytes →
        IsFirstDefect bytes fault → IsFirstDefect bytes other → fault ≡ other }
{}
