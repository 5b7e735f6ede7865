//! Laws of the grammar and of reading, as functions that do nothing.

ghost use Rattle.std.specs.Prelude.{◌≡◌, ◌≤◌, List, ℕ, Option, length};
ghost use Rattle.grammar.specs.Pages.{IsTableOf};
ghost use Rattle.owl_atom.specs.Prefixes.{iri_of};
ghost use Rattle.owl_atom.specs.declared.prefixes.Prefix.{Prefix};
ghost use Rattle.owl_characters.specs.Limit.{most_bytes};
ghost use Rattle.owl_reader.specs.declared.fault.ReadFault.{ReadFault};
ghost use Rattle.rdf_graph.specs.declared.triple.Triple.{Triple};
ghost use Rattle.ttl_grammar.specs.Documents.{IsFirstDefect, ReadsTurtle};
ghost use Rattle.ttl_grammar.specs.Page.{page};
ghost use Rattle.ttl_grammar.specs.Table.{turtle};

/// A law: the table of the grammar has the alternatives of its page.
pub fn table_is_of_page()
    ensures { IsTableOf page turtle }
{}

/// A law: against one base IRI, or none, bytes are read to one graph, and to tables of
/// prefixes that have the same IRI for each name.
pub fn documents_are_read_one_way()
    ensures { (base : Option (List ℕ)) (bytes : List ℕ)
        (p q : List Prefix) (g h : List Triple) →
        ReadsTurtle base bytes p g → ReadsTurtle base bytes q h →
        (g ≡ h) × ((name : List ℕ) → iri_of p name ≡ iri_of q name) }
{}

/// A law: bytes with a defect are no document.
pub fn defects_are_of_no_document()
    ensures { (base : Option (List ℕ)) (bytes : List ℕ) (fault : ReadFault)
        (p : List Prefix) (g : List Triple) →
        IsFirstDefect base bytes fault → ReadsTurtle base bytes p g → ⊥ }
{}

/// A law: bytes, as many as a document may have, have one first defect at most.
pub fn one_first_defect()
    ensures { (base : Option (List ℕ)) (bytes : List ℕ) (fault other : ReadFault)
        → length bytes ≤ most_bytes →
        IsFirstDefect base bytes fault → IsFirstDefect base bytes other → fault ≡ other }
{}
