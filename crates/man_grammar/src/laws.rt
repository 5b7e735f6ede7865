//! Laws of the grammar and of reading, as functions that do nothing.

ghost use Rattle.std.specs.Prelude.{◌≡◌, ◌≤◌, List, ℕ, length};
ghost use Rattle.grammar.specs.Pages.{IsTableOf};
ghost use Rattle.man_grammar.specs.Documents.{AreSameDocuments, IsFirstDefect, ReadsManchester};
ghost use Rattle.man_grammar.specs.Page.{page};
ghost use Rattle.man_grammar.specs.Table.{manchester};
ghost use Rattle.man_raw.specs.Documents.{DocumentTree};
ghost use Rattle.owl_characters.specs.Limit.{most_bytes};
ghost use Rattle.owl_reader.specs.declared.fault.ReadFault.{ReadFault};

/// A law: the table of the grammar has the alternatives of its page.
pub fn table_is_of_page()
    ensures { IsTableOf page manchester }
{}

/// A law: bytes are read to one document.
pub fn documents_are_read_one_way()
    ensures { (bytes : List ℕ) (d e : DocumentTree) →
        ReadsManchester bytes d → ReadsManchester bytes e → AreSameDocuments d e }
{}

/// A law: bytes with a defect are no document.
pub fn defects_are_of_no_document()
    ensures { (bytes : List ℕ) (fault : ReadFault) (d : DocumentTree) →
        IsFirstDefect bytes fault → ReadsManchester bytes d → ⊥ }
{}

/// A law: bytes, as many as a document may have, have one first defect at most.
pub fn one_first_defect()
    ensures { (bytes : List ℕ) (fault other : ReadFault) → length bytes ≤ most_bytes →
        IsFirstDefect bytes fault → IsFirstDefect bytes other → fault ≡ other }
{}
