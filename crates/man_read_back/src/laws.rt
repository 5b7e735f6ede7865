//! Laws, as functions that do nothing.

ghost use Rattle.std.specs.List.{AllByRecursion};
ghost use Rattle.std.specs.Prelude.{◌≡◌, ◌<◌, ◌≤◌, ℕ, List, length, true};
ghost use Rattle.std.specs.Str.{all_scalars, encode_utf8_all};
ghost use Rattle.man_raw.specs.Documents.{DocumentTree};
ghost use Rattle.man_raw.specs.Opened.{most_nests};
ghost use Rattle.man_read_back.specs.ReadsBack.{ReadsBack};
ghost use Rattle.man_resolve.specs.Expressions.{knows};
ghost use Rattle.man_text.specs.Readable.{CanBeWritten, IsTypedUnder, ReadsOntology};
ghost use Rattle.man_text.specs.Text.{document_text, manchester_prefixes, manchester_text};
ghost use Rattle.man_text.proofs.WritableLaws.{IsWritable};
ghost use Rattle.owl_atom.specs.Prefixes.{IsTable};
ghost use Rattle.owl_atom.specs.declared.prefixes.Prefix.{Prefix};
ghost use Rattle.owl_characters.specs.Limit.{most_bytes};
ghost use Rattle.owl_arena.specs.Shared.{deepest, heaviest};
ghost use Rattle.owl_kind.specs.Kinds.{Entity};
ghost use Rattle.owl_tree.specs.Ontologies.{IsOntology, Ontology, canonical_ontology, ontology_weight};
ghost use Rattle.owl_tree.specs.Trees.{depth};
ghost use Rattle.owl_writing.specs.Tables.{HaveIris, written_prefixes};

/// A law: the text of a document that may be written, if it is not too long, is read to that document.
pub fn texts_read_back()
    ensures { (prefixes : List Prefix) (d : DocumentTree) (n : ℕ) →
        IsTable prefixes → HaveIris (written_prefixes prefixes) → d.prefixes ≡ manchester_prefixes prefixes →
        IsWritable n d → n < most_nests →
        all_scalars (document_text d) ≡ true → length (encode_utf8_all (document_text d)) ≤ most_bytes →
        ReadsBack (encode_utf8_all (document_text d)) d }
{}

/// A law: the text of an ontology that can be written, within all limits, is read to that ontology, under all
/// kinds by which it is typed.
pub fn ontologies_read_back()
    ensures { (kinds others : List Entity) (prefixes : List Prefix) (o : Ontology) →
        IsTable prefixes → HaveIris (written_prefixes prefixes) →
        IsOntology o → canonical_ontology o ≡ o → ontology_weight o ≤ heaviest →
        AllByRecursion (λ t. depth t ≤ deepest) o.annotations →
        AllByRecursion (λ t. depth t ≤ deepest) o.axioms →
        all_scalars (manchester_text (knows kinds) prefixes o) ≡ true →
        length (encode_utf8_all (manchester_text (knows kinds) prefixes o)) ≤ most_bytes →
        CanBeWritten kinds o → IsTypedUnder others o →
        ReadsOntology (encode_utf8_all (manchester_text (knows kinds) prefixes o)) others prefixes o }
{}
