//! The lines of a document.

ghost use Rattle.std.specs.Prelude.{◌≡◌, ◌<◌, ◌++◌, codes, IsErrOf, OnOk, length};
ghost use Rattle.std.specs.List.{flat_map};
ghost use Rattle.man_resolve.specs.Expressions.{knows};
ghost use Rattle.owl_arena.specs.Held.{AreHeld, trees_at};
ghost use Rattle.owl_writing.specs.Limits.{IsTooLong};
ghost use Rattle.owl_writing.specs.declared.fault.WriteFault.{WriteFault};
ghost use Rattle.std.specs.Str.{chars};
ghost use Rattle.man_grammar.specs.declared.class.Class.TheVariants as class;
ghost use Rattle.man_text.specs.Words.{colon};
ghost use Rattle.owl_writing.specs.Terms.{full_iri};
ghost use Rattle.man_write.specs.Plans.{annotations_text, block_of_text, document_lines, header_text, import_text, iri_spaced, members_in, notes_text, prefix_text};

use crate::block::{add_block, add_keyword, add_members};
use crate::listed::{Listed, Members};
use crate::words::words_of;
use man_grammar::Class;
use man_raw::Form;
use owl_arena::{Arena, ExprId};
use owl_atom::{Iri, Prefixes};
use owl_doc::Doc;
use owl_kind::Kinds;
use owl_writing::{Draft, WriteFault};

/// Adds the lines of a document, of which the names are abbreviated by these
/// prefixes.
#[tactic(auto, using(owl_characters::proofs::Utf8Laws::size_append))]
pub fn add_document(
    draft: &mut Draft,
    kinds: &Kinds,
    prefixes: &Prefixes,
    doc: &Doc,
) -> Result<(), WriteFault>
    ensures ok { OnOk result (draft.new ≡ draft.old
        ++ document_lines (knows kinds.now) prefixes.now doc.now) }
    ensures too_long { IsErrOf result WriteFault.TooLong → IsTooLong (draft.old
        ++ document_lines (knows kinds.now) prefixes.now doc.now) }
{
    let head = doc.head();
    add_prefixes(draft, prefixes)?;
    add_header(draft, &head.iri, &head.version)?;
    add_imports(draft, &head.imports)?;
    add_annotations(draft, doc.arena(), prefixes, doc.notes())?;
    add_blocks(draft, kinds, doc.arena(), prefixes, doc.axioms())
}

/// Adds the block of each axiom.
fn add_blocks(
    draft: &mut Draft,
    kinds: &Kinds,
    arena: &Arena,
    prefixes: &Prefixes,
    ids: &[ExprId],
) -> Result<(), WriteFault>
    requires { AreHeld arena.now.trees ids.now }
    ensures ok { OnOk result (draft.new ≡ draft.old
        ++ flat_map (block_of_text (knows kinds.now) prefixes.now)
        (trees_at arena.now.trees ids.now)) }
    ensures too_long { IsErrOf result WriteFault.TooLong → IsTooLong (draft.old
        ++ flat_map (block_of_text (knows kinds.now) prefixes.now)
        (trees_at arena.now.trees ids.now)) }
{
    for id in ids {
        add_block(draft, kinds, arena, prefixes, *id)?;
    }
    Ok(())
}

/// Adds a line for each prefix.
fn add_prefixes(draft: &mut Draft, prefixes: &Prefixes) -> Result<(), WriteFault>
    ensures ok { OnOk result (draft.new ≡ draft.old ++ flat_map prefix_text prefixes.now) }
    ensures too_long { IsErrOf result WriteFault.TooLong
        → IsTooLong (draft.old ++ flat_map prefix_text prefixes.now) }
{
    for place in 0..prefixes.len() {
        let (name, iri) = prefixes.at(place);
        add_prefix(draft, name, iri)?;
    }
    Ok(())
}

#[tactic(auto, using(owl_characters::proofs::Utf8Laws::size_append))]
fn add_prefix(draft: &mut Draft, name: &str, iri: &Iri) -> Result<(), WriteFault>
    ensures ok { OnOk result (draft.new ≡ draft.old ++ (colon class.Prefix ++ (codes " " ++
        (chars name.now ++ (codes ": " ++ (full_iri iri.now ++ codes "\n")))))) }
    ensures too_long { IsErrOf result WriteFault.TooLong
        → IsTooLong (draft.old ++ (colon class.Prefix ++ (codes " " ++ (chars name.now ++
        (codes ": " ++ (full_iri iri.now ++ codes "\n")))))) }
{
    add_keyword(draft, Class::Prefix)?;
    draft.add_ascii(" ")?;
    draft.add(name)?;
    draft.add_ascii(": ")?;
    draft.add_full_iri(iri)?;
    draft.add_ascii("\n")
}

/// Adds a line for each import.
fn add_imports(draft: &mut Draft, imports: &[Iri]) -> Result<(), WriteFault>
    ensures ok { OnOk result (draft.new ≡ draft.old ++ flat_map import_text imports.now) }
    ensures too_long { IsErrOf result WriteFault.TooLong
        → IsTooLong (draft.old ++ flat_map import_text imports.now) }
{
    for iri in imports {
        add_import(draft, iri)?;
    }
    Ok(())
}

#[tactic(auto, using(owl_characters::proofs::Utf8Laws::size_append))]
fn add_import(draft: &mut Draft, iri: &Iri) -> Result<(), WriteFault>
    ensures ok { OnOk result (draft.new ≡ draft.old ++ import_text iri.now) }
    ensures too_long { IsErrOf result WriteFault.TooLong
        → IsTooLong (draft.old ++ import_text iri.now) }
{
    add_keyword(draft, Class::Import)?;
    draft.add_ascii(" ")?;
    draft.add_full_iri(iri)?;
    draft.add_ascii("\n")
}

/// Adds the line with the name of the ontology.
#[tactic(auto, using(owl_characters::proofs::Utf8Laws::size_append))]
fn add_header(draft: &mut Draft, iri: &Option<Iri>, version: &Option<Iri>) -> Result<(), WriteFault>
    ensures ok { OnOk result (draft.new ≡ draft.old ++ header_text iri.now version.now) }
    ensures too_long { IsErrOf result WriteFault.TooLong
        → IsTooLong (draft.old ++ header_text iri.now version.now) }
{
    add_keyword(draft, Class::Ontology)?;
    add_spaced(draft, iri)?;
    add_spaced(draft, version)?;
    draft.add_ascii("\n")
}

/// Adds an IRI behind a space, if it is there.
#[tactic(auto, using(owl_characters::proofs::Utf8Laws::size_append))]
fn add_spaced(draft: &mut Draft, iri: &Option<Iri>) -> Result<(), WriteFault>
    ensures ok { OnOk result (draft.new ≡ draft.old ++ iri_spaced iri.now) }
    ensures too_long { IsErrOf result WriteFault.TooLong
        → IsTooLong (draft.old ++ iri_spaced iri.now) }
{
    match iri {
        Some(iri) => {
            draft.add_ascii(" ")?;
            draft.add_full_iri(iri)
        }
        None => Ok(()),
    }
}

/// Adds the line with these annotations of the ontology.
#[tactic(auto, using(owl_characters::proofs::Utf8Laws::size_append))]
fn add_notes(
    draft: &mut Draft,
    arena: &Arena,
    prefixes: &Prefixes,
    notes: &Members<'_>,
) -> Result<(), WriteFault>
    requires { AreHeld arena.now.trees (members_in notes.now) }
    ensures ok { OnOk result (draft.new ≡ draft.old
        ++ notes_text prefixes.now arena.now.trees notes.now) }
    ensures too_long { IsErrOf result WriteFault.TooLong
        → IsTooLong (draft.old ++ notes_text prefixes.now arena.now.trees notes.now) }
{
    let words = words_of(Form::Notes);
    draft.add(words.front)?;
    add_members(draft, arena, prefixes, words, notes)?;
    draft.add_ascii("\n")
}

/// Adds the line with the annotations of the ontology, if it has some.
#[tactic(auto, using(crate::proofs::BlockLaws::notes_are))]
fn add_annotations(
    draft: &mut Draft,
    arena: &Arena,
    prefixes: &Prefixes,
    ids: &[ExprId],
) -> Result<(), WriteFault>
    requires { AreHeld arena.now.trees ids.now }
    ensures ok { OnOk result (draft.new ≡ draft.old
        ++ annotations_text prefixes.now arena.now.trees ids.now) }
    ensures too_long { IsErrOf result WriteFault.TooLong
        → IsTooLong (draft.old ++ annotations_text prefixes.now arena.now.trees ids.now) }
{
    if ids.is_empty() {
        return Ok(());
    }
    let all = Listed {
        kids: ids,
        twice: None,
    };
    add_notes(draft, arena, prefixes, &all.alone())
}
