//! The lines of a document.

ghost use Rattle.std.specs.Prelude.{◌≡◌, ◌<◌, ◌++◌, codes, flat_map, length, IsErrOf, OnOk};
ghost use Rattle.std.specs.Str.{chars};
ghost use Rattle.owl_arena.specs.Held.{AreHeld, tree_at, trees_at};
ghost use Rattle.owl_characters.specs.Iri.{IsIri};
ghost use Rattle.owl_doc.specs.Documents.{ontology_of};
ghost use Rattle.owl_doc.specs.Heads.{StandsBeside, head_of, name_of};
ghost use Rattle.owl_writing.specs.Limits.{IsTooLong};
ghost use Rattle.owl_writing.specs.Tables.{HaveIris};
ghost use Rattle.owl_writing.specs.Terms.{full_iri};
ghost use Rattle.owl_writing.specs.declared.fault.WriteFault.{WriteFault};
ghost use Rattle.fss_write.specs.Text.{header_line, import_line, item_line, lines_of, name_text, prefix_line, version_text, written_text};

use crate::tree::add_item;
use owl_arena::{Arena, ExprId};
use owl_atom::{Iri, Prefixes};
use owl_doc::{Doc, Head};
use owl_writing::{Draft, WriteFault};

/// Adds the lines of a document, of which the names are abbreviated by these prefixes.
#[tactic(auto, using(owl_characters::proofs::Utf8Laws::size_append))]
pub fn add_document(draft: &mut Draft, prefixes: &Prefixes, doc: &Doc) -> Result<(), WriteFault>
    ensures ok { OnOk result (draft.new ≡ draft.old ++ lines_of prefixes.now (ontology_of doc.now)) }
    ensures too_long { IsErrOf result WriteFault.TooLong → IsTooLong (draft.old ++ lines_of prefixes.now (ontology_of doc.now)) }
    ensures iris { OnOk result (HaveIris prefixes.now) }
{
    add_prefixes(draft, prefixes)?;
    add_header(draft, doc.head())?;
    add_imports(draft, &doc.head().imports)?;
    add_items(draft, doc.arena(), prefixes, doc.notes())?;
    add_items(draft, doc.arena(), prefixes, doc.axioms())?;
    draft.add_ascii(")\n")
}

/// Adds a line for each prefix.
fn add_prefixes(draft: &mut Draft, prefixes: &Prefixes) -> Result<(), WriteFault>
    ensures ok { OnOk result (draft.new ≡ draft.old ++ flat_map prefix_line prefixes.now) }
    ensures too_long { IsErrOf result WriteFault.TooLong → IsTooLong (draft.old ++ flat_map prefix_line prefixes.now) }
    ensures iris { OnOk result (HaveIris prefixes.now) }
{
    for place in 0..prefixes.len() {
        let (name, iri) = prefixes.at(place);
        add_prefix(draft, name, iri)?;
    }
    Ok(())
}

#[tactic(auto, using(owl_characters::proofs::Utf8Laws::size_append))]
fn add_prefix(draft: &mut Draft, name: &str, iri: &Iri) -> Result<(), WriteFault>
    ensures ok { OnOk result (draft.new ≡ draft.old ++ (codes "Prefix(" ++ (chars name.now ++ (codes ":=" ++ (full_iri iri.now ++ codes ")\n"))))) }
    ensures too_long { IsErrOf result WriteFault.TooLong → IsTooLong (draft.old ++ (codes "Prefix(" ++ (chars name.now ++ (codes ":=" ++ (full_iri iri.now ++ codes ")\n"))))) }
    ensures iri { OnOk result (IsIri iri.now) }
{
    // What an IRI holds is one.
    iri.text();
    draft.add_ascii("Prefix(")?;
    draft.add(name)?;
    draft.add_ascii(":=")?;
    draft.add_full_iri(iri)?;
    draft.add_ascii(")\n")
}

/// Adds the line with the name of the ontology.
#[tactic(auto, using(owl_characters::proofs::Utf8Laws::size_append))]
fn add_header(draft: &mut Draft, head: &Head) -> Result<(), WriteFault>
    ensures ok { OnOk result (draft.new ≡ draft.old ++ header_line (head_of head.now).name) }
    ensures too_long { IsErrOf result WriteFault.TooLong → IsTooLong (draft.old ++ header_line (head_of head.now).name) }
{
    draft.add_ascii("Ontology(")?;
    if let Some(iri) = &head.iri {
        draft.add_full_iri(iri)?;
        add_version(draft, &head.version)?;
    }
    draft.add_ascii("\n")
}

#[tactic(auto, using(owl_characters::proofs::Utf8Laws::size_append))]
fn add_version(draft: &mut Draft, version: &Option<Iri>) -> Result<(), WriteFault>
    ensures ok { OnOk result (draft.new ≡ draft.old ++ version_text version.now) }
    ensures too_long { IsErrOf result WriteFault.TooLong → IsTooLong (draft.old ++ version_text version.now) }
{
    match version {
        Some(iri) => {
            draft.add_ascii(" ")?;
            draft.add_full_iri(iri)
        }
        None => Ok(()),
    }
}

/// Adds a line for each import.
fn add_imports(draft: &mut Draft, imports: &[Iri]) -> Result<(), WriteFault>
    ensures ok { OnOk result (draft.new ≡ draft.old ++ flat_map import_line imports.now) }
    ensures too_long { IsErrOf result WriteFault.TooLong → IsTooLong (draft.old ++ flat_map import_line imports.now) }
{
    for iri in imports {
        add_import(draft, iri)?;
    }
    Ok(())
}

#[tactic(auto, using(owl_characters::proofs::Utf8Laws::size_append))]
fn add_import(draft: &mut Draft, iri: &Iri) -> Result<(), WriteFault>
    ensures ok { OnOk result (draft.new ≡ draft.old ++ import_line iri.now) }
    ensures too_long { IsErrOf result WriteFault.TooLong → IsTooLong (draft.old ++ import_line iri.now) }
{
    draft.add_ascii("Import(")?;
    draft.add_full_iri(iri)?;
    draft.add_ascii(")\n")
}

/// Adds a line for each annotation or axiom.
fn add_items(
    draft: &mut Draft,
    arena: &Arena,
    prefixes: &Prefixes,
    ids: &[ExprId],
) -> Result<(), WriteFault>
    requires { AreHeld arena.now.trees ids.now }
    ensures ok { OnOk result (draft.new ≡ draft.old ++ flat_map (item_line prefixes.now) (trees_at arena.now.trees ids.now)) }
    ensures too_long { IsErrOf result WriteFault.TooLong → IsTooLong (draft.old ++ flat_map (item_line prefixes.now) (trees_at arena.now.trees ids.now)) }
{
    for id in ids {
        add_line(draft, arena, prefixes, *id)?;
    }
    Ok(())
}

#[tactic(auto, using(owl_characters::proofs::Utf8Laws::size_append))]
fn add_line(
    draft: &mut Draft,
    arena: &Arena,
    prefixes: &Prefixes,
    id: ExprId,
) -> Result<(), WriteFault>
    requires { id < length arena.now.trees }
    ensures ok { OnOk result (draft.new ≡ draft.old ++ item_line prefixes.now (tree_at arena.now.trees id)) }
    ensures too_long { IsErrOf result WriteFault.TooLong → IsTooLong (draft.old ++ item_line prefixes.now (tree_at arena.now.trees id)) }
{
    add_item(draft, arena, prefixes, id)?;
    draft.add_ascii("\n")
}
