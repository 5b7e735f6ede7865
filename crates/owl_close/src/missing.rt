//! Imports that name no document.

ghost use Rattle.std.specs.Prelude.{◌≡◌, ◌<◌, IfErr, OnOk, false, length};
ghost use Rattle.std.specs.Option.{option_copied};
ghost use Rattle.owl_close.specs.Imports.{AreReached, MissesNone, heads_of};
ghost use Rattle.owl_close.specs.Refusals.{IsRefusal};
ghost use Rattle.owl_close.specs.Searches.{FindsLeast, lesser_of};

use crate::fault::CloseFault;
use crate::named::place_named;
use owl_atom::Iri;
use owl_doc::Head;
use std::alloc::Global;

/// Refuses where an import of these documents, which are the reached ones, names
/// no document, with the least such import of the first document that has any.
pub fn refuse_missing(alloc: Global, heads: &[Head], places: &[usize]) -> Result<(), CloseFault>
    requires main { 0 < length heads.now }
    requires reached { AreReached (heads_of heads.now) places.now }
    ensures none { OnOk result (MissesNone (heads_of heads.now)) }
    ensures some { IfErr result (IsRefusal (heads_of heads.now) false) }
{
    'places: for place in places {
        if let Some(iri) = least_missing(heads, &heads[*place].imports) {
            let iri = iri.copy(alloc)?;
            return Err(CloseFault::MissingImport {
                document: *place,
                iri,
            });
        }
    }
    Ok(())
}

/// The least of these imports, in order of bytes, that names no document, where
/// there is one. Takes no memory.
fn least_missing<'a>(heads: &[Head], imports: &'a [Iri]) -> Option<&'a Iri>
    ensures { FindsLeast (heads_of heads.now) imports.entry.now (option_copied result) }
{
    let mut least: Option<&Iri> = None;
    'imports: for iri in imports {
        if place_named(heads, iri).is_none() {
            least = Some(lesser(iri, least));
        }
    }
    least
}

/// The one that comes first in order of bytes.
fn lesser<'a>(iri: &'a Iri, other: Option<&'a Iri>) -> &'a Iri
    ensures { result.now ≡ lesser_of iri.entry.now (option_copied other.entry) }
{
    match other {
        Some(other) if other < iri => other,
        _ => iri,
    }
}
