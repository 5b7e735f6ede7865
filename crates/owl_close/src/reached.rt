//! Which documents are reached.

ghost use Rattle.std.specs.Prelude.{◌≡◌, ◌<◌, IfOk, OnOk, length};
ghost use Rattle.owl_close.specs.Imports.{AreReached, heads_of};
ghost use Rattle.owl_close.specs.Searches.{AddsImported, with_place};

use crate::named::place_named;
use owl_atom::Iri;
use owl_doc::Head;
use owl_list::arrange;
use std::alloc::{AllocError, Global};

/// The places that the main document, which is the first, reaches by imports, in
/// ascending order (Structural Specification, section 3.4). Imports that name no
/// document are passed over.
pub fn reached_places(alloc: Global, heads: &[Head]) -> Result<Vec<usize>, AllocError>
    requires { 0 < length heads.now }
    ensures { IfOk result (λ places. AreReached (heads_of heads.now) places.items) }
{
    let mut places: Vec<usize> = vec![in alloc; 0]?;
    let mut next = 0;
    'places: while next < places.len() {
        let from = places[next];
        add_imported(&mut places, heads, &heads[from].imports)?;
        next += 1;
    }
    arrange(&mut places);
    Ok(places)
}

/// Puts the places of the documents that these imports name behind the others,
/// each once.
fn add_imported(places: &mut Vec<usize>, heads: &[Head], imports: &[Iri]) -> Result<(), AllocError>
    ensures { OnOk result (AddsImported (heads_of heads.now) imports.now
        places.old.items places.new.items) }
{
    'imports: for iri in imports {
        if let Some(place) = place_named(heads, iri) {
            add(places, place)?;
        }
    }
    Ok(())
}

/// Puts the place behind the others, unless it is among them.
fn add(places: &mut Vec<usize>, place: usize) -> Result<(), AllocError>
    ensures { OnOk result (places.new.items ≡ with_place places.old.items place) }
{
    if !places.contains(&place) {
        places.push(place)?;
    }
    Ok(())
}
