//! The import closure.

ghost use Rattle.std.specs.Prelude.{◌<◌, IfErr, IfOk, OnOk, length};
ghost use Rattle.std.specs.Bool.{OnFalse};
ghost use Rattle.owl_close.specs.Imports.{AreReached, MissesNone, heads_of};
ghost use Rattle.owl_close.specs.Refusals.{IsRefusal};

use crate::fault::CloseFault;
use crate::missing::refuse_missing;
use crate::reached::reached_places;
use owl_doc::Head;
use std::alloc::Global;

/// The import closure of the main document, which is the first: the places of
/// the documents that it reaches by imports, itself among them, in ascending
/// order (Structural Specification, section 3.4). An import names the first
/// document whose ontology IRI or version IRI it is.
///
/// Where the closure may be partial, imports that name no document are passed
/// over. Else `MissingImport` comes exactly where a reached document has one,
/// with the least of them in the first such document. `Memory` may come in place
/// of any other answer.
pub fn closure(alloc: Global, heads: &[Head], partial: bool) -> Result<Vec<usize>, CloseFault>
    requires { 0 < length heads.now }
    ensures reached { IfOk result (λ places. AreReached (heads_of heads.now) places.items) }
    ensures whole { OnOk result (OnFalse partial (MissesNone (heads_of heads.now))) }
    ensures missing { IfErr result (IsRefusal (heads_of heads.now) partial) }
{
    let places = reached_places(alloc, heads)?;
    if !partial {
        refuse_missing(alloc, heads, &places)?;
    }
    Ok(places)
}
