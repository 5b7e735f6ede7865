//! The main document and those that it reaches.

ghost use Rattle.std.specs.Prelude.{◌<◌, IfOk, length, map};
ghost use Rattle.owl_documents.specs.Documents.{parsed_of};
ghost use Rattle.owl_answer.specs.KindsAt.{IsClosure};

use crate::imports::reached;
use crate::kinds::closure_kinds;
use owl_characters::NoMemory;
use owl_documents::Document;
use owl_tree::Kinds;
use std::alloc::Global;

/// The documents that the main one reaches, by their places, and the kinds that
/// they declare.
#[derive(Drop)]
pub struct Closure {
    pub places: Vec<usize>,
    pub kinds: Kinds,
}

/// The closure of the main document, which is the first (Structural
/// Specification, section 3.4).
pub fn closure_of(alloc: Global, docs: &[Document]) -> Result<Closure, NoMemory>
    requires { 0 < length docs.now }
    ensures { IfOk result (IsClosure (map parsed_of docs.now)) }
{
    let places = reached(alloc, docs)?;
    let kinds = closure_kinds(alloc, docs, &places)?;
    Ok(Closure { places, kinds })
}
