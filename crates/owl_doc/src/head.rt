//! Heads of ontologies.

ghost use Rattle.std.specs.Prelude.{◌≡◌, IfOk};
ghost use Rattle.owl_doc.specs.Copies.{IsCopy};

use owl_atom::Iri;
use owl_characters::NoMemory;
use std::alloc::{AllocError, Global};

/// How an ontology is called and what it imports (Structural Specification,
/// sections 3.1 and 3.4).
#[derive(Debug, Drop)]
pub struct Head {
    pub iri: Option<Iri>,
    /// Stands only beside an ontology IRI.
    pub version: Option<Iri>,
    /// In order of their bytes, each once.
    pub imports: Vec<Iri>,
}

impl Head {
    /// An equal head.
    pub fn copy(&self, alloc: Global) -> Result<Head, NoMemory>
        ensures { IfOk result (λ copy. IsCopy self.now copy) }
    {
        Ok(Head {
            iri: copy_of(&self.iri, alloc)?,
            version: copy_of(&self.version, alloc)?,
            imports: copies_of(&self.imports, alloc)?,
        })
    }
}

/// An equal IRI, where there is one.
fn copy_of(iri: &Option<Iri>, alloc: Global) -> Result<Option<Iri>, NoMemory>
    ensures { IfOk result (λ copy. copy ≡ iri.now) }
{
    match iri {
        Some(iri) => Ok(Some(iri.copy(alloc)?)),
        None => Ok(None),
    }
}

/// Equal IRIs in the same order.
fn copies_of(iris: &[Iri], alloc: Global) -> Result<Vec<Iri>, NoMemory>
    ensures { IfOk result (λ copies. copies.items ≡ iris.now) }
{
    let mut copies = Vec::with_capacity(alloc, iris.len())?;
    'iris: for iri in iris {
        copies.push(iri.copy(alloc)?).map_err(AllocError::from)?;
    }
    Ok(copies)
}
