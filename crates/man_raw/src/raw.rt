//! Pieces of documents.

ghost use Rattle.std.specs.Prelude.{◌≡◌, [], ◌∷◌};
ghost use Rattle.man_raw.specs.Raws.{RawTrees, place_of, raw, trees_of};

use crate::form::{Form, What};
use std::alloc::Global;
use std::marker::Model;

/// A piece of a document: what it is, the byte at which its first token begins,
/// and its parts in order (Manchester Syntax, sections 2.2 to 2.5). An atom, a
/// word and a facet have none.
#[derive(Drop)]
pub struct Raw {
    pub at: u64,
    pub what: What,
    pub parts: Vec<Raw>,
}

impl Model for Raw {
    ghost use Rattle.std.proofs.Common.{arith};
    ghost use Rattle.man_raw.specs.Raws.{RawTree, coded_raw, most_weight, raw, trees_of, weight};

    ghost Value = { RawTree };

    ghost coded = { coded_raw };

    ghost view = { λ r. raw r.at r.what (trees_of r.parts.items) };

    ghost size = { weight };

    ghost size_decreases = { λ r h. omega (arith, most_weight r.parts.items) };
}

impl Raw {
    /// A piece without parts. Takes no memory.
    pub fn leaf(alloc: Global, at: u64, what: What) -> Raw
        ensures { result ≡ raw at what RawTrees.none }
    {
        Raw {
            at,
            what,
            parts: Vec::new(alloc),
        }
    }

    /// The byte at which its first token begins.
    pub fn place(&self) -> u64
        ensures { result ≡ place_of self.now }
    {
        self.at
    }
}
