//! What is found to be needed.

ghost use Rattle.std.specs.Prelude.{◌≡◌, ◌↔◌, ◌⊎◌, IsTrue, OnOk, Contains, map};
ghost use Rattle.owl_kind.specs.Kinds.{Entity, is_built_in};
ghost use Rattle.owl_list.specs.Ascending.{HoldSame};
ghost use Rattle.owl_declare.specs.Needed.{entity_of};

use crate::need::Need;
use owl_characters::NoMemory;
use owl_kind::{Kind, Kinds};
use rdf_terms::Iri;
use std::alloc::Global;
use std::marker::Model;

/// What is found to be needed, each once, which contracts see as a list of entities.
#[derive(Drop)]
pub struct Found {
    met: Kinds,
    needs: Vec<Need>,
}

impl Model for Found {
    ghost use Rattle.std.specs.Prelude.{List, map};
    ghost use Rattle.owl_kind.specs.Kinds.{Entity};
    ghost use Rattle.owl_list.specs.Ascending.{HoldSame};
    ghost use Rattle.owl_declare.specs.Needed.{entity_of};

    ghost Value = { List Entity };

    ghost view = { λ f. f.met };

    ghost invariant = { λ f. HoldSame (map entity_of f.needs.items) f.met };
}

impl Found {
    /// Nothing is found. Takes no memory.
    pub fn new(alloc: Global) -> Found
        ensures { (e : Entity) → Contains result e → ⊥ }
    {
        Found {
            met: Kinds::new(alloc),
            needs: Vec::new(alloc),
        }
    }

    /// Finds the IRI, which is not built in as this kind, unless it was found.
    pub fn add(&mut self, kind: Kind, iri: &Iri) -> Result<(), NoMemory>
        requires { IsTrue (is_built_in kind iri.now) → ⊥ }
        ensures { OnOk result ((e : Entity) → Contains self.new e
            ↔ (Contains self.old e ⊎ (e ≡ record { kind = kind; iri = iri.now }))) }
    {
        if self.met.has(kind, iri) {
            return Ok(());
        }
        let alloc = self.met.allocator();
        let met = iri.copy(alloc)?;
        let iri = iri.copy(alloc)?;
        self.needs.reserve(1)?;
        self.met.declare(kind, met)?;
        self.needs.push(Need { kind, iri }).unwrap();
        Ok(())
    }

    /// The list of it. Takes no memory.
    pub fn into_needs(self) -> Vec<Need>
        ensures { HoldSame (map entity_of result.items) self }
    {
        self.needs
    }
}
