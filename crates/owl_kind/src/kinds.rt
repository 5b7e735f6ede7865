//! What IRIs are declared as.

ghost use Rattle.std.specs.Prelude.{◌≡◌, ◌↔◌, ◌⊎◌, ℕ, List, [], IsTrue, IfSome, IsNone, OnOk, OnErr, option_map};
ghost use Rattle.std.specs.Map.Iter.{deref};
ghost use Rattle.owl_kind.specs.declared.kind.Kind.{Kind};
ghost use Rattle.owl_kind.specs.Kinds.{IsDeclared, HasKind, HasClash, IsFirstClash};
ghost use Rattle.owl_kind.specs.Order.{AreOrdered};
ghost use Rattle.owl_kind.specs.Marks.{IsTable, declared_by, least_that_clashes, marks_at};

use crate::kind::Kind;
use crate::marks::Marks;
use indexmap::IndexMap;
use owl_characters::NoMemory;
use rdf_terms::Iri;
use std::alloc::{AllocError, Global};
use std::marker::Model;

/// What IRIs are declared as (Structural Specification, section 5.8), which
/// contracts see as the list of these entities, each once, in order.
#[derive(Debug, Drop)]
pub struct Kinds {
    alloc: Global,
    table: IndexMap<Iri, Marks>,
}

impl Model for Kinds {
    ghost use Rattle.std.specs.Prelude.{List};
    ghost use Rattle.owl_kind.specs.Kinds.{Entity};
    ghost use Rattle.owl_kind.specs.Marks.{IsTable, declared_by};

    ghost Value = { List Entity };

    ghost view = { λ k. declared_by k.table.entries };

    ghost invariant = { λ k. IsTable k.table.entries };
}

impl Kinds {
    /// No IRI is declared. Takes no memory.
    pub fn new(alloc: Global) -> Kinds
        ensures { (kind : Kind) (iri : List ℕ) → IsDeclared result kind iri → ⊥ }
    {
        Kinds {
            alloc,
            table: IndexMap::new(alloc),
        }
    }

    /// The allocator that it was made with.
    pub fn allocator(&self) -> Global {
        self.alloc
    }

    /// Whether no IRI is declared. Takes no memory.
    pub fn is_empty(&self) -> bool
        ensures empty { IsTrue result ↔ (self.now ≡ []) }
        ensures ordered { AreOrdered self.now }
    {
        self.table.is_empty()
    }

    /// Declares the IRI as this kind, besides what it is declared as. At want
    /// of memory nothing changes.
    pub fn declare(&mut self, kind: Kind, iri: Iri) -> Result<(), NoMemory>
        ensures ok { OnOk result ((k : Kind) (i : List ℕ) → IsDeclared self.new k i ↔ (IsDeclared self.old k i ⊎ ((k ≡ kind) × (i ≡ iri)))) }
        ensures err { OnErr result (self.new ≡ self.old) }
    {
        mark(&mut self.table, kind, iri)?;
        Ok(())
    }

    /// Whether the IRI is declared as this kind, or built in. Takes no memory.
    pub fn has(&self, kind: Kind, iri: &Iri) -> bool
        ensures { IsTrue result ↔ HasKind self.now kind iri.now }
    {
        marks_of(&self.table, iri).are_of(iri, kind)
    }

    /// The least declared IRI, in order of bytes, that has two kinds of
    /// properties, or is a class and a datatype (section 5.8.1). Kinds that are
    /// built in count. Takes no memory.
    pub fn clash(&self) -> Option<&Iri>
        ensures some { IfSome result (λ iri. IsFirstClash self.now iri.now) }
        ensures none { IsNone result ↔ ((iri : List ℕ) → HasClash self.now iri → ⊥) }
    {
        first_clash(&self.table)
    }
}

/// The marks of the IRI, none where it has no entry.
fn marks_of(table: &IndexMap<Iri, Marks>, iri: &Iri) -> Marks
    ensures { result ≡ marks_at table.now.entries iri.now }
{
    table.get(iri).copied().unwrap_or(Marks::NONE)
}

/// Marks the IRI with this kind too. At want of memory nothing changes.
fn mark(table: &mut IndexMap<Iri, Marks>, kind: Kind, iri: Iri) -> Result<(), AllocError>
    requires { IsTable table.old.entries }
    ensures ok { OnOk result ((k : Kind) (i : List ℕ) → IsDeclared (declared_by table.new.entries) k i
        ↔ (IsDeclared (declared_by table.old.entries) k i ⊎ ((k ≡ kind) × (i ≡ iri)))) }
    ensures err { OnErr result (table.new.entries ≡ table.old.entries) }
    ensures table { IsTable table.new.entries }
{
    let marks = marks_of(table, &iri).with(kind);
    table.insert(iri, marks)?;
    Ok(())
}

/// The least IRI whose marks clash.
fn first_clash(table: &IndexMap<Iri, Marks>) -> Option<&Iri>
    ensures { option_map deref result ≡ least_that_clashes table.now.entries }
{
    table
        .iter()
        .filter(|(iri, marks)| marks.clash(iri))
        .map(|(iri, _)| iri)
        .min()
}
