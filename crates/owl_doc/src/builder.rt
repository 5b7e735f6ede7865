//! Documents that are begun.

ghost use Rattle.std.specs.Prelude.{◌≡◌, ◌↔◌, ◌⊎◌, ◌<◌, ◌≤◌, ◌+◌, Contains, IsTrue, IsOk, IsErrOf, IfOk, OnOk, OnErr, Some, length, slice_get};
ghost use Rattle.owl_arena.specs.declared.grow.Grow.{Grow};
ghost use Rattle.owl_arena.specs.Growth.{Adds, IsOneTooMany, IsTooDeep, IsTooHeavy, IsWithin, Lacks};
ghost use Rattle.owl_arena.specs.Held.{AreHeld, node_over, tree_at, trees_at};
ghost use Rattle.owl_doc.specs.declared.fault.AddFault.{AddFault};
ghost use Rattle.owl_doc.specs.Documents.{IsAnnotationAt, IsAxiomAt, IsBegun, IsFinished, PassesWeight, nothing_yet, ontology_of, weight_at, with_arena, with_axiom, with_import, with_name, with_note, with_prefixes};
ghost use Rattle.owl_doc.specs.Heads.{StandsBeside, name_of};
ghost use Rattle.owl_doc.specs.Adding.{Collects};
ghost use Rattle.owl_arena.specs.Shared.{heaviest};
ghost use Rattle.owl_list.specs.Ascending.{HoldSame, ascending};
ghost use Rattle.owl_tree.specs.Canonical.{canonical};
ghost use Rattle.owl_tree.specs.Ontologies.{canonical_list, canonical_ontology, list_weight};
ghost use Rattle.owl_tree.specs.Order.{tree_cmp};
ghost use Rattle.owl_tree.specs.Shape.{IsShaped};
ghost use Rattle.owl_tree.specs.Trees.{leaf, tag_of, weight};
ghost use Rattle.owl_tree.specs.declared.tag.Tag.TheVariants as tag;

use crate::collected::Collected;
use crate::document::Doc;
use crate::fault::AddFault;
use crate::head::Head;
use owl_arena::{Arena, ExprId, Grow, HEAVIEST};
use owl_atom::{Iri, Prefixes};
use owl_characters::NoMemory;
use owl_list::arrange;
use owl_tree::{Atom, Tag};
use std::alloc::{AllocError, Global};
use std::marker::Model;

/// A document that is begun, which contracts see as a document whose imports,
/// annotations and axioms stand in the order in which they were added.
#[derive(Drop)]
pub struct Builder {
    arena: Arena,
    prefixes: Prefixes,
    head: Head,
    notes: Collected,
    axioms: Collected,
    weight: u64,
}

impl Model for Builder {
    ghost use Rattle.owl_doc.specs.Documents.{Document, document_code};

    ghost Value = { Document };

    ghost coded = { document_code };

    ghost use Rattle.owl_doc.specs.Kept.{IsKeptBegun, begun_of};

    ghost view = { begun_of };

    ghost invariant = { IsKeptBegun };
}

impl Builder {
    /// No name, no imports, no annotations and no axioms, over this arena. Takes
    /// no memory.
    pub fn new(alloc: Global, prefixes: Prefixes, arena: Arena) -> Builder
        ensures { result ≡ nothing_yet prefixes arena }
    {
        Builder {
            arena,
            prefixes,
            head: Head {
                iri: None,
                version: None,
                imports: Vec::new(alloc),
            },
            notes: Collected::new(alloc),
            axioms: Collected::new(alloc),
            weight: 0,
        }
    }

    /// The arena, in which all that was added is held.
    pub fn arena(&self) -> &Arena
        ensures arena { result.now ≡ self.now.arena }
        ensures begun { IsBegun self.now }
    {
        &self.arena
    }

    /// Takes memory for so many more trees in the arena, unless there is as much
    /// already. Where the call refuses, nothing changes.
    pub fn reserve(&mut self, nodes: usize) -> Result<(), NoMemory>
        ensures trees { self.new.arena.trees ≡ self.old.arena.trees }
        ensures enough { nodes ≤ self.old.arena.spare → IsOk result }
        ensures room { OnOk result (nodes ≤ self.new.arena.spare) }
        ensures kept { self.old.arena.spare ≤ self.new.arena.spare }
        ensures rest { self.new ≡ with_arena self.new.arena self.old }
        ensures err { OnErr result (self.new ≡ self.old) }
    {
        self.arena.reserve(nodes)
    }

    /// The number of the leaf in the arena, as `Arena::leaf` gives it.
    pub fn leaf(&mut self, tag: Tag, atom: Atom) -> Result<ExprId, Grow>
        ensures id { IfOk result (λ id. slice_get self.new.arena.trees id ≡ Some (leaf tag atom)) }
        ensures within { OnOk result (IsWithin (leaf tag atom)) }
        ensures added { OnOk result (Adds self.old.arena.trees self.new.arena.trees (leaf tag atom)) }
        ensures rest { self.new ≡ with_arena self.new.arena self.old }
        ensures bad_shape { IsErrOf result Grow.BadShape ↔ (IsShaped (leaf tag atom) → ⊥) }
        ensures too_many { IsErrOf result Grow.TooMany ↔ IsOneTooMany self.old.arena.trees (leaf tag atom) }
        ensures not_too_large { (IsErrOf result Grow.TooDeep → ⊥) × (IsErrOf result Grow.TooHeavy → ⊥) }
        ensures memory { IsErrOf result Grow.Memory → self.old.arena.spare ≡ 0 }
        ensures absent { IsErrOf result Grow.Memory → Lacks self.old.arena.trees (leaf tag atom) }
        ensures room { self.old.arena.spare ≤ self.new.arena.spare + 1 }
        ensures err { OnErr result (self.new ≡ self.old) }
    {
        self.arena.leaf(tag, atom)
    }

    /// The number of the canonical form of the node in the arena, as
    /// `Arena::node` gives it.
    pub fn node(&mut self, tag: Tag, kids: Vec<ExprId>) -> Result<ExprId, Grow>
        requires { AreHeld self.old.arena.trees kids.items }
        ensures id { IfOk result (λ id. slice_get self.new.arena.trees id ≡ Some (canonical (node_over self.old.arena.trees tag kids.items))) }
        ensures within { OnOk result (IsWithin (node_over self.old.arena.trees tag kids.items)) }
        ensures added { OnOk result (Adds self.old.arena.trees self.new.arena.trees (canonical (node_over self.old.arena.trees tag kids.items))) }
        ensures rest { self.new ≡ with_arena self.new.arena self.old }
        ensures bad_shape { IsErrOf result Grow.BadShape ↔ (IsShaped (node_over self.old.arena.trees tag kids.items) → ⊥) }
        ensures too_deep { IsErrOf result Grow.TooDeep ↔ IsTooDeep (node_over self.old.arena.trees tag kids.items) }
        ensures too_heavy { IsErrOf result Grow.TooHeavy ↔ IsTooHeavy (node_over self.old.arena.trees tag kids.items) }
        ensures too_many { IsErrOf result Grow.TooMany ↔ IsOneTooMany self.old.arena.trees (node_over self.old.arena.trees tag kids.items) }
        ensures memory { IsErrOf result Grow.Memory → self.old.arena.spare ≡ 0 }
        ensures absent { IsErrOf result Grow.Memory → Lacks self.old.arena.trees (canonical (node_over self.old.arena.trees tag kids.items)) }
        ensures room { self.old.arena.spare ≤ self.new.arena.spare + 1 }
        ensures err { OnErr result (self.new ≡ self.old) }
    {
        self.arena.node(tag, kids)
    }

    /// Gives the document these prefixes, in place of those that it had. Takes no
    /// memory.
    pub fn set_prefixes(&mut self, prefixes: Prefixes)
        ensures { self.new ≡ with_prefixes prefixes self.old }
    {
        self.prefixes = prefixes;
    }

    /// Calls the ontology so, in place of an earlier name (Structural
    /// Specification, section 3.1). Takes no memory.
    pub fn head(&mut self, iri: Option<Iri>, version: Option<Iri>)
        requires { StandsBeside version iri }
        ensures { self.new ≡ with_name (name_of iri version) self.old }
    {
        self.head.iri = iri;
        self.head.version = version;
    }

    /// Imports what is called so (Structural Specification, section 3.4); one
    /// import that is given twice is one. Where the call refuses, nothing
    /// changes.
    pub fn import(&mut self, iri: Iri) -> Result<(), NoMemory>
        ensures ok { OnOk result (self.new ≡ with_import iri self.old) }
        ensures err { OnErr result (self.new ≡ self.old) }
    {
        Ok(self.head.imports.push(iri).map_err(AllocError::from)?)
    }

    /// Adds an annotation of the ontology, and tells whether it is new.
    ///
    /// `WrongTag` exactly where the tree is no annotation; else `TooHeavy`
    /// exactly where it is new and the document would have more than 2^24 nodes
    /// and leaves. Where the call refuses, nothing changes.
    pub fn annotate(&mut self, id: ExprId) -> Result<bool, AddFault>
        requires { id < length self.old.arena.trees }
        ensures new { IfOk result (λ added. IsTrue added ↔ (Contains self.old.notes id → ⊥)) }
        ensures added { IfOk result (λ added. self.new ≡ with_note added id self.old) }
        ensures right_tag { OnOk result (IsAnnotationAt self.old id) }
        ensures wrong_tag { IsErrOf result AddFault.WrongTag ↔ (IsAnnotationAt self.old id → ⊥) }
        ensures too_heavy { IsErrOf result AddFault.TooHeavy ↔ (IsAnnotationAt self.old id × PassesWeight self.old self.old.notes id) }
        ensures err { OnErr result (self.new ≡ self.old) }
    {
        if !is_annotation(&self.arena, id) {
            return Err(AddFault::WrongTag);
        }
        let weight = weight_of(&self.arena, id);
        collect(&mut self.notes, &mut self.weight, id, weight)
    }

    /// Adds an axiom, and tells whether it is new.
    ///
    /// `WrongTag` exactly where the tree is no axiom; else `TooHeavy` exactly
    /// where it is new and the document would have more than 2^24 nodes and
    /// leaves. Where the call refuses, nothing changes.
    pub fn add(&mut self, id: ExprId) -> Result<bool, AddFault>
        requires { id < length self.old.arena.trees }
        ensures new { IfOk result (λ added. IsTrue added ↔ (Contains self.old.axioms id → ⊥)) }
        ensures added { IfOk result (λ added. self.new ≡ with_axiom added id self.old) }
        ensures right_tag { OnOk result (IsAxiomAt self.old id) }
        ensures wrong_tag { IsErrOf result AddFault.WrongTag ↔ (IsAxiomAt self.old id → ⊥) }
        ensures too_heavy { IsErrOf result AddFault.TooHeavy ↔ (IsAxiomAt self.old id × PassesWeight self.old self.old.axioms id) }
        ensures err { OnErr result (self.new ≡ self.old) }
    {
        if !self.arena.tag(id).is_axiom() {
            return Err(AddFault::WrongTag);
        }
        let weight = weight_of(&self.arena, id);
        collect(&mut self.axioms, &mut self.weight, id, weight)
    }

    /// The document: imports in order of their bytes, annotations and axioms in
    /// canonical order, each once. Takes no memory.
    pub fn finish(self) -> Doc
        ensures { IsFinished self result }
    {
        self.finish_with(None)
    }

    /// The document that `finish` gives, but quicker, where there is memory for it.
    pub fn finish_by_ranks(self, alloc: Global) -> Doc
        ensures { IsFinished self result }
    {
        self.finish_with(Some(alloc))
    }

    /// The document, put in order with what memory this gives.
    fn finish_with(self, alloc: Option<Global>) -> Doc
        ensures { IsFinished self result }
    {
        let arena = self.arena;
        let mut head = self.head;
        arrange(&mut head.imports);
        let notes = in_order(alloc, &arena, self.notes);
        let axioms = in_order(alloc, &arena, self.axioms);
        Doc {
            arena,
            prefixes: self.prefixes,
            head,
            notes,
            axioms,
            weight: self.weight,
        }
    }
}

/// Whether the tree is an annotation.
fn is_annotation(arena: &Arena, id: ExprId) -> bool
    requires { id < length arena.now.trees }
    ensures { IsTrue result ↔ (tag_of (tree_at arena.now.trees id) ≡ tag.Annotation) }
{
    arena.tag(id) == Tag::Annotation
}

/// What the tree weighs.
fn weight_of(arena: &Arena, id: ExprId) -> u64
    requires { id < length arena.now.trees }
    ensures weight { result ≡ weight (tree_at arena.now.trees id) }
    ensures bounded { result ≤ heaviest }
    ensures shaped { IsShaped (tree_at arena.now.trees id) }
{
    // What every arena holds is shaped.
    let _trees = arena.distinct();
    arena.weight(id)
}

/// Puts the number behind the others, unless it is there, and adds its weight to
/// the total. Where the call refuses, nothing changes.
fn collect(ids: &mut Collected, total: &mut u64, id: ExprId, weight: u64) -> Result<bool, AddFault>
    requires total { total.old ≤ heaviest }
    requires weight { weight ≤ heaviest }
    ensures { Collects (record { ids = ids.old; total = total.old }) id weight result (record { ids = ids.new; total = total.new }) }
{
    if ids.has(id) {
        return Ok(false);
    }
    let heavier = *total + weight;
    if HEAVIEST < heavier {
        return Err(AddFault::TooHeavy);
    }
    ids.push(id)?;
    *total = heavier;
    Ok(true)
}

/// The numbers in canonical order of their trees.
fn in_order(alloc: Option<Global>, arena: &Arena, ids: Collected) -> Vec<ExprId>
    requires { AreHeld arena.now.trees ids }
    ensures order { trees_at arena.now.trees result.items ≡ canonical_list (trees_at arena.now.trees ids) }
    ensures same { HoldSame result.items ids }
    ensures held { AreHeld arena.now.trees result.items }
    ensures weight { list_weight (trees_at arena.now.trees result.items) ≡ weight_at arena.now.trees ids }
{
    // Equal trees have one number, and each is its own canonical form.
    let _trees = arena.distinct();
    let mut ids = ids.into_list();
    sort_set(alloc, arena, &mut ids);
    ids
}

/// Puts the trees in ascending order, each once, with what memory this gives.
fn sort_set(alloc: Option<Global>, arena: &Arena, ids: &mut Vec<ExprId>)
    requires { AreHeld arena.now.trees ids.old.items }
    ensures ascending { trees_at arena.now.trees ids.new.items
        ≡ ascending tree_cmp (trees_at arena.now.trees ids.old.items) }
    ensures same { HoldSame ids.new.items ids.old.items }
    ensures held { AreHeld arena.now.trees ids.new.items }
{
    match alloc {
        Some(alloc) => arena.sort_set_by_ranks(alloc, ids),
        None => arena.sort_set(ids),
    }
}
