//! Makers of trees.

ghost use Rattle.std.specs.Prelude.{◌≡◌, ◌↔◌, ◌≤◌, ◌⊎◌, IsTrue, List, [], ◌∷◌, IfErr, IsErrOf, OnErr, OnOk, length};
ghost use Rattle.owl_arena.specs.Shared.{AreShared, deepest};
ghost use Rattle.owl_doc.specs.Documents.{IsBegun, ontology_of, with_import, with_name, with_prefixes};
ghost use Rattle.owl_doc.specs.Heads.{StandsBeside, name_of};
ghost use Rattle.owl_maker.specs.Constructs.{Constructs, Item, shut_in};
ghost use Rattle.owl_tree.specs.Frames.{FitsButKeys, Frame, IsKeyless, opened, with_kid};
ghost use Rattle.owl_maker.specs.Makings.{AddsAnnotation, AddsAxiom, Follows, Grows, HasAnnotation, HasAxiom, IsInside, MayShut, PassesLimit, annotations_of, axioms_of, nothing_open, with_document};
ghost use Rattle.owl_maker.specs.declared.fault.MakeFault.{MakeFault};
ghost use Rattle.owl_tree.specs.Ontologies.{canonical_ontology};
ghost use Rattle.owl_tree.specs.Shape.{IsShaped};
ghost use Rattle.owl_tree.specs.Trees.{Tree, leaf};

use crate::build::{is_keyless, outcome_of, push_open, put_leaf, shut_top};
use crate::fault::MakeFault;
use crate::parts::Open;
use owl_arena::ExprId;
use owl_atom::{Iri, Prefixes};
use owl_characters::NoMemory;
use owl_doc::{Builder, Doc};
use owl_tree::{Atom, Tag};
use std::alloc::Global;
use std::marker::Model;

/// So many constructs may be open.
const LEVELS: usize = 128;

/// A maker of the items of a document: constructs are opened, get leaves and
/// constructs as kids, and are shut; whole items are added to the document.
/// Contracts see what is in hand, and `Follows` relates it to the constructs as
/// they were written. A maker that refused leaves its document as it was.
#[derive(Drop)]
pub struct Maker {
    alloc: Global,
    builder: Builder,
    stack: Vec<Open>,
    item: Option<ExprId>,
    is_heavy: bool,
}

impl Model for Maker {
    ghost use Rattle.owl_maker.specs.Makings.{Making};

    ghost Value = { Making };

    ghost use Rattle.std.specs.Coded.{codes};
    ghost use Rattle.owl_tree.specs.OrderLaws.{coded_tree};

    ghost coded = { Prim.hlevel (codes, coded_tree) };

    ghost use Rattle.owl_maker.specs.Kept.{IsKept, making_of};

    ghost view = { making_of };

    ghost invariant = { IsKept };
}

impl Maker {
    /// A maker that adds to this document. Takes no memory.
    pub fn new(alloc: Global, builder: Builder) -> Maker
        ensures { result ≡ nothing_open builder }
    {
        Maker {
            alloc,
            builder,
            stack: Vec::new(alloc),
            item: None,
            is_heavy: false,
        }
    }

    /// A law: of what every document and every arena is. It does nothing.
    pub fn made(&self)
        ensures begun { IsBegun self.now.document }
        ensures shared { AreShared self.now.document.arena.trees }
    {
        self.builder.arena().distinct();
    }

    /// Whether 128 constructs are open.
    pub fn is_full(&self) -> bool
        ensures { (fs : List Frame) → Follows self.now (Constructs fs)
            → IsTrue result ↔ (deepest ≤ length fs) }
    {
        LEVELS <= self.stack.len()
    }

    /// Opens a construct with this tag inside the others, or an item.
    ///
    /// `TooDeep` exactly where 128 constructs are open. Where the call refuses,
    /// nothing changes.
    pub fn open(&mut self, tag: Tag) -> Result<(), MakeFault>
        ensures opened { OnOk result ((fs : List Frame) → Follows self.old (Constructs fs)
            → Follows self.new (Constructs (opened tag fs))) }
        ensures too_deep { (fs : List Frame) → Follows self.old (Constructs fs)
            → IsErrOf result MakeFault.TooDeep ↔ (deepest ≤ length fs) }
        ensures refusals { IfErr result (λ fault.
            (fault ≡ MakeFault.TooDeep) ⊎ (fault ≡ MakeFault.Memory)) }
        ensures rest { Grows self.old.document self.new.document }
        ensures err { OnErr result (self.new ≡ self.old) }
    {
        if LEVELS <= self.stack.len() {
            return Err(MakeFault::TooDeep);
        }
        push_open(self.alloc, &mut self.stack, tag)
    }

    /// Adds a leaf to the innermost construct.
    ///
    /// `TooDeep` exactly where 128 constructs are open. Where the call refuses, what
    /// is open stays as it was.
    pub fn leaf(&mut self, tag: Tag, atom: Atom) -> Result<(), MakeFault>
        requires inside { IsInside self.old }
        requires shaped { IsShaped (leaf tag atom) }
        ensures added { OnOk result ((f : Frame) (fs : List Frame)
            → Follows self.old (Constructs (f ∷ fs))
            → Follows self.new (Constructs (with_kid (leaf tag atom) f ∷ fs))) }
        ensures too_deep { (fs : List Frame) → Follows self.old (Constructs fs)
            → IsErrOf result MakeFault.TooDeep ↔ (deepest ≤ length fs) }
        ensures refusals { IfErr result (λ fault.
            (fault ≡ MakeFault.TooDeep) ⊎ (fault ≡ MakeFault.Memory)) }
        ensures rest { Grows self.old.document self.new.document }
        ensures err { OnErr result (self.new ≡ with_document self.new.document self.old) }
    {
        if LEVELS <= self.stack.len() {
            return Err(MakeFault::TooDeep);
        }
        let is_heavy = self.is_heavy;
        put_leaf(&mut self.builder, &mut self.stack, is_heavy, tag, atom)
    }

    /// Shuts the innermost construct, which is then a kid of the one around it,
    /// or the item.
    ///
    /// `EmptyKey` exactly where it is a HasKey without a property; then nothing
    /// changes.
    pub fn shut(&mut self) -> Result<(), MakeFault>
        requires { MayShut self.old }
        ensures shut { OnOk result ((f : Frame) (fs : List Frame) → FitsButKeys f
            → Follows self.old (Constructs (f ∷ fs)) → Follows self.new (shut_in f fs)) }
        ensures empty_key { (f : Frame) (fs : List Frame)
            → Follows self.old (Constructs (f ∷ fs))
            → IsErrOf result MakeFault.EmptyKey ↔ IsKeyless f }
        ensures refusals { IfErr result (λ fault.
            (fault ≡ MakeFault.EmptyKey) ⊎ (fault ≡ MakeFault.Memory)) }
        ensures rest { Grows self.old.document self.new.document }
        ensures kept { IsErrOf result MakeFault.EmptyKey → self.new ≡ self.old }
    {
        if is_keyless(&self.stack) {
            return Err(MakeFault::EmptyKey);
        }
        shut_top(
            &mut self.builder,
            &mut self.stack,
            &mut self.item,
            &mut self.is_heavy,
        )
    }

    /// Adds the item, an annotation of the ontology (Structural Specification,
    /// section 3.5), unless it is there already.
    ///
    /// `TooHeavy` exactly where it is new and with it the document has more than
    /// 2^24 nodes and leaves. Where the call refuses, nothing changes.
    pub fn add_annotation(&mut self) -> Result<(), MakeFault>
        requires { HasAnnotation self.old }
        ensures added { OnOk result ((t : Tree) → Follows self.old (Item t)
            → AddsAnnotation self.old.document self.new.document t) }
        ensures done { OnOk result (Follows self.new (Constructs [])) }
        ensures too_heavy { (t : Tree) → Follows self.old (Item t)
            → IsErrOf result MakeFault.TooHeavy
            ↔ PassesLimit self.old.document (annotations_of self.old.document) t }
        ensures refusals { IfErr result (λ fault.
            (fault ≡ MakeFault.TooHeavy) ⊎ (fault ≡ MakeFault.Memory)) }
        ensures err { OnErr result (self.new ≡ self.old) }
    {
        // What was added before has one number for each tree.
        let _trees = self.builder.arena().distinct();
        if self.is_heavy {
            return Err(MakeFault::TooHeavy);
        }
        let id = self.item.unwrap();
        let added = self.builder.annotate(id);
        match outcome_of(added) {
            Ok(()) => {
                self.item = None;
                Ok(())
            }
            Err(fault) => Err(fault),
        }
    }

    /// Adds the item, an axiom (Structural Specification, section 9), unless it
    /// is there already.
    ///
    /// `TooHeavy` exactly where it is new and with it the document has more than
    /// 2^24 nodes and leaves. Where the call refuses, nothing changes.
    pub fn add_axiom(&mut self) -> Result<(), MakeFault>
        requires { HasAxiom self.old }
        ensures added { OnOk result ((t : Tree) → Follows self.old (Item t)
            → AddsAxiom self.old.document self.new.document t) }
        ensures done { OnOk result (Follows self.new (Constructs [])) }
        ensures too_heavy { (t : Tree) → Follows self.old (Item t)
            → IsErrOf result MakeFault.TooHeavy
            ↔ PassesLimit self.old.document (axioms_of self.old.document) t }
        ensures refusals { IfErr result (λ fault.
            (fault ≡ MakeFault.TooHeavy) ⊎ (fault ≡ MakeFault.Memory)) }
        ensures err { OnErr result (self.new ≡ self.old) }
    {
        // What was added before has one number for each tree.
        let _trees = self.builder.arena().distinct();
        if self.is_heavy {
            return Err(MakeFault::TooHeavy);
        }
        let id = self.item.unwrap();
        let added = self.builder.add(id);
        match outcome_of(added) {
            Ok(()) => {
                self.item = None;
                Ok(())
            }
            Err(fault) => Err(fault),
        }
    }

    /// Gives the document these prefixes, in place of those that it had. Takes no
    /// memory.
    pub fn set_prefixes(&mut self, prefixes: Prefixes)
        ensures { self.new
            ≡ with_document (with_prefixes prefixes self.old.document) self.old }
    {
        self.builder.set_prefixes(prefixes);
    }

    /// Calls the ontology so, in place of an earlier name (Structural
    /// Specification, section 3.1). Takes no memory.
    pub fn head(&mut self, iri: Option<Iri>, version: Option<Iri>)
        requires { StandsBeside version iri }
        ensures { self.new
            ≡ with_document (with_name (name_of iri version) self.old.document) self.old }
    {
        self.builder.head(iri, version);
    }

    /// Imports what is called so (Structural Specification, section 3.4). Where
    /// the call refuses, nothing changes.
    pub fn import(&mut self, iri: Iri) -> Result<(), NoMemory>
        ensures ok { OnOk result (self.new
            ≡ with_document (with_import iri self.old.document) self.old) }
        ensures err { OnErr result (self.new ≡ self.old) }
    {
        self.builder.import(iri)
    }

    /// The document: imports in order of their bytes, annotations and axioms in
    /// canonical order, each once. It is quicker where there is memory, and needs
    /// none.
    pub fn finish(self) -> Doc
        ensures ontology { ontology_of result ≡ canonical_ontology (ontology_of self.document) }
        ensures prefixes { result.prefixes ≡ self.document.prefixes }
        ensures arena { result.arena ≡ self.document.arena }
    {
        self.builder.finish_by_ranks(self.alloc)
    }
}
