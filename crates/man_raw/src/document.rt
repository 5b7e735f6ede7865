//! Documents as they were read.

use crate::heading::{Heading, Section};
use crate::raw::Raw;
use owl_atom::Prefixes;
use rdf_terms::Iri;
use std::marker::Model;

/// An element of a section's list, or the whole of a section that is no list,
/// with the annotations of its axiom.
#[derive(Drop)]
pub struct RawPart {
    /// The byte at which its first token begins.
    pub at: u64,
    pub section: Section,
    /// Of the form `Notes`.
    pub notes: Raw,
    pub body: Raw,
}

/// A frame, or a sentence of its own (Manchester Syntax, sections 2.5 and 2.6).
#[derive(Drop)]
pub struct RawItem {
    /// The byte of its keyword.
    pub at: u64,
    pub heading: Heading,
    /// What a frame is of.
    pub name: Option<Raw>,
    pub parts: Vec<RawPart>,
}

impl Model for RawItem {
    ghost use Rattle.std.specs.Coded.{codes};
    ghost use Rattle.man_raw.specs.Documents.{ItemTree};
    ghost use Rattle.man_raw.specs.Raws.{coded_raw};

    ghost Value = { ItemTree };

    ghost coded = { Prim.hlevel (codes, coded_raw) };

    ghost view = { λ r. record {
      at = r.at;
      heading = r.heading;
      name = r.name;
      parts = r.parts.items;
    } };
}

/// How an ontology is called and what it imports, as it was read (Manchester
/// Syntax, section 2.4).
#[derive(Debug, Drop)]
pub struct RawHead {
    pub iri: Option<Iri>,
    /// Stands only beside an ontology IRI.
    pub version: Option<Iri>,
    pub imports: Vec<Iri>,
}

/// A document as it was read (Manchester Syntax, section 2.4).
#[derive(Drop)]
pub struct RawDoc {
    pub head: RawHead,
    pub prefixes: Prefixes,
    /// Each of the form `Notes`.
    pub notes: Vec<Raw>,
    pub items: Vec<RawItem>,
}

impl Model for RawDoc {
    ghost use Rattle.std.specs.Coded.{codes};
    ghost use Rattle.man_raw.specs.Documents.{DocumentTree};
    ghost use Rattle.man_raw.specs.Raws.{coded_raw};

    ghost Value = { DocumentTree };

    ghost coded = { Prim.hlevel (codes, coded_raw) };

    ghost view = { λ r. record {
      head = record { iri = r.head.iri; version = r.head.version; imports = r.head.imports.items };
      prefixes = r.prefixes;
      notes = r.notes.items;
      items = r.items.items;
    } };
}
