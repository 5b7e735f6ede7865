//! Items, while a document is read.

ghost use Rattle.std.specs.Prelude.{◌≡◌, reverse, OnErr, OnOk};
ghost use Rattle.man_raw.specs.Listed.{begun_item, in_section, items_with, named_item, nothing_listed, with_part};

use crate::document::{RawItem, RawPart};
use crate::heading::{Heading, Section};
use crate::opened::Annotated;
use crate::raw::Raw;
use std::alloc::{AllocError, Global};
use std::marker::Model;

/// The items so far, and the section that is read. Contracts see the last item
/// first.
#[derive(Drop)]
pub struct Listed {
    alloc: Global,
    items: Vec<RawItem>,
    section: Section,
}

impl Model for Listed {
    ghost use Rattle.std.specs.Prelude.{reverse};
    ghost use Rattle.std.specs.Coded.{codes};
    ghost use Rattle.man_raw.specs.Listed.{Listing};
    ghost use Rattle.man_raw.specs.Raws.{coded_raw};

    ghost Value = { Listing };

    ghost coded = { Prim.hlevel (codes, coded_raw) };

    ghost view = { λ l. record { items = reverse l.items.items; section = l.section } };
}

impl Listed {
    /// No items. Takes no memory.
    pub fn new(alloc: Global) -> Listed
        ensures { result ≡ nothing_listed }
    {
        Listed {
            alloc,
            items: Vec::new(alloc),
            section: Section::Members,
        }
    }

    /// Begins an item whose keyword stands at this byte. At want of memory nothing
    /// changes.
    pub fn begin_item(&mut self, at: u64, heading: Heading) -> Result<(), AllocError>
        ensures ok { OnOk result (self.new ≡ begun_item at heading self.old) }
        ensures err { OnErr result (self.new ≡ self.old) }
    {
        let item = RawItem {
            at,
            heading,
            name: None,
            parts: Vec::new(self.alloc),
        };
        self.items.push(item)?;
        self.section = Section::Members;
        Ok(())
    }

    /// Says what the last item is of. Takes no memory.
    pub fn name_item(&mut self, name: Option<Raw>)
        ensures { self.new ≡ named_item name self.old }
    {
        if let Some(mut item) = self.items.pop() {
            item.name = name;
            self.items.push(item).unwrap();
        }
    }

    /// Begins a section.
    pub fn begin_section(&mut self, section: Section)
        ensures { self.new ≡ in_section section self.old }
    {
        self.section = section;
    }

    /// Adds a part of the section to the last item. At want of memory nothing changes.
    pub fn add_part(&mut self, pair: Option<Annotated>) -> Result<(), AllocError>
        ensures ok { OnOk result (self.new ≡ with_part pair self.old) }
        ensures err { OnErr result (self.new ≡ self.old) }
    {
        if let Some(Annotated { at, notes, body }) = pair {
            self.push_part(RawPart {
                at,
                section: self.section,
                notes,
                body,
            })?;
        }
        Ok(())
    }

    /// Adds a part to the last item.
    fn push_part(&mut self, part: RawPart) -> Result<(), AllocError>
        ensures ok { OnOk result (self.new ≡ record self.old { items = items_with part self.old.items }) }
        ensures err { OnErr result (self.new ≡ self.old) }
    {
        if let Some(mut item) = self.items.pop() {
            let pushed = item.parts.push(part);
            self.items.push(item).unwrap();
            pushed?;
        }
        Ok(())
    }

    /// The items in order.
    pub fn into_items(self) -> Vec<RawItem>
        ensures { result.items ≡ reverse self.items }
    {
        self.items
    }
}
