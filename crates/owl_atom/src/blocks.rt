//! Prefixes in blocks, for tables of many prefixes.

ghost use Rattle.std.specs.Prelude.{◌≡◌, ◌<◌, ◌≤◌, ◌++◌, [], length, insert, slice_get, is_ok, if◌then◌else◌, IfOk, IfErr, IfSome, IsNone, OnOk, OnErr, None, Some};
ghost use Rattle.std.specs.Str.{chars};
ghost use Rattle.owl_atom.specs.Blocks.{AreBlocks, AreFilled, IsBlockFor, Puts, begins_by, flat};
ghost use Rattle.owl_atom.specs.Places.{IsGapFor, IsPlaceOf};
ghost use Rattle.owl_atom.specs.PrefixLaws.{IsFound, SetsOnly};
ghost use Rattle.owl_atom.specs.Prefixes.{AreAscending, prefix_in};

use crate::prefixes::{Prefix, copy_of, push};
use owl_characters::NoMemory;
use std::alloc::{AllocError, Global};
use std::marker::Model;

/// A block of so many prefixes is halved before one is put into it.
const FULL: usize = 256;

/// Prefixes in the order of their names, which contracts see as their list.
///
/// They stand in blocks that are not empty, each of which goes on where the one
/// before it ends, so that few of them move where one is put between others.
#[derive(Debug, Drop)]
pub struct Blocks {
    blocks: Vec<Vec<Prefix>>,
    len: usize,
}

impl Model for Blocks {
    ghost use Rattle.std.specs.Prelude.{List};
    ghost use Rattle.owl_atom.specs.declared.prefixes.Prefix.{Prefix};
    ghost use Rattle.owl_atom.specs.Blocks.{AreBlocks, flat};

    ghost Value = { List Prefix };

    ghost view = { λ b. flat b.blocks.items };

    ghost invariant = { λ b. AreBlocks b.blocks.items b.len };
}

impl Blocks {
    /// No prefixes. Takes no memory.
    pub fn empty(alloc: Global) -> Blocks
        ensures { result ≡ [] }
    {
        Blocks {
            blocks: Vec::new(alloc),
            len: 0,
        }
    }

    /// These prefixes, in one block.
    pub fn of(held: Vec<Prefix>) -> Result<Blocks, NoMemory>
        requires { AreAscending held.items }
        ensures { IfOk result (λ blocks. blocks ≡ held.items) }
    {
        let len = held.len();
        let mut blocks = Vec::new(*held.allocator());
        if 0 < len {
            push(&mut blocks, held)?;
        }
        Ok(Blocks { blocks, len })
    }

    /// The same prefixes, in one block.
    pub fn copy(&self, alloc: Global) -> Result<Blocks, NoMemory>
        ensures { IfOk result (λ copy. copy ≡ self.now) }
    {
        let mut copies = Vec::new(alloc);
        for block in &self.blocks {
            add_copies(&mut copies, block)?;
        }
        Blocks::of(copies)
    }

    /// Where memory is taken from.
    pub fn allocator(&self) -> Global {
        *self.blocks.allocator()
    }

    /// How many prefixes there are.
    pub fn len(&self) -> usize
        ensures len { result ≡ length self.now }
        ensures ascending { AreAscending self.now }
    {
        self.len
    }

    /// The prefix at this place. The blocks before it are passed one by one, of
    /// which a copy has none.
    pub fn at(&self, place: usize) -> &Prefix
        requires { place < length self.now }
        ensures { slice_get self.now place ≡ Some result.now }
    {
        at(&self.blocks, place)
    }

    /// The prefix of this name.
    pub fn find(&self, name: &str) -> Option<&Prefix>
        ensures some { IfSome result (λ prefix. IsFound self.now (chars name.now) prefix.now) }
        ensures none { IsNone result → prefix_in self.now (chars name.now) ≡ None }
    {
        find(&self.blocks, name)
    }

    /// Puts a prefix in the place of the one of its name, or where it is to
    /// stand. At want of memory nothing changes.
    pub fn put(&mut self, prefix: Prefix) -> Result<(), NoMemory>
        ensures ok { OnOk result (SetsOnly self.old self.new prefix.name prefix) }
        ensures err { OnErr result (self.new ≡ self.old) }
    {
        let len = self.len.checked_add(1).ok_or(NoMemory)?;
        let block = room_for(&mut self.blocks, prefix.name.as_str())?;
        if put_into(&mut self.blocks, block, prefix)? {
            self.len = len;
        }
        Ok(())
    }
}

/// Adds copies of all prefixes of a block.
fn add_copies(copies: &mut Vec<Prefix>, block: &[Prefix]) -> Result<(), NoMemory>
    ensures { OnOk result (copies.new.items ≡ copies.old.items ++ block.now) }
{
    let alloc = *copies.allocator();
    for prefix in block {
        push(copies, copy_of(alloc, prefix)?)?;
    }
    Ok(())
}

/// The prefix at this place of all blocks.
fn at(mut blocks: &[Vec<Prefix>], mut place: usize) -> &Prefix
    requires { place < length (flat blocks.now) }
    ensures { slice_get (flat blocks.now) place ≡ Some result.now }
{
    while blocks[0].len() <= place {
        place -= blocks[0].len();
        blocks = &blocks[1..];
    }
    &blocks[0][place]
}

/// The prefix of this name in all blocks.
fn find<'a>(blocks: &'a [Vec<Prefix>], name: &str) -> Option<&'a Prefix>
    requires filled { AreFilled blocks.now }
    requires ascending { AreAscending (flat blocks.now) }
    ensures some { IfSome result (λ prefix. IsFound (flat blocks.now) (chars name.now) prefix.now) }
    ensures none { IsNone result → prefix_in (flat blocks.now) (chars name.now) ≡ None }
{
    let block = blocks.get(block_of(blocks, name))?;
    match place_of(block, name) {
        Ok(place) => Some(&block[place]),
        Err(_) => None,
    }
}

/// The block in which the prefix of this name stands, or is to stand.
fn block_of(blocks: &[Vec<Prefix>], name: &str) -> usize
    requires filled { AreFilled blocks.now }
    requires ascending { AreAscending (flat blocks.now) }
    ensures { IsBlockFor blocks.now (chars name.now) result }
{
    let begun = blocks.partition_point(|block| begins_by(name, block));
    begun.saturating_sub(1)
}

/// Whether the first of the names is this one, or less.
fn begins_by(name: &str, block: &[Prefix]) -> bool
    ensures { result ≡ begins_by (chars name.now) block.now }
{
    match block.first() {
        Some(prefix) => prefix.name.as_str().cmp(name).is_le(),
        None => true,
    }
}

/// Where the prefix of this name stands, or the place where it would stand.
fn place_of(held: &[Prefix], name: &str) -> Result<usize, usize>
    requires { AreAscending held.now }
    ensures bound { (IfOk result (λ place. place < length held.now)) × (IfErr result (λ place. place ≤ length held.now)) }
    ensures found { IfOk result (λ place. IsPlaceOf held.now (chars name.now) place) }
    ensures absent { IfErr result (λ place. IsGapFor held.now (chars name.now) place) }
{
    held.binary_search_by(|prefix| prefix.name.as_str().cmp(name))
}

/// The block for a prefix of this name, with room for it.
fn room_for(blocks: &mut Vec<Vec<Prefix>>, name: &str) -> Result<usize, NoMemory>
    requires filled { AreFilled blocks.old.items }
    requires ascending { AreAscending (flat blocks.old.items) }
    ensures block { IfOk result (λ block. IsBlockFor blocks.new.items (chars name.now) block) }
    ensures same { flat blocks.new.items ≡ flat blocks.old.items }
    ensures filled { AreFilled blocks.new.items }
{
    let block = block_of(blocks, name);
    halve(blocks, block)?;
    Ok(block_of(blocks, name))
}

/// Makes two blocks of this one, where it is full.
fn halve(blocks: &mut Vec<Vec<Prefix>>, block: usize) -> Result<(), NoMemory>
    requires { AreFilled blocks.old.items }
    ensures same { flat blocks.new.items ≡ flat blocks.old.items }
    ensures filled { AreFilled blocks.new.items }
{
    if blocks.len() <= block || blocks[block].len() < FULL {
        return Ok(());
    }
    blocks.reserve(1)?;
    let back = back_of(&mut blocks[block])?;
    blocks.insert(block + 1, back).unwrap();
    Ok(())
}

/// The half behind, which is taken from the block.
fn back_of(block: &mut Vec<Prefix>) -> Result<Vec<Prefix>, NoMemory>
    requires { 1 < length block.old.items }
    ensures parts { IfOk result (λ back. block.new.items ++ back.items ≡ block.old.items) }
    ensures filled { IfOk result (λ back. (0 < length block.new.items) × (0 < length back.items)) }
    ensures err { OnErr result (block.new ≡ block.old) }
{
    let half = block.len() / 2;
    Ok(block.split_off(half)?)
}

/// Puts a prefix into this block, or behind all blocks. Tells whether it is a
/// new one.
fn put_into(blocks: &mut Vec<Vec<Prefix>>, block: usize, prefix: Prefix) -> Result<bool, NoMemory>
    requires blocks { AreFilled blocks.old.items × AreAscending (flat blocks.old.items) }
    requires block { IsBlockFor blocks.old.items prefix.name block }
    ensures puts { IfOk result (Puts (flat blocks.old.items) (flat blocks.new.items) prefix) }
    ensures err { OnErr result (flat blocks.new.items ≡ flat blocks.old.items) }
    ensures filled { AreFilled blocks.new.items }
{
    if block < blocks.len() {
        return put_among(&mut blocks[block], prefix);
    }
    let mut held = Vec::new(*blocks.allocator());
    push(&mut held, prefix)?;
    push(blocks, held)?;
    Ok(true)
}

/// Puts a prefix into a block. Tells whether it is a new one.
fn put_among(held: &mut Vec<Prefix>, prefix: Prefix) -> Result<bool, NoMemory>
    requires { AreAscending held.old.items }
    ensures puts { IfOk result (Puts held.old.items held.new.items prefix) }
    ensures err { OnErr result (held.new.items ≡ held.old.items) }
{
    match place_of(held, prefix.name.as_str()) {
        Ok(place) => {
            held[place] = prefix;
            Ok(false)
        }
        Err(place) => {
            insert(held, place, prefix)?;
            Ok(true)
        }
    }
}

fn insert(held: &mut Vec<Prefix>, place: usize, prefix: Prefix) -> Result<(), AllocError>
    requires { place ≤ length held.old.items }
    ensures { held.new.items ≡ (if is_ok result then insert held.old.items place prefix else held.old.items) }
{
    Ok(held.insert(place, prefix)?)
}
