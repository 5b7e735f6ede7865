//! Nodes in a hash table.

ghost use Rattle.std.specs.Prelude.{◌≡◌, ◌<◌, ◌≤◌, ◌+◌, ◌-◌, ◌%◌, [], ◌∷◌, ◌++◌, IfOk, IfSome, IsNone, IsOk, OnOk, OnErr, length, replicate, slice_index, slice_index_or, slice_set, vec_capacity, vec_len};
ghost use Rattle.std.specs.List.{AllWithin, HoldsAt};
ghost use Rattle.owl_arena.specs.Chains.{AreLinked};
ghost use Rattle.owl_arena.specs.Mixes.{form_mix, mixes};
ghost use Rattle.owl_arena.specs.Nodes.{Differs, HasForm};
ghost use Rattle.owl_arena.specs.Shared.{most_trees};

use crate::nodes::{Form, Node};
use owl_characters::NoMemory;
use std::alloc::Global;

/// Nodes by place, with a chain of places for each bucket, by which a node is
/// found from its form.
///
/// A link is one more than a place, or 0 for none. A bucket has a link to its
/// last node, and a node to the one before it in its bucket. There is room for
/// as many nodes as there are buckets.
#[derive(Debug, Drop)]
pub struct Table {
    nodes: Vec<Node>,
    nexts: Vec<u32>,
    heads: Vec<u32>,
    ghost linked: { AreLinked heads.items nexts.items (mixes nodes.items) (length nodes.items) },
    ghost long: { vec_len nexts ≡ vec_len nodes },
    ghost few: { vec_len nodes ≤ most_trees },
    ghost inside: { vec_len nodes ≤ vec_len heads },
    ghost room: { vec_len heads ≤ vec_capacity nodes },
    ghost room_beside: { vec_len heads ≤ vec_capacity nexts },
}

impl Table {
    pub fn new(alloc: Global) -> Table
        ensures nodes { result.nodes.items ≡ [] }
    {
        Table {
            nodes: Vec::new(alloc),
            nexts: Vec::new(alloc),
            heads: Vec::new(alloc),
        }
    }

    pub fn len(&self) -> usize
        ensures { result ≡ length self.now.nodes.items }
    {
        self.nodes.len()
    }

    /// For how many more nodes there is room.
    pub fn spare(&self) -> usize
        ensures { result ≡ length self.now.heads.items - length self.now.nodes.items }
    {
        self.heads.len() - self.nodes.len()
    }

    pub fn at(&self, place: usize) -> &Node
        requires { place < length self.now.nodes.items }
        ensures { result.now ≡ slice_index_or self.now.nodes.items place result.now }
    {
        &self.nodes[place]
    }

    /// The place of the node with this form, whose mix is given, if one has it.
    pub fn find(&self, form: &Form, mix: u64) -> Option<usize>
        requires { mix ≡ form_mix form.now }
        ensures some { IfSome result (λ place. place < length self.now.nodes.items) }
        ensures here { IfSome result (λ place. HoldsAt (HasForm form.now) self.now.nodes.items place) }
        ensures none { IsNone result → AllWithin (Differs form.now) self.now.nodes.items 0 (length self.now.nodes.items) }
    {
        if self.heads.is_empty() {
            return None;
        }
        let mut link = self.heads[bucket(mix, self.heads.len())];
        while link != 0 {
            let place = link as usize - 1;
            if self.nodes[place].form.is(form) {
                return Some(place);
            }
            link = self.nexts[place];
        }
        None
    }

    /// Makes room for so many more nodes. The chains move when there is all the
    /// memory, so nothing changes where the call refuses.
    pub fn reserve(&mut self, more: usize) -> Result<(), NoMemory>
        ensures nodes { self.new.nodes.items ≡ self.old.nodes.items }
        ensures enough { length self.old.nodes.items + more ≤ length self.old.heads.items → IsOk result }
        ensures room { OnOk result (length self.old.nodes.items + more ≤ length self.new.heads.items) }
        ensures kept { length self.old.heads.items ≤ length self.new.heads.items }
        ensures err { OnErr result (self.new.heads.items ≡ self.old.heads.items) }
    {
        if more <= self.spare() {
            return Ok(());
        }
        let buckets = buckets_for(self.nodes.len(), more).ok_or(NoMemory)?;
        self.nodes.reserve(buckets - self.nodes.len())?;
        self.nexts.reserve(buckets - self.nexts.len())?;
        let mut heads = vec![in *self.heads.allocator(); 0; buckets]?;
        link_all(&self.nodes, &mut heads, &mut self.nexts);
        self.heads = heads;
        Ok(())
    }

    /// Puts a node, whose mix is given, behind the others. Takes no memory.
    pub fn push(&mut self, node: Node, mix: u64)
        requires mix { mix ≡ form_mix node.form }
        requires room { length self.old.nodes.items < length self.old.heads.items }
        requires few { length self.old.nodes.items < most_trees }
        ensures nodes { self.new.nodes.items ≡ self.old.nodes.items ++ node ∷ [] }
        ensures heads { length self.new.heads.items ≡ length self.old.heads.items }
    {
        let place = self.nodes.len();
        self.nodes.push(node).unwrap();
        self.nexts.push(0).unwrap();
        link(&mut self.heads, &mut self.nexts, place, mix);
    }
}

/// The least number of buckets that is one less than a power of two and has room for
/// so many nodes and so many more; none where it is past the numbers of the machine.
///
/// A step of a mix multiplies by 1000003. Nodes over kids at places that follow one
/// another have mixes that lie 1000004 or 1000002 apart, and would leave most buckets
/// empty where their number shares a large factor with one of these.
fn buckets_for(nodes: usize, more: usize) -> Option<usize>
    ensures { IfSome result (λ buckets. nodes + more ≤ buckets) }
{
    let needed = nodes.checked_add(more)?;
    let mut buckets: usize = 1;
    while buckets < needed {
        buckets = buckets.checked_add(buckets)?.checked_add(1)?;
    }
    Some(buckets)
}

/// Puts the nodes into empty chains, one behind the other.
fn link_all(nodes: &[Node], heads: &mut [u32], nexts: &mut [u32])
    requires few { length nodes.now ≤ most_trees }
    requires long { length nexts.old ≡ length nodes.now }
    requires inside { length nodes.now ≤ length heads.old }
    requires empty { heads.old ≡ replicate (length heads.old) 0 }
    ensures { AreLinked heads.new nexts.new (mixes nodes.now) (length nodes.now) }
{
    for place in 0..nodes.len() {
        link(heads, nexts, place, nodes[place].form.mix());
    }
}

/// Puts a place at the front of the chain of its bucket.
fn link(heads: &mut [u32], nexts: &mut [u32], place: usize, mix: u64)
    requires buckets { 0 < length heads.old }
    requires inside { place < length nexts.old }
    requires few { place < most_trees }
    ensures heads { heads.new ≡ slice_set heads.old (mix % length heads.old) (place + 1) }
    ensures nexts { nexts.new ≡ slice_set nexts.old place (slice_index heads.old (mix % length heads.old)) }
{
    let bucket = bucket(mix, heads.len());
    nexts[place] = heads[bucket];
    heads[bucket] = place as u32 + 1;
}

/// The bucket of a mix.
fn bucket(mix: u64, buckets: usize) -> usize
    requires { 0 < buckets }
    ensures value { result ≡ mix % buckets }
    ensures inside { result < buckets }
{
    (mix % buckets as u64) as usize
}
