//! The numbers of what the nodes denote.

ghost use Rattle.std.specs.Prelude.{◌≡◌, IfErr, IfOk, IfSome, OnErr, OnOk, length};
ghost use Rattle.rdf_meaning.specs.Kinds.{HaveNoClash};
ghost use Rattle.rdf_roles.specs.Tables.{IsTableOf};
ghost use Rattle.rdf_nodes.specs.Duplicates.{AddsAtMost, IsNumberOfDuplicate};
ghost use Rattle.rdf_nodes.specs.Numbers.{AreAllHeld, AreKnown, AreNumbered, DenoteTrees, HaveNodeKids, HaveNone, IsAddedTo, IsNextOf, IsNumbersFault, IsPassedIn, IsSomeNodeFault};
ghost use Rattle.tree_stores.specs.Stores.{Keeps};

use crate::duplicates::Duplicates;
use crate::source::Source;
use owl_characters::NoMemory;
use std::alloc::{AllocError, Global};
use tree_stores::{TreeFault, TreeStore, add_kids};

impl<'a> Source<'a> {
    /// The numbers that the store has for the trees that the nodes denote, by the
    /// numbers of the nodes; none for a node that is no expression. The numbers of
    /// the nodes below a node are found before its own.
    ///
    /// `TooDeep` where some node denotes a tree of more than 128 levels; `TooHeavy`
    /// where one denotes a tree with more than 2^24 nodes and leaves, or where that is
    /// limited and different trees that nodes denote have more than 2^24 kids together.
    /// The store keeps the trees that it had, at their numbers, also where this refuses.
    pub fn numbers<S: TreeStore>(
        &self,
        store: &mut S,
        limited: bool,
    ) -> Result<Vec<Option<S::Number>>, TreeFault<S::Heavy>>
        requires table { IsTableOf self.now.graph.now self.now.roles.now }
        requires trees { DenoteTrees self.now.graph.now self.now.kinds.now }
        ensures numbered { IfOk result (λ ids. AreNumbered self.now.graph.now self.now.kinds.now
            self.now.roles.now (S.stands store.new) ids.items) }
        ensures known { IfOk result (λ ids.
            AreKnown self.now.graph.now self.now.roles.now ids.items) }
        ensures all { OnOk result (HaveNoClash self.now.kinds.now →
            AreAllHeld self.now.graph.now self.now.kinds.now (S.stands store.new)) }
        ensures fault { IfErr result (
            IsNumbersFault self.now.graph.now self.now.kinds.now limited) }
        ensures kept { Keeps (S.stands store.old) (S.stands store.new) }
    {
        let mut ids = no_numbers(self.alloc, self.roles.len())?;
        let mut duplicates = Duplicates::of(self);
        let mut rest = self.roles.order();
        let mut sum = 0;
        while let Some((number, behind)) = rest.split_first() {
            match self.add_counted(store, &mut ids, &mut duplicates, *number, sum, limited) {
                Ok(more) => {
                    sum = more;
                    rest = behind;
                }
                Err(fault) => return Err(fault),
            }
        }
        Ok(ids)
    }

    /// So for one more node, and where that is limited, how many kids the trees have
    /// together with its own, if no tree before is equivalent to it.
    fn add_counted<S: TreeStore>(
        &self,
        store: &mut S,
        ids: &mut Vec<Option<S::Number>>,
        duplicates: &mut Duplicates,
        number: usize,
        sum: u64,
        limited: bool,
    ) -> Result<u64, TreeFault<S::Heavy>>
        requires table { IsTableOf self.now.graph.now self.now.roles.now }
        requires trees { DenoteTrees self.now.graph.now self.now.kinds.now }
        requires numbered { AreNumbered self.now.graph.now self.now.kinds.now self.now.roles.now
            (S.stands store.old) ids.old.items }
        requires next { IsNextOf self.now.graph.now self.now.roles.now ids.old.items number }
        ensures added { OnOk result (
            IsAddedTo self.now.graph.now self.now.kinds.now self.now.roles.now
            (S.stands store.new) ids.old.items ids.new.items number) }
        ensures sum { HaveNodeKids self.now.graph.now self.now.kinds.now (S.stands store.old) sum →
            IfOk result (HaveNodeKids self.now.graph.now self.now.kinds.now
            (S.stands store.new)) }
        ensures fault { HaveNodeKids self.now.graph.now self.now.kinds.now (S.stands store.old) sum →
            IfErr result (IsNumbersFault self.now.graph.now self.now.kinds.now limited) }
        ensures kept { Keeps (S.stands store.old) (S.stands store.new) }
    {
        let before = store.count();
        match self.add_number(store, ids, duplicates, number) {
            Ok(()) => {}
            Err(fault) => return Err(fault),
        }
        if !limited {
            return Ok(sum);
        }
        let Some(Some(id)) = ids.get(number) else {
            return Ok(sum);
        };
        match add_kids(store, before, *id, sum) {
            Ok(more) => Ok(more),
            Err(heavy) => Err(TreeFault::TooHeavy(heavy)),
        }
    }

    /// Adds the number of the tree that the node with this number denotes, where
    /// those of the nodes below it are known.
    fn add_number<S: TreeStore>(
        &self,
        store: &mut S,
        ids: &mut Vec<Option<S::Number>>,
        duplicates: &mut Duplicates,
        number: usize,
    ) -> Result<(), TreeFault<S::Heavy>>
        requires table { IsTableOf self.now.graph.now self.now.roles.now }
        requires trees { DenoteTrees self.now.graph.now self.now.kinds.now }
        requires numbered { AreNumbered self.now.graph.now self.now.kinds.now self.now.roles.now
            (S.stands store.old) ids.old.items }
        requires next { IsNextOf self.now.graph.now self.now.roles.now ids.old.items number }
        ensures numbered { OnOk result (AreNumbered self.now.graph.now self.now.kinds.now
            self.now.roles.now (S.stands store.new) ids.new.items) }
        ensures known { OnOk result (
            IsPassedIn self.now.graph.now self.now.roles.now ids.old.items ids.new.items number) }
        ensures fault { IfErr result (IsSomeNodeFault self.now.graph.now self.now.kinds.now) }
        ensures kept { Keeps (S.stands store.old) (S.stands store.new) }
    {
        let Some(label) = self.roles.node(number) else {
            unreachable!();
        };
        if let Some(id) = self.number_of_duplicate(ids, duplicates, number)? {
            ids[number] = Some(id);
            return Ok(());
        }
        match self.denoted(store, ids, label) {
            Ok(found) => {
                ids[number] = found;
                Ok(())
            }
            Err(fault) => Err(fault),
        }
    }

    /// The number of the tree that a node with the same triples denotes, and so the
    /// one with this number, where one was asked for before and is known. At want of
    /// memory the nodes that are kept stay as they were.
    pub fn number_of_duplicate<N: Copy>(
        &self,
        ids: &[Option<N>],
        duplicates: &mut Duplicates,
        number: usize,
    ) -> Result<Option<N>, NoMemory>
        requires { IsTableOf self.now.graph.now self.now.roles.now }
        ensures found { IfOk result (λ found. IfSome found (
            IsNumberOfDuplicate self.now.graph.now self.now.roles.now ids.now number)) }
        ensures kept { AddsAtMost duplicates.old duplicates.new number }
        ensures err { OnErr result (duplicates.new ≡ duplicates.old) }
    {
        let Some(other) = duplicates.earlier(self, number)? else {
            return Ok(None);
        };
        match ids.get(other) {
            Some(Some(id)) => Ok(Some(*id)),
            Some(None) | None => Ok(None),
        }
    }
}

/// So many nodes without a number.
pub fn no_numbers<N: Copy>(alloc: Global, nodes: usize) -> Result<Vec<Option<N>>, NoMemory>
    ensures none { IfOk result (λ ids. HaveNone ids.items) }
    ensures many { IfOk result (λ ids. length ids.items ≡ nodes) }
{
    let mut ids = Vec::new(alloc);
    for _node in 0..nodes {
        ids.push(None).map_err(AllocError::from)?;
    }
    Ok(ids)
}
