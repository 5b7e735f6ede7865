//! The arena.

ghost use Rattle.std.specs.Prelude.{◌≡◌, ◌↔◌, ◌<◌, ◌≤◌, ◌+◌, ◌⊎◌, IsTrue, IsNone, IsSome, IsOk, IsErrOf, IfErr, IfOk, IfSome, OnOk, OnErr, Some, [], ◌∷◌, ◌++◌, length, slice_get};
ghost use Rattle.std.specs.List.{AllByRecursion};
ghost use Rattle.std.specs.Option.{option_map};
ghost use Rattle.owl_arena.specs.declared.grow.Grow.{Grow};
ghost use Rattle.owl_arena.specs.Growth.{Adds, IsOneTooMany, IsTooDeep, IsTooHeavy, IsWithin, Lacks};
ghost use Rattle.owl_arena.specs.Held.{AreHeld, IsLeafTag, node_over, tree_at, trees_at};
ghost use Rattle.owl_arena.specs.Mixes.{form_mix};
ghost use Rattle.owl_arena.specs.Nodes.{AreKidsBelow, IsMeasured, IsRefusal, tree_of};
ghost use Rattle.owl_arena.specs.Shared.{AreShared, IsEntry, TellEquivalence, deepest, heaviest, most_trees};
ghost use Rattle.owl_tree.specs.Canonical.{canonical};
ghost use Rattle.owl_tree.specs.Shape.{IsShaped};
ghost use Rattle.owl_tree.specs.Trees.{atom_in, depth, kids_in, kids_of, leaf, most_depth, sum_weight, tag_of, weight};

use crate::expr_id::ExprId;
use crate::grow::Grow;
use crate::nodes::{Form, Node};
use crate::table::Table;
use owl_characters::NoMemory;
use owl_tree::{Atom, Tag};
use std::alloc::Global;
use std::marker::Model;

/// The most levels that a tree may have.
pub const DEEPEST: u32 = 128;

/// The most nodes and leaves that a tree may have, and a document too.
pub const HEAVIEST: u64 = 1 << 24;

/// The most trees that an arena may have.
const MOST_TREES: usize = 1 << 28;

/// Trees, each with a number, so that equivalent trees have one number
/// (Structural Specification, section 2.1). Contracts see the list of the trees
/// and for how many more there is memory.
///
/// Each tree is in canonical form: the members of its sets ascend, each once.
/// Its kids have smaller numbers than it. A number keeps its tree.
#[derive(Debug, Drop)]
pub struct Arena {
    table: Table,
}

impl Model for Arena {
    ghost use Rattle.owl_arena.specs.Held.{Held, held_code};

    ghost Value = { Held };

    ghost coded = { held_code };

    ghost use Rattle.std.specs.Prelude.{◌-◌, [], length};
    ghost use Rattle.owl_arena.specs.Nodes.{IsArena, grown};

    ghost view = { λ a. record { trees = grown [] a.table.nodes.items; spare = length a.table.heads.items - length a.table.nodes.items } };

    ghost invariant = { λ a. IsArena a.table.nodes.items };
}

impl Arena {
    /// No trees. Takes no memory.
    pub fn new(alloc: Global) -> Arena
        ensures { result.trees ≡ [] }
    {
        Arena {
            table: Table::new(alloc),
        }
    }

    /// Takes memory for so many trees, unless there is as much already. Where the
    /// call refuses, nothing changes.
    pub fn reserve(&mut self, nodes: usize) -> Result<(), NoMemory>
        ensures trees { self.new.trees ≡ self.old.trees }
        ensures enough { nodes ≤ self.old.spare → IsOk result }
        ensures room { OnOk result (nodes ≤ self.new.spare) }
        ensures kept { self.old.spare ≤ self.new.spare }
        ensures err { OnErr result (self.new ≡ self.old) }
    {
        self.table.reserve(nodes)
    }

    /// For how many more trees there is memory: so many calls that each add one
    /// don't run out of it.
    pub fn spare(&self) -> usize
        ensures { result ≡ self.now.spare }
    {
        self.table.spare()
    }

    /// The number of the leaf, which is the earlier one where the leaf is there.
    ///
    /// `BadShape` exactly where the tag is no leaf's or its row asks for another
    /// sort of atom (Structural Specification, sections 5 to 10); else `TooMany`
    /// exactly where the leaf is new and there are 2^28 trees; `Memory` only
    /// where the leaf is new and there was no memory to spare. Where the call
    /// refuses, nothing changes.
    pub fn leaf(&mut self, tag: Tag, atom: Atom) -> Result<ExprId, Grow>
        ensures id { IfOk result (λ id. slice_get self.new.trees id ≡ Some (leaf tag atom)) }
        ensures within { OnOk result (IsWithin (leaf tag atom)) }
        ensures added { OnOk result (Adds self.old.trees self.new.trees (leaf tag atom)) }
        ensures bad_shape { IsErrOf result Grow.BadShape ↔ (IsShaped (leaf tag atom) → ⊥) }
        ensures too_many { IsErrOf result Grow.TooMany ↔ IsOneTooMany self.old.trees (leaf tag atom) }
        ensures not_too_large { (IsErrOf result Grow.TooDeep → ⊥) × (IsErrOf result Grow.TooHeavy → ⊥) }
        ensures memory { IsErrOf result Grow.Memory → self.old.spare ≡ 0 }
        ensures absent { IsErrOf result Grow.Memory → Lacks self.old.trees (leaf tag atom) }
        ensures room { self.old.spare ≤ self.new.spare + 1 }
        ensures err { OnErr result (self.new ≡ self.old) }
    {
        atom.made();
        if !tag.takes(&atom) {
            return Err(Grow::BadShape);
        }
        self.hold(Node {
            form: Form::Leaf(tag, atom),
            depth: 1,
            weight: 1,
        })
    }

    /// The number of the canonical form of the node, which is the earlier one
    /// where that tree is there. The members of its set may stand in any order
    /// and more than once.
    ///
    /// In this order: `BadShape` exactly where no node with the tag has these
    /// kids (Structural Specification, sections 5 to 10); `TooDeep` exactly
    /// where the tree is more than 128 levels deep; `TooHeavy` exactly where its
    /// canonical form has more than 2^24 nodes and leaves; `TooMany` exactly
    /// where that is new and there are 2^28 trees; `Memory` only where that is
    /// new and there was no memory to spare. Where the call refuses, nothing
    /// changes, and the kids are given up.
    pub fn node(&mut self, tag: Tag, kids: Vec<ExprId>) -> Result<ExprId, Grow>
        requires { AreHeld self.old.trees kids.items }
        ensures id { IfOk result (λ id. slice_get self.new.trees id ≡ Some (canonical (node_over self.old.trees tag kids.items))) }
        ensures within { OnOk result (IsWithin (node_over self.old.trees tag kids.items)) }
        ensures added { OnOk result (Adds self.old.trees self.new.trees (canonical (node_over self.old.trees tag kids.items))) }
        ensures bad_shape { IsErrOf result Grow.BadShape ↔ (IsShaped (node_over self.old.trees tag kids.items) → ⊥) }
        ensures too_deep { IsErrOf result Grow.TooDeep ↔ IsTooDeep (node_over self.old.trees tag kids.items) }
        ensures too_heavy { IsErrOf result Grow.TooHeavy ↔ IsTooHeavy (node_over self.old.trees tag kids.items) }
        ensures too_many { IsErrOf result Grow.TooMany ↔ IsOneTooMany self.old.trees (node_over self.old.trees tag kids.items) }
        ensures memory { IsErrOf result Grow.Memory → self.old.spare ≡ 0 }
        ensures absent { IsErrOf result Grow.Memory → Lacks self.old.trees (canonical (node_over self.old.trees tag kids.items)) }
        ensures room { self.old.spare ≤ self.new.spare + 1 }
        ensures err { OnErr result (self.new ≡ self.old) }
    {
        let node = self.form_of(tag, kids)?;
        self.hold(node)
    }

    /// The canonical form of the node, where the node has a shape and is within
    /// the limits.
    fn form_of(&self, tag: Tag, kids: Vec<ExprId>) -> Result<Node, Grow>
        requires { AreHeld self.now.trees kids.items }
        ensures below { IfOk result (λ node. AreKidsBelow (length self.now.trees) node.form) }
        ensures measured { IfOk result (λ node. IsMeasured (tree_of self.now.trees node.form) node) }
        ensures form { IfOk result (λ node. canonical (node_over self.now.trees tag kids.items) ≡ tree_of self.now.trees node.form) }
        ensures entry { IfOk result (λ node. IsEntry (tree_of self.now.trees node.form)) }
        ensures within { OnOk result (IsWithin (node_over self.now.trees tag kids.items)) }
        ensures bad_shape { IsErrOf result Grow.BadShape → IsShaped (node_over self.now.trees tag kids.items) → ⊥ }
        ensures too_deep { IsErrOf result Grow.TooDeep → IsTooDeep (node_over self.now.trees tag kids.items) }
        ensures too_heavy { IsErrOf result Grow.TooHeavy → IsTooHeavy (node_over self.now.trees tag kids.items) }
        ensures refusals { IfErr result IsRefusal }
    {
        let _opened = &self.table;
        if !self.fits(tag, &kids) {
            return Err(Grow::BadShape);
        }
        let mut kids = kids;
        self.arrange(tag, &mut kids);
        let depth = self.depth_over(&kids);
        if DEEPEST < depth {
            return Err(Grow::TooDeep);
        }
        match self.weight_over(&kids) {
            Some(weight) => Ok(Node {
                form: Form::Branch(tag, kids),
                depth,
                weight,
            }),
            None => Err(Grow::TooHeavy),
        }
    }

    /// How deep a node over these kids is.
    #[tactic(auto, using(crate::proofs::Kids::depth_step, crate::proofs::Kids::depth_end))]
    fn depth_over(&self, kids: &[ExprId]) -> u32
        requires { AreHeld self.now.trees kids.now }
        ensures { result ≡ most_depth (kids_of (trees_at self.now.trees kids.now)) + 1 }
    {
        let mut most = 0;
        for kid in kids {
            most = most.max(self.depth(*kid));
        }
        most + 1
    }

    /// What a node over these kids weighs, where it is not too heavy.
    #[tactic(auto, using(crate::proofs::Kids::weight_step, crate::proofs::Kids::weight_end))]
    fn weight_over(&self, kids: &[ExprId]) -> Option<u64>
        requires { AreHeld self.now.trees kids.now }
        ensures some { IfSome result (λ total. total ≡ sum_weight (kids_of (trees_at self.now.trees kids.now)) + 1) }
        ensures few { IfSome result (λ total. total ≤ heaviest) }
        ensures none { IsNone result → heaviest < sum_weight (kids_of (trees_at self.now.trees kids.now)) + 1 }
    {
        let mut total = 1;
        for kid in kids {
            total += self.weight(*kid);
            if HEAVIEST < total {
                return None;
            }
        }
        Some(total)
    }

    /// The number of a node that is canonical, has its shape, is within the
    /// limits and has its kids here.
    fn hold(&mut self, node: Node) -> Result<ExprId, Grow>
        requires below { AreKidsBelow (length self.old.trees) node.form }
        requires measured { IsMeasured (tree_of self.old.trees node.form) node }
        requires entry { IsEntry (tree_of self.old.trees node.form) }
        ensures id { IfOk result (λ id. slice_get self.new.trees id ≡ Some (tree_of self.old.trees node.form)) }
        ensures added { OnOk result (Adds self.old.trees self.new.trees (tree_of self.old.trees node.form)) }
        ensures too_many { IsErrOf result Grow.TooMany ↔ (Lacks self.old.trees (tree_of self.old.trees node.form) × (length self.old.trees ≡ most_trees)) }
        ensures refusals { IfErr result (λ e. (e ≡ Grow.TooMany) ⊎ (e ≡ Grow.Memory)) }
        ensures memory { IsErrOf result Grow.Memory → self.old.spare ≡ 0 }
        ensures absent { IsErrOf result Grow.Memory → Lacks self.old.trees (tree_of self.old.trees node.form) }
        ensures room { self.old.spare ≤ self.new.spare + 1 }
        ensures err { OnErr result (self.new ≡ self.old) }
    {
        let mix = node.form.mix();
        match self.find(&node.form, mix) {
            Some(id) => Ok(id),
            None if MOST_TREES <= self.distinct() => Err(Grow::TooMany),
            None => Ok(self.append(node, mix)?),
        }
    }

    /// The number of a form that equals this one, whose mix is given, if one is
    /// here.
    fn find(&self, form: &Form, mix: u64) -> Option<ExprId>
        requires below { AreKidsBelow (length self.now.trees) form.now }
        requires mix { mix ≡ form_mix form.now }
        ensures some { IfSome result (λ id. slice_get self.now.trees id ≡ Some (tree_of self.now.trees form.now)) }
        ensures none { IsNone result → Lacks self.now.trees (tree_of self.now.trees form.now) }
    {
        let place = self.table.find(form, mix)?;
        Some(ExprId::at(place))
    }

    /// The number of a node that is not here, and comes behind the others.
    fn append(&mut self, node: Node, mix: u64) -> Result<ExprId, NoMemory>
        requires below { AreKidsBelow (length self.old.trees) node.form }
        requires measured { IsMeasured (tree_of self.old.trees node.form) node }
        requires entry { IsEntry (tree_of self.old.trees node.form) }
        requires absent { Lacks self.old.trees (tree_of self.old.trees node.form) }
        requires few { length self.old.trees < most_trees }
        requires mix { mix ≡ form_mix node.form }
        ensures id { IfOk result (λ id. slice_get self.new.trees id ≡ Some (tree_of self.old.trees node.form)) }
        ensures added { OnOk result (self.new.trees ≡ self.old.trees ++ tree_of self.old.trees node.form ∷ []) }
        ensures memory { OnErr result (self.old.spare ≡ 0) }
        ensures room { self.old.spare ≤ self.new.spare + 1 }
        ensures err { OnErr result (self.new ≡ self.old) }
    {
        self.table.reserve(1)?;
        let id = ExprId::at(self.table.len());
        self.table.push(node, mix);
        Ok(id)
    }

    /// Whether the number is of a tree that is here.
    #[tactic(auto, using(crate::proofs::Grown::length_of_trees))]
    pub fn holds(&self, id: ExprId) -> bool
        ensures { IsTrue result ↔ (id < length self.now.trees) }
    {
        id.place() < self.table.len()
    }

    /// How many trees there are, no two of which are equivalent.
    #[tactic(auto, using(crate::proofs::Grown::length_of_trees, crate::proofs::HeldLaws::tells_equivalence))]
    pub fn distinct(&self) -> usize
        ensures trees { result ≡ length self.now.trees }
        ensures shared { AreShared self.now.trees }
        ensures one_number { TellEquivalence self.now.trees }
    {
        self.table.len()
    }

    /// The number of the tree at this place.
    pub fn at(&self, place: usize) -> ExprId
        requires { place < length self.now.trees }
        ensures { result ≡ place }
    {
        let _opened = &self.table;
        ExprId::at(place)
    }

    /// The node of a number.
    #[tactic(auto, using(crate::proofs::Grown::length_of_trees, crate::proofs::Grown::tree_at_node, crate::proofs::Grown::below_at_node, crate::proofs::Grown::measured_at_node, crate::proofs::HeldLaws::entry_at))]
    fn node_at(&self, id: ExprId) -> &Node
        requires { id < length self.now.trees }
        ensures tree { tree_of self.now.trees result.now.form ≡ tree_at self.now.trees id }
        ensures below { AreKidsBelow id result.now.form }
        ensures measured { IsMeasured (tree_at self.now.trees id) result.now }
        ensures entry { IsEntry (tree_at self.now.trees id) }
    {
        self.table.at(id.place())
    }

    /// The tag of the tree.
    pub fn tag(&self, id: ExprId) -> Tag
        requires { id < length self.now.trees }
        ensures { result ≡ tag_of (tree_at self.now.trees id) }
    {
        match &self.node_at(id).form {
            Form::Leaf(tag, _) | Form::Branch(tag, _) => *tag,
        }
    }

    /// The atom of a leaf. `None` exactly where the tag is no leaf's.
    pub fn atom(&self, id: ExprId) -> Option<&Atom>
        requires { id < length self.now.trees }
        ensures atom { option_map (λ atom. atom.now) result ≡ atom_in (tree_at self.now.trees id) }
        ensures leaf { IsSome result ↔ IsLeafTag (tag_of (tree_at self.now.trees id)) }
    {
        match &self.node_at(id).form {
            Form::Leaf(_, atom) => Some(atom),
            Form::Branch(..) => None,
        }
    }

    /// The kids of the tree, in canonical order; a leaf has none.
    pub fn kids(&self, id: ExprId) -> &[ExprId]
        requires { id < length self.now.trees }
        ensures kids { trees_at self.now.trees result.now ≡ kids_in (tree_at self.now.trees id) }
        ensures below { AllByRecursion (λ kid. kid < id) result.now }
    {
        match &self.node_at(id).form {
            Form::Leaf(..) => &[],
            Form::Branch(_, kids) => kids,
        }
    }

    /// How many nodes and leaves the tree has, at most 2^24.
    pub fn weight(&self, id: ExprId) -> u64
        requires { id < length self.now.trees }
        ensures weight { result ≡ weight (tree_at self.now.trees id) }
        ensures bounded { result ≤ heaviest }
    {
        self.node_at(id).weight
    }

    /// How many levels the tree has, at most 128.
    pub fn depth(&self, id: ExprId) -> u32
        requires { id < length self.now.trees }
        ensures depth { result ≡ depth (tree_at self.now.trees id) }
        ensures bounded { result ≤ deepest }
    {
        self.node_at(id).depth
    }
}
