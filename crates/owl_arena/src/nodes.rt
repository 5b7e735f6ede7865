//! Nodes as they are kept.

ghost use Rattle.std.specs.Prelude.{◌≡◌, ◌↔◌, IsTrue};
ghost use Rattle.std.specs.List.{fold};
ghost use Rattle.owl_arena.specs.Mixes.{form_mix};
ghost use Rattle.owl_arena.specs.Nodes.{IsSameForm};
ghost use Rattle.owl_tree.specs.Mixes.{mix_step};

use crate::expr_id::ExprId;
use owl_tree::{Atom, Tag, mix_step};

/// A leaf, or a tag over kids that stand before it.
#[derive(Debug, PartialEq, Eq, Drop)]
pub enum Form {
    Leaf(Tag, Atom),
    Branch(Tag, Vec<ExprId>),
}

impl Form {
    /// Whether the tag is the same, and the atom or the kids.
    #[tactic(auto, using(crate::proofs::Forms::same_form))]
    pub fn is(&self, other: &Form) -> bool
        ensures { IsTrue result ↔ IsSameForm self.now other.now }
    {
        self == other
    }

    /// A number by which a table may sort forms, the same of equal ones.
    pub fn mix(&self) -> u64
        ensures { result ≡ form_mix self.now }
    {
        match self {
            Form::Leaf(tag, atom) => mix_step(tag.number() as u64, atom.mix()),
            Form::Branch(tag, kids) => mix_kids(tag.number() as u64, kids),
        }
    }
}

/// The mix after the numbers of kids.
fn mix_kids(mix: u64, kids: &[ExprId]) -> u64
    ensures { result ≡ fold mix_step mix kids.now }
{
    let mut mixed = mix;
    for kid in kids {
        mixed = mix_step(mixed, kid.place() as u64);
    }
    mixed
}

/// A tree's root, and the depth and weight of the tree.
#[derive(Debug, Drop)]
pub struct Node {
    pub form: Form,
    pub depth: u32,
    pub weight: u64,
}
