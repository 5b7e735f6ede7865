//! What axioms say of object properties.

ghost use Rattle.std.specs.Prelude.{◌≡◌, ◌<◌, ◌∷◌, [], List, length};
ghost use Rattle.owl_arena.specs.Held.{AreHeld, tree_at, trees_at};
ghost use Rattle.owl_tree.specs.declared.tag.Tag.TheVariants as tag;
ghost use Rattle.owl_tree.specs.Trees.{Tree};
ghost use Rattle.range_restrictions.specs.Statements.{IsStatement, IsStatementOf, is_chain};

use dl_rules::operands;
use owl_arena::{Arena, ExprId};
use owl_tree::Tag;

/// What an axiom says of an object property, by the places of trees in an arena.
#[derive(Clone, Copy, Debug)]
pub enum Statement {
    /// The first property is below the second.
    Step(usize, usize),
    /// The property has the class as a range.
    Range(usize, usize),
    /// A chain ends with the first property, and implies the second.
    Chain(usize, usize),
}

/// What the axiom says of an object property, if it is a step, a range or a chain.
pub fn statement_at(arena: &Arena, id: ExprId) -> Option<Statement>
    requires { id < length arena.now.trees }
    ensures { IsStatementOf arena.now.trees (tree_at arena.now.trees id) result }
{
    match arena.tag(id) {
        Tag::SubObjectPropertyOf => sub_statement(arena, operands(arena, id)),
        Tag::ObjectPropertyRange => range_statement(operands(arena, id)),
        _ => None,
    }
}

/// What the operands of SubObjectPropertyOf say.
fn sub_statement(arena: &Arena, operands: &[ExprId]) -> Option<Statement>
    requires { AreHeld arena.now.trees operands.now }
    ensures { IsStatement arena.now.trees tag.SubObjectPropertyOf
        (trees_at arena.now.trees operands.now) result }
{
    match operands {
        [below, above] => step_or_chain(arena, *below, *above),
        _ => None,
    }
}

/// The step between these, or the chain, where the first is one.
fn step_or_chain(arena: &Arena, below: ExprId, above: ExprId) -> Option<Statement>
    requires below { below < length arena.now.trees }
    requires above { above < length arena.now.trees }
    ensures { IsStatement arena.now.trees tag.SubObjectPropertyOf
        (tree_at arena.now.trees below ∷ tree_at arena.now.trees above ∷ []) result }
{
    if arena.tag(below) != Tag::ObjectPropertyChain {
        return Some(Statement::Step(below.place(), above.place()));
    }
    match arena.kids(below) {
        [.., last] => Some(Statement::Chain(last.place(), above.place())),
        [] => None,
    }
}

/// What the operands of ObjectPropertyRange say.
fn range_statement(operands: &[ExprId]) -> Option<Statement>
    ensures { (ts : List Tree) → AreHeld ts operands.now
        → IsStatement ts tag.ObjectPropertyRange (trees_at ts operands.now) result }
{
    match operands {
        [property, class] => Some(Statement::Range(property.place(), class.place())),
        _ => None,
    }
}

/// Whether the axiom is a chain.
pub fn is_chain(arena: &Arena, id: ExprId) -> bool
    requires { id < length arena.now.trees }
    ensures { result ≡ is_chain (tree_at arena.now.trees id) }
{
    matches!(statement_at(arena, id), Some(Statement::Chain(..)))
}
