//! Axioms whose triples are made together.

use owl_arena::{Arena, ExprId};

/// Axioms that differ in their annotations alone, and the number of one of them, which
/// is above those of its kids.
#[derive(Clone, Copy)]
pub struct Below<'a> {
    pub arena: &'a Arena,
    pub above: ExprId,
    pub axioms: &'a [ExprId],
}
