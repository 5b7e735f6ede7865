//! Constructs that are open.

use owl_arena::ExprId;
use owl_tree::Tag;

/// What is known of an open construct whether or not its kids are made.
#[derive(Clone, Copy, Debug)]
pub struct Outline {
    pub tag: Tag,
    pub has_kids: bool,
    /// A group of keys among the kids has a member.
    pub has_key: bool,
}

/// A construct that is open, and its kids so far, unless a tree in the item is
/// too heavy.
#[derive(Debug, Drop)]
pub struct Open {
    pub outline: Outline,
    pub kids: Vec<ExprId>,
}
