//! What a sort asks of trees.

use crate::leaf_test::LeafTest;
use crate::sort::Sort;
use owl_tree::{Sort as Trees, Tag};

/// What trees with a tag have to be like.
#[derive(Clone, Copy, Debug)]
pub enum Form {
    /// Whatever there is.
    Any,
    /// There is no such tree.
    Refused,
    /// A leaf that passes.
    Atom(LeafTest),
    /// Kids of these sorts in front, in order, and of this one behind them.
    Kids(&'static [Sort], Sort),
    /// One kid.
    Single,
}

/// What one alternative of a production asks of trees with its tag.
#[derive(Clone, Copy, Debug)]
pub enum Alternative {
    Any(Tag),
    Refused(Tag),
    Atom(Tag, LeafTest),
    Kids(Tag, &'static [Sort], Sort),
    Single(Tag),
}

/// What a production asks of trees whose tag no alternative has.
#[derive(Clone, Copy, Debug)]
pub enum Others {
    /// There are none.
    Nothing,
    /// Whatever there is.
    Anything,
    /// The alternatives say all of trees of this sort, and in all other trees each kid
    /// is right. Annotations count for nothing.
    Throughout(Trees),
}
