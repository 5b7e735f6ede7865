//! The terms of Functional-Style Syntax.

use owl_characters::Text;
use owl_tree::Atom;

/// A keyword, a bracket, or what a leaf of a tree holds, as it stands in a
/// document in Functional-Style Syntax (Structural Specification, sections 2.4,
/// 5.6.2, 5.7 and 8.3).
#[derive(Debug, Drop)]
pub enum Term {
    Keyword(Text),
    /// `(`
    Opening,
    /// `)`
    Closing,
    /// An IRI, the label of an anonymous individual, a literal or a number.
    Atom(Atom),
}
