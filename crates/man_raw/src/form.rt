//! What stands in the sections of items.

use owl_tree::Atom;

/// What is said of a property (Manchester Syntax, section 2.5).
#[derive(Clone, Copy, Debug, PartialEq, Eq)]
pub enum Characteristic {
    Functional,
    InverseFunctional,
    Reflexive,
    Irreflexive,
    Symmetric,
    Asymmetric,
    Transitive,
}

/// A facet of a datatype, by its word or sign (Manchester Syntax, section 2.3).
#[derive(Clone, Copy, Debug, PartialEq, Eq)]
pub enum Facet {
    /// `<=`
    AtMost,
    /// `<`
    LessThan,
    /// `>=`
    AtLeast,
    /// `>`
    MoreThan,
    Length,
    MinLength,
    MaxLength,
    Pattern,
    LangRange,
}

/// How the parts of what was read stand together (Manchester Syntax, sections
/// 2.2 to 2.5).
#[derive(Clone, Copy, Debug, PartialEq, Eq)]
pub enum Form {
    /// Annotations.
    Notes,
    /// Annotations of an annotation, its property and its value.
    Note,
    /// A name behind `inverse`.
    Inverse,
    /// Two or more operands of `or`.
    Or,
    /// Two or more operands of `and`.
    And,
    /// A name, and the restrictions behind `that`.
    That,
    /// An operand of `not`.
    Not,
    /// A property and a filler.
    SomeOf,
    /// A property and a filler.
    OnlyOf,
    /// A property and a value.
    HasValue,
    /// A property.
    HasSelf,
    /// A number, a property, and a filler where there is one.
    Min,
    /// A number, a property, and a filler where there is one.
    Max,
    /// A number, a property, and a filler where there is one.
    Exactly,
    /// A name, and pairs of a facet and a literal.
    Restricted,
    /// A facet and a literal.
    FacetPair,
    /// Individuals in braces.
    Individuals,
    /// Literals in braces.
    Literals,
    /// What stands in parentheses.
    Bracket,
    /// A property and a value of an annotation assertion.
    Assertion,
    /// A property and a value.
    Fact,
    /// A property and a value behind `not`.
    NegativeFact,
    /// The members of a list.
    List,
}

/// What a piece of a document is: an atom, a word, or something that is made of
/// parts.
#[derive(Debug, Drop)]
pub enum What {
    Atom(Atom),
    Word(Characteristic),
    Facet(Facet),
    Form(Form),
}
