//! The syntaxes that tokens are of.

/// Which syntax's tokens a lexer cuts.
#[derive(Clone, Copy, Debug, PartialEq, Eq)]
pub enum Dialect {
    /// Functional-Style Syntax.
    Functional,
    /// Manchester Syntax.
    Manchester,
}
