//! The symbols of grammars.

/// What an alternative of a rule is made of.
///
/// Classes of tokens, rules and acts are numbers of the grammar. They get names
/// where the grammar is written.
#[derive(Clone, Copy, Debug, PartialEq, Eq)]
pub enum Symbol {
    /// A token of this class (a terminal symbol).
    Need(u8),
    /// What an alternative of this rule derives (a nonterminal symbol).
    Rule(u16),
    /// Nothing, but the reader of the tokens is to do this act here.
    Act(u8),
}
