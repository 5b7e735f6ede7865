//! The kinds of lexemes, which the tables have as numbers.

/// White space.
pub const SPACE: u8 = 1;

/// A comment.
pub const COMMENT: u8 = 2;

/// An IRI between `<` and `>`.
pub const IRI: u8 = 3;

/// An abbreviated IRI.
pub const NAME: u8 = 4;

/// `_:` and the label of a blank node.
pub const BLANK: u8 = 5;

/// A string between quotes.
pub const STR: u8 = 6;

/// `@` and a language tag.
pub const AT: u8 = 7;

/// A word.
pub const WORD: u8 = 8;

/// A whole number.
pub const INT: u8 = 9;

/// A decimal fraction.
pub const DEC: u8 = 10;

/// `(`
pub const OPEN: u8 = 11;

/// `)`
pub const CLOSE: u8 = 12;

/// `=`
pub const EQUALS: u8 = 13;

/// `^^`
pub const CARETS: u8 = 14;

/// `{`
pub const OPEN_BRACE: u8 = 15;

/// `}`
pub const CLOSE_BRACE: u8 = 16;

/// `[`
pub const OPEN_BRACKET: u8 = 17;

/// `]`
pub const CLOSE_BRACKET: u8 = 18;

/// `,`
pub const COMMA: u8 = 19;

/// `<`
pub const LESS: u8 = 20;

/// `<=`
pub const AT_MOST: u8 = 21;

/// `>`
pub const GREATER: u8 = 22;

/// `>=`
pub const AT_LEAST: u8 = 23;
