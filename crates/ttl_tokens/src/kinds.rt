//! The kinds of lexemes, which the table has as numbers (RDF 1.1 Turtle, section
//! 6.5).

pub const WHITE_SPACE: u8 = 1;

pub const COMMENT: u8 = 2;

pub const IRIREF: u8 = 3;

pub const PREFIXED_NAME: u8 = 4;

pub const BLANK_NODE_LABEL: u8 = 5;

pub const LANGTAG: u8 = 6;

pub const INTEGER: u8 = 7;

pub const DECIMAL: u8 = 8;

pub const DOUBLE: u8 = 9;

pub const STRING_LITERAL_QUOTE: u8 = 10;

pub const STRING_LITERAL_SINGLE_QUOTE: u8 = 11;

pub const STRING_LITERAL_LONG_QUOTE: u8 = 12;

pub const STRING_LITERAL_LONG_SINGLE_QUOTE: u8 = 13;

pub const A_WORD: u8 = 14;

pub const TRUE_WORD: u8 = 15;

pub const FALSE_WORD: u8 = 16;

pub const PREFIX_WORD: u8 = 17;

pub const BASE_WORD: u8 = 18;

pub const DOT: u8 = 19;

pub const SEMICOLON: u8 = 20;

pub const COMMA: u8 = 21;

pub const OPEN_BRACKET: u8 = 22;

pub const CLOSE_BRACKET: u8 = 23;

pub const OPEN_PARENTHESIS: u8 = 24;

pub const CLOSE_PARENTHESIS: u8 = 25;

pub const CIRCUMFLEXES: u8 = 26;
