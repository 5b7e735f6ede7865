//! Texts as lists of characters, and the tokens of the two syntaxes.
#![tactic(auto)]

mod dialect;
mod laws;
mod lexer;

pub use dialect::Dialect;
pub use laws::tokens_come_one_way;
pub use lexer::Lexer;
pub use owl_characters::{
    BadUtf8, MOST_BYTES, NoMemory, Text, Utf8Feed, Utf8Step, is_base, is_part, is_start,
    local_parts_fit_iris,
};
pub use owl_lexer::LexFault;
pub use owl_tokens::{Sign, Token};

/// A token and the byte where it begins.
pub type Placed = owl_lexer::Placed<Token>;
