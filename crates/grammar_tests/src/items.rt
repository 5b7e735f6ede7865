//! Lists of words in parentheses; behind a colon a word may have a weight.

ghost use Rattle.grammar_tests.specs.ItemsTable.{items, items_is_predictive, items_is_productive};

use crate::items_table;
use grammar::{Row, Table};

/// The classes of tokens.
#[derive(Clone, Copy, Debug, PartialEq, Eq)]
pub enum Class {
    Word,
    Colon,
    Comma,
    Open,
    Close,
}

/// The rules.
#[derive(Clone, Copy, Debug, PartialEq, Eq)]
pub enum Rule {
    Item,
    Weight,
    Items,
    More,
}

/// What is done on the way.
#[derive(Clone, Copy, Debug, PartialEq, Eq)]
pub enum Act {
    Word,
    Weight,
    Begin,
    End,
}

/// The grammar.
pub struct Items;

impl Table for Items {
    ghost grammar = { items };

    fn rows(rule: u16) -> &'static [Row] {
        items_table::rows(rule)
    }

    ghost predictive = { items_is_predictive };

    ghost productive = { items_is_productive };
}
