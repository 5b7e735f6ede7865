//! The grammar of Manchester Syntax.

ghost use Rattle.man_grammar.specs.Table.{manchester, manchester_is_predictive, manchester_is_productive};

use crate::table;
use grammar::{Row, Table};

/// The grammar of documents in Manchester Syntax (sections 2.1 to 2.6), as
/// `specs/Page.antt` has it.
pub struct Manchester;

impl Table for Manchester {
    ghost grammar = { manchester };

    fn rows(rule: u16) -> &'static [Row] {
        table::rows(rule)
    }

    ghost predictive = { manchester_is_predictive };

    ghost productive = { manchester_is_productive };
}
