//! The grammar of Functional-Style Syntax.

ghost use Rattle.fss_grammar.specs.Table.{functional, functional_is_predictive, functional_is_productive};

use crate::table;
use grammar::{Row, Table};

/// The grammar of documents in Functional-Style Syntax (Structural
/// Specification, section 13), as `specs/Page.antt` has it.
pub struct Functional;

impl Table for Functional {
    ghost grammar = { functional };

    fn rows(rule: u16) -> &'static [Row] {
        table::rows(rule)
    }

    ghost predictive = { functional_is_predictive };

    ghost productive = { functional_is_productive };
}
