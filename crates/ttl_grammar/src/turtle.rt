//! The grammar of Turtle.

ghost use Rattle.ttl_grammar.specs.Table.{turtle, turtle_is_predictive, turtle_is_productive};

use crate::table;
use grammar::{Row, Table};

/// The grammar of documents in Turtle (RDF 1.1 Turtle, section 6.5), as
/// `specs/Page.antt` has it.
pub struct Turtle;

impl Table for Turtle {
    ghost grammar = { turtle };

    fn rows(rule: u16) -> &'static [Row] {
        table::rows(rule)
    }

    ghost predictive = { turtle_is_predictive };

    ghost productive = { turtle_is_productive };
}
