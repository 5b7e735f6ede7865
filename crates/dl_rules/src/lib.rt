//! What OWL 2 DL asks of an import closure (Structural Specification, sections 3
//! and 11).
#![tactic(auto)]

mod laws;
mod logical;
mod rule;

pub use laws::{
    chains_break_no_order_where_one_exists, closures_in_dl_have_no_breaches,
    no_definition_is_cyclic_where_an_order_exists, no_link_closes_a_ring_where_a_forest_exists,
};
pub use logical::{iri_at, is_remark, operands};
pub use rule::DlRule;
