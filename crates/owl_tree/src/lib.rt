//! Trees: the axioms, expressions and annotations of OWL 2 (Structural
//! Specification, sections 5 to 10).
#![tactic(auto)]

mod atom;
mod laws;
mod row;
mod tag;

pub use atom::{Atom, mix_step};
pub use laws::{
    canonical_forms, equivalence_is_equal_forms, ontologies_are_same_by_equal_forms,
    trees_are_ordered,
};
pub use owl_kind::{Kind, Kinds, built_in};
pub use row::{AtomSort, Rest, Row, Sort};
pub use tag::{Tag, tags_are_told_apart};
