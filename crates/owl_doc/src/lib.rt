//! Documents: an ontology over an arena, with the prefixes that it was written
//! with.
#![tactic(auto)]

mod builder;
mod closure;
mod collected;
mod counts;
mod declarations;
mod document;
mod fault;
mod head;
mod item;
mod kinds;
mod rule;
mod same;
mod typing;

pub use builder::Builder;
pub use closure::Closure;
pub use counts::Counts;
pub use declarations::{declaration, declared};
pub use document::Doc;
pub use fault::AddFault;
pub use head::Head;
pub use item::{Breach, Cant, Item, Why};
pub use kinds::{declared_kind, entity_of, is_misused, kind_of};
pub use rule::Rule;
pub use same::is_same_tree;
pub use typing::undeclared;
