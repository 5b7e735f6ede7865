//! An RDF graph as an ontology (Mapping to RDF Graphs, section 3).
#![tactic(auto)]

mod declarations;
mod fault;
mod header;
mod notes;
mod orphans;
mod outlines;
mod reach;
mod reading;
mod reserved;
mod sorts;
mod statements;
mod untyped;

pub use declarations::declare_graph;
pub use fault::OutlineFault;
pub use header::{head_of, only_header};
pub use notes::first_of_nothing;
pub use orphans::first_orphan;
pub use outlines::{graph_head, outline};
pub use reading::Reading;
pub use reserved::first_reserved;
pub use sorts::{TripleSort, is_annotation, is_main, sort_of};
pub use statements::{is_same_site, is_typed_axiom};
pub use untyped::first_untyped_statement;
