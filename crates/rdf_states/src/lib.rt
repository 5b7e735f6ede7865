//! That the graph of an ontology states it (Mapping to RDF Graphs, sections 2 and 3), and that no
//! triple is redundant in it.
#![tactic(auto)]

mod count_laws;
mod place_laws;
mod renamed_laws;
mod state_laws;
mod thin_laws;

pub use count_laws::graphs_have_few_nodes;
pub use place_laws::{forms_are_reached, places_are_told_apart};
pub use renamed_laws::{renamed_graphs_state_their_ontologies, renamed_normal_forms_are_stated};
pub use state_laws::{graphs_state_their_ontologies, normal_forms_are_stated};
pub use thin_laws::graphs_are_thin;
