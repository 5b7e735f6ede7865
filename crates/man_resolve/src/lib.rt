//! What a document in Manchester Syntax that was read means under kinds of names
//! (Manchester Syntax, sections 2.1 to 2.6).
#![tactic(auto)]

mod declarations;
mod document;
mod expressions;
mod facets;
mod fault;
mod groups;
mod items;
mod laws;
mod making;
mod names;
mod place;
mod resolving;
mod sentence;
mod shape;
mod step;

pub use declarations::declared;
pub use facets::facet_name;
pub use fault::ResolveFault;
pub use laws::{frames_mean_one_ontology, tables_fit_rows};
pub use names::has_kind;
pub use place::Place;
pub use resolving::{head, resolve};
pub use sentence::{Sentence, sentence_of};
pub use shape::ByKind;
