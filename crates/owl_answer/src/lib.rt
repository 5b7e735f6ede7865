//! What is answered to a command, over any shelf of documents, before anything is written.
#![tactic(auto)]

mod asked;
mod canonical;
mod checking;
mod closure;
mod comparison;
mod conclusion;
mod declaring;
mod graph_texts;
mod guessing;
mod imports;
mod kinds;
mod laws;
mod manchester;
mod reading;
mod request;
mod telling;
mod trial;
mod trial_document;
mod turtle;
mod typing;
mod written;

pub use laws::{
    equivalent_ontologies_are_typed_alike, guesses_make_no_clash, manchester_translations_are_one,
    turtle_translations_are_one, typing_depends_on_what_is_declared, typing_is_refused_once,
    unreached_documents_change_nothing,
};
pub use owl_messages::Answer;
pub use request::answer_to;
