//! What was read of a document in Manchester Syntax, before the kinds of names
//! are known.
#![tactic(auto)]

mod document;
mod form;
mod heading;
mod listed;
mod opened;
mod raw;

pub use document::{RawDoc, RawHead, RawItem, RawPart};
pub use form::{Characteristic, Facet, Form, What};
pub use heading::{Heading, Section};
pub use listed::Listed;
pub use opened::{Annotated, MOST_NESTS, Opened};
pub use raw::Raw;
