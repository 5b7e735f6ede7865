//! What is asked, and of which documents.

use owl_command::Command;
use owl_documents::Document;

/// A command, and the documents that it names, in the order of their names.
#[derive(Drop)]
pub struct Asked<'a> {
    pub command: &'a Command,
    pub docs: Vec<Document>,
}
