//! Reads the documents that a command names.

ghost use Rattle.std.specs.Prelude.{◌≡◌, ◌∷◌, ◌++◌, [], Some, length, map, IsTrue, IfOk, IfErr, OnOk};
ghost use Rattle.std.specs.List.{AllByRecursion};
ghost use Rattle.owl_command.specs.Commands.{AreDistinct, names_of, request_of, sources_of};
ghost use Rattle.owl_documents.specs.Documents.{AreRead, parsed_of};
ghost use Rattle.owl_documents.specs.Reading.{IsStop};
ghost use Rattle.owl_documents.specs.Shelves.{IsTaken};

use crate::document::Document;
use crate::reading::read_document;
use crate::trouble::{Stop, Trouble};
use owl_command::Command;
use owl_port::Shelf;
use std::alloc::Global;

/// The documents that a command names, each read to its end, in the order of
/// their names, and the first against the base IRI that the command gives, if any.
/// The first that can't be read stops it.
pub fn read_documents<S: Shelf>(
    alloc: Global,
    command: &Command,
    shelf: &mut S,
) -> Result<Vec<Document>, Stop>
    requires { AreDistinct (names_of (request_of command.now)) }
    ensures read { IsTrue (S.tells shelf.old) → IfOk result (λ docs.
        AreRead (S.left shelf.old) (sources_of (request_of command.now))
        (map parsed_of docs.items)) }
    ensures count { IfOk result (λ docs. length docs.items ≡ length (names_of (request_of command.now))) }
    ensures stop { IfErr result (IsStop (request_of command.now)
        (record { tells = S.tells shelf.old; old = S.left shelf.old; new = S.left shelf.new; faults = S.faults shelf.old; later = S.faults shelf.new })) }
    ensures taken { IsTrue (S.tells shelf.old) → IsTaken (request_of command.now) (S.left shelf.old) (S.left shelf.new) }
    ensures ended { IsTrue (S.tells shelf.old) → OnOk result
        (AllByRecursion (λ name. S.left shelf.new name ≡ Some []) (names_of (request_of command.now))) }
{
    let mut docs = Vec::new(alloc);
    let mut size = 0;
    while docs.len() < command.count() {
        let place = docs.len();
        match read_document(alloc, command.name(place), command.base(place), size, shelf) {
            Ok(read) => {
                size += read.size;
                keep(&mut docs, read.document)?;
            }
            Err(trouble) => {
                return Err(Stop {
                    document: place,
                    trouble,
                });
            }
        }
    }
    Ok(docs)
}

/// Puts a document behind the others.
fn keep(docs: &mut Vec<Document>, doc: Document) -> Result<(), Stop>
    ensures kept { OnOk result (docs.new.items ≡ docs.old.items ++ doc ∷ []) }
    ensures memory { IfErr result (λ stop. stop ≡ record { document = length docs.old.items; trouble = Trouble.Memory }) }
{
    match docs.push(doc) {
        Ok(()) => Ok(()),
        Err(_) => Err(Stop {
            document: docs.len(),
            trouble: Trouble::Memory,
        }),
    }
}
