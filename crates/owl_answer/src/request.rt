//! What is answered to a command.

ghost use Rattle.std.specs.Prelude.{IsTrue, IfOk};
ghost use Rattle.owl_command.specs.Commands.{IsAllowed, request_of};
ghost use Rattle.owl_documents.specs.Shelves.{IsTaken};
ghost use Rattle.owl_answer.specs.Answers.{IsAnswered};
ghost use Rattle.owl_messages.specs.Answers.{outcome_of};

use crate::asked::Asked;
use crate::conclusion::conclude;
use owl_characters::NoMemory;
use owl_command::Command;
use owl_documents::{documents_are_read_one_way, read_documents};
use owl_messages::{Answer, answer_trouble};
use owl_port::Shelf;
use std::alloc::Global;

/// What is answered to a command: its documents are read, each to its end; then
/// its imports are looked at, and then what its documents say. A trial has a
/// document of its own.
pub fn answer_to<S: Shelf>(
    alloc: Global,
    command: &Command,
    shelf: &mut S,
) -> Result<Answer, NoMemory>
    requires { IsAllowed (request_of command.now) }
    ensures answered { IfOk result (λ answer. IsAnswered (request_of command.now)
        (record { tells = S.tells shelf.old; old = S.left shelf.old; new = S.left shelf.new; faults = S.faults shelf.old; later = S.faults shelf.new }) (outcome_of answer)) }
    ensures taken { IsTrue (S.tells shelf.old) → IsTaken (request_of command.now) (S.left shelf.old) (S.left shelf.new) }
{
    // What is known of all documents.
    documents_are_read_one_way();
    match read_documents(alloc, command, shelf) {
        Ok(docs) => conclude(alloc, Asked { command, docs }),
        Err(stop) => answer_trouble(alloc, command.name(stop.document), &stop.trouble),
    }
}
