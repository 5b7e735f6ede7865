//! All that the program does.

ghost use Rattle.std.specs.Prelude.{◌≡◌, ◌≢◌, ◌++◌, ◌↔◌, ◌⊎◌, ℕ, List, Some, [], map, take, string_bytes, IsTrue};
ghost use Rattle.std.specs.List.{AllByRecursion};
ghost use Rattle.owl_port.specs.Outside.{Rose};
ghost use Rattle.owl_command.specs.Commands.{Asks, HasNoCommand, IsAllowed, Name, Request, names_of, of_main, request_of};
ghost use Rattle.owl_command.specs.declared.command.Action.TheVariants as Action;
ghost use Rattle.owl_command.specs.declared.command.Profile.{Profile};
ghost use Rattle.owl_command.specs.declared.command.Options.{Options};
ghost use Rattle.owl_documents.specs.Shelves.{IsFaulty, IsFrontTaken, IsTaken};
ghost use Rattle.owl_answer.specs.InProfile.{IsInProfile};
ghost use Rattle.owl_answer.specs.Outcome.{IsQuiet, IsSettled, IsSuccess, IsTheOutcome};
ghost use Rattle.owl_answer.specs.Runs.{Becomes, IsFrontNoted, IsFrontOfNote, IsFrontWritten, IsLine, IsNoted, IsNotedAlone, IsOutcome, IsWritten, LineFor};
ghost use Rattle.owl_answer.specs.Answers.{IsFirstFaultyName, IsProper, IsWrittenFor, delivered_line};
ghost use Rattle.owl_messages.specs.Answers.{outcome_of};
ghost use Rattle.owl_messages.specs.Outcome.{Outcome};

use owl_answer::{Answer, answer_to};
use owl_characters::NoMemory;
use owl_command::{Command, Status, WordsFault};
use owl_port::{Failed, Shelf, Sink, put_all};
use std::alloc::Global;

/// Writes a line to the note. A fault of the note changes nothing.
fn tell<N: Sink>(note: &mut N, line: &str)
    ensures whole { IsTrue (N.tells note.old) → (Rose (N.faults note.old) (N.faults note.new) → ⊥) →
        N.written note.new ≡ N.written note.old ++ line.now }
    ensures front { IsTrue (N.tells note.old) → (n : ℕ) × (N.written note.new ≡ N.written note.old ++ take n line.now) }
{
    let _ = put_all(note, line.as_bytes());
}

/// Writes the text of an answer, and then its line.
fn deliver<O: Sink, N: Sink>(answer: &Answer, out: &mut O, note: &mut N) -> Status
    requires { IsProper (outcome_of answer.now) }
    ensures status { (result ≡ answer.now.status) ⊎ (result ≡ Status.WriteFailed) }
    ensures written { IsTrue (O.tells out.old) → result ≢ Status.WriteFailed →
        O.written out.new ≡ O.written out.old ++ (outcome_of answer.now).text }
    ensures front { IsTrue (O.tells out.old) → result ≡ Status.WriteFailed →
        (n : ℕ) × (O.written out.new ≡ O.written out.old ++ take n (outcome_of answer.now).text) }
    ensures kept { IsTrue (O.tells out.old) → (text : List ℕ) × (O.written out.new ≡ O.written out.old ++ text) }
    ensures write_fault { result ≡ Status.WriteFailed → Rose (O.faults out.old) (O.faults out.new) }
    ensures text { result ≡ Status.WriteFailed → (outcome_of answer.now).text ≢ [] }
    ensures line { IsTrue (N.tells note.old) → (Rose (N.faults note.old) (N.faults note.new) → ⊥) →
        N.written note.new ≡ N.written note.old ++ delivered_line (outcome_of answer.now) result }
    ensures line_front { IsTrue (N.tells note.old) →
        (n : ℕ) × (N.written note.new ≡ N.written note.old ++ take n (delivered_line (outcome_of answer.now) result)) }
{
    match put_all(out, answer.output.as_bytes()) {
        Ok(()) => {
            tell(note, answer.line.as_str());
            answer.status
        }
        Err(Failed) => {
            tell(note, "write\n");
            Status::WriteFailed
        }
    }
}

/// Does what a command asks for.
fn obey<S: Shelf, O: Sink, N: Sink>(
    alloc: Global,
    command: &Command,
    shelf: &mut S,
    out: &mut O,
    note: &mut N,
) -> Status
    requires { IsAllowed (request_of command.now) }
    ensures some { result ≢ Status.Words }
    ensures outcome { IsTrue (S.tells shelf.old) → IsSettled result →
        (outcome : Outcome) × IsTheOutcome (Becomes (S.left shelf.old) (request_of command.now)) outcome × (result ≡ outcome.status) }
    ensures written { IsTrue (S.tells shelf.old) → IsTrue (O.tells out.old) → IsSuccess result →
        IsWrittenFor (request_of command.now) (S.left shelf.old) result (O.written out.old) (O.written out.new) }
    ensures ended { IsTrue (S.tells shelf.old) → IsSuccess result →
        AllByRecursion (λ name. S.left shelf.new name ≡ Some []) (names_of (request_of command.now)) }
    ensures taken { IsTrue (S.tells shelf.old) → IsTaken (request_of command.now) (S.left shelf.old) (S.left shelf.new) }
    ensures untouched { IsTrue (O.tells out.old) → IsQuiet result → O.written out.new ≡ O.written out.old }
    ensures front { IsTrue (S.tells shelf.old) → IsTrue (O.tells out.old) → result ≡ Status.WriteFailed →
        IsFrontWritten (Becomes (S.left shelf.old) (request_of command.now)) (O.written out.old) (O.written out.new) }
    ensures kept { IsTrue (O.tells out.old) → (text : List ℕ) × (O.written out.new ≡ O.written out.old ++ text) }
    ensures read_fault { result ≡ Status.ReadFailed → (name : List ℕ)
        × IsFaulty (λ other. Rose (S.faults shelf.old other) (S.faults shelf.new other)) (request_of command.now) name }
    ensures in_order { IsTrue (S.tells shelf.old) → result ≡ Status.ReadFailed → (name : List ℕ)
        × IsFirstFaultyName (S.left shelf.old) (λ other. Rose (S.faults shelf.old other) (S.faults shelf.new other)) (request_of command.now) name }
    ensures write_fault { result ≡ Status.WriteFailed → Rose (O.faults out.old) (O.faults out.new) }
    ensures note { IsTrue (S.tells shelf.old) → IsTrue (N.tells note.old) → (Rose (N.faults note.old) (N.faults note.new) → ⊥) →
        IsNoted (LineFor (request_of command.now) (IsFirstFaultyName (S.left shelf.old) (λ other. Rose (S.faults shelf.old other) (S.faults shelf.new other)) (request_of command.now)) result)
        (Becomes (S.left shelf.old) (request_of command.now)) result (N.written note.old) (N.written note.new) }
    ensures note_alone { IsTrue (N.tells note.old) → (Rose (N.faults note.old) (N.faults note.new) → ⊥) →
        IsNotedAlone (LineFor (request_of command.now) (IsFaulty (λ other. Rose (S.faults shelf.old other) (S.faults shelf.new other)) (request_of command.now)) result)
        (N.written note.old) (N.written note.new) }
    ensures note_front { IsTrue (S.tells shelf.old) → IsTrue (N.tells note.old) →
        IsFrontOfNote (LineFor (request_of command.now) (IsFirstFaultyName (S.left shelf.old) (λ other. Rose (S.faults shelf.old other) (S.faults shelf.new other)) (request_of command.now)) result)
        (Becomes (S.left shelf.old) (request_of command.now)) result (N.written note.old) (N.written note.new) }
    ensures note_front_alone { IsTrue (N.tells note.old) →
        IsFrontNoted (LineFor (request_of command.now) (IsFaulty (λ other. Rose (S.faults shelf.old other) (S.faults shelf.new other)) (request_of command.now)) result)
        (N.written note.old) (N.written note.new) }
{
    match answer_to(alloc, command, shelf) {
        Ok(answer) => deliver(&answer, out, note),
        Err(NoMemory) => {
            tell(note, "memory\n");
            Status::Memory
        }
    }
}

/// All that the program does for the words behind its name: it reads documents from the shelf, and writes its text to
/// `out` and one line to `note`.
///
/// A name that ends in `.ttl` is of a document in Turtle, one that ends in `.omn` of a document in Manchester Syntax, one that
/// ends in `.owc` of canonical bytes, and each other one of a document in Functional-Style Syntax.
///
/// The line of a status is `translated; axioms A; absorbed K`, `declared; added D; axioms A; absorbed K`, `profile P: yes`,
/// `shown`, `canonical`, `digested`, `same` or `trial done` for `Done`,
/// `profile P: no; breaches B` or `different` for `No`, `words` for `Words`; for `Document` `NAME: item at ITEM: REASON at AT`,
/// `NAME: NotCanon`, `NAME: MissingImport <IRI>`, or the fault of a graph or of frames:
/// `NAME: NoHeader`, `NAME: TwoHeaders`, `NAME: BadHeader NODE`, `NAME: TwoKinds <IRI>`, `NAME: Mixed _:LABEL`, and so with
/// `BadList`, `Cycle`, `BadNode`, `MainMissing` and `Orphan`, `NAME: Reserved S P O` or `NAME: Untyped S P O` of a graph, and
/// `NAME: TwoKinds <IRI>`, `NAME: Untyped <IRI> at AT`, `NAME: WrongKind <IRI> at AT` or `NAME: WrongForm at AT` of frames;
/// `typing: TwoKinds <IRI>`, `typing: Undeclared KIND <IRI>: ITEM` or `target: WHY: ITEM` for `Target`,
/// `limit: COUNT: NAME` or `limit: COUNT: output` for `Limit`, `read: NAME` for `ReadFailed`, `write` for `WriteFailed` and
/// `memory` for `Memory`.
///
/// Each document that the words name is read, in their order, the main one against the base IRI that is given, if it is in
/// Turtle, and the first that can't be is refused by its first defect; then imports are looked at, of the main document and
/// of those that it reaches; then, where that is asked for, annotation properties are guessed of each of these that is in
/// Turtle: predicates that are not reserved and that these declare as no property; then each of these is read under the kinds
/// that they declare together, with guesses (each of two that are compared under its own), and the first graph or document of frames that
/// says no ontology is refused. Then, for a translation, unless one of a document in Functional-Style Syntax to itself, it is
/// asked whether what the main one says is well typed, and, for Turtle and Manchester Syntax, whether it can be said. With the
/// declarations that it needs it is well typed, unless an IRI has then two kinds that none may share. Turtle has a line for each
/// triple, or, where that is asked for, brackets and collections. A check looks at all documents of the import closure, and
/// tells each rule with each part that breaks it. A fault of `note` changes no status.
///
/// A trial reads nothing from the shelf: it makes a document in Functional-Style Syntax with so many classes, reads it,
/// translates it to Turtle and to Manchester Syntax, reads both back, and checks it for each profile. Its nine lines tell
/// how many axioms, distinct trees and triples there are, whether both texts say the same, and how often rules are broken.
pub fn run<S: Shelf, O: Sink, N: Sink>(
    alloc: Global,
    words: &[String],
    shelf: &mut S,
    out: &mut O,
    note: &mut N,
) -> Status
    // The status is the outcome's.
    ensures words { (result ≡ Status.Words) ↔ HasNoCommand (map string_bytes words.now) }
    ensures outcome { IsTrue (S.tells shelf.old) → IsSettled result →
        (outcome : Outcome) × IsTheOutcome (IsOutcome (map string_bytes words.now) (S.left shelf.old)) outcome × (result ≡ outcome.status) }

    // A check answers yes exactly where the import closure is in the profile.
    ensures verdict { IsTrue (S.tells shelf.old) → IsSettled result →
        (profile : Profile) (options : Options) (names : List (List ℕ)) →
        Asks (map string_bytes words.now) (of_main (Action.Check profile) options names) →
        (result ≡ Status.Done)
        ↔ IsInProfile (S.left shelf.old) (of_main (Action.Check profile) options names) profile }

    // Success writes the text, and reads the documents to their ends.
    ensures written { IsTrue (S.tells shelf.old) → IsTrue (O.tells out.old) → IsSuccess result →
        IsWritten (map string_bytes words.now) (S.left shelf.old) result (O.written out.old) (O.written out.new) }
    ensures ended { IsTrue (S.tells shelf.old) → IsSuccess result → (name : List ℕ) → Name (map string_bytes words.now) name →
        S.left shelf.new name ≡ Some [] }
    ensures others { IsTrue (S.tells shelf.old) → (name : List ℕ) → (Name (map string_bytes words.now) name → ⊥) →
        S.left shelf.new name ≡ S.left shelf.old name }
    ensures taken { IsTrue (S.tells shelf.old) → (name : List ℕ) → Name (map string_bytes words.now) name →
        IsFrontTaken (S.left shelf.old name) (S.left shelf.new name) }

    // A refusal writes nothing, and a failed write a front of the text.
    ensures untouched { IsTrue (O.tells out.old) → IsQuiet result → O.written out.new ≡ O.written out.old }
    ensures front { IsTrue (S.tells shelf.old) → IsTrue (O.tells out.old) → result ≡ Status.WriteFailed →
        IsFrontWritten (IsOutcome (map string_bytes words.now) (S.left shelf.old)) (O.written out.old) (O.written out.new) }

    // Whatever the shelf tells, the output keeps what it had.
    ensures kept { IsTrue (O.tells out.old) → (text : List ℕ) × (O.written out.new ≡ O.written out.old ++ text) }

    // A fault has its cause. Each document before the one that could not be read is read.
    ensures read_fault { result ≡ Status.ReadFailed →
        (name : List ℕ) × Name (map string_bytes words.now) name × Rose (S.faults shelf.old name) (S.faults shelf.new name) }
    ensures in_order { IsTrue (S.tells shelf.old) → result ≡ Status.ReadFailed →
        (request : Request) × (name : List ℕ) × Asks (map string_bytes words.now) request
        × IsFirstFaultyName (S.left shelf.old) (λ other. Rose (S.faults shelf.old other) (S.faults shelf.new other)) request name }
    ensures write_fault { result ≡ Status.WriteFailed → Rose (O.faults out.old) (O.faults out.new) }

    // The note is one line.
    ensures note { IsTrue (S.tells shelf.old) → IsTrue (N.tells note.old) → (Rose (N.faults note.old) (N.faults note.new) → ⊥) →
        IsNoted (IsLine (map string_bytes words.now) (IsFirstFaultyName (S.left shelf.old) (λ other. Rose (S.faults shelf.old other) (S.faults shelf.new other))) result)
        (IsOutcome (map string_bytes words.now) (S.left shelf.old)) result (N.written note.old) (N.written note.new) }
    ensures note_alone { IsTrue (N.tells note.old) → (Rose (N.faults note.old) (N.faults note.new) → ⊥) →
        IsNotedAlone (IsLine (map string_bytes words.now) (IsFaulty (λ other. Rose (S.faults shelf.old other) (S.faults shelf.new other))) result)
        (N.written note.old) (N.written note.new) }
    ensures note_front { IsTrue (S.tells shelf.old) → IsTrue (N.tells note.old) →
        IsFrontOfNote (IsLine (map string_bytes words.now) (IsFirstFaultyName (S.left shelf.old) (λ other. Rose (S.faults shelf.old other) (S.faults shelf.new other))) result)
        (IsOutcome (map string_bytes words.now) (S.left shelf.old)) result (N.written note.old) (N.written note.new) }
    ensures note_front_alone { IsTrue (N.tells note.old) →
        IsFrontNoted (IsLine (map string_bytes words.now) (IsFaulty (λ other. Rose (S.faults shelf.old other) (S.faults shelf.new other))) result)
        (N.written note.old) (N.written note.new) }

    // Where no device fails, the status is that of the one outcome, or memory ran out.
    ensures completes { IsTrue (S.tells shelf.old) →
        ((name : List ℕ) → Name (map string_bytes words.now) name → Rose (S.faults shelf.old name) (S.faults shelf.new name) → ⊥) →
        (Rose (O.faults out.old) (O.faults out.new) → ⊥) →
        ((outcome : Outcome) × IsTheOutcome (IsOutcome (map string_bytes words.now) (S.left shelf.old)) outcome × (result ≡ outcome.status))
        ⊎ (result ≡ Status.Memory) }
{
    match owl_command::words(alloc, words) {
        Ok(command) => obey(alloc, &command, shelf, out, note),
        Err(WordsFault::Words) => {
            tell(note, "words\n");
            Status::Words
        }
        Err(WordsFault::Memory) => {
            tell(note, "memory\n");
            Status::Memory
        }
    }
}
