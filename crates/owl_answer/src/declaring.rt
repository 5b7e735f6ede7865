//! What is answered for a main document with the declarations that it needs.

ghost use Rattle.std.specs.Prelude.{◌≡◌, List, IfOk, length};
ghost use Rattle.owl_documents.specs.Documents.{Parsed, said_of};
ghost use Rattle.owl_answer.specs.Answers.{IsToldOfMain, IsToldWhole};
ghost use Rattle.owl_command.specs.declared.command.Action.{Action};
ghost use Rattle.owl_command.specs.declared.command.Action.TheVariants as Action;
ghost use Rattle.owl_messages.specs.Answers.{outcome_of};

use crate::closure::Closure;
use crate::telling::translate;
use owl_characters::NoMemory;
use owl_command::Target;
use owl_declare::{DeclareFault, Need, declare, needed};
use owl_doc::Doc;
use owl_messages::{Answer, refuse_kinds, refuse_output, told_as_declared};
use owl_tree::Kinds;
use std::alloc::Global;

/// The translation of the main document with the declarations that it needs and no
/// document of its import closure has (Structural Specification, section 5.8.1).
pub fn tell_declaration(
    alloc: Global,
    target: Target,
    closure: Closure,
    main: &Doc,
) -> Result<Answer, NoMemory>
    ensures { IfOk result (λ answer. (documents : List Parsed) (parsed : Parsed)
        → IsToldOfMain (Action.Declare target) documents parsed closure.kinds
        (said_of main.now) (outcome_of answer)) }
{
    // A document is in canonical form.
    main.notes();
    let Closure {
        places: _,
        mut kinds,
    } = closure;
    let needs = needed(alloc, main, &kinds)?;
    let added = count(&needs);
    match declare(alloc, main, &mut kinds) {
        Ok(whole) => tell_whole(alloc, target, added, &kinds, &whole),
        Err(DeclareFault::TwoKinds { iri }) => refuse_kinds(alloc, &iri),
        Err(DeclareFault::TooHeavy) => refuse_output(alloc, "Weight"),
        Err(DeclareFault::Memory) => Err(NoMemory),
    }
}

/// How many they are.
fn count(needs: &[Need]) -> u64
    ensures { result ≡ length needs.now }
{
    needs.len() as u64
}

/// The translation of a document that so many declarations were added to.
fn tell_whole(
    alloc: Global,
    target: Target,
    added: u64,
    kinds: &Kinds,
    whole: &Doc,
) -> Result<Answer, NoMemory>
    ensures { IfOk result (λ answer.
        IsToldWhole added target kinds.now (said_of whole.now) (outcome_of answer)) }
{
    // What is declared stands in order.
    kinds.is_empty();
    let answer = translate(alloc, target, false, kinds, whole)?;
    told_as_declared(alloc, added, answer)
}
