//! What is answered where an import closure is checked.

ghost use Rattle.std.specs.Prelude.{◌≡◌, List, IfOk, length};
ghost use Rattle.owl_documents.specs.Documents.{Parsed};
ghost use Rattle.owl_messages.specs.Answers.{outcome_of};
ghost use Rattle.owl_answer.specs.Checking.{TellBreaches};
ghost use Rattle.owl_answer.specs.Checks.{IsChecked, further_of};
ghost use Rattle.owl_answer.specs.KindsAt.{IsClosure};
ghost use Rattle.owl_answer.specs.Reading.{AllSayAt};

use crate::closure::Closure;
use owl_characters::NoMemory;
use owl_command::Profile;
use owl_doc::{Breach, Closure as ImportClosure, Doc};
use owl_messages::{Answer, verdict};
use owl_profiles::Profile as Further;
use std::alloc::Global;

/// What a check tells of the documents of a closure, which say this.
pub fn check(
    alloc: Global,
    profile: Profile,
    closure: Closure,
    said: Vec<Doc>,
) -> Result<Answer, NoMemory>
    requires { length closure.places.items ≡ length said.items }
    ensures { IfOk result (λ answer. (documents : List Parsed) → IsClosure documents closure
        → AllSayAt documents closure.kinds closure.places.items said.items
        → IsChecked profile documents (outcome_of answer)) }
{
    let Closure { places, kinds } = closure;
    let documents = ImportClosure::new(alloc, said, kinds);
    let found = breaches(alloc, profile, &documents)?;
    verdict(alloc, profile, &documents, &places, &found)
}

/// Each rule of the profile with each part of the documents that breaks it: those of
/// OWL 2 DL, and behind them what the profile asks besides.
pub fn breaches(
    alloc: Global,
    profile: Profile,
    closure: &ImportClosure,
) -> Result<Vec<Breach>, NoMemory>
    ensures { IfOk result (λ found. TellBreaches profile closure.now found.items) }
{
    let mut found = owl_dl::breaches(alloc, closure)?;
    let Some(further) = further(profile) else {
        return Ok(found);
    };
    let more = owl_profiles::breaches(alloc, closure, further)?;
    found.extend_from_slice(&more)?;
    Ok(found)
}

/// The profile besides OWL 2 DL.
fn further(profile: Profile) -> Option<Further>
    ensures { result ≡ further_of profile }
{
    match profile {
        Profile::Dl => None,
        Profile::El => Some(Further::El),
        Profile::Ql => Some(Further::Ql),
        Profile::Rl => Some(Further::Rl),
    }
}
