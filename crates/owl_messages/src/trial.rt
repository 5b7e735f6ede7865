//! What a trial tells.

ghost use Rattle.std.specs.Prelude.{◌≡◌, string_bytes, IfOk};
ghost use Rattle.std.specs.Str.{encode_utf8_all};
ghost use Rattle.owl_messages.specs.Trial.{compared_line, compared_lines, counted_lines, profile_line, profile_lines, trial_text};

use crate::summaries::count_line;
use owl_characters::{NoMemory, Text};
use owl_command::Profile;
use std::alloc::{AllocError, Global};

/// How often a document breaks a rule of each profile.
#[derive(Clone, Copy, Debug, PartialEq, Eq)]
pub struct BreachCounts {
    pub dl: u64,
    pub el: u64,
    pub ql: u64,
    pub rl: u64,
}

/// What a trial finds out of its document.
#[derive(Clone, Copy, Debug, PartialEq, Eq)]
pub struct Findings {
    /// How many axioms it has.
    pub axioms: u64,
    /// How many distinct trees they and its annotations are made of.
    pub distinct: u64,
    /// How many triples the graph of its normal form has.
    pub triples: u64,
    /// Whether what it is in Turtle says the same.
    pub turtle: bool,
    /// Whether what it is in Manchester Syntax says the same.
    pub manchester: bool,
    /// How often it breaks rules.
    pub breaches: BreachCounts,
}

/// A line on whether a translation says the same.
fn compared_line(alloc: Global, label: &str, same: bool) -> Result<String, AllocError>
    ensures { IfOk result (λ line. string_bytes line ≡ compared_line label.now same) }
{
    if same {
        format!(in alloc; "{label} same\n")
    } else {
        format!(in alloc; "{label} different\n")
    }
}

/// A line on how often rules of the profile are broken.
fn profile_line(alloc: Global, profile: Profile, breaches: u64) -> Result<String, AllocError>
    ensures { IfOk result (λ line. string_bytes line ≡ profile_line profile breaches) }
{
    let word = profile.word();
    if breaches == 0 {
        format!(in alloc; "{word} yes\n")
    } else {
        format!(in alloc; "{word} no {breaches}\n")
    }
}

/// How many axioms, distinct trees and triples there are.
fn counted_lines(alloc: Global, findings: &Findings) -> Result<String, AllocError>
    ensures { IfOk result (λ lines. string_bytes lines ≡ counted_lines findings.now) }
{
    let axioms = count_line(alloc, "axioms", findings.axioms)?;
    let distinct = count_line(alloc, "distinct", findings.distinct)?;
    let triples = count_line(alloc, "triples", findings.triples)?;
    format!(in alloc; "{axioms}{distinct}{triples}")
}

/// Whether the translations say the same.
fn compared_lines(alloc: Global, findings: &Findings) -> Result<String, AllocError>
    ensures { IfOk result (λ lines. string_bytes lines ≡ compared_lines findings.now) }
{
    let turtle = compared_line(alloc, "ttl", findings.turtle)?;
    let manchester = compared_line(alloc, "omn", findings.manchester)?;
    format!(in alloc; "{turtle}{manchester}")
}

/// How often rules of each profile are broken.
fn profile_lines(alloc: Global, breaches: BreachCounts) -> Result<String, AllocError>
    ensures { IfOk result (λ lines. string_bytes lines ≡ profile_lines breaches) }
{
    let dl = profile_line(alloc, Profile::Dl, breaches.dl)?;
    let el = profile_line(alloc, Profile::El, breaches.el)?;
    let ql = profile_line(alloc, Profile::Ql, breaches.ql)?;
    let rl = profile_line(alloc, Profile::Rl, breaches.rl)?;
    format!(in alloc; "{dl}{el}{ql}{rl}")
}

/// The nine lines of a trial.
fn lines(alloc: Global, findings: &Findings) -> Result<String, AllocError>
    ensures { IfOk result (λ lines. string_bytes lines ≡ trial_text findings.now) }
{
    let counted = counted_lines(alloc, findings)?;
    let compared = compared_lines(alloc, findings)?;
    let profiles = profile_lines(alloc, findings.breaches)?;
    format!(in alloc; "{counted}{compared}{profiles}")
}

/// What a trial tells of what it found, in nine lines.
pub fn trial_report(alloc: Global, findings: &Findings) -> Result<Text, NoMemory>
    ensures { IfOk result (λ text. encode_utf8_all text ≡ trial_text findings.now) }
{
    let lines = lines(alloc, findings)?;
    Text::of(alloc, lines.as_str())
}
