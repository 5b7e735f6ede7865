//! What is answered to a trial.

ghost use Rattle.std.specs.Prelude.{◌≡◌, ◌↔◌, ℕ, IsTrue, IfOk, length};
ghost use Rattle.breach_lists.specs.Telling.{ontologies_of};
ghost use Rattle.owl_command.specs.Commands.{IsTrialSize};
ghost use Rattle.owl_doc.specs.Documents.{ontology_of};
ghost use Rattle.owl_documents.specs.Documents.{Said, an_ontology, in_functional, parsed_of, said_of};
ghost use Rattle.owl_documents.specs.Reading.{AreReadUnder};
ghost use Rattle.owl_documents.specs.declared.document.Syntax.TheVariants as syntax;
ghost use Rattle.owl_messages.specs.Answers.{outcome_of};
ghost use Rattle.owl_messages.specs.Outcome.{IsLimited};
ghost use Rattle.owl_messages.specs.Trial.{tried};
ghost use Rattle.owl_tree.specs.Ontologies.{IsSameOntology, Ontology};
ghost use Rattle.rdf_mapping.specs.Graphs.{graph_of};
ghost use Rattle.owl_answer.specs.ManchesterOutcome.{manchester_form};
ghost use Rattle.owl_answer.specs.TrialParts.{HasNoDefect, IsTriedAs, ReadsBack, ReadsSome, triple_count};
ghost use Rattle.owl_answer.specs.Trials.{AreBreachCounts, AreFindings, HasBreaches, IsTrialOutcome, IsTried, alone};
ghost use Rattle.owl_answer.specs.TurtleOutcome.{canonical_said, turtle_form};
ghost use Rattle.owl_answer.specs.UnderKinds.{SaysSome, SaysUnder};

use crate::checking::breaches;
use crate::kinds::ontology_kinds;
use crate::manchester::translate_to_manchester;
use crate::reading::read_under;
use crate::trial_document::trial_document;
use crate::turtle::translate_to_turtle;
use owl_characters::{MOST_BYTES, NoMemory};
use owl_command::{Layout, Profile, Status};
use owl_doc::{Closure, Counts, Doc};
use owl_documents::{Document, Syntax, Trouble, read_text};
use owl_messages::{
    Answer, BreachCounts, Findings, UnsaidFault, answer_trouble, told, too_long_output,
    trial_report,
};
use owl_tree::Kinds;
use std::alloc::{AllocError, Global};

/// What is found out of a text that is read back.
#[derive(Clone, Copy, Debug)]
pub struct ReadAgain {
    /// How many triples its graph has.
    pub triples: u64,
    /// Whether it says the same.
    pub same: bool,
}

/// What is answered to a trial with so many classes: its document is read in pieces,
/// translated to Turtle and to Manchester Syntax, both texts are read back and compared
/// with it, and it is checked for each profile.
pub fn answer_trial(alloc: Global, size: u32) -> Result<Answer, NoMemory>
    requires { IsTrialSize size }
    ensures { IfOk result (λ answer. IsTrialOutcome size (outcome_of answer)) }
{
    let text = trial_document(alloc, size)?;
    match read_text(alloc, Syntax::Functional, text.as_bytes()) {
        Ok(document) => try_document(alloc, document),
        Err(trouble) => answer_trouble(alloc, "trial", &trouble),
    }
}

/// What becomes of the document of a trial.
fn try_document(alloc: Global, document: Document) -> Result<Answer, NoMemory>
    requires { (said : Said) × (parsed_of document ≡ an_ontology in_functional said) }
    ensures { IfOk result (λ answer. IsTriedAs (parsed_of document) (outcome_of answer)) }
{
    match document {
        Document::Ontology(doc) => try_alone(alloc, doc),
        Document::Canonical(_) | Document::Graph(_) | Document::Frames(_) => unreachable!(),
    }
}

/// What becomes of an ontology under the kinds that it declares itself.
fn try_alone(alloc: Global, doc: Doc) -> Result<Answer, NoMemory>
    ensures { IfOk result (λ answer.
        IsTriedAs (an_ontology in_functional (said_of doc)) (outcome_of answer)) }
{
    let kinds = ontology_kinds(alloc, &doc)?;
    try_ontology(alloc, doc, kinds)
}

/// What becomes of an ontology under these kinds: the first translation that is
/// refused, or what is found out.
fn try_ontology(alloc: Global, doc: Doc, kinds: Kinds) -> Result<Answer, NoMemory>
    ensures { IfOk result (λ answer.
        IsTried kinds (canonical_said (said_of doc)) (outcome_of answer)) }
{
    // A document is in canonical form.
    doc.notes();
    let turtle = translate_to_turtle(alloc, Layout::Flat, &doc, &kinds)?;
    if turtle.status != Status::Done {
        return Ok(turtle);
    }
    let manchester = translate_to_manchester(alloc, &doc, &kinds)?;
    if manchester.status != Status::Done {
        return Ok(manchester);
    }
    let turtle = turtle.output.as_bytes();
    let manchester = manchester.output.as_bytes();
    let findings = find(alloc, doc, kinds, turtle, manchester)?;
    report(alloc, &findings)
}

/// What is told of findings.
fn report(alloc: Global, findings: &Findings) -> Result<Answer, NoMemory>
    ensures { IfOk result (λ answer.
        IsLimited (λ wanted. wanted ≡ tried findings.now) (outcome_of answer)) }
{
    let text = trial_report(alloc, findings)?;
    if MOST_BYTES < text.as_str().len() as u64 {
        too_long_output(alloc)
    } else {
        told(alloc, Status::Done, text, "trial done\n")
    }
}

/// What is found out of an ontology under these kinds, by its texts in Turtle and in
/// Manchester Syntax.
fn find(
    alloc: Global,
    doc: Doc,
    kinds: Kinds,
    turtle: &[u8],
    manchester: &[u8],
) -> Result<Findings, NoMemory>
    requires turtle { ReadsBack syntax.Turtle kinds turtle.now
        (turtle_form (canonical_said (said_of doc))).ontology
        (length (graph_of (turtle_form (canonical_said (said_of doc))).ontology)) }
    requires manchester { ReadsBack syntax.Manchester kinds manchester.now
        (manchester_form kinds (canonical_said (said_of doc))).ontology 0 }
    ensures { IfOk result (AreFindings kinds (canonical_said (said_of doc))) }
{
    // A document is in canonical form.
    doc.notes();
    let in_turtle = read_again(alloc, Syntax::Turtle, turtle, &kinds, &doc)?;
    let in_manchester = read_again(alloc, Syntax::Manchester, manchester, &kinds, &doc)?;
    let Counts {
        axioms,
        distinct,
        ..
    } = doc.counts(alloc)?;
    Ok(Findings {
        axioms,
        distinct,
        triples: in_turtle.triples,
        turtle: in_turtle.same,
        manchester: in_manchester.same,
        breaches: check_alone(alloc, doc, kinds)?,
    })
}

/// What is found out of a text that is read back under these kinds, beside what
/// the document says.
fn read_again(
    alloc: Global,
    syntax: Syntax,
    text: &[u8],
    kinds: &Kinds,
    doc: &Doc,
) -> Result<ReadAgain, NoMemory>
    requires { ReadsSome syntax kinds.now text.now }
    ensures same { IfOk result (λ again. (o : Ontology) (triples : ℕ)
        → ReadsBack syntax kinds.now text.now o triples
        → IsTrue again.same ↔ IsSameOntology o (ontology_of doc.now)) }
    ensures triples { IfOk result (λ again. (o : Ontology) (triples : ℕ)
        → ReadsBack syntax kinds.now text.now o triples
        → again.triples ≡ triples) }
{
    let document = read_whole_text(alloc, syntax, text)?;
    Ok(ReadAgain {
        triples: triple_count(&document),
        same: says_same(alloc, &document, kinds, doc)?,
    })
}

/// The document that a text is which has no defect.
fn read_whole_text(alloc: Global, syntax: Syntax, text: &[u8]) -> Result<Document, NoMemory>
    requires { HasNoDefect syntax text.now }
    ensures { IfOk result (λ document. AreReadUnder syntax text.now (parsed_of document)) }
{
    match read_text(alloc, syntax, text) {
        Ok(document) => Ok(document),
        Err(Trouble::Memory) => Err(NoMemory),
        Err(Trouble::Refused(_) | Trouble::ReadFailed) => unreachable!(),
    }
}

/// How many triples the graph of a document has; none where it is no graph.
fn triple_count(document: &Document) -> u64
    ensures { result ≡ triple_count (parsed_of document.now) }
{
    match document {
        Document::Graph(graph) => graph.graph.len() as u64,
        Document::Ontology(_) | Document::Canonical(_) | Document::Frames(_) => 0,
    }
}

/// Whether a document, which says something under these kinds, says what another
/// one does.
fn says_same(
    alloc: Global,
    document: &Document,
    kinds: &Kinds,
    other: &Doc,
) -> Result<bool, NoMemory>
    requires { SaysSome kinds.now (parsed_of document.now) }
    ensures { IfOk result (λ same. (said : Said)
        → SaysUnder kinds.now (parsed_of document.now) said
        → IsTrue same ↔ IsSameOntology said.ontology (ontology_of other.now)) }
{
    match read_under(alloc, document, kinds) {
        Ok(saying) => Ok(saying.doc().same(other)),
        Err(UnsaidFault::Memory) => Err(NoMemory),
        Err(UnsaidFault::Graph(_) | UnsaidFault::Frames(_)) => unreachable!(),
    }
}

/// How often the document alone breaks rules of each profile.
fn check_alone(alloc: Global, doc: Doc, kinds: Kinds) -> Result<BreachCounts, NoMemory>
    ensures { IfOk result (AreBreachCounts (alone kinds (ontology_of doc))) }
{
    let mut docs = Vec::with_capacity(alloc, 1)?;
    docs.push(doc).map_err(AllocError::from)?;
    let closure = Closure::new(alloc, docs, kinds);
    check_all(alloc, &closure)
}

/// How often an import closure breaks rules of each profile.
fn check_all(alloc: Global, closure: &Closure) -> Result<BreachCounts, NoMemory>
    ensures { IfOk result (AreBreachCounts (ontologies_of closure.now)) }
{
    Ok(BreachCounts {
        dl: breach_count(alloc, Profile::Dl, closure)?,
        el: breach_count(alloc, Profile::El, closure)?,
        ql: breach_count(alloc, Profile::Ql, closure)?,
        rl: breach_count(alloc, Profile::Rl, closure)?,
    })
}

/// How often an import closure breaks rules of the profile.
fn breach_count(alloc: Global, profile: Profile, closure: &Closure) -> Result<u64, NoMemory>
    ensures { IfOk result (HasBreaches profile (ontologies_of closure.now)) }
{
    let found = breaches(alloc, profile, closure)?;
    Ok(found.len() as u64)
}
