//! The words of the command line.

ghost use Rattle.std.specs.Prelude.{◌≡◌, ◌≢◌, ◌∷◌, ◌++◌, ◌<◌, ◌↔◌, List, ℕ, Some, length, map, slice_get, string_bytes, IsTrue, IfOk, IfSome, IfNone, IsErrOf, codes};
ghost use Rattle.std.specs.Option.{option_copied, option_map};
ghost use Rattle.std.specs.Str.{encode_utf8_all};
ghost use Rattle.owl_command.specs.Commands.{AsksImports, Guesses, HasNoCommand, IsCommand, action_words, names_of, profile_word, request_of, sources_of};
ghost use Rattle.owl_command.specs.WordParts.{AreTwoNames, IsOneSize, IsStripped, NameAgainst, NameNoTarget, NamesAction, NamesTarget, chosen_layout, NameNoVerb, NameNone, NameNoneAgainst};

use crate::names::{are_names, is_word, texts_of};
use crate::size::trial_size;
use owl_characters::{NoMemory, Text};
use rdf_terms::{Iri, IriFault};
use std::alloc::Global;
use thiserror::Error;

/// How a graph stands in Turtle.
#[derive(Clone, Copy, Debug, PartialEq, Eq)]
pub enum Layout {
    /// A line for each triple.
    Flat,
    /// With brackets and collections.
    Nested,
}

/// The syntax of a translation.
#[derive(Clone, Copy, Debug, PartialEq, Eq)]
pub enum Target {
    /// Functional-Style Syntax.
    Fss,
    /// Turtle.
    Ttl(Layout),
    /// Manchester Syntax.
    Omn,
}

/// The profile of a check.
#[derive(Clone, Copy, Debug, PartialEq, Eq)]
pub enum Profile {
    /// OWL 2 DL.
    Dl,
    /// OWL 2 EL.
    El,
    /// OWL 2 QL.
    Ql,
    /// OWL 2 RL.
    Rl,
}

impl Profile {
    /// The word of the profile.
    pub fn word(self) -> &'static str
        ensures { result.now ≡ profile_word self }
    {
        match self {
            Profile::Dl => "dl",
            Profile::El => "el",
            Profile::Ql => "ql",
            Profile::Rl => "rl",
        }
    }
}

/// What is asked of a main document, and of those that it imports.
#[derive(Clone, Copy, Debug, PartialEq, Eq)]
pub enum Action {
    /// `translate --to TARGET`
    Translate(Target),
    /// `check --profile PROFILE`
    Check(Profile),
    /// `show`
    Show,
    /// `declare --to TARGET`
    Declare(Target),
    /// `canon`
    Canon,
    /// `digest`
    Digest,
}

/// How the documents of an action are read.
#[derive(Debug, Drop)]
pub struct Options {
    /// Imports may be missing.
    pub partial: bool,
    /// Predicates that nothing declares are guessed to be annotation properties.
    pub guess: bool,
    /// The base IRI of the main document, where one is given.
    pub base: Option<Iri>,
}

/// What the words ask for. The first of several names is that of the main
/// document, and the others are those of documents that it may import.
#[derive(Debug, Drop)]
pub enum Command {
    /// `ACTION [--partial] [--guess] [--base IRI] MAIN {IMPORT}`
    OfMain {
        action: Action,
        options: Options,
        names: Vec<Text>,
    },
    /// `same FIRST SECOND`
    Same {
        first: Text,
        second: Text,
    },
    /// `trial SIZE`, of a document with so many classes
    Trial {
        size: u32,
    },
}

impl Command {
    /// How many documents it names.
    pub fn count(&self) -> usize
        ensures { result ≡ length (names_of (request_of self.now)) }
    {
        match self {
            Command::OfMain { names, .. } => names.len(),
            Command::Same { .. } => 2,
            Command::Trial { .. } => 0,
        }
    }

    /// The name of the document at this place, in the order in which they are
    /// read.
    pub fn name(&self, place: usize) -> &str
        requires { place < length (names_of (request_of self.now)) }
        ensures { slice_get (names_of (request_of self.now)) place ≡ Some result.now }
    {
        match self {
            Command::OfMain { names, .. } => names[place].as_str(),
            Command::Same { first, second } => {
                if place == 0 {
                    first.as_str()
                } else {
                    second.as_str()
                }
            }
            Command::Trial { .. } => unreachable!(),
        }
    }

    /// Whether each import has to be there.
    pub fn asks_imports(&self) -> bool
        ensures { IsTrue result ↔ AsksImports (request_of self.now) }
    {
        match self {
            Command::OfMain { options, .. } => !options.partial,
            Command::Same { .. } | Command::Trial { .. } => false,
        }
    }

    /// Whether predicates that nothing declares are guessed to be annotation
    /// properties.
    pub fn guesses(&self) -> bool
        ensures { IsTrue result ↔ Guesses (request_of self.now) }
    {
        match self {
            Command::OfMain { options, .. } => options.guess,
            Command::Same { .. } | Command::Trial { .. } => false,
        }
    }

    /// The base IRI of the document at this place: that of the main document, the
    /// first, where one is given.
    pub fn base(&self, place: usize) -> Option<&Iri>
        requires { place < length (names_of (request_of self.now)) }
        ensures { option_map (λ s. s.base) (slice_get (sources_of (request_of self.now)) place)
            ≡ Some (option_copied result) }
    {
        match self {
            Command::OfMain { options, .. } => {
                if place == 0 {
                    options.base.as_ref()
                } else {
                    None
                }
            }
            Command::Same { .. } | Command::Trial { .. } => None,
        }
    }
}

/// Why words were refused.
#[derive(Clone, Copy, Debug, PartialEq, Eq, Error)]
pub enum WordsFault {
    /// The words have no command.
    #[error("words")]
    Words,
    /// Memory ran out.
    #[error("out of memory")]
    Memory,
}

impl From<NoMemory> for WordsFault {
    ghost use Rattle.owl_command.specs.declared.command.WordsFault.TheVariants.{Memory};

    ghost from_gives = { λ _ e. e ≡ Memory };

    fn from(_e: NoMemory) -> WordsFault {
        WordsFault::Memory
    }
}

impl From<IriFault> for WordsFault {
    ghost use Rattle.owl_command.specs.WordParts.{fault_of_iri};

    ghost from_gives = { λ fault e. e ≡ fault_of_iri fault };

    fn from(fault: IriFault) -> WordsFault {
        match fault {
            IriFault::BadIri => WordsFault::Words,
            IriFault::Memory => WordsFault::Memory,
        }
    }
}

/// What stands behind this word, where it is the first.
fn strip<'a>(words: &'a [String], word: &str) -> Option<&'a [String]>
    ensures some { IfSome result (λ others. map string_bytes words.now ≡ word.now ∷ map string_bytes others.now) }
    ensures none { IfNone result ((others : List (List ℕ)) → map string_bytes words.now ≢ word.now ∷ others) }
{
    match words {
        [first, others @ ..] if is_word(first.as_str(), word) => Some(others),
        _ => None,
    }
}

/// The syntax that the words behind `--to` name, and what stands behind them.
fn strip_target(words: &[String]) -> Option<(Target, &[String])>
    ensures some { IfSome result (λ found.
        NamesTarget (map string_bytes words.now) found.0 (map string_bytes found.1.now)) }
    ensures none { IfNone result (NameNoTarget (map string_bytes words.now)) }
{
    if let Some(others) = strip(words, "fss") {
        return Some((Target::Fss, others));
    }
    if let Some(others) = strip(words, "omn") {
        return Some((Target::Omn, others));
    }
    let others = strip(words, "ttl")?;
    let (nest, others) = strip_flag(others, "--nest");
    Some((Target::Ttl(chosen_layout(nest)), others))
}

/// How a graph stands, by whether it is to be nested.
fn chosen_layout(nest: bool) -> Layout
    ensures { result ≡ chosen_layout nest }
{
    if nest { Layout::Nested } else { Layout::Flat }
}

/// The syntax that the words of a translation name, and what stands behind
/// them.
fn strip_translation(words: &[String]) -> Option<(Target, &[String])>
    ensures some { IfSome result (λ found. NamesAction (map string_bytes words.now)
        (Action.Translate found.0) (map string_bytes found.1.now)) }
    ensures none { IfNone result ((target : Target) (others : List (List ℕ)) →
        map string_bytes words.now ≢ action_words (Action.Translate target) ++ others) }
{
    let others = strip(strip(words, "translate")?, "--to")?;
    strip_target(others)
}

/// The syntax that the words of a declaration name, and what stands behind
/// them.
fn strip_declaration(words: &[String]) -> Option<(Target, &[String])>
    ensures some { IfSome result (λ found. NamesAction (map string_bytes words.now)
        (Action.Declare found.0) (map string_bytes found.1.now)) }
    ensures none { IfNone result ((target : Target) (others : List (List ℕ)) →
        map string_bytes words.now ≢ action_words (Action.Declare target) ++ others) }
{
    let others = strip(strip(words, "declare")?, "--to")?;
    strip_target(others)
}

/// The profile that a word names.
fn named_profile(word: &str) -> Option<Profile>
    ensures some { IfSome result (λ profile. word.now ≡ profile_word profile) }
    ensures none { IfNone result ((profile : Profile) → word.now ≢ profile_word profile) }
{
    if is_word(word, "dl") {
        Some(Profile::Dl)
    } else if is_word(word, "el") {
        Some(Profile::El)
    } else if is_word(word, "ql") {
        Some(Profile::Ql)
    } else if is_word(word, "rl") {
        Some(Profile::Rl)
    } else {
        None
    }
}

/// The profile that a word behind `--profile` names, and what stands behind it.
fn strip_profile(words: &[String]) -> Option<(Profile, &[String])>
    ensures some { IfSome result (λ found.
        map string_bytes words.now ≡ profile_word found.0 ∷ map string_bytes found.1.now) }
    ensures none { IfNone result ((profile : Profile) (others : List (List ℕ)) →
        map string_bytes words.now ≢ profile_word profile ∷ others) }
{
    match words {
        [word, others @ ..] => {
            let profile = named_profile(word.as_str())?;
            Some((profile, others))
        }
        [] => None,
    }
}

/// The profile that the words of a check name, and what stands behind them.
fn strip_check(words: &[String]) -> Option<(Profile, &[String])>
    ensures some { IfSome result (λ found. NamesAction (map string_bytes words.now)
        (Action.Check found.0) (map string_bytes found.1.now)) }
    ensures none { IfNone result ((profile : Profile) (others : List (List ℕ)) →
        map string_bytes words.now ≢ action_words (Action.Check profile) ++ others) }
{
    let others = strip(strip(words, "check")?, "--profile")?;
    strip_profile(others)
}

/// The action that one word names, and what stands behind it.
fn strip_verb(words: &[String]) -> Option<(Action, &[String])>
    ensures some { IfSome result (λ found. NamesAction (map string_bytes words.now)
        found.0 (map string_bytes found.1.now)) }
    ensures none { IfNone result (NameNoVerb (map string_bytes words.now)) }
{
    if let Some(others) = strip(words, "show") {
        return Some((Action::Show, others));
    }
    if let Some(others) = strip(words, "canon") {
        return Some((Action::Canon, others));
    }
    let others = strip(words, "digest")?;
    Some((Action::Digest, others))
}

/// The action that the first words name, and what stands behind them.
fn strip_action(words: &[String]) -> Option<(Action, &[String])>
    ensures some { IfSome result (λ found. NamesAction (map string_bytes words.now)
        found.0 (map string_bytes found.1.now)) }
    ensures none { IfNone result ((action : Action) (others : List (List ℕ)) →
        map string_bytes words.now ≢ action_words action ++ others) }
{
    if let Some((target, others)) = strip_translation(words) {
        return Some((Action::Translate(target), others));
    }
    if let Some((profile, others)) = strip_check(words) {
        return Some((Action::Check(profile), others));
    }
    if let Some((target, others)) = strip_declaration(words) {
        return Some((Action::Declare(target), others));
    }
    strip_verb(words)
}

/// Whether this word stands first, and the words behind it.
fn strip_flag<'a>(words: &'a [String], word: &str) -> (bool, &'a [String])
    ensures { IsStripped word.now (map string_bytes words.now)
        result.0 (map string_bytes result.1.now) }
{
    match strip(words, word) {
        Some(others) => (true, others),
        None => (false, words),
    }
}

/// The word behind `--base`, and what stands behind it.
fn strip_base(words: &[String]) -> Option<(&str, &[String])>
    ensures some { IfSome result (λ found.
        map string_bytes words.now ≡ codes "--base" ∷ found.0.now ∷ map string_bytes found.1.now) }
    ensures none { IfNone result ((iri : List ℕ) (others : List (List ℕ)) →
        map string_bytes words.now ≢ codes "--base" ∷ iri ∷ others) }
{
    match strip(words, "--base")? {
        [iri, others @ ..] => Some((iri.as_str(), others)),
        [] => None,
    }
}

/// The names of documents, of which the first has this base IRI.
fn based(alloc: Global, iri: &str, names: &[String]) -> Result<(Option<Iri>, Vec<Text>), WordsFault>
    ensures names { IfOk result (λ found.
        NameAgainst (codes "--base" ∷ iri.now ∷ map string_bytes names.now)
        found.0 (map encode_utf8_all found.1.items)) }
    ensures none { IsErrOf result WordsFault.Words
        → NameNoneAgainst (codes "--base" ∷ iri.now ∷ map string_bytes names.now) }
    ensures refused { NameNoneAgainst (codes "--base" ∷ iri.now ∷ map string_bytes names.now)
        → IsErrOf result WordsFault.Words }
{
    if !are_names(names) {
        return Err(WordsFault::Words);
    }
    let base = Iri::of(alloc, iri)?;
    // Its characters are those of an IRI.
    base.text();
    Ok((Some(base), texts_of(alloc, names)?))
}

/// The base IRI, where one is given, and the names of documents.
fn documents(alloc: Global, words: &[String]) -> Result<(Option<Iri>, Vec<Text>), WordsFault>
    ensures names { IfOk result (λ found. NameAgainst (map string_bytes words.now)
        found.0 (map encode_utf8_all found.1.items)) }
    ensures none { IsErrOf result WordsFault.Words
        → NameNoneAgainst (map string_bytes words.now) }
    ensures refused { NameNoneAgainst (map string_bytes words.now)
        → IsErrOf result WordsFault.Words }
{
    if let Some((iri, names)) = strip_base(words) {
        return based(alloc, iri, names);
    }
    if !are_names(words) {
        return Err(WordsFault::Words);
    }
    Ok((None, texts_of(alloc, words)?))
}

/// What the words behind those of an action ask for.
fn of_main(alloc: Global, action: Action, words: &[String]) -> Result<Command, WordsFault>
    ensures command { IfOk result
        (IsCommand (action_words action ++ map string_bytes words.now)) }
    ensures none { IsErrOf result WordsFault.Words → NameNone (map string_bytes words.now) }
    ensures refused { NameNone (map string_bytes words.now) → IsErrOf result WordsFault.Words }
{
    let (partial, words) = strip_flag(words, "--partial");
    let (guess, words) = strip_flag(words, "--guess");
    let (base, names) = documents(alloc, words)?;
    let options = Options {
        partial,
        guess,
        base,
    };
    Ok(Command::OfMain {
        action,
        options,
        names,
    })
}

/// What the words behind `same` ask for.
fn same(alloc: Global, words: &[String]) -> Result<Command, WordsFault>
    ensures command { IfOk result (IsCommand (codes "same" ∷ map string_bytes words.now)) }
    ensures none { IsErrOf result WordsFault.Words → AreTwoNames (map string_bytes words.now) → ⊥ }
    ensures refused { (AreTwoNames (map string_bytes words.now) → ⊥) → IsErrOf result WordsFault.Words }
{
    match words {
        [first, second] if are_names(words) => Ok(Command::Same {
            first: Text::of(alloc, first.as_str())?,
            second: Text::of(alloc, second.as_str())?,
        }),
        _ => Err(WordsFault::Words),
    }
}

/// What the words behind `trial` ask for.
fn trial(words: &[String]) -> Result<Command, WordsFault>
    ensures command { IfOk result (IsCommand (codes "trial" ∷ map string_bytes words.now)) }
    ensures none { IsErrOf result WordsFault.Words → IsOneSize (map string_bytes words.now) → ⊥ }
    ensures refused { (IsOneSize (map string_bytes words.now) → ⊥) → IsErrOf result WordsFault.Words }
{
    match words {
        [word] => match trial_size(word.as_str()) {
            Some(size) => Ok(Command::Trial { size }),
            None => Err(WordsFault::Words),
        },
        _ => Err(WordsFault::Words),
    }
}

/// What the words behind the program's name ask for. `Words` comes exactly where they have no command, and `Memory`
/// where memory runs out.
pub fn words(alloc: Global, words: &[String]) -> Result<Command, WordsFault>
    ensures command { IfOk result (IsCommand (map string_bytes words.now)) }
    ensures none { IsErrOf result WordsFault.Words → HasNoCommand (map string_bytes words.now) }
    ensures refused { HasNoCommand (map string_bytes words.now) → IsErrOf result WordsFault.Words }
{
    if let Some((action, others)) = strip_action(words) {
        of_main(alloc, action, others)
    } else if let Some(others) = strip(words, "same") {
        same(alloc, others)
    } else if let Some(others) = strip(words, "trial") {
        trial(others)
    } else {
        Err(WordsFault::Words)
    }
}
