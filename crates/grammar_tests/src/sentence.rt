//! The events of a whole sentence, or its first wrong token.

ghost use Rattle.std.specs.Prelude.{◌≡◌, List, ℕ, [], ◌∷◌, ◌++◌, length, map, None, OnErr, OnOk, IfOk, IfErr};
ghost use Rattle.grammar.specs.Derivations.Event.{Do};
ghost use Rattle.grammar.specs.Feeding.{DefectAt};
ghost use Rattle.grammar.specs.Parsing.{Refuses, expects};
ghost use Rattle.grammar.specs.declared.fault.ParseFault.TheVariants.{Unexpected};
ghost use Rattle.grammar_tests.specs.Events.{IsFed, IsSentence, events_seen, start};
ghost use Rattle.grammar_tests.specs.ItemsTable.{items};

use crate::items::{Items, Rule};
use grammar::{ParseFault, Parser};
use std::alloc::Global;

/// What is done on the way through a sentence.
#[derive(Clone, Copy, Debug, PartialEq, Eq)]
pub enum Event {
    /// A token of this class is taken.
    Take(u8),
    /// This act is done.
    Do(u8),
}

/// Why a sentence was refused, and in front of which token.
#[derive(Clone, Copy, Debug, PartialEq, Eq)]
pub struct Refusal {
    pub fault: ParseFault,
    pub place: usize,
}

/// Moves acts to the end of the events.
fn move_acts(acts: &mut Vec<u8>, events: &mut Vec<Event>) -> Result<(), ParseFault>
    ensures moved { OnOk result (events_seen events.new.items
        ≡ events_seen events.old.items ++ map Do acts.old.items) }
    ensures empty { OnOk result (acts.new.items ≡ []) }
    ensures memory { IfErr result (λ fault. fault ≡ Unexpected → ⊥) }
{
    for act in acts.iter() {
        events.push(Event::Do(*act))?;
    }
    acts.clear();
    Ok(())
}

/// Feeds a token, and adds the acts in front of it and the token to the end of
/// the events.
fn feed(
    parser: &mut Parser<Items>,
    class: u8,
    acts: &mut Vec<u8>,
    events: &mut Vec<Event>,
) -> Result<(), ParseFault>
    requires { acts.old.items ≡ [] }
    ensures fed { OnOk result ((front : List ℕ) →
        IsFed front (events_seen events.old.items) parser.old →
        IsFed (front ++ class ∷ []) (events_seen events.new.items) parser.new) }
    ensures empty { OnOk result (acts.new.items ≡ []) }
    ensures refuses { parser.old.refused ≡ None → IfErr result (λ fault. fault ≡ Unexpected →
        Refuses items parser.old.expected class) }
{
    parser.feed(class, acts)?;
    move_acts(acts, events)?;
    events.push(Event::Take(class))?;
    Ok(())
}

/// Feeds tokens, and tells where one is wrong.
fn feed_all(
    parser: &mut Parser<Items>,
    classes: &[u8],
    acts: &mut Vec<u8>,
    events: &mut Vec<Event>,
) -> Result<(), Refusal>
    requires fresh { IsFed [] (events_seen events.old.items) parser.old }
    requires empty { acts.old.items ≡ [] }
    ensures fed { OnOk result (IsFed classes.now (events_seen events.new.items) parser.new) }
    ensures empty { OnOk result (acts.new.items ≡ []) }
    ensures wrong { IfErr result (λ refusal. refusal.fault ≡ Unexpected →
        DefectAt items start classes.now refusal.place) }
{
    for (place, class) in classes.iter().enumerate() {
        if let Err(fault) = feed(parser, *class, acts, events) {
            return Err(Refusal { fault, place });
        }
    }
    Ok(())
}

/// Feeds the end, and adds the last acts to the end of the events.
fn finish(
    parser: &mut Parser<Items>,
    acts: &mut Vec<u8>,
    events: &mut Vec<Event>,
) -> Result<(), ParseFault>
    requires { acts.old.items ≡ [] }
    ensures whole { OnOk result ((front : List ℕ) →
        IsFed front (events_seen events.old.items) parser.old →
        IsSentence front (events_seen events.new.items)) }
    ensures wrong { (front : List ℕ) → IsFed front (events_seen events.old.items) parser.old →
        IfErr result (λ fault. fault ≡ Unexpected → DefectAt items start front (length front)) }
{
    parser.finish(acts)?;
    move_acts(acts, events)
}

/// Feeds tokens and the end.
fn feed_whole(
    parser: &mut Parser<Items>,
    classes: &[u8],
    acts: &mut Vec<u8>,
    events: &mut Vec<Event>,
) -> Result<(), Refusal>
    requires fresh { IsFed [] (events_seen events.old.items) parser.old }
    requires empty { acts.old.items ≡ [] }
    ensures whole { OnOk result (IsSentence classes.now (events_seen events.new.items)) }
    ensures wrong { IfErr result (λ refusal. refusal.fault ≡ Unexpected →
        DefectAt items start classes.now refusal.place) }
{
    feed_all(parser, classes, acts, events)?;
    match finish(parser, acts, events) {
        Ok(()) => Ok(()),
        Err(fault) => Err(Refusal {
            fault,
            place: classes.len(),
        }),
    }
}

/// Adds the events of an item whose tokens are of these classes.
fn add_events(alloc: Global, classes: &[u8], events: &mut Vec<Event>) -> Result<(), Refusal>
    requires { events.old.items ≡ [] }
    ensures whole { OnOk result (IsSentence classes.now (events_seen events.new.items)) }
    ensures wrong { IfErr result (λ refusal. refusal.fault ≡ Unexpected →
        DefectAt items start classes.now refusal.place) }
{
    let mut acts = Vec::new(alloc);
    match Parser::new(alloc, Rule::Item as u16) {
        Ok(mut parser) => feed_whole(&mut parser, classes, &mut acts, events),
        Err(_) => Err(Refusal {
            fault: ParseFault::Memory,
            place: 0,
        }),
    }
}

/// The events of an item whose tokens are of these classes; none where this refuses.
///
/// `Unexpected` comes exactly where the tokens are no item, with the place of
/// the first wrong one, or of the end.
pub fn parse(alloc: Global, classes: &[u8], events: &mut Vec<Event>) -> Result<(), Refusal>
    requires { events.old.items ≡ [] }
    ensures whole { OnOk result (IsSentence classes.now (events_seen events.new.items)) }
    ensures wrong { IfErr result (λ refusal. refusal.fault ≡ Unexpected →
        DefectAt items start classes.now refusal.place) }
    ensures err { OnErr result (events.new.items ≡ events.old.items) }
{
    match add_events(alloc, classes, events) {
        Ok(()) => Ok(()),
        Err(refusal) => {
            events.clear();
            Err(refusal)
        }
    }
}
