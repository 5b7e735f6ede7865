//! What the machine has in hand.

ghost use Rattle.std.specs.Prelude.{◌≡◌, ◌+◌, ◌^◌, ◌<◌, ◌≤◌, [], ◌∷◌, ◌++◌, length, take, Some, IsTrue, OnOk, OnErr, IfOk};
ghost use Rattle.std.specs.Char.{len_utf8};
ghost use Rattle.owl_lexer.specs.Adding.{placed_at};
ghost use Rattle.owl_lexer.specs.Giving.{nothing_at};
ghost use Rattle.owl_lexer.specs.Hands.{AreRun, HoldsRun, IsFrontOf, IsReady, begun_of};

use crate::language::TokenLanguage;
use crate::placed::Placed;
use owl_characters::NoMemory;
use std::alloc::Global;

/// The longest lexeme in front of the characters that are held: how many of
/// them it has, the state to which they lead, its kind, and the byte behind it.
#[derive(Clone, Copy, Debug)]
pub struct Front {
    pub length: usize,
    pub state: u8,
    pub kind: u8,
    pub end: u64,
}

/// The characters of a lexeme that is begun, the bytes of the first of them and
/// behind the last, the state to which they lead, and the longest lexeme in
/// front of them, where they aren't one themselves.
#[derive(Debug, Drop)]
pub struct Hand {
    pub alloc: Global,
    pub at: u64,
    pub end: u64,
    pub held: Vec<char>,
    pub state: u8,
    pub front: Option<Front>,
}

/// Nothing in hand, at this byte. Takes no memory.
pub fn empty_hand<L: TokenLanguage>(alloc: Global, at: u64) -> Hand
    ensures ready { IsReady L.automaton result }
    ensures begun { begun_of result ≡ nothing_at at }
    ensures end { result.end ≡ at }
{
    Hand {
        alloc,
        at,
        end: at,
        held: Vec::new(alloc),
        state: L::start(),
        front: None,
    }
}

/// Puts an item at the end.
pub fn add<T: Drop>(items: &mut Vec<T>, item: T) -> Result<(), NoMemory>
    ensures ok { OnOk result (items.new.items ≡ items.old.items ++ item ∷ []) }
    ensures err { OnErr result (items.new.items ≡ items.old.items) }
{
    if items.push(item).is_ok() {
        Ok(())
    } else {
        Err(NoMemory)
    }
}

/// How many bytes a character has.
#[inline(always)]
fn width(c: char) -> u64
    ensures { result ≡ len_utf8 c }
{
    if c < '\u{80}' { 1 } else { wide(c) }
}

/// The same, apart, since most characters are ASCII.
#[inline(never)]
fn wide(c: char) -> u64
    ensures { result ≡ len_utf8 c }
{
    c.len_utf8() as u64
}

/// The longest lexeme in front of the characters that are held, if there is one.
#[inline(always)]
pub fn longest_front<L: TokenLanguage>(hand: &Hand) -> Option<Front>
    requires { IsReady L.automaton hand.now }
    ensures { IsFrontOf L.automaton hand.now.at hand.now.held.items result }
{
    match L::kind(hand.state) {
        Some(kind) => Some(Front {
            length: hand.held.len(),
            state: hand.state,
            kind,
            end: hand.end,
        }),
        None => hand.front,
    }
}

/// Remembers the longest lexeme in front of the characters that are held.
#[inline(never)]
fn remember<L: TokenLanguage>(hand: &mut Hand)
    requires { IsReady L.automaton hand.old }
    ensures front { IsFrontOf L.automaton hand.old.at hand.old.held.items hand.new.front }
    ensures rest { hand.new ≡ record hand.old { front = hand.new.front } }
{
    hand.front = longest_front::<L>(hand);
}

/// Holds a character that leads to this state.
#[inline(always)]
pub fn hold<L: TokenLanguage>(hand: &mut Hand, state: u8, c: char) -> Result<(), NoMemory>
    requires ready { IsReady L.automaton hand.old }
    requires step { L.automaton.step hand.old.state c ≡ Some state }
    requires room { hand.old.end + len_utf8 c < 2 ^ 63 }
    ensures ready { OnOk result (IsReady L.automaton hand.new) }
    ensures at { OnOk result (hand.new.at ≡ hand.old.at) }
    ensures held { OnOk result (hand.new.held.items ≡ hand.old.held.items ++ c ∷ []) }
    ensures end { OnOk result (hand.new.end ≡ hand.old.end + len_utf8 c) }
{
    if L::kind(state).is_none() {
        remember::<L>(hand);
    }
    add(&mut hand.held, c)?;
    hand.end += width(c);
    hand.state = state;
    Ok(())
}

/// Whether a byte is an ASCII character that leads from a state back to it.
#[inline(always)]
fn leads_back<L: TokenLanguage>(state: u8, byte: u8) -> bool
    ensures { IsTrue result → (byte < 128) × (L.automaton.step state byte ≡ Some state) }
{
    byte < 128 && L::step(state, char::from(byte)).is_some_and(|next| next == state)
}

/// How many of the first bytes are a run.
#[inline(always)]
fn run_length<L: TokenLanguage>(state: u8, bytes: &[u8]) -> usize
    ensures within { result ≤ length bytes.now }
    ensures run { AreRun L.automaton state (take result bytes.now) }
{
    let mut count = 0;
    while count < bytes.len() && leads_back::<L>(state, bytes[count]) {
        count += 1;
    }
    count
}

/// Puts ASCII characters at the end.
#[inline(always)]
fn add_ascii(items: &mut Vec<char>, bytes: &[u8]) -> Result<(), NoMemory>
    ensures { OnOk result (items.new.items ≡ items.old.items ++ bytes.now) }
{
    for byte in bytes {
        add(items, char::from(*byte))?;
    }
    Ok(())
}

/// Holds the first bytes for as long as they are a run, and answers how many.
#[inline(always)]
pub fn hold_run<L: TokenLanguage>(hand: &mut Hand, bytes: &[u8]) -> Result<usize, NoMemory>
    requires ready { IsReady L.automaton hand.old }
    requires room { hand.old.end + length bytes.now < 2 ^ 63 }
    ensures within { IfOk result (λ count. count ≤ length bytes.now) }
    ensures holds { IfOk result (λ count.
        HoldsRun L.automaton hand.old (take count bytes.now) hand.new) }
{
    let count = run_length::<L>(hand.state, bytes);
    add_ascii(&mut hand.held, &bytes[..count])?;
    hand.end += count as u64;
    Ok(count)
}

/// Adds the token of all that is held, a lexeme of this kind that ends at this
/// byte, if it stands for one. Nothing is in hand then.
#[inline(always)]
pub fn give_all<L: TokenLanguage>(
    hand: &mut Hand,
    kind: u8,
    end: u64,
    into: &mut Vec<Placed<L::Token>>,
) -> Result<(), NoMemory>
    ensures ready { OnOk result (IsReady L.automaton hand.new) }
    ensures begun { OnOk result (begun_of hand.new ≡ nothing_at end) }
    ensures end { OnOk result (hand.new.end ≡ end) }
    ensures added { OnOk result
        (into.new.items
        ≡ into.old.items ++ placed_at hand.old.at (L.value_of kind hand.old.held.items)) }
    ensures err { OnErr result (into.new.items ≡ into.old.items) }
{
    if let Some(token) = L::value(hand.alloc, kind, &hand.held)? {
        let at = hand.at;
        if into.push(Placed { token, at }).is_err() {
            return Err(NoMemory);
        }
    }
    hand.held.clear();
    hand.at = end;
    hand.end = end;
    hand.state = L::start();
    hand.front = None;
    Ok(())
}
