//! What a lexer has in hand of bytes, and how it takes more.

ghost use Rattle.std.specs.Prelude.{◌≡◌, ℕ, ◌+◌, ◌^◌, ◌<◌, ◌≤◌, List, [], ◌∷◌, length, take, true, false, ◌&&◌, None, Some, IsTrue, IsSome, OnOk, IfOk, IfErr, IfSome};
ghost use Rattle.owl_characters.specs.Utf8.{is_mark};
ghost use Rattle.owl_lexer.specs.BytesGiving.{end_of_bytes};
ghost use Rattle.owl_lexer.specs.Lexing.{nothing_fed, taken_of};
ghost use Rattle.owl_lexer.specs.Sources.{EndsAgain, EndsBytesBadly, EndsSomeAgain, IsOpen, IsOpenWith, RefusesBytes, TakesAgain, TakesBytes, TurnsBack, begun_in, begun_with_again, bytes_in};

use crate::again::{Again, is_stuck, settle};
use crate::characters::{finish, push};
use crate::fault::LexFault;
use crate::hand::{Hand, add, empty_hand, hold_run};
use crate::language::TokenLanguage;
use crate::placed::Placed;
use owl_characters::{Utf8Feed, Utf8Step};
use std::alloc::Global;

const BYTE_ORDER_MARK: char = '\u{FEFF}';

/// The characters in hand, the bytes of a character that is begun, and whether
/// nothing but these was fed.
#[derive(Debug, Drop)]
pub struct Source {
    pub hand: Hand,
    pub feed: Utf8Feed,
    pub fresh: bool,
}

/// Nothing in hand, and nothing fed. Takes no memory.
pub fn fresh_source<L: TokenLanguage>(alloc: Global) -> Source
    ensures ready { IsOpen L.automaton result }
    ensures begun { bytes_in result ≡ nothing_fed }
{
    Source {
        hand: empty_hand::<L>(alloc, 0),
        feed: Utf8Feed::new(),
        fresh: true,
    }
}

/// Whether a character that is whole is a byte order mark in front of all.
fn is_mark_in_front(fresh: bool, c: char) -> bool
    ensures { result ≡ (fresh && is_mark c) }
{
    fresh && c == BYTE_ORDER_MARK
}

/// Whether no character is begun, and no byte order mark may come.
#[inline(always)]
fn is_plain(source: &Source) -> bool
    ensures { IsTrue result → (source.now.fresh ≡ false) × (source.now.feed.held ≡ []) }
{
    !source.fresh && source.feed.finish().is_ok()
}

/// Takes a byte, and adds the tokens that are whole now to the end of `into`. The
/// character that it makes whole is answered where it isn't taken.
#[inline(never)]
fn take<L: TokenLanguage>(
    source: &mut Source,
    byte: u8,
    into: &mut Vec<Placed<L::Token>>,
) -> Result<Option<char>, LexFault>
    requires ready { IsOpen L.automaton source.old }
    requires room { end_of_bytes (begun_in source.old) < 2 ^ 62 }
    ensures taken { IfOk result (λ turned. turned ≡ None →
        TakesBytes L.automaton L.value_of source.old (byte ∷ [])
        into.old.items into.new.items source.new) }
    ensures turned { IfOk result (λ turned. (c : ℕ) → turned ≡ Some c →
        TurnsBack L.automaton L.value_of source.old (byte ∷ []) c
        into.old.items into.new.items source.new) }
    ensures err { IfErr result (λ fault.
        RefusesBytes L.automaton L.value_of (begun_in source.old) (byte ∷ [])
        into.old.items into.new.items fault) }
{
    match source.feed.push(byte) {
        Utf8Step::More => Ok(None),
        Utf8Step::Char { c, .. } => {
            let passes = is_mark_in_front(source.fresh, c);
            source.fresh = false;
            if passes {
                source.hand.at += 3;
                source.hand.end += 3;
                return Ok(None);
            }
            let taken = push::<L>(&mut source.hand, c, into)?;
            Ok(if taken { None } else { Some(c) })
        }
        Utf8Step::Bad { .. } => {
            let at = source.hand.end;
            finish::<L>(&mut source.hand, into)?;
            Err(LexFault::BadUtf8 { at })
        }
    }
}

/// Takes the first bytes for as long as they are ASCII and lead on, and answers
/// how many. Each is a character, so the feed isn't told of them.
#[inline(always)]
fn take_ascii<L: TokenLanguage>(
    source: &mut Source,
    bytes: &[u8],
    into: &mut Vec<Placed<L::Token>>,
) -> Result<usize, LexFault>
    requires ready { IsOpen L.automaton source.old }
    requires plain { (source.old.fresh ≡ false) × (source.old.feed.held ≡ []) }
    requires room { end_of_bytes (begun_in source.old) + length bytes.now ≤ 2 ^ 62 }
    ensures within { IfOk result (λ count. count ≤ length bytes.now) }
    ensures ok { IfOk result (λ count.
        TakesBytes L.automaton L.value_of source.old (take count bytes.now)
        into.old.items into.new.items source.new) }
    ensures err { IfErr result (λ fault.
        RefusesBytes L.automaton L.value_of (begun_in source.old) bytes.now
        into.old.items into.new.items fault) }
{
    let mut place = 0;
    while place < bytes.len() && bytes[place] < 128 {
        if !push::<L>(&mut source.hand, char::from(bytes[place]), into)? {
            return Ok(place);
        }
        place += 1;
        place += hold_run::<L>(&mut source.hand, &bytes[place..])?;
    }
    Ok(place)
}

/// The same, where no character is begun; else takes nothing.
#[inline(always)]
fn take_plain<L: TokenLanguage>(
    source: &mut Source,
    bytes: &[u8],
    into: &mut Vec<Placed<L::Token>>,
) -> Result<usize, LexFault>
    requires ready { IsOpen L.automaton source.old }
    requires room { end_of_bytes (begun_in source.old) + length bytes.now ≤ 2 ^ 62 }
    ensures within { IfOk result (λ count. count ≤ length bytes.now) }
    ensures ok { IfOk result (λ count.
        TakesBytes L.automaton L.value_of source.old (take count bytes.now)
        into.old.items into.new.items source.new) }
    ensures err { IfErr result (λ fault.
        RefusesBytes L.automaton L.value_of (begun_in source.old) bytes.now
        into.old.items into.new.items fault) }
{
    if is_plain(source) {
        take_ascii::<L>(source, bytes, into)
    } else {
        Ok(0)
    }
}

/// Takes some of the first bytes, one at least, and what is taken again then, until
/// `into` has `most` tokens. Answers how many bytes were taken.
#[inline(always)]
fn take_front<L: TokenLanguage>(
    source: &mut Source,
    again: &mut Again,
    bytes: &[u8],
    into: &mut Vec<Placed<L::Token>>,
    most: usize,
) -> Result<usize, LexFault>
    requires open_yet { IsOpenWith L.automaton source.old again.old }
    requires none { (again.old.chars.items ≡ []) × (again.old.ended ≡ false) }
    requires some { 0 < length bytes.now }
    requires room { end_of_bytes (begun_with_again source.old again.old) + length bytes.now ≤ 2 ^ 62 }
    ensures within { IfOk result (λ count. (0 < count) × (count ≤ length bytes.now)) }
    ensures ok { IfOk result (λ count.
        TakesAgain L.automaton L.value_of source.old again.old (take count bytes.now)
        into.old.items into.new.items source.new again.new) }
    ensures done { OnOk result (length into.new.items < most → again.new.chars.items ≡ []) }
    ensures err { IfErr result (λ fault.
        RefusesBytes L.automaton L.value_of (begun_with_again source.old again.old) bytes.now
        into.old.items into.new.items fault) }
{
    if let Some(c) = take::<L>(source, bytes[0], into)? {
        again.lost.clear();
        add(&mut again.chars, c)?;
        settle::<L>(&mut source.hand, again, into, most)?;
        return Ok(1);
    }
    let count = take_plain::<L>(source, &bytes[1..], into)?;
    Ok(1 + count)
}

/// Takes what is taken again, until `into` has `most` tokens.
fn settle_rest<L: TokenLanguage>(
    source: &mut Source,
    again: &mut Again,
    into: &mut Vec<Placed<L::Token>>,
    most: usize,
) -> Result<(), LexFault>
    requires open_yet { IsOpenWith L.automaton source.old again.old }
    requires ended { again.old.ended ≡ false }
    requires room { end_of_bytes (begun_with_again source.old again.old) ≤ 2 ^ 62 }
    ensures ok { OnOk result
        (TakesAgain L.automaton L.value_of source.old again.old []
        into.old.items into.new.items source.new again.new) }
    ensures done { OnOk result (length into.new.items < most → again.new.chars.items ≡ []) }
    ensures err { IfErr result (λ fault. (bytes : List ℕ) →
        RefusesBytes L.automaton L.value_of (begun_with_again source.old again.old) bytes
        into.old.items into.new.items fault) }
{
    if again.chars.is_empty() {
        return Ok(());
    }
    settle::<L>(&mut source.hand, again, into, most)
}

/// Takes bytes, one after another, until `into` has `most` tokens. Answers how many
/// were taken, unless that is all, and nothing is taken again.
pub fn take_some<L: TokenLanguage>(
    source: &mut Source,
    again: &mut Again,
    bytes: &[u8],
    into: &mut Vec<Placed<L::Token>>,
    most: usize,
) -> Result<Option<usize>, LexFault>
    requires open_yet { IsOpenWith L.automaton source.old again.old }
    requires ended { again.old.ended ≡ false }
    requires room { end_of_bytes (begun_with_again source.old again.old) + length bytes.now ≤ 2 ^ 62 }
    ensures within { IfOk result (λ left. IfSome left (λ count. count ≤ length bytes.now)) }
    ensures ok { IfOk result (λ left.
        TakesAgain L.automaton L.value_of source.old again.old (taken_of left bytes.now)
        into.old.items into.new.items source.new again.new) }
    ensures done { IfOk result (λ left. left ≡ None → again.new.chars.items ≡ []) }
    ensures more { IfOk result (λ left. IsSome left → most ≤ length into.new.items) }
    ensures err { IfErr result (λ fault.
        RefusesBytes L.automaton L.value_of (begun_with_again source.old again.old) bytes.now
        into.old.items into.new.items fault) }
{
    settle_rest::<L>(source, again, into, most)?;
    let mut place = 0;
    while place < bytes.len() && into.len() < most {
        place += take_front::<L>(source, again, &bytes[place..], into, most)?;
    }
    if place < bytes.len() || !again.chars.is_empty() {
        return Ok(Some(place));
    }
    Ok(None)
}

/// Adds the last tokens, which the end makes whole, until `into` has `most`.
/// Answers whether these are all; nothing is in hand then.
pub fn end_some<L: TokenLanguage>(
    source: &mut Source,
    again: &mut Again,
    into: &mut Vec<Placed<L::Token>>,
    most: usize,
) -> Result<bool, LexFault>
    requires open_yet { IsOpenWith L.automaton source.old again.old }
    requires ended { again.old.ended ≡ true }
    requires room { end_of_bytes (begun_with_again source.old again.old) ≤ 2 ^ 62 }
    ensures all { IfOk result (λ done. IsTrue done →
        EndsAgain L.automaton L.value_of source.old again.old
        into.old.items into.new.items source.new again.new) }
    ensures some { IfOk result (λ done. done ≡ false →
        EndsSomeAgain L.automaton L.value_of source.old again.old
        into.old.items into.new.items source.new again.new) }
    ensures more { IfOk result (λ done. done ≡ false → most ≤ length into.new.items) }
    ensures err { IfErr result (λ fault.
        EndsBytesBadly L.automaton L.value_of (begun_with_again source.old again.old)
        into.old.items into.new.items fault) }
{
    source.fresh = false;
    settle::<L>(&mut source.hand, again, into, most)?;
    if is_stuck(&source.hand, again) {
        return Ok(false);
    }
    match source.feed.finish() {
        Ok(()) => Ok(true),
        Err(_) => Err(LexFault::BadUtf8 {
            at: source.hand.end,
        }),
    }
}
