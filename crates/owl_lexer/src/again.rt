//! Characters that are taken again, once the lexeme in front of them was cut.

ghost use Rattle.std.specs.Prelude.{◌≡◌, ◌⊎◌, ℕ, ◌+◌, ◌^◌, ◌<◌, ◌≤◌, Bool, true, false, List, [], ◌∷◌, ◌++◌, length, take, drop, reverse, None, Some, IsTrue, OnOk, IfErr, IfOk, IfSome};
ghost use Rattle.std.specs.List.{All};
ghost use Rattle.owl_lexer.specs.Retaking.{AreKept, CutsFront, HoldsAgain, IsLostRun, RefusesAgain, Settles, begun_with, coming};
ghost use Rattle.owl_lexer.specs.Automata.{Automaton, run, step_from};
ghost use Rattle.owl_lexer.specs.Giving.{end_of};
ghost use Rattle.owl_lexer.specs.Hands.{IsFrontOf, IsReady};
ghost use Rattle.owl_lexer.specs.Holding.{IsLost};

use crate::fault::LexFault;
use crate::hand::{Front, Hand, add, give_all, hold, longest_front};
use crate::language::TokenLanguage;
use crate::placed::Placed;
use owl_characters::NoMemory;
use std::alloc::Global;

/// A run that is lost, since no longer lexeme comes of it: its state in front of
/// the characters that are held, and behind them, if it leads on over them.
#[derive(Clone, Copy, Debug)]
pub struct LostRun {
    pub first: u8,
    pub next: Option<u8>,
}

/// Characters that are taken again, the next one last; the runs that are known
/// to be lost over what is held and them; and whether the end follows them.
///
/// A run that comes to the state of a lost one is cut at once. So no two runs
/// are taken to their ends over the same characters in the same states, and the
/// time is linear.
#[derive(Debug, Drop)]
pub struct Again {
    pub chars: Vec<char>,
    pub lost: Vec<LostRun>,
    pub ended: bool,
}

/// No characters, before the end or before more. Takes no memory.
pub fn nothing_again(alloc: Global, ended: bool) -> Again
    ensures chars { result.chars.items ≡ [] }
    ensures lost { result.lost.items ≡ [] }
    ensures ended { result.ended ≡ ended }
{
    Again {
        chars: Vec::new(alloc),
        lost: Vec::new(alloc),
        ended,
    }
}

/// Says whether the end follows. The runs that were lost may not be so then.
pub fn tell_ended(again: &mut Again, ended: bool)
    ensures ended { again.new.ended ≡ ended }
    ensures chars { again.new.chars.items ≡ again.old.chars.items }
    ensures lost { (again.new ≡ again.old) ⊎ (again.new.lost.items ≡ []) }
{
    if again.ended != ended {
        again.ended = ended;
        again.lost.clear();
    }
}

/// Whether a run that stands at this state is known to be lost.
fn is_lost(lost: &[LostRun], state: u8) -> bool
    ensures { IsTrue result → (a : Automaton) (ended : Bool) (held cs : List ℕ) →
        All (IsLostRun a ended held cs) lost.now → IsLost a ended state cs }
{
    for run in lost {
        if run.next == Some(state) {
            return true;
        }
    }
    false
}

/// The state to which a character that is taken again leads, unless it leads
/// nowhere, or the run is lost.
fn leading<L: TokenLanguage>(state: u8, lost: &[LostRun], c: char) -> Option<u8>
    ensures leads { IfSome result (λ next. L.automaton.step state c ≡ Some next) }
    ensures lost { result ≡ None → (ended : Bool) (held cs : List ℕ) →
        All (IsLostRun L.automaton ended held (c ∷ cs)) lost.now →
        IsLost L.automaton ended state (c ∷ cs) }
{
    if is_lost(lost, state) {
        return None;
    }
    L::step(state, c)
}

/// The state to which a character leads, if there is one and it leads on.
fn lead<L: TokenLanguage>(state: Option<u8>, c: char) -> Option<u8>
    ensures { result ≡ step_from L.automaton state c }
{
    L::step(state?, c)
}

/// Takes the lost runs over a character that is held.
fn lead_on<L: TokenLanguage>(lost: &mut Vec<LostRun>, c: char)
    ensures { (ended : Bool) (held cs : List ℕ) →
        All (IsLostRun L.automaton ended held (c ∷ cs)) lost.old.items →
        All (IsLostRun L.automaton ended (held ++ c ∷ []) cs) lost.new.items }
{
    for run in lost.iter_mut() {
        run.next = lead::<L>(run.next, c);
    }
}

/// Holds the characters again for as long as they lead on, unless the run is
/// lost.
fn hold_again<L: TokenLanguage>(hand: &mut Hand, again: &mut Again) -> Result<(), NoMemory>
    requires ready { IsReady L.automaton hand.old }
    requires kept { AreKept L.automaton hand.old again.old }
    requires room { end_of (begun_with hand.old again.old) < 2 ^ 63 }
    ensures holds { OnOk result (HoldsAgain L.automaton hand.old again.old hand.new again.new) }
    ensures lost { OnOk result
        ((0 < length again.new.chars.items) ⊎ (again.new.ended ≡ true) →
        IsLost L.automaton again.new.ended hand.new.state (coming again.new)) }
{
    while let Some(c) = again.chars.pop() {
        let Some(state) = leading::<L>(hand.state, &again.lost, c) else {
            return add(&mut again.chars, c);
        };
        hold::<L>(hand, state, c)?;
        lead_on::<L>(&mut again.lost, c);
    }
    Ok(())
}

/// The state to which characters lead from a state, if they lead on.
fn state_behind<L: TokenLanguage>(state: u8, chars: &[char]) -> Option<u8>
    ensures { result ≡ run L.automaton (Some state) chars.now }
{
    let mut state = state;
    for c in chars {
        state = L::step(state, *c)?;
    }
    Some(state)
}

/// Adds a lost run that stands at this state, where nothing is held, unless it
/// is there.
fn add_lost(lost: &mut Vec<LostRun>, state: u8) -> Result<(), NoMemory>
    ensures { OnOk result ((lost.new.items ≡ lost.old.items)
        ⊎ (lost.new.items
        ≡ lost.old.items ++ record { first = state; next = Some state } ∷ [])) }
{
    if lost.iter().any(|run| run.first == state) {
        return Ok(());
    }
    let next = Some(state);
    add(lost, LostRun { first: state, next })
}

/// The runs that are lost behind the longest lexeme in front: those that were
/// known, and that which is in hand.
fn lost_behind<L: TokenLanguage>(
    hand: &Hand,
    again: &Again,
    front: Front,
) -> Result<Vec<LostRun>, NoMemory>
    requires ready { IsReady L.automaton hand.now }
    requires kept { AreKept L.automaton hand.now again.now }
    requires lost { IsLost L.automaton again.now.ended hand.now.state (coming again.now) }
    requires front { IsFrontOf L.automaton hand.now.at hand.now.held.items (Some front) }
    ensures { IfOk result (λ lost. All (IsLostRun L.automaton again.now.ended []
        (drop front.length hand.now.held.items ++ coming again.now)) lost.items) }
{
    let mut behind = Vec::new(hand.alloc);
    for run in &again.lost {
        if let Some(state) = state_behind::<L>(run.first, &hand.held[..front.length]) {
            add_lost(&mut behind, state)?;
        }
    }
    add_lost(&mut behind, front.state)?;
    Ok(behind)
}

/// Puts the characters behind the first `count` in front of those that
/// are taken again.
fn put_back(held: &mut Vec<char>, chars: &mut Vec<char>, count: usize) -> Result<(), NoMemory>
    requires { count ≤ length held.old.items }
    ensures held { OnOk result (held.new.items ≡ take count held.old.items) }
    ensures chars { OnOk result
        (reverse chars.new.items ≡ drop count held.old.items ++ reverse chars.old.items) }
{
    while held.len() > count {
        if let Some(c) = held.pop() {
            add(chars, c)?;
        }
    }
    Ok(())
}

/// Adds the token of the longest lexeme in front, if it stands for one, where no
/// longer one can come. What stands behind it is taken again.
fn cut<L: TokenLanguage>(
    hand: &mut Hand,
    again: &mut Again,
    into: &mut Vec<Placed<L::Token>>,
) -> Result<(), LexFault>
    requires ready { IsReady L.automaton hand.old }
    requires kept { AreKept L.automaton hand.old again.old }
    requires lost { IsLost L.automaton again.old.ended hand.old.state (coming again.old) }
    requires some { 0 < length hand.old.held.items + length again.old.chars.items }
    ensures ok { OnOk result (CutsFront L.automaton L.value_of hand.old again.old
        into.old.items into.new.items hand.new again.new) }
    ensures err { IfErr result (λ fault. RefusesAgain L.automaton L.value_of again.old.ended
        (begun_with hand.old again.old) into.old.items into.new.items fault) }
{
    let Some(front) = longest_front::<L>(hand) else {
        return Err(LexFault::BadToken { at: hand.at });
    };
    let lost = lost_behind::<L>(hand, again, front)?;
    put_back(&mut hand.held, &mut again.chars, front.length)?;
    again.lost = lost;
    give_all::<L>(hand, front.kind, front.end, into)?;
    Ok(())
}

/// Whether the longest lexeme in front is to be cut before more can be held.
pub fn is_stuck(hand: &Hand, again: &Again) -> bool
    ensures stuck { IsTrue result →
        (0 < length again.now.chars.items)
        ⊎ ((again.now.ended ≡ true) × (0 < length hand.now.held.items)) }
    ensures free { result ≡ false → (again.now.chars.items ≡ [])
        × (again.now.ended ≡ true → hand.now.held.items ≡ []) }
{
    !again.chars.is_empty() || (again.ended && !hand.held.is_empty())
}

/// Takes the characters that are taken again, and adds the tokens that are whole
/// then to the end of `into`, until it has `most`: where the end follows, all.
pub fn settle<L: TokenLanguage>(
    hand: &mut Hand,
    again: &mut Again,
    into: &mut Vec<Placed<L::Token>>,
    most: usize,
) -> Result<(), LexFault>
    requires ready { IsReady L.automaton hand.old }
    requires kept { AreKept L.automaton hand.old again.old }
    requires room { end_of (begun_with hand.old again.old) < 2 ^ 63 }
    ensures ok { OnOk result (Settles L.automaton L.value_of hand.old again.old
        into.old.items into.new.items hand.new again.new) }
    ensures done { OnOk result (length into.new.items < most →
        (again.new.chars.items ≡ []) × (again.old.ended ≡ true → hand.new.held.items ≡ [])) }
    ensures err { IfErr result (λ fault. RefusesAgain L.automaton L.value_of again.old.ended
        (begun_with hand.old again.old) into.old.items into.new.items fault) }
{
    while into.len() < most {
        hold_again::<L>(hand, again)?;
        if !is_stuck(hand, again) {
            return Ok(());
        }
        cut::<L>(hand, again, into)?;
    }
    Ok(())
}
