//! How the machine takes characters.

ghost use Rattle.std.specs.Prelude.{◌≡◌, ◌+◌, ◌^◌, ◌<◌, List, [], ◌∷◌, false, Some, IsTrue, OnOk, IfOk, IfErr};
ghost use Rattle.std.specs.Char.{len_utf8};
ghost use Rattle.owl_lexer.specs.Hands.{Finishes, FinishesBadly, IsReady, Refuses, Takes, begun_of};
ghost use Rattle.owl_lexer.specs.declared.placed.Placed.{Placed};

use crate::again::{nothing_again, settle};
use crate::fault::LexFault;
use crate::hand::{Hand, give_all, hold};
use crate::language::TokenLanguage;
use crate::placed::Placed;

/// Holds a character with which a lexeme begins, where nothing is in hand.
#[inline(always)]
fn begin<L: TokenLanguage>(hand: &mut Hand, c: char) -> Result<(), LexFault>
    requires ready { IsReady L.automaton hand.old }
    requires nothing { hand.old.held.items ≡ [] }
    requires room { hand.old.end + len_utf8 c < 2 ^ 63 }
    ensures ok { OnOk result ((into : List (Placed L.Token)) →
        Takes L.automaton L.value_of hand.old (c ∷ []) into into hand.new) }
    ensures err { IfErr result (λ fault. (into : List (Placed L.Token)) →
        Refuses L.automaton L.value_of (begun_of hand.old) (c ∷ []) into into fault) }
{
    match L::step(hand.state, c) {
        Some(state) => Ok(hold::<L>(hand, state, c)?),
        None => Err(LexFault::BadToken { at: hand.at }),
    }
}

/// Takes a character, and adds the tokens that are whole now to the end of
/// `into`; or does nothing, where it leads nowhere and all that is held is no
/// lexeme. Answers whether it was taken.
#[inline(always)]
pub fn push<L: TokenLanguage>(
    hand: &mut Hand,
    c: char,
    into: &mut Vec<Placed<L::Token>>,
) -> Result<bool, LexFault>
    requires ready { IsReady L.automaton hand.old }
    requires room { hand.old.end + len_utf8 c < 2 ^ 63 }
    ensures ok { IfOk result (λ taken. IsTrue taken →
        Takes L.automaton L.value_of hand.old (c ∷ []) into.old.items into.new.items hand.new) }
    ensures turned { IfOk result (λ taken. taken ≡ false →
        (hand.new ≡ hand.old) × (into.new.items ≡ into.old.items)) }
    ensures err { IfErr result (λ fault.
        Refuses L.automaton L.value_of (begun_of hand.old) (c ∷ [])
        into.old.items into.new.items fault) }
{
    if let Some(state) = L::step(hand.state, c) {
        hold::<L>(hand, state, c)?;
        return Ok(true);
    }
    match L::kind(hand.state) {
        Some(kind) => {
            give_all::<L>(hand, kind, hand.end, into)?;
            begin::<L>(hand, c)?;
            Ok(true)
        }
        None => Ok(false),
    }
}

/// Adds the last tokens, which the end makes whole. Nothing is in hand then.
pub fn finish<L: TokenLanguage>(
    hand: &mut Hand,
    into: &mut Vec<Placed<L::Token>>,
) -> Result<(), LexFault>
    requires ready { IsReady L.automaton hand.old }
    requires room { hand.old.end < 2 ^ 63 }
    ensures ok { OnOk result
        (Finishes L.automaton L.value_of hand.old into.old.items into.new.items hand.new) }
    ensures err { IfErr result (λ fault.
        FinishesBadly L.automaton L.value_of (begun_of hand.old)
        into.old.items into.new.items fault) }
{
    let mut again = nothing_again(hand.alloc, true);
    settle::<L>(hand, &mut again, into, usize::MAX)
}
