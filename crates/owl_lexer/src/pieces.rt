//! What a lexer makes of pieces of bytes, in tokens.

ghost use Rattle.std.specs.Prelude.{◌≡◌, ◌+◌, ◌≤◌, ◌^◌, [], length, false, None, IsSome, IsTrue, IfErr, IfOk, IfSome};
ghost use Rattle.owl_lexer.specs.Lexing.{end_of, taken_of};
ghost use Rattle.owl_lexer.specs.Sources.{EndsPieces, EndsPiecesBadly, EndsSomePieces, IsOpenWith, RefusesPiece, TakesPiece, bytes_with};

use crate::again::{Again, tell_ended};
use crate::fault::LexFault;
use crate::language::TokenLanguage;
use crate::placed::Placed;
use crate::source::{Source, end_some, take_some};

/// Takes bytes until `into` has `most` tokens. Answers how many were taken, unless
/// that is all, and nothing is taken again.
pub fn take_piece<L: TokenLanguage>(
    source: &mut Source,
    again: &mut Again,
    piece: &[u8],
    into: &mut Vec<Placed<L::Token>>,
    most: usize,
) -> Result<Option<usize>, LexFault>
    requires open_yet { IsOpenWith L.automaton source.old again.old }
    requires room { end_of (bytes_with source.old again.old) + length piece.now ≤ 2 ^ 62 }
    ensures within { IfOk result (λ left. IfSome left (λ count. count ≤ length piece.now)) }
    ensures ok { IfOk result (λ left. TakesPiece L.spells
        (bytes_with source.old again.old) (taken_of left piece.now)
        into.old.items into.new.items (bytes_with source.new again.new)) }
    ensures open_yet { IfOk result (λ left. IsOpenWith L.automaton source.new again.new) }
    ensures done { IfOk result (λ left. left ≡ None → again.new.chars.items ≡ []) }
    ensures more { IfOk result (λ left. IsSome left → most ≤ length into.new.items) }
    ensures err { IfErr result (λ fault. RefusesPiece L.spells
        (bytes_with source.old again.old) piece.now into.old.items into.new.items fault) }
{
    tell_ended(again, false);
    take_some::<L>(source, again, piece, into, most)
}

/// Adds the last tokens, which the end makes whole, until `into` has `most`.
/// Answers whether these are all; nothing is in hand then.
pub fn end_pieces<L: TokenLanguage>(
    source: &mut Source,
    again: &mut Again,
    into: &mut Vec<Placed<L::Token>>,
    most: usize,
) -> Result<bool, LexFault>
    requires open_yet { IsOpenWith L.automaton source.old again.old }
    requires room { end_of (bytes_with source.old again.old) ≤ 2 ^ 62 }
    ensures all { IfOk result (λ done. IsTrue done → EndsPieces L.spells
        (bytes_with source.old again.old) into.old.items into.new.items
        (bytes_with source.new again.new)) }
    ensures some { IfOk result (λ done. done ≡ false → EndsSomePieces L.spells
        (bytes_with source.old again.old) into.old.items into.new.items
        (bytes_with source.new again.new)) }
    ensures open_yet { IfOk result (λ done. IsOpenWith L.automaton source.new again.new) }
    ensures more { IfOk result (λ done. done ≡ false → most ≤ length into.new.items) }
    ensures err { IfErr result (λ fault. EndsPiecesBadly L.spells
        (bytes_with source.old again.old) into.old.items into.new.items fault) }
{
    tell_ended(again, true);
    end_some::<L>(source, again, into, most)
}
