//! Tokens of bytes that come in pieces.

ghost use Rattle.std.specs.Prelude.{◌≡◌, ◌≢◌, ℕ, ◌+◌, ◌^◌, ◌<◌, ◌≤◌, List, [], ◌∷◌, ◌++◌, length, false, None, Some, Err, IsSome, IsTrue, OnOk, OnErr, IfErr, IfOk, IfSome};
ghost use Rattle.owl_lexer.specs.declared.fault.LexFault.{LexFault};
ghost use Rattle.owl_lexer.specs.Languages.{AreSpelled, IsPrompt};
ghost use Rattle.owl_lexer.specs.Lexing.{Adds, AddsLast, AddsSome, AddsSomeLast, AddsToEnd, EndsAt, HoldsNoEnd, HoldsNone, KeepsEnd, end_of, nothing_begun, nothing_fed, taken_of};

use crate::again::{Again, nothing_again};
use crate::fault::LexFault;
use crate::language::TokenLanguage;
use crate::pieces::{end_pieces, take_piece};
use crate::placed::Placed;
use crate::source::{Source, fresh_source};
use std::alloc::Global;
use std::marker::{Model, PhantomData};

/// How many tokens a portion has, at most a piece of bytes more.
const PORTION: usize = 1024;

/// Cuts bytes into the tokens of a language, in whatever pieces they come. It
/// keeps the lexeme that is begun and no more, and what of a portion is left.
///
/// Contracts see what is begun, and the refusal that is kept.
#[derive(Drop)]
pub struct Lexer<L: TokenLanguage> {
    source: Source,
    again: Again,
    refused: Option<LexFault>,
    language: PhantomData<L>,
}

impl<L: TokenLanguage> Model for Lexer<L> {
    ghost use Rattle.std.specs.Prelude.{◌≡◌, ◌≤◌, ◌^◌, None};
    ghost use Rattle.owl_lexer.specs.Lexing.{Lexing, end_of};
    ghost use Rattle.owl_lexer.specs.Sources.{IsOpenWith, bytes_with};

    ghost Value = { Lexing };

    ghost view = { λ lexer. record {
      begun = bytes_with lexer.source lexer.again;
      refused = lexer.refused;
    } };

    ghost invariant = { λ lexer. lexer.refused ≡ None →
        IsOpenWith L.automaton lexer.source lexer.again
        × (end_of (bytes_with lexer.source lexer.again) ≤ 2 ^ 62) };
}

impl<L: TokenLanguage> Lexer<L> {
    /// A lexer that was fed nothing. Takes no memory.
    pub fn new(alloc: Global) -> Lexer<L>
        ensures { result ≡ record { begun = nothing_fed; refused = None } }
    {
        Lexer {
            source: fresh_source::<L>(alloc),
            again: nothing_again(alloc, false),
            refused: None,
            language: PhantomData,
        }
    }

    /// Takes the next bytes, and adds the tokens that are whole now to the end
    /// of `into`. A byte order mark in front of all is passed over.
    ///
    /// `BadUtf8` and `BadToken` come only where at their place no character,
    /// or neither a token nor white space nor a comment, begins, whatever bytes
    /// follow; the tokens before that place were given. `Memory` comes where
    /// memory runs out; `into` then has what it had and perhaps some of the
    /// next tokens. A lexer that has refused answers the same refusal from then
    /// on, and takes nothing.
    ///
    /// What is kept is the end of what was fed. No token with white space behind
    /// it stands at the very front of that. Where the language is prompt, but for
    /// some words, and none of these is kept, each token that white space follows
    /// is given at once: whatever comes next, no token ends in front of white
    /// space that is kept.
    pub fn feed(&mut self, piece: &[u8], into: &mut Vec<Placed<L::Token>>) -> Result<(), LexFault>
        requires { end_of self.old.begun + length piece.now ≤ 2 ^ 62 }
        ensures ok { OnOk result
            (Adds L.spells self.old.begun piece.now into.old.items into.new.items self.new.begun) }
        ensures bad { self.old.refused ≡ None → IfErr result (λ fault. fault ≢ LexFault.Memory →
            EndsAt L.spells self.old.begun piece.now into.old.items into.new.items fault) }
        ensures some { OnErr result
            (AddsSome L.spells self.old.begun piece.now into.old.items into.new.items) }
        ensures spelled { AreSpelled L.spells into.old.items → AreSpelled L.spells into.new.items }
        ensures few { OnOk result
            (length into.new.items + length self.new.begun.held
            ≤ length into.old.items + length self.old.begun.held + length piece.now) }
        ensures early { OnOk result (HoldsNone L.spells self.new.begun) }
        ensures prompt { (words : List (List ℕ)) → IsPrompt L.automaton L.spells words →
            OnOk result (HoldsNoEnd L.spells words self.new.begun) }
        ensures end { OnOk result
            (end_of self.new.begun ≡ end_of self.old.begun + length piece.now) }
        ensures ends { OnOk result (KeepsEnd self.old.begun piece.now self.new.begun) }
        ensures open_yet { OnOk result ((self.old.refused ≡ None) × (self.new.refused ≡ None)) }
        ensures keeps { IfErr result (λ fault. self.new.refused ≡ Some fault) }
        ensures same { (fault : LexFault) → self.old.refused ≡ Some fault →
            (result ≡ Err fault) × (self.new ≡ self.old) × (into.new.items ≡ into.old.items) }
    {
        if let Some(fault) = self.refused {
            return Err(fault);
        }
        let told = take_piece::<L>(&mut self.source, &mut self.again, piece, into, usize::MAX);
        self.refused = told.err();
        match told {
            Ok(_) => Ok(()),
            Err(fault) => Err(fault),
        }
    }

    /// Takes the next bytes as `feed` does, but stops once a portion of tokens was
    /// added. Answers how many bytes were taken; or nothing, where that is all, and
    /// each token that `feed` would give was given.
    pub fn feed_some(
        &mut self,
        piece: &[u8],
        into: &mut Vec<Placed<L::Token>>,
    ) -> Result<Option<usize>, LexFault>
        requires { end_of self.old.begun + length piece.now ≤ 2 ^ 62 }
        ensures within { IfOk result (λ left. IfSome left (λ count. count ≤ length piece.now)) }
        ensures ok { IfOk result (λ left. Adds L.spells self.old.begun (taken_of left piece.now)
            into.old.items into.new.items self.new.begun) }
        ensures bad { self.old.refused ≡ None → IfErr result (λ fault. fault ≢ LexFault.Memory →
            EndsAt L.spells self.old.begun piece.now into.old.items into.new.items fault) }
        ensures some { OnErr result
            (AddsSome L.spells self.old.begun piece.now into.old.items into.new.items) }
        ensures spelled { AreSpelled L.spells into.old.items → AreSpelled L.spells into.new.items }
        ensures few { OnOk result (length into.new.items + self.old.begun.at
            ≤ length into.old.items + self.new.begun.at) }
        ensures more { IfOk result (λ left. IsSome left →
            length into.old.items < length into.new.items) }
        ensures prompt { (words : List (List ℕ)) → IsPrompt L.automaton L.spells words →
            IfOk result (λ left. left ≡ None → HoldsNoEnd L.spells words self.new.begun) }
        ensures end { IfOk result (λ left. end_of self.new.begun
            ≡ end_of self.old.begun + length (taken_of left piece.now)) }
        ensures ends { IfOk result (λ left.
            KeepsEnd self.old.begun (taken_of left piece.now) self.new.begun) }
        ensures open_yet { OnOk result ((self.old.refused ≡ None) × (self.new.refused ≡ None)) }
        ensures keeps { IfErr result (λ fault. self.new.refused ≡ Some fault) }
        ensures same { (fault : LexFault) → self.old.refused ≡ Some fault →
            (result ≡ Err fault) × (self.new ≡ self.old) × (into.new.items ≡ into.old.items) }
    {
        if let Some(fault) = self.refused {
            return Err(fault);
        }
        let most = into.len().saturating_add(PORTION);
        let told = take_piece::<L>(&mut self.source, &mut self.again, piece, into, most);
        self.refused = told.err();
        told
    }

    /// Adds the last tokens, which the end makes whole.
    ///
    /// `BadUtf8` and `BadToken` come exactly where at their place no
    /// character, or neither a token nor white space nor a comment, begins; the tokens before that place were
    /// given. `Memory` comes where memory runs out; `into` then has what it
    /// had and perhaps some of the last tokens. After a refusal the lexer
    /// answers the same one from then on. After an answer it begins afresh,
    /// at the place of the next byte.
    pub fn finish(&mut self, into: &mut Vec<Placed<L::Token>>) -> Result<(), LexFault>
        ensures ok { OnOk result
            (AddsLast L.spells self.old.begun into.old.items into.new.items None) }
        ensures bad { self.old.refused ≡ None → IfErr result (λ fault. fault ≢ LexFault.Memory →
            AddsLast L.spells self.old.begun into.old.items into.new.items (Some fault)) }
        ensures some { OnErr result
            (AddsSomeLast L.spells self.old.begun into.old.items into.new.items) }
        ensures spelled { AreSpelled L.spells into.old.items → AreSpelled L.spells into.new.items }
        ensures few { OnOk result
            (length into.new.items ≤ length into.old.items + length self.old.begun.held) }
        ensures open_yet { OnOk result (self.old.refused ≡ None) }
        ensures again { OnOk result
            (self.new
            ≡ record { begun = nothing_begun (end_of self.old.begun); refused = None }) }
        ensures keeps { IfErr result (λ fault. self.new.refused ≡ Some fault) }
        ensures same { (fault : LexFault) → self.old.refused ≡ Some fault →
            (result ≡ Err fault) × (self.new ≡ self.old) × (into.new.items ≡ into.old.items) }
    {
        if let Some(fault) = self.refused {
            return Err(fault);
        }
        let told = end_pieces::<L>(&mut self.source, &mut self.again, into, usize::MAX);
        self.refused = told.err();
        match told {
            Ok(_) => Ok(()),
            Err(fault) => Err(fault),
        }
    }

    /// Adds the last tokens as `finish` does, but stops once a portion of them was
    /// added. Answers whether all were; if not, the next call goes on.
    pub fn finish_some(&mut self, into: &mut Vec<Placed<L::Token>>) -> Result<bool, LexFault>
        ensures all { IfOk result (λ done. IsTrue done →
            AddsLast L.spells self.old.begun into.old.items into.new.items None) }
        ensures more { IfOk result (λ done. done ≡ false →
            AddsToEnd L.spells self.old.begun into.old.items into.new.items self.new.begun) }
        ensures bad { self.old.refused ≡ None → IfErr result (λ fault. fault ≢ LexFault.Memory →
            AddsLast L.spells self.old.begun into.old.items into.new.items (Some fault)) }
        ensures some { OnErr result
            (AddsSomeLast L.spells self.old.begun into.old.items into.new.items) }
        ensures spelled { AreSpelled L.spells into.old.items → AreSpelled L.spells into.new.items }
        ensures nearer { IfOk result (λ done. done ≡ false →
            length self.new.begun.held < length self.old.begun.held) }
        ensures end { IfOk result (λ done. done ≡ false →
            end_of self.new.begun ≡ end_of self.old.begun) }
        ensures open_yet { OnOk result ((self.old.refused ≡ None) × (self.new.refused ≡ None)) }
        ensures keeps { IfErr result (λ fault. self.new.refused ≡ Some fault) }
        ensures same { (fault : LexFault) → self.old.refused ≡ Some fault →
            (result ≡ Err fault) × (self.new ≡ self.old) × (into.new.items ≡ into.old.items) }
    {
        if let Some(fault) = self.refused {
            return Err(fault);
        }
        let most = into.len().saturating_add(PORTION);
        let told = end_pieces::<L>(&mut self.source, &mut self.again, into, most);
        self.refused = told.err();
        told
    }
}
