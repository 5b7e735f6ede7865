//! Tokens of bytes that come in pieces.

ghost use Rattle.std.specs.Prelude.{◌≡◌, ◌≢◌, ℕ, ◌+◌, ◌^◌, ◌<◌, ◌≤◌, List, [], ◌∷◌, ◌++◌, length, true, false, None, Some, Err, OnOk, OnErr, IfErr};
ghost use Rattle.owl_lexer.specs.Languages.{AreSpelled};
ghost use Rattle.owl_lexer.specs.Lexing.{Adds, AddsLast, AddsSome, AddsSomeLast, EndsAt, HoldsNoEnd, HoldsNone, end_of, nothing_begun, nothing_fed};
ghost use Rattle.owl_lexer.specs.declared.fault.LexFault.{LexFault};
ghost use Rattle.owl_text.specs.Dialects.{SpellsIn};

use crate::Placed;
use crate::dialect::Dialect;
use owl_lexer::LexFault;
use owl_tokens::{Functional, Manchester};
use std::alloc::Global;
use std::marker::Model;

/// A lexer of each dialect.
#[derive(Drop)]
enum Cutter {
    Functional(owl_lexer::Lexer<Functional>),
    Manchester(owl_lexer::Lexer<Manchester>),
}

/// Cuts bytes into the tokens of a dialect, in whatever pieces they come. It
/// keeps the lexeme that is begun and no more.
///
/// Contracts see the dialect, what is begun, and the refusal that is kept.
#[derive(Drop)]
pub struct Lexer {
    cutter: Cutter,
}

impl Model for Lexer {
    ghost use Rattle.owl_text.specs.Dialects.{Lexing};
    ghost use Rattle.owl_text.specs.Cutters.{lexing_of};

    ghost Value = { Lexing };

    ghost view = { λ lexer. lexing_of lexer.cutter };
}

impl Lexer {
    /// A lexer that was fed nothing. Takes no memory.
    pub fn new(alloc: Global, dialect: Dialect) -> Lexer
        ensures { result ≡ record { dialect = dialect; begun = nothing_fed; refused = None } }
    {
        let cutter = match dialect {
            Dialect::Functional => Cutter::Functional(owl_lexer::Lexer::new(alloc)),
            Dialect::Manchester => Cutter::Manchester(owl_lexer::Lexer::new(alloc)),
        };
        Lexer { cutter }
    }

    /// Takes the next bytes, and adds the tokens that are whole now to the end
    /// of `into`. A byte order mark in front of all is passed over.
    ///
    /// `BadUtf8` and `BadToken` come only where at their place no character,
    /// or neither a token nor white space nor a comment, begins, whatever bytes
    /// follow; the tokens before that place were given. `Memory` comes where
    /// memory runs out; `into` then has what it had and perhaps some of the next
    /// tokens. A lexer that has refused answers the same refusal from then on,
    /// and takes nothing.
    ///
    /// Each token that white space follows is given at once: whatever comes
    /// next, no token ends in front of white space that is kept.
    pub fn feed(&mut self, piece: &[u8], into: &mut Vec<Placed>) -> Result<(), LexFault>
        requires { end_of self.old.begun + length piece.now ≤ 2 ^ 62 }
        ensures ok { OnOk result (Adds (SpellsIn self.old.dialect) self.old.begun piece.now
            into.old.items into.new.items self.new.begun) }
        ensures bad { self.old.refused ≡ None → IfErr result (λ fault. fault ≢ LexFault.Memory →
            EndsAt (SpellsIn self.old.dialect) self.old.begun piece.now
            into.old.items into.new.items fault) }
        ensures some { OnErr result (AddsSome (SpellsIn self.old.dialect) self.old.begun piece.now
            into.old.items into.new.items) }
        ensures spelled { AreSpelled (SpellsIn self.old.dialect) into.old.items →
            AreSpelled (SpellsIn self.old.dialect) into.new.items }
        ensures few { OnOk result
            (length into.new.items + length self.new.begun.held
            ≤ length into.old.items + length self.old.begun.held + length piece.now) }
        ensures early { OnOk result (HoldsNone (SpellsIn self.old.dialect) self.new.begun) }
        ensures prompt { OnOk result (HoldsNoEnd (SpellsIn self.old.dialect) [] self.new.begun) }
        ensures end { OnOk result
            (end_of self.new.begun ≡ end_of self.old.begun + length piece.now) }
        ensures dialect { self.new.dialect ≡ self.old.dialect }
        ensures open_yet { OnOk result ((self.old.refused ≡ None) × (self.new.refused ≡ None)) }
        ensures keeps { IfErr result (λ fault. self.new.refused ≡ Some fault) }
        ensures same { (fault : LexFault) → self.old.refused ≡ Some fault →
            (result ≡ Err fault) × (self.new ≡ self.old) × (into.new.items ≡ into.old.items) }
    {
        match &mut self.cutter {
            Cutter::Functional(lexer) => lexer.feed(piece, into),
            Cutter::Manchester(lexer) => lexer.feed(piece, into),
        }
    }

    /// Adds the last tokens, which the end makes whole.
    ///
    /// `BadUtf8` and `BadToken` come exactly where at their place no
    /// character, or neither a token nor white space nor a comment, begins; the
    /// tokens before that place were given. `Memory` comes where memory runs
    /// out; `into` then has what it had and perhaps some of the last tokens.
    /// After a refusal the lexer answers the same one from then on. After an
    /// answer it begins afresh, at the place of the next byte.
    pub fn finish(&mut self, into: &mut Vec<Placed>) -> Result<(), LexFault>
        ensures ok { OnOk result (AddsLast (SpellsIn self.old.dialect) self.old.begun
            into.old.items into.new.items None) }
        ensures bad { self.old.refused ≡ None → IfErr result (λ fault. fault ≢ LexFault.Memory →
            AddsLast (SpellsIn self.old.dialect) self.old.begun
            into.old.items into.new.items (Some fault)) }
        ensures some { OnErr result (AddsSomeLast (SpellsIn self.old.dialect) self.old.begun
            into.old.items into.new.items) }
        ensures spelled { AreSpelled (SpellsIn self.old.dialect) into.old.items →
            AreSpelled (SpellsIn self.old.dialect) into.new.items }
        ensures few { OnOk result
            (length into.new.items ≤ length into.old.items + length self.old.begun.held) }
        ensures open_yet { OnOk result (self.old.refused ≡ None) }
        ensures dialect { self.new.dialect ≡ self.old.dialect }
        ensures again { OnOk result (self.new ≡ record {
          dialect = self.old.dialect;
          begun = nothing_begun (end_of self.old.begun);
          refused = None;
        }) }
        ensures keeps { IfErr result (λ fault. self.new.refused ≡ Some fault) }
        ensures same { (fault : LexFault) → self.old.refused ≡ Some fault →
            (result ≡ Err fault) × (self.new ≡ self.old) × (into.new.items ≡ into.old.items) }
    {
        match &mut self.cutter {
            Cutter::Functional(lexer) => lexer.finish(into),
            Cutter::Manchester(lexer) => lexer.finish(into),
        }
    }
}
