//! Reads a document whose bytes come in pieces.

ghost use Rattle.std.specs.Prelude.{◌≡◌, ◌≢◌, ◌≤◌, ◌+◌, ◌-◌, ◌++◌, [], List, ℕ, length, None, Some, Err, IfErr, IfOk, IsOk, OnOk};
ghost use Rattle.owl_characters.specs.Limit.{most_bytes};
ghost use Rattle.owl_lexer.specs.Lexing.{HoldsNoEnd};
ghost use Rattle.owl_reader.specs.Defects.{HasDefect, IsFirstDefect};
ghost use Rattle.owl_reader.specs.Early.{TellsEarly};
ghost use Rattle.owl_reader.specs.Readings.{HasRead, HasRoom, IsOpen, IsRead, Refuses};
ghost use Rattle.owl_reader.specs.declared.fault.ReadFault.{ReadFault};

use crate::fault::ReadFault;
use crate::progress::Progress;
use crate::stream::{take, take_last};
use crate::syntax::Syntax;
use grammar::Parser;
use owl_characters::{MOST_BYTES, NoMemory};
use owl_lexer::Lexer;
use std::alloc::Global;
use std::marker::Model;

/// Reads a document in a syntax from bytes that come in pieces.
///
/// Contracts relate it to the bytes that were fed (`HasRead`).
#[derive(Drop)]
pub struct Reader<S: Syntax> {
    alloc: Global,
    lexer: Lexer<S::Language>,
    progress: Progress<S>,
    fed: u64,
    refused: Option<ReadFault>,
}

impl<S: Syntax> Model for Reader<S> {
    ghost use Rattle.std.specs.Prelude.{◌≡◌, None};
    ghost use Rattle.owl_lexer.specs.Lexing.{HoldsNoEnd};
    ghost use Rattle.owl_reader.specs.Readings.{CanRead, Reading};

    ghost Value = { Reading S };

    ghost view = { λ r. record {
      lexing = r.lexer;
      parsing = r.progress.parser;
      made = r.progress.syntax;
      last = r.progress.last;
      fed = r.fed;
      refused = r.refused;
    } };

    ghost invariant = { λ r. (r.refused ≡ None →
        (context : S.Context) → HoldsNoEnd S.Language.spells
        (S.rules context).long_quotes r.lexer.begun)
        × (r.refused ≡ None → (context : S.Context) × CanRead S.Language.spells S.Grammar.grammar
        (S.rules context) (S.Made context)
        (record {
          lexing = r.lexer;
          parsing = r.progress.parser;
          made = r.progress.syntax;
          last = r.progress.last;
          fed = r.fed;
          refused = r.refused;
        })) };
}

impl<S: Syntax> Reader<S> {
    /// A reader that was fed nothing, over a syntax that was given nothing.
    pub fn new(alloc: Global, syntax: S) -> Result<Reader<S>, NoMemory>
        requires { (context : S.Context) × S.Made context [] syntax }
        ensures { IfOk result (λ reader. (context : S.Context) → S.Made context [] syntax →
            HasRead S.Language.spells S.Grammar.grammar (S.rules context)
            (S.Made context) reader []) }
    {
        let parser = Parser::new(alloc, S::document())?;
        let progress = Progress {
            parser,
            syntax,
            last: None,
            acts: Vec::new(alloc),
        };
        Ok(Reader {
            alloc,
            lexer: Lexer::new(alloc),
            progress,
            fed: 0,
            refused: None,
        })
    }

    /// Takes the next bytes.
    ///
    /// A refusal other than `Memory` is the first defect of all bytes that were
    /// fed, with these, whatever follows. A reader that has refused answers the
    /// same refusal from then on. An empty piece takes no memory.
    ///
    /// No token is held back that white space follows, unless the quotes of a
    /// long string are. So a defect at such a token is told at once (`TellsEarly`).
    pub fn feed(&mut self, piece: &[u8]) -> Result<(), ReadFault>
        ensures reads { OnOk result ((context : S.Context) (bytes : List ℕ)
            → HasRead S.Language.spells S.Grammar.grammar (S.rules context) (S.Made context)
            self.old bytes
            → HasRead S.Language.spells S.Grammar.grammar (S.rules context) (S.Made context)
            self.new (bytes ++ piece.now)) }
        ensures refuses { IfErr result (λ fault. fault ≢ ReadFault.Memory → (context : S.Context)
            (bytes : List ℕ)
            → HasRead S.Language.spells S.Grammar.grammar (S.rules context) (S.Made context)
            self.old bytes
            → Refuses S.Language.spells S.Grammar.grammar (S.rules context)
            (bytes ++ piece.now) fault) }
        ensures early { OnOk result
            ((context : S.Context) → TellsEarly S.Language.spells S.Grammar.grammar
            (S.rules context) (S.Made context) self.new) }
        ensures empty { self.old.refused ≡ None → piece.now ≡ [] → IsOk result }
        ensures keeps { IfErr result (λ fault. self.new.refused ≡ Some fault) }
        ensures same { (fault : ReadFault) → self.old.refused ≡ Some fault → result ≡ Err fault }
    {
        if let Some(fault) = self.refused {
            return Err(fault);
        }
        if piece.is_empty() {
            return Ok(());
        }
        match read(
            self.alloc,
            &mut self.lexer,
            &mut self.progress,
            self.fed,
            piece,
        ) {
            Ok(()) => {
                self.fed += piece.len() as u64;
                Ok(())
            }
            Err(fault) => {
                self.refused = Some(fault);
                Err(fault)
            }
        }
    }

    /// What was made of the document that all the bytes fed are.
    ///
    /// A refusal other than `Memory` is the first defect of these bytes. A
    /// reader that has refused answers the same refusal.
    pub fn finish(self) -> Result<S, ReadFault>
        ensures read { IfOk result (λ made. (context : S.Context) (bytes : List ℕ)
            → HasRead S.Language.spells S.Grammar.grammar (S.rules context)
            (S.Made context) self bytes
            → IsRead S.Language.spells S.Grammar.grammar (S.rules context)
            (S.Whole context) bytes made) }
        ensures refuses { IfErr result (λ fault. fault ≢ ReadFault.Memory → (context : S.Context)
            (bytes : List ℕ)
            → HasRead S.Language.spells S.Grammar.grammar (S.rules context)
            (S.Made context) self bytes
            → IsFirstDefect S.Language.spells S.Grammar.grammar (S.rules context) bytes fault) }
        ensures same { (fault : ReadFault) → self.refused ≡ Some fault → result ≡ Err fault }
    {
        let Reader {
            alloc,
            lexer,
            progress,
            fed,
            refused,
        } = self;
        match refused {
            Some(fault) => Err(fault),
            None => end(alloc, lexer, progress, fed),
        }
    }
}

/// Reads the next bytes, as many as a document may have.
fn read<S: Syntax>(
    alloc: Global,
    lexer: &mut Lexer<S::Language>,
    progress: &mut Progress<S>,
    fed: u64,
    piece: &[u8],
) -> Result<(), ReadFault>
    requires room { (context : S.Context) × HasRoom S.Language.spells S.Grammar.grammar
        (S.rules context) (S.Made context) lexer.old
        progress.old.parser progress.old.syntax progress.old.last (most_bytes - fed) }
    requires within { fed ≤ most_bytes }
    ensures reads { OnOk result ((context : S.Context) (bytes : List ℕ)
        → IsOpen S.Language.spells S.Grammar.grammar (S.rules context) (S.Made context) lexer.old
        progress.old.parser progress.old.syntax progress.old.last bytes
        → IsOpen S.Language.spells S.Grammar.grammar (S.rules context) (S.Made context) lexer.new
        progress.new.parser progress.new.syntax progress.new.last (bytes ++ piece.now)) }
    ensures refuses { IfErr result (λ fault. fault ≢ ReadFault.Memory → (context : S.Context)
        (bytes : List ℕ)
        → fed ≡ length bytes
        → IsOpen S.Language.spells S.Grammar.grammar (S.rules context) (S.Made context) lexer.old
        progress.old.parser progress.old.syntax progress.old.last bytes
        → Refuses S.Language.spells S.Grammar.grammar (S.rules context)
        (bytes ++ piece.now) fault) }
    ensures within { OnOk result (fed + length piece.now ≤ most_bytes) }
    ensures prompt { OnOk result
        ((context : S.Context) → HoldsNoEnd S.Language.spells (S.rules context).long_quotes
        lexer.new.begun) }
{
    let room = MOST_BYTES - fed;
    if room < piece.len() as u64 {
        take(alloc, lexer, progress, &piece[..room as usize])?;
        return Err(ReadFault::TooLong);
    }
    take(alloc, lexer, progress, piece)
}

/// What was made of the document that ends here.
fn end<S: Syntax>(
    alloc: Global,
    lexer: Lexer<S::Language>,
    progress: Progress<S>,
    fed: u64,
) -> Result<S, ReadFault>
    requires room { (context : S.Context) × HasRoom S.Language.spells S.Grammar.grammar
        (S.rules context) (S.Made context) lexer
        progress.parser progress.syntax progress.last 0 }
    ensures read { IfOk result (λ made. (context : S.Context) (bytes : List ℕ)
        → length bytes ≤ most_bytes
        → IsOpen S.Language.spells S.Grammar.grammar (S.rules context) (S.Made context) lexer
        progress.parser progress.syntax progress.last bytes
        → IsRead S.Language.spells S.Grammar.grammar (S.rules context)
        (S.Whole context) bytes made) }
    ensures refuses { IfErr result (λ fault. fault ≢ ReadFault.Memory → (context : S.Context)
        (bytes : List ℕ)
        → fed ≡ length bytes
        → IsOpen S.Language.spells S.Grammar.grammar (S.rules context) (S.Made context) lexer
        progress.parser progress.syntax progress.last bytes
        → HasDefect S.Language.spells S.Grammar.grammar (S.rules context) bytes fault) }
{
    let mut lexer = lexer;
    let mut progress = progress;
    take_last(alloc, &mut lexer, &mut progress)?;
    progress.end(alloc, fed)?;
    Ok(progress.syntax)
}
