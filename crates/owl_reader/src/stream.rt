//! Bytes, token by token.

ghost use Rattle.std.specs.Prelude.{◌≡◌, ◌≢◌, ◌<◌, ◌≤◌, ◌++◌, List, ℕ, length, false, None, IsSome, IsTrue, IfErr, IfOk, IfSome, OnOk};
ghost use Rattle.owl_lexer.specs.Lexing.{HoldsNoEnd, taken_of};
ghost use Rattle.owl_reader.specs.Defects.{HasDefect};
ghost use Rattle.owl_reader.specs.Faults.{lexing_refusal};
ghost use Rattle.owl_reader.specs.Readings.{AreAllTaken, CanEnd, HasDefectAlways, HasRoom, IsEnding, IsOpen};
ghost use Rattle.owl_reader.specs.declared.fault.ReadFault.TheVariants.{Memory};

use crate::fault::{ReadFault, Reason};
use crate::item::{Item, item_start};
use crate::progress::Progress;
use crate::syntax::Syntax;
use owl_lexer::{LexFault, Lexer, tokens_come_always};
use std::alloc::Global;

/// The refusal where neither a character nor a token begins.
fn refusal_of(fault: LexFault, last: Option<Item>) -> ReadFault
    ensures { result ≡ lexing_refusal fault last }
{
    match fault {
        LexFault::BadUtf8 { at } => ReadFault::Refused {
            item_at: item_start(false, false, last, at),
            at,
            reason: Reason::BadUtf8,
        },
        LexFault::BadToken { at } => ReadFault::Refused {
            item_at: item_start(false, false, last, at),
            at,
            reason: Reason::BadToken,
        },
        LexFault::Memory => ReadFault::Memory,
    }
}

/// Takes some of the next bytes, and the portion of tokens that they give. Answers
/// how many, unless that is all.
fn take_some<S: Syntax>(
    alloc: Global,
    lexer: &mut Lexer<S::Language>,
    progress: &mut Progress<S>,
    piece: &[u8],
) -> Result<Option<usize>, ReadFault>
    requires { (context : S.Context) × HasRoom S.Language.spells S.Grammar.grammar (S.rules context)
        (S.Made context) lexer.old
        progress.old.parser progress.old.syntax progress.old.last (length piece.now) }
    ensures within { IfOk result (λ left. IfSome left (λ count. count ≤ length piece.now)) }
    ensures takes { IfOk result (λ left. (context : S.Context) (bytes : List ℕ)
        → IsOpen S.Language.spells S.Grammar.grammar (S.rules context) (S.Made context) lexer.old
        progress.old.parser progress.old.syntax progress.old.last bytes
        → IsOpen S.Language.spells S.Grammar.grammar (S.rules context) (S.Made context) lexer.new
        progress.new.parser progress.new.syntax progress.new.last
        (bytes ++ taken_of left piece.now)) }
    ensures refuses { IfErr result (λ fault. fault ≢ Memory → (context : S.Context) (bytes : List ℕ)
        → IsOpen S.Language.spells S.Grammar.grammar (S.rules context) (S.Made context) lexer.old
        progress.old.parser progress.old.syntax progress.old.last bytes
        → HasDefectAlways S.Language.spells S.Grammar.grammar (S.rules context)
        (bytes ++ piece.now) fault) }
    ensures nearer { IfOk result (λ left. IsSome left → lexer.old.begun.at < lexer.new.begun.at) }
    ensures prompt { IfOk result (λ left. left ≡ None →
        (context : S.Context) → HoldsNoEnd S.Language.spells (S.rules context).long_quotes
        lexer.new.begun) }
{
    tokens_come_always::<S::Language>();
    let mut tokens = Vec::new(alloc);
    match lexer.feed_some(piece, &mut tokens) {
        Ok(left) => {
            progress.take_all(alloc, tokens)?;
            Ok(left)
        }
        Err(LexFault::Memory) => Err(ReadFault::Memory),
        Err(fault) => {
            progress.take_all(alloc, tokens)?;
            Err(refusal_of(fault, progress.last))
        }
    }
}

/// Takes the next bytes.
pub fn take<S: Syntax>(
    alloc: Global,
    lexer: &mut Lexer<S::Language>,
    progress: &mut Progress<S>,
    piece: &[u8],
) -> Result<(), ReadFault>
    requires { (context : S.Context) × HasRoom S.Language.spells S.Grammar.grammar (S.rules context)
        (S.Made context) lexer.old
        progress.old.parser progress.old.syntax progress.old.last (length piece.now) }
    ensures takes { OnOk result ((context : S.Context) (bytes : List ℕ)
        → IsOpen S.Language.spells S.Grammar.grammar (S.rules context) (S.Made context) lexer.old
        progress.old.parser progress.old.syntax progress.old.last bytes
        → IsOpen S.Language.spells S.Grammar.grammar (S.rules context) (S.Made context) lexer.new
        progress.new.parser progress.new.syntax progress.new.last (bytes ++ piece.now)) }
    ensures refuses { IfErr result (λ fault. fault ≢ Memory → (context : S.Context) (bytes : List ℕ)
        → IsOpen S.Language.spells S.Grammar.grammar (S.rules context) (S.Made context) lexer.old
        progress.old.parser progress.old.syntax progress.old.last bytes
        → HasDefectAlways S.Language.spells S.Grammar.grammar (S.rules context)
        (bytes ++ piece.now) fault) }
    ensures prompt { OnOk result
        ((context : S.Context) → HoldsNoEnd S.Language.spells (S.rules context).long_quotes
        lexer.new.begun) }
{
    let mut place = 0;
    while let Some(count) = take_some::<S>(alloc, lexer, progress, &piece[place..])? {
        place += count;
    }
    Ok(())
}

/// Takes a portion of the last tokens, which the end makes whole. Answers whether
/// all were taken.
fn take_some_last<S: Syntax>(
    alloc: Global,
    lexer: &mut Lexer<S::Language>,
    progress: &mut Progress<S>,
) -> Result<bool, ReadFault>
    requires { (context : S.Context) × CanEnd S.Language.spells S.Grammar.grammar (S.rules context)
        (S.Made context) lexer.old
        progress.old.parser progress.old.syntax progress.old.last }
    ensures all { IfOk result (λ done. IsTrue done → (context : S.Context) (bytes : List ℕ)
        → IsEnding S.Language.spells S.Grammar.grammar (S.rules context) (S.Made context) lexer.old
        progress.old.parser progress.old.syntax progress.old.last bytes
        → AreAllTaken S.Language.spells S.Grammar.grammar (S.rules context) (S.Made context)
        progress.new.parser progress.new.syntax progress.new.last bytes) }
    ensures some { IfOk result (λ done. done ≡ false → (context : S.Context) (bytes : List ℕ)
        → IsEnding S.Language.spells S.Grammar.grammar (S.rules context) (S.Made context) lexer.old
        progress.old.parser progress.old.syntax progress.old.last bytes
        → IsEnding S.Language.spells S.Grammar.grammar (S.rules context) (S.Made context) lexer.new
        progress.new.parser progress.new.syntax progress.new.last bytes) }
    ensures refuses { IfErr result (λ fault. fault ≢ Memory → (context : S.Context) (bytes : List ℕ)
        → IsEnding S.Language.spells S.Grammar.grammar (S.rules context) (S.Made context) lexer.old
        progress.old.parser progress.old.syntax progress.old.last bytes
        → HasDefect S.Language.spells S.Grammar.grammar (S.rules context) bytes fault) }
    ensures nearer { IfOk result (λ done. done ≡ false →
        length lexer.new.begun.held < length lexer.old.begun.held) }
{
    tokens_come_always::<S::Language>();
    let mut tokens = Vec::new(alloc);
    match lexer.finish_some(&mut tokens) {
        Ok(done) => {
            progress.take_all(alloc, tokens)?;
            Ok(done)
        }
        Err(LexFault::Memory) => Err(ReadFault::Memory),
        Err(fault) => {
            progress.take_all(alloc, tokens)?;
            Err(refusal_of(fault, progress.last))
        }
    }
}

/// Takes the last tokens, which the end makes whole.
pub fn take_last<S: Syntax>(
    alloc: Global,
    lexer: &mut Lexer<S::Language>,
    progress: &mut Progress<S>,
) -> Result<(), ReadFault>
    requires { (context : S.Context) × HasRoom S.Language.spells S.Grammar.grammar (S.rules context)
        (S.Made context) lexer.old
        progress.old.parser progress.old.syntax progress.old.last 0 }
    ensures takes { OnOk result ((context : S.Context) (bytes : List ℕ)
        → IsOpen S.Language.spells S.Grammar.grammar (S.rules context) (S.Made context) lexer.old
        progress.old.parser progress.old.syntax progress.old.last bytes
        → AreAllTaken S.Language.spells S.Grammar.grammar (S.rules context) (S.Made context)
        progress.new.parser progress.new.syntax progress.new.last bytes) }
    ensures refuses { IfErr result (λ fault. fault ≢ Memory → (context : S.Context) (bytes : List ℕ)
        → IsOpen S.Language.spells S.Grammar.grammar (S.rules context) (S.Made context) lexer.old
        progress.old.parser progress.old.syntax progress.old.last bytes
        → HasDefect S.Language.spells S.Grammar.grammar (S.rules context) bytes fault) }
{
    while !take_some_last::<S>(alloc, lexer, progress)? {}
    Ok(())
}
