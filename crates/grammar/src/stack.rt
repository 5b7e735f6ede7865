//! Stacks of symbols, whose top is at the end.

ghost use Rattle.std.specs.Prelude.{◌≡◌, ◌++◌, reverse, OnOk, IfErr};
ghost use Rattle.grammar.specs.Grammars.{entry};
ghost use Rattle.grammar.specs.Tables.{IsExpanded, NoneIsTaken};
ghost use Rattle.grammar.specs.declared.fault.ParseFault.TheVariants.{Unexpected};

use crate::fault::ParseFault;
use crate::symbol::Symbol;
use crate::table::{Table, row_at};
use std::alloc::AllocError;

/// Puts symbols on a stack, the first of them on top.
fn put(stack: &mut Vec<Symbol>, symbols: &[Symbol]) -> Result<(), AllocError>
    ensures { OnOk result (reverse stack.new.items ≡ symbols.now ++ reverse stack.old.items) }
{
    for symbol in symbols.iter().copied().rev() {
        stack.push(symbol)?;
    }
    Ok(())
}

/// Puts the symbols of an alternative of a rule on a stack, of the one that is
/// taken at a class.
pub fn expand<T: Table>(stack: &mut Vec<Symbol>, rule: u16, class: u8) -> Result<(), ParseFault>
    ensures expanded { OnOk result
        (IsExpanded (entry T.grammar rule).rows class
        (reverse stack.old.items) (reverse stack.new.items)) }
    ensures none { IfErr result (λ fault. fault ≡ Unexpected →
        NoneIsTaken (entry T.grammar rule).rows class) }
{
    match row_at(T::rows(rule), class) {
        Some(symbols) => Ok(put(stack, symbols)?),
        None => Err(ParseFault::Unexpected),
    }
}
