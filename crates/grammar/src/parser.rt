//! The parser.

ghost use Rattle.std.specs.Prelude.{◌≡◌, ◌↔◌, true, false, [], ◌∷◌, length, take, reverse, None, Some, Ok, Err, OnOk, IfOk, IfErr, IsTrue};
ghost use Rattle.grammar.specs.Derivations.{Begins};
ghost use Rattle.grammar.specs.Grammars.{has_rule};
ghost use Rattle.grammar.specs.Parsing.{Ends, Feeds, NeedsMore, Refuses, TakesOneOf, expects};
ghost use Rattle.grammar.specs.Predictions.{AreFollowed};
ghost use Rattle.grammar.specs.Settling.{Finishes, RefusesAt, Settles, Steps, needed_first};
ghost use Rattle.grammar.specs.declared.fault.ParseFault.{ParseFault};
ghost use Rattle.grammar.specs.declared.fault.ParseFault.TheVariants.{Unexpected};
ghost use Rattle.grammar.specs.declared.symbol.Symbol.TheVariants.{Rule};

use crate::fault::ParseFault;
use crate::stack::expand;
use crate::symbol::Symbol;
use crate::table::{END, Table};
use std::alloc::{AllocError, Global};
use std::marker::{Model, PhantomData};

/// Expands rules and does acts until a token is needed, and takes its class off
/// the stack. Where no token is needed any more the stack is empty.
fn next_needed<T: Table>(
    stack: &mut Vec<Symbol>,
    ahead: u8,
    acts: &mut Vec<u8>,
) -> Result<Option<u8>, ParseFault>
    requires { AreFollowed T.grammar (reverse stack.old.items) }
    ensures settles { IfOk result (λ needed.
        Settles T.grammar ahead (reverse stack.old.items) acts.old.items
        (needed_first needed (reverse stack.new.items)) acts.new.items) }
    ensures nothing { IfOk result (λ needed. needed ≡ None → stack.new.items ≡ []) }
    ensures refuses { IfErr result (λ fault. fault ≡ Unexpected →
        RefusesAt T.grammar ahead (reverse stack.old.items)) }
    ensures kept { take (length acts.old.items) acts.new.items ≡ acts.old.items }
{
    while let Some(symbol) = stack.pop() {
        match symbol {
            Symbol::Need(class) => return Ok(Some(class)),
            Symbol::Act(act) => acts.push(act)?,
            Symbol::Rule(rule) => expand::<T>(stack, rule, ahead)?,
        }
    }
    Ok(None)
}

/// Takes a token of this class.
fn take<T: Table>(stack: &mut Vec<Symbol>, class: u8, acts: &mut Vec<u8>) -> Result<(), ParseFault>
    requires { AreFollowed T.grammar (reverse stack.old.items) }
    ensures steps { OnOk result
        (Steps T.grammar class (reverse stack.old.items) acts.old.items
        (reverse stack.new.items) acts.new.items) }
    ensures refuses { IfErr result (λ fault. fault ≡ Unexpected →
        Refuses T.grammar (reverse stack.old.items) class) }
    ensures kept { take (length acts.old.items) acts.new.items ≡ acts.old.items }
{
    match next_needed::<T>(stack, class, acts)? {
        Some(needed) if needed == class => Ok(()),
        _ => Err(ParseFault::Unexpected),
    }
}

/// Whether a token of this class would be taken. The stack stays as it is.
fn takes<T: Table>(alloc: Global, stack: &[Symbol], class: u8) -> Result<bool, AllocError>
    requires { AreFollowed T.grammar (reverse stack.now) }
    ensures { IfOk result (λ takes.
        IsTrue takes ↔ Begins T.grammar (reverse stack.now) (class ∷ [])) }
{
    let mut copy = Vec::from_slice(alloc, stack)?;
    let mut acts = Vec::new(alloc);
    match take::<T>(&mut copy, class, &mut acts) {
        Ok(()) => Ok(true),
        Err(ParseFault::Unexpected) => Ok(false),
        Err(ParseFault::Memory) => Err(AllocError),
    }
}

/// Takes the end.
fn end<T: Table>(stack: &mut Vec<Symbol>, acts: &mut Vec<u8>) -> Result<(), ParseFault>
    requires { AreFollowed T.grammar (reverse stack.old.items) }
    ensures finishes { OnOk result
        (Finishes T.grammar (reverse stack.old.items) acts.old.items acts.new.items) }
    ensures nothing { OnOk result (stack.new.items ≡ []) }
    ensures refuses { IfErr result (λ fault. fault ≡ Unexpected →
        NeedsMore T.grammar (reverse stack.old.items)) }
    ensures kept { take (length acts.old.items) acts.new.items ≡ acts.old.items }
{
    match next_needed::<T>(stack, END, acts)? {
        None => Ok(()),
        Some(_) => Err(ParseFault::Unexpected),
    }
}

/// Tells from the classes of tokens, one at a time, whether they derive from a
/// rule of a grammar, and which acts are done on the way.
///
/// Contracts see the symbols that are expected, and the refusal that is kept.
#[derive(Drop)]
pub struct Parser<T: Table> {
    expected: Vec<Symbol>,
    refused: Option<ParseFault>,
    table: PhantomData<T>,
}

impl<T: Table> Model for Parser<T> {
    ghost use Rattle.std.specs.Prelude.{◌≡◌, None, reverse};
    ghost use Rattle.grammar.specs.Parsing.{Parsing};
    ghost use Rattle.grammar.specs.Predictions.{AreFollowed};

    ghost Value = { Parsing };

    ghost view = { λ parser.
        record { expected = reverse parser.expected.items; refused = parser.refused } };

    ghost invariant = { λ parser. parser.refused ≡ None →
        AreFollowed T.grammar (reverse parser.expected.items) };
}

impl<T: Table> Parser<T> {
    /// A parser that expects what derives from this rule.
    pub fn new(alloc: Global, start: u16) -> Result<Parser<T>, AllocError>
        requires { has_rule T.grammar start ≡ true }
        ensures { IfOk result (λ parser. parser ≡ expects (Rule start ∷ [])) }
    {
        let mut expected = Vec::new(alloc);
        expected.push(Symbol::Rule(start))?;
        Ok(Parser {
            expected,
            refused: None,
            table: PhantomData,
        })
    }

    /// Takes a token of this class, and adds the acts that stand in front of it
    /// to the end of `acts`.
    ///
    /// `Unexpected` comes exactly where no sentence of the grammar begins with
    /// what was fed and a token of this class. `Memory` comes where memory runs
    /// out. A parser that has refused answers the same refusal from then on.
    pub fn feed(&mut self, class: u8, acts: &mut Vec<u8>) -> Result<(), ParseFault>
        ensures takes { OnOk result
            (Feeds T.grammar self.old class acts.old.items self.new acts.new.items) }
        ensures refuses { self.old.refused ≡ None → IfErr result (λ fault. fault ≡ Unexpected →
            Refuses T.grammar self.old.expected class) }
        ensures keeps { IfErr result (λ fault.
            (self.new.refused ≡ Some fault) × (acts.new.items ≡ acts.old.items)) }
        ensures same { (fault : ParseFault) → self.old.refused ≡ Some fault →
            (result ≡ Err fault) × (self.new ≡ self.old) }
    {
        if let Some(fault) = self.refused {
            return Err(fault);
        }
        let before = acts.len();
        if let Err(fault) = take::<T>(&mut self.expected, class, acts) {
            acts.truncate(before);
            self.refused = Some(fault);
            return Err(fault);
        }
        Ok(())
    }

    /// Takes the end, and adds the acts that stand in front of it to the end of
    /// `acts`. From then on only the end is expected.
    ///
    /// `Unexpected` comes exactly where what was fed is no whole sentence of the
    /// grammar. `Memory` comes where memory runs out. A parser that has refused
    /// answers the same refusal from then on.
    pub fn finish(&mut self, acts: &mut Vec<u8>) -> Result<(), ParseFault>
        ensures ends { OnOk result
            (Ends T.grammar self.old acts.old.items self.new acts.new.items) }
        ensures refuses { self.old.refused ≡ None → IfErr result (λ fault. fault ≡ Unexpected →
            NeedsMore T.grammar self.old.expected) }
        ensures keeps { IfErr result (λ fault.
            (self.new.refused ≡ Some fault) × (acts.new.items ≡ acts.old.items)) }
        ensures same { (fault : ParseFault) → self.old.refused ≡ Some fault →
            (result ≡ Err fault) × (self.new ≡ self.old) }
    {
        if let Some(fault) = self.refused {
            return Err(fault);
        }
        let before = acts.len();
        if let Err(fault) = end::<T>(&mut self.expected, acts) {
            acts.truncate(before);
            self.refused = Some(fault);
            return Err(fault);
        }
        Ok(())
    }
    /// Whether some sentence of the grammar goes on from what was fed with a
    /// token of one of these classes. Nothing is fed, and it takes memory for a
    /// copy of what is expected. A parser that has refused answers no.
    pub fn takes_one_of(&self, alloc: Global, classes: &[u8]) -> Result<bool, AllocError>
        ensures tells { self.now.refused ≡ None → IfOk result (λ takes.
            IsTrue takes ↔ TakesOneOf T.grammar self.now.expected classes.now) }
        ensures refused { (fault : ParseFault) → self.now.refused ≡ Some fault →
            result ≡ Ok false }
    {
        if self.refused.is_some() {
            return Ok(false);
        }
        for class in classes {
            if takes::<T>(alloc, &self.expected, *class)? {
                return Ok(true);
            }
        }
        Ok(false)
    }
}
