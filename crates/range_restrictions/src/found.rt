//! Steps, ranges and chains among axioms.

ghost use Rattle.std.specs.Prelude.{◌≡◌, ◌↔◌, ◌⊎◌, IfOk, IsTrue, OnOk, []};
ghost use Rattle.owl_arena.specs.Held.{AreHeld, trees_at};
ghost use Rattle.range_restrictions.specs.Found.{AreFound, Notes};

use crate::statements::{Statement, statement_at};
use owl_arena::{Arena, ExprId};
use std::alloc::{AllocError, Global};

/// Pairs of trees, by their places in an arena.
#[derive(Debug, Drop)]
pub struct Found {
    /// From a property to one above it.
    pub steps: Vec<(usize, usize)>,
    /// From a property to a class that is its range.
    pub ranges: Vec<(usize, usize)>,
    /// From the last property of a chain to the one that the chain implies.
    pub chains: Vec<(usize, usize)>,
}

impl Found {
    /// None.
    fn none(alloc: Global) -> Found
        ensures steps { result.steps.items ≡ [] }
        ensures ranges { result.ranges.items ≡ [] }
        ensures chains { result.chains.items ≡ [] }
    {
        Found {
            steps: Vec::new(alloc),
            ranges: Vec::new(alloc),
            chains: Vec::new(alloc),
        }
    }

    /// Adds what an axiom says.
    fn note(&mut self, said: Option<Statement>) -> Result<(), AllocError>
        ensures { OnOk result (Notes said self.old self.new) }
    {
        match said {
            Some(Statement::Step(below, above)) => self.steps.push((below, above))?,
            Some(Statement::Range(property, class)) => self.ranges.push((property, class))?,
            Some(Statement::Chain(last, implied)) => self.chains.push((last, implied))?,
            None => {}
        }
        Ok(())
    }

    /// Whether there are no chains or no ranges, so that no chain lacks a range.
    pub fn lacks_none(&self) -> bool
        ensures { IsTrue result ↔ ((self.now.chains.items ≡ []) ⊎ (self.now.ranges.items ≡ [])) }
    {
        self.chains.is_empty() || self.ranges.is_empty()
    }
}

/// The steps, ranges and chains among these axioms.
pub fn found_by(alloc: Global, arena: &Arena, axioms: &[ExprId]) -> Result<Found, AllocError>
    requires { AreHeld arena.now.trees axioms.now }
    ensures { IfOk result (AreFound arena.now.trees (trees_at arena.now.trees axioms.now)) }
{
    let mut found = Found::none(alloc);
    'axioms: for id in axioms {
        found.note(statement_at(arena, *id))?;
    }
    Ok(found)
}
