//! Which blank nodes of a graph are nested.

ghost use Rattle.std.specs.Prelude.{◌≡◌, ◌↔◌, IfOk, IsTrue, List};
ghost use Rattle.rdf_graph.specs.declared.triple.Triple.{Triple};
ghost use Rattle.rdf_roles.specs.Tables.{IsTableOf};
ghost use Rattle.ttl_levels.specs.Nested.{IsNested};
ghost use Rattle.ttl_levels.specs.NestTables.{IsCellCount, IsNestTable};

use crate::cells::counts_of;
use crate::levels::{MOST_LEVELS, levels_of};
use crate::named::names_of;
use crate::nodes::value_of;
use owl_characters::NoMemory;
use rdf_graph::{Graph, Term};
use rdf_roles::Roles;
use std::alloc::Global;
use std::marker::Model;

/// Which blank nodes of a graph are written in brackets or as collections: a node of a list, an expression or a facet that is the
/// object of exactly one triple, and whose own triples are all structural, within 500 levels. Contracts see how many cells round
/// nodes have, and the levels of nestable nodes, by the numbers of nodes.
#[derive(Debug, Drop)]
pub struct Nests {
    cells: Vec<usize>,
    levels: Vec<usize>,
}

impl Model for Nests {
    ghost use Rattle.ttl_levels.specs.NestTables.{NestTable};

    ghost Value = { NestTable };

    ghost view = { λ n. record { cells = n.cells.items; levels = n.levels.items } };
}

impl Nests {
    /// Those of the graph whose roles these are. Of how many triples nodes are the object is counted in one pass.
    pub fn of(alloc: Global, graph: &Graph, roles: &Roles) -> Result<Nests, NoMemory>
        requires { IsTableOf graph.now roles.now }
        ensures { IfOk result (IsNestTable graph.now) }
    {
        let names = names_of(alloc, graph, roles)?;
        let cells = counts_of(alloc, graph, roles, &names)?;
        let levels = levels_of(alloc, graph, roles, &names, &cells)?;
        Ok(Nests { cells, levels })
    }

    /// Whether the term is nested, in the graph whose roles these are. Takes no memory.
    pub fn is_nested(&self, roles: &Roles, term: &Term) -> bool
        ensures { (g : List Triple) → IsTableOf g roles.now → IsNestTable g self.now
            → (IsTrue result ↔ IsNested g term.now) }
    {
        let level = value_of(roles, &self.levels, term);
        if level == 0 {
            return false;
        }
        level <= MOST_LEVELS
    }

    /// How many cells the round node has from this one on; 0, where the term is no round node. Takes no memory.
    pub fn cells(&self, roles: &Roles, term: &Term) -> usize
        ensures { (g : List Triple) → IsTableOf g roles.now → IsNestTable g self.now
            → IsCellCount g term.now result }
    {
        value_of(roles, &self.cells, term)
    }
}
