//! The triples of expressions.

ghost use Rattle.std.specs.Prelude.{◌≡◌, ◌<◌, ◌∷◌, [], None, OnOk, length};
ghost use Rattle.std.specs.List.{AllByRecursion};
ghost use Rattle.owl_arena.specs.Held.{tree_at};
ghost use Rattle.owl_tree.specs.Trees.{atom_in};
ghost use Rattle.rdf_mapping.specs.Forms.{twice};
ghost use Rattle.rdf_mapping.specs.Drawing.{arcs_of, facet_arcs, form_of, listed};
ghost use Rattle.rdf_mapping.specs.Drawing.{placed, placed_at};
ghost use Rattle.rdf_mapping.specs.Arenas.{forms_at, kids_at};
ghost use Rattle.rdf_forward.specs.Walks.{IsDrawnBelow, Leads, WritesArcs, WritesForm};
ghost use Rattle.rdf_forward.specs.Walks.{drawn_form, node_term};

use crate::drawn::{Drawn, next_part};
use crate::writer::Writer;
use owl_arena::{Arena, ExprId};
use owl_characters::NoMemory;
use owl_tree::{Atom, Tag};
use rdf_mapping::row_for;
use rdf_meaning::{Part, Place, node_rows};

impl Writer {
    /// Adds the triples of a tree.
    #[cycle(expression)]
    pub fn write_tree(&mut self, arena: &Arena, id: ExprId) -> Result<(), NoMemory>
        requires { id < length arena.now.trees }
        ensures { OnOk result (WritesForm self.old self.new
            (form_of (tree_at arena.now.trees id))) }
    {
        match arena.atom(id) {
            Some(_) => Ok(()),
            None => self.write_node(arena, id),
        }
    }

    /// Adds the triples of a tree that is no leaf.
    #[cycle(expression)]
    fn write_node(&mut self, arena: &Arena, id: ExprId) -> Result<(), NoMemory>
        requires held { id < length arena.now.trees }
        requires node { atom_in (tree_at arena.now.trees id) ≡ None }
        ensures { OnOk result (WritesForm self.old self.new
            (form_of (tree_at arena.now.trees id))) }
    {
        let node = self.fresh()?;
        let tag = arena.tag(id);
        let kids = arena.kids(id);
        if tag == Tag::FacetPair {
            return self.write_facet(arena, node, kids, id);
        }
        match row_for(node_rows(), tag, arena, kids) {
            Some(row) => self.write_arcs(arena, node, row.parts, kids, id),
            None => Ok(()),
        }
    }

    /// Adds the triple of a facet and its value.
    #[cycle(expression)]
    fn write_facet(
        &mut self,
        arena: &Arena,
        node: u64,
        kids: &[ExprId],
        above: ExprId,
    ) -> Result<(), NoMemory>
        requires held { above < length arena.now.trees }
        requires below { AllByRecursion (λ kid. kid < above) kids.now }
        ensures { OnOk result (WritesArcs self.old self.new (node_term self.old node)
            (facet_arcs (kids_at arena.now.trees kids.now))) }
    {
        let [facet, value] = kids else {
            return Ok(());
        };
        let Some(Atom::Iri(iri)) = arena.atom(*facet) else {
            return Ok(());
        };
        self.link_facet(arena, node, iri, *value)?;
        self.write_tree(arena, *value)
    }

    /// Adds the triples of a node's parts.
    #[cycle(expression)]
    pub fn write_arcs<'a>(
        &mut self,
        arena: &'a Arena,
        node: u64,
        parts: &'a [Part],
        kids: &'a [ExprId],
        above: ExprId,
    ) -> Result<(), NoMemory>
        requires held { above < length arena.now.trees }
        requires below { AllByRecursion (λ kid. kid < above) kids.now }
        ensures { OnOk result (WritesArcs self.old self.new (node_term self.old node)
            (arcs_of (placed parts.now (kids_at arena.now.trees kids.now)))) }
    {
        let Some(next) = next_part(arena, parts, kids, above) else {
            return Ok(());
        };
        self.write_part(arena, node, next.place, &next.drawn, above)?;
        self.write_arcs(arena, node, next.parts, next.kids, above)
    }

    /// Adds the triples of one part of a node.
    #[cycle(expression)]
    fn write_part(
        &mut self,
        arena: &Arena,
        node: u64,
        place: Place,
        drawn: &Drawn,
        above: ExprId,
    ) -> Result<(), NoMemory>
        requires held { above < length arena.now.trees }
        requires below { IsDrawnBelow above drawn.now }
        ensures { OnOk result (WritesArcs self.old self.new (node_term self.old node)
            (arcs_of (placed_at place (drawn_form arena.now.trees drawn.now) ∷ []))) }
    {
        let Place::At(word) = place else {
            return Ok(());
        };
        self.link_part(arena, node, word, drawn)?;
        self.write_drawn(arena, drawn, above)
    }

    /// Adds the triples of what stands at a part.
    #[cycle(expression)]
    pub fn write_drawn(
        &mut self,
        arena: &Arena,
        drawn: &Drawn,
        above: ExprId,
    ) -> Result<(), NoMemory>
        requires held { above < length arena.now.trees }
        requires below { IsDrawnBelow above drawn.now }
        ensures { OnOk result (WritesForm self.old self.new
            (drawn_form arena.now.trees drawn.now)) }
    {
        match drawn {
            Drawn::Kid(id) => self.write_tree(arena, *id),
            Drawn::Trees(least, ids) => self.write_list(arena, *least, ids, above),
            Drawn::Keys(objects, others) => {
                self.write_cells(arena, objects, !others.is_empty(), above)?;
                self.write_cells(arena, others, false, above)
            }
            Drawn::Class(_) | Drawn::True => Ok(()),
        }
    }

    /// Adds the triples of a list; where two have to be written and there is one, it
    /// stands there twice.
    #[cycle(expression)]
    fn write_list(
        &mut self,
        arena: &Arena,
        least: usize,
        ids: &[ExprId],
        above: ExprId,
    ) -> Result<(), NoMemory>
        requires held { above < length arena.now.trees }
        requires below { AllByRecursion (λ id. id < above) ids.now }
        ensures { OnOk result (WritesForm self.old self.new
            (listed least (forms_at arena.now.trees ids.now))) }
    {
        match ids {
            [id] => {
                if 2 <= least {
                    return self.write_twice(arena, *id, above);
                }
                self.write_cells(arena, ids, false, above)
            }
            [] | [_, _, ..] => self.write_cells(arena, ids, false, above),
        }
    }

    /// Adds the triples of a list that has its one element twice.
    #[cycle(expression)]
    fn write_twice(&mut self, arena: &Arena, id: ExprId, above: ExprId) -> Result<(), NoMemory>
        requires held { above < length arena.now.trees }
        requires below { id < above }
        ensures { OnOk result (WritesForm self.old self.new
            (twice (form_of (tree_at arena.now.trees id)))) }
    {
        let cell = self.fresh()?;
        let element = self.next;
        self.link_element(arena, cell, id, element)?;
        self.write_tree(arena, id)?;
        self.link_again(arena, cell, id, element)
    }

    /// Adds the cells of a list, which ends behind them or goes on.
    #[cycle(expression)]
    fn write_cells(
        &mut self,
        arena: &Arena,
        ids: &[ExprId],
        goes_on: bool,
        above: ExprId,
    ) -> Result<(), NoMemory>
        requires held { above < length arena.now.trees }
        requires below { AllByRecursion (λ id. id < above) ids.now }
        ensures { OnOk result (Leads self.old self.new goes_on (forms_at arena.now.trees ids.now)) }
    {
        let mut left = ids;
        while let [id, others @ ..] = left {
            self.write_cell(arena, *id, goes_on || !others.is_empty(), above)?;
            left = others;
        }
        Ok(())
    }

    /// Adds one cell of a list, which ends behind it or goes on.
    #[cycle(expression)]
    fn write_cell(
        &mut self,
        arena: &Arena,
        id: ExprId,
        goes_on: bool,
        above: ExprId,
    ) -> Result<(), NoMemory>
        requires held { above < length arena.now.trees }
        requires below { id < above }
        ensures { OnOk result (Leads self.old self.new goes_on
            (forms_at arena.now.trees (id ∷ []))) }
    {
        let cell = self.fresh()?;
        let element = self.next;
        self.link_element(arena, cell, id, element)?;
        self.write_tree(arena, id)?;
        self.link_rest(cell, goes_on)
    }
}
