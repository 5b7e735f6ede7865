//! The triples of axioms that differ in their annotations alone.

ghost use Rattle.std.specs.Prelude.{◌≡◌, ◌<◌, IfOk, OnOk, length};
ghost use Rattle.std.specs.List.{AllByRecursion};
ghost use Rattle.owl_arena.specs.Held.{AreHeld, tree_at};
ghost use Rattle.rdf_mapping.specs.Drawing.{arcs_of, between, form_of, looped, placed, standing};
ghost use Rattle.rdf_mapping.specs.Graphs.{axiom_notes};
ghost use Rattle.rdf_forward.specs.NoteWalks.{notes_at};
ghost use Rattle.rdf_forward.specs.AxiomWalks.{AreEnds, AreHeldBelow, WritesEnds, WritesMain};
ghost use Rattle.rdf_forward.specs.AxiomWalks.{WritesSets, WritesStatement, sets_at, sets_below};
ghost use Rattle.rdf_mapping.specs.Arenas.{kids_at};
ghost use Rattle.rdf_forward.specs.Walks.{IsDrawnBelow, drawn_form, name_iri};

use crate::below::Below;
use crate::drawn::Drawn;
use crate::ends::{End, Holder, Link, Name, drawn_end, is_end, link_at, tree_end};
use crate::writer::Writer;
use owl_arena::{Arena, ExprId};
use owl_characters::NoMemory;
use rdf_meaning::{Part, Place};

/// The annotations of an axiom.
fn notes_of_axiom(arena: &Arena, id: ExprId) -> &[ExprId]
    requires { id < length arena.now.trees }
    ensures notes { notes_at arena.now.trees result.now ≡ axiom_notes (tree_at arena.now.trees id) }
    ensures held { AreHeld arena.now.trees result.now }
{
    match arena.kids(id) {
        [notes, ..] => arena.kids(*notes),
        [] => &[],
    }
}

impl Writer {
    /// Adds what reifies the triple, for each of the axioms that has annotations.
    fn write_sets(&mut self, arena: &Arena, link: &Link, axioms: &[ExprId]) -> Result<(), NoMemory>
        requires { AreHeld arena.now.trees axioms.now }
        ensures { OnOk result (WritesSets self.old self.new link.now
            (sets_at arena.now.trees axioms.now)) }
    {
        let mut left = axioms;
        while let [id, others @ ..] = left {
            let notes = notes_of_axiom(arena, *id);
            self.write_reified(arena, link, notes)?;
            left = others;
        }
        Ok(())
    }

    /// Adds the triple, and what reifies it.
    fn write_main(&mut self, arena: &Arena, link: &Link, axioms: &[ExprId]) -> Result<(), NoMemory>
        requires { AreHeld arena.now.trees axioms.now }
        ensures { OnOk result (WritesMain self.old self.new link.now
            (sets_at arena.now.trees axioms.now)) }
    {
        self.add_main(link)?;
        self.write_sets(arena, link, axioms)
    }

    /// Adds the triples of two ends, and gives what their terms are made of.
    fn write_ends<'a>(
        &mut self,
        arena: &'a Arena,
        first: &Drawn<'a>,
        second: &Drawn<'a>,
        above: ExprId,
    ) -> Result<(End<'a>, End<'a>), NoMemory>
        requires held { above < length arena.now.trees }
        requires first { IsDrawnBelow above first.now }
        requires second { IsDrawnBelow above second.now }
        ensures terms { IfOk result (λ ends. AreEnds self.old (drawn_form arena.now.trees first.now)
            (drawn_form arena.now.trees second.now) ends.0 ends.1) }
        ensures writes { OnOk result (WritesEnds self.old self.new
            (drawn_form arena.now.trees first.now) (drawn_form arena.now.trees second.now)) }
    {
        let near = drawn_end(arena, first, self.next);
        self.write_drawn(arena, first, above)?;
        let far = drawn_end(arena, second, self.next);
        self.write_drawn(arena, second, above)?;
        Ok((near, far))
    }

    /// Adds the triple between the two for these axioms. The first is its subject or
    /// its object; what stands elsewhere is in no triple.
    pub fn write_linked(
        &mut self,
        below: &Below,
        place: Place,
        first: &Drawn,
        predicate: &Name,
        second: &Drawn,
    ) -> Result<(), NoMemory>
        requires held { AreHeldBelow below.now }
        requires first { IsDrawnBelow below.now.above first.now }
        requires second { IsDrawnBelow below.now.above second.now }
        ensures { OnOk result (WritesStatement self.old self.new
            (between place (drawn_form below.now.arena.now.trees first.now) (name_iri predicate.now)
            (drawn_form below.now.arena.now.trees second.now)) (sets_below below.now)) }
    {
        if !is_end(place) {
            return Ok(());
        }
        let (near, far) = self.write_ends(below.arena, first, second, below.above)?;
        let link = link_at(place, &near, predicate, &far);
        self.write_main(below.arena, &link, below.axioms)
    }

    /// Adds the triple from an expression to itself, for these axioms.
    pub fn write_looped(
        &mut self,
        below: &Below,
        predicate: &Name,
        id: ExprId,
    ) -> Result<(), NoMemory>
        requires held { AreHeldBelow below.now }
        requires id { id < length below.now.arena.now.trees }
        ensures { OnOk result (WritesStatement self.old self.new (looped (name_iri predicate.now)
            (form_of (tree_at below.now.arena.now.trees id))) (sets_below below.now)) }
    {
        let end = tree_end(below.arena, id, self.next);
        self.write_tree(below.arena, id)?;
        let link = link_at(Place::Subject, &end, predicate, &end);
        self.write_main(below.arena, &link, below.axioms)
    }

    /// Adds the node of each of the axioms.
    pub fn write_standing(
        &mut self,
        below: &Below,
        parts: &[Part],
        kids: &[ExprId],
    ) -> Result<(), NoMemory>
        requires held { AreHeldBelow below.now }
        requires kids { AllByRecursion (λ kid. kid < below.now.above) kids.now }
        ensures { OnOk result (WritesStatement self.old self.new
            (standing (arcs_of (placed parts.now (kids_at below.now.arena.now.trees kids.now))))
            (sets_below below.now)) }
    {
        let mut left = below.axioms;
        while let [id, others @ ..] = left {
            let node = self.fresh()?;
            self.write_arcs(below.arena, node, parts, kids, below.above)?;
            let notes = notes_of_axiom(below.arena, *id);
            self.write_notes(below.arena, &Holder::Node(node), notes)?;
            left = others;
        }
        Ok(())
    }
}
