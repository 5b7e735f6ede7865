//! Axioms, by the rows of the mapping.

ghost use Rattle.std.specs.Prelude.{◌<◌, ◌∷◌, [], IfOk, OnOk, length};
ghost use Rattle.std.specs.List.{AllByRecursion};
ghost use Rattle.owl_arena.specs.Held.{AreHeld, tree_at};
ghost use Rattle.rdf_meaning.specs.declared.row.Site.TheVariants as sites;
ghost use Rattle.rdf_meaning.specs.Rows.{axiom_rows};
ghost use Rattle.rdf_mapping.specs.Drawing.{by_kids, by_triple, form_of, loop_by};
ghost use Rattle.rdf_mapping.specs.Drawing.{placed, row_for, stated, stated_by, statement_of};
ghost use Rattle.rdf_forward.specs.AxiomWalks.{AreHeldBelow, IsPredicate, WritesStatement, by_two};
ghost use Rattle.rdf_forward.specs.AxiomWalks.{sets_at, sets_below};
ghost use Rattle.rdf_forward.specs.Walks.{IsDrawnBelow, drawn_form, name_iri};
ghost use Rattle.rdf_mapping.specs.Arenas.{kids_at, tags_at};

use crate::below::Below;
use crate::drawn::{Drawn, next_part};
use crate::ends::{Name, drawn_end};
use crate::writer::Writer;
use owl_arena::{Arena, ExprId};
use owl_characters::NoMemory;
use owl_tree::Tag;
use rdf_counts::is_pair;
use rdf_graph::Term;
use rdf_mapping::row_for;
use rdf_meaning::{Part, Place, Site, Word, axiom_rows};
use rdf_terms::Iri;

impl Writer {
    /// Adds the triples of these axioms, which differ from the one with this number
    /// in their annotations alone.
    pub fn write_axioms(
        &mut self,
        arena: &Arena,
        id: ExprId,
        axioms: &[ExprId],
    ) -> Result<(), NoMemory>
        requires held { id < length arena.now.trees }
        requires axioms { AreHeld arena.now.trees axioms.now }
        ensures { OnOk result (WritesStatement self.old self.new
            (statement_of (tree_at arena.now.trees id)) (sets_at arena.now.trees axioms.now)) }
    {
        match arena.kids(id) {
            [_notes, kids @ ..] => {
                let below = Below {
                    arena,
                    above: id,
                    axioms,
                };
                self.write_kids(&below, arena.tag(id), kids)
            }
            [] => Ok(()),
        }
    }

    /// Adds the triples of axioms with these kids behind their annotations.
    fn write_kids(&mut self, below: &Below, tag: Tag, kids: &[ExprId]) -> Result<(), NoMemory>
        requires held { AreHeldBelow below.now }
        requires kids { AllByRecursion (λ kid. kid < below.now.above) kids.now }
        ensures { OnOk result (WritesStatement self.old self.new
            (by_kids tag (kids_at below.now.arena.now.trees kids.now)) (sets_below below.now)) }
    {
        if let [kid] = kids {
            if is_pair(tag) {
                return self.write_loop(below, tag, *kid);
            }
        }
        self.write_row(below, tag, kids)
    }

    /// Adds the triples of axioms whose set has one member.
    fn write_loop(&mut self, below: &Below, tag: Tag, kid: ExprId) -> Result<(), NoMemory>
        requires held { AreHeldBelow below.now }
        requires kid { kid < length below.now.arena.now.trees }
        ensures { OnOk result (WritesStatement self.old self.new (loop_by
            (row_for axiom_rows tag (tags_at below.now.arena.now.trees (kid ∷ kid ∷ [])))
            (form_of (tree_at below.now.arena.now.trees kid))) (sets_below below.now)) }
    {
        let Some(row) = row_for(axiom_rows(), tag, below.arena, &[kid, kid]) else {
            return Ok(());
        };
        let Site::LinkedBy(word) = row.site else {
            return Ok(());
        };
        self.write_looped(below, &Name::Word(word), kid)
    }

    /// Adds the triples of axioms with these kids by their row.
    fn write_row(&mut self, below: &Below, tag: Tag, kids: &[ExprId]) -> Result<(), NoMemory>
        requires held { AreHeldBelow below.now }
        requires kids { AllByRecursion (λ kid. kid < below.now.above) kids.now }
        ensures { OnOk result (WritesStatement self.old self.new (stated_by
            (row_for axiom_rows tag (tags_at below.now.arena.now.trees kids.now))
            (kids_at below.now.arena.now.trees kids.now)) (sets_below below.now)) }
    {
        match row_for(axiom_rows(), tag, below.arena, kids) {
            Some(row) => self.write_site(below, row.site, row.parts, kids),
            None => Ok(()),
        }
    }

    /// Adds the triples of axioms of the site with these parts and kids.
    fn write_site(
        &mut self,
        below: &Below,
        site: Site,
        parts: &[Part],
        kids: &[ExprId],
    ) -> Result<(), NoMemory>
        requires held { AreHeldBelow below.now }
        requires kids { AllByRecursion (λ kid. kid < below.now.above) kids.now }
        ensures { OnOk result (WritesStatement self.old self.new
            (stated site (placed parts.now (kids_at below.now.arena.now.trees kids.now)))
            (sets_below below.now)) }
    {
        match site {
            Site::Node(_) => self.write_standing(below, parts, kids),
            Site::TypedBy(word) => self.write_typed(below, word, parts, kids),
            Site::OtherType => self.write_between(below, &Name::Type, parts, kids),
            Site::LinkedBy(word) => self.write_between(below, &Name::Word(word), parts, kids),
            Site::OtherLink => self.write_stated(below, parts, kids),
        }
    }

    /// Adds the triples of axioms that say of what class their one part is.
    fn write_typed(
        &mut self,
        below: &Below,
        word: Word,
        parts: &[Part],
        kids: &[ExprId],
    ) -> Result<(), NoMemory>
        requires held { AreHeldBelow below.now }
        requires kids { AllByRecursion (λ kid. kid < below.now.above) kids.now }
        ensures { OnOk result (WritesStatement self.old self.new (by_triple (sites.TypedBy word)
            (placed parts.now (kids_at below.now.arena.now.trees kids.now)))
            (sets_below below.now)) }
    {
        let Some(only) = next_part(below.arena, parts, kids, below.above) else {
            return Ok(());
        };
        if next_part(below.arena, only.parts, only.kids, below.above).is_some() {
            return Ok(());
        }
        let class = Drawn::Class(word);
        self.write_linked(below, Place::Subject, &only.drawn, &Name::Type, &class)
    }

    /// Adds the triples of axioms between their two parts.
    fn write_between(
        &mut self,
        below: &Below,
        predicate: &Name,
        parts: &[Part],
        kids: &[ExprId],
    ) -> Result<(), NoMemory>
        requires held { AreHeldBelow below.now }
        requires kids { AllByRecursion (λ kid. kid < below.now.above) kids.now }
        ensures { OnOk result (WritesStatement self.old self.new (by_two (name_iri predicate.now)
            (placed parts.now (kids_at below.now.arena.now.trees kids.now)))
            (sets_below below.now)) }
    {
        let Some(first) = next_part(below.arena, parts, kids, below.above) else {
            return Ok(());
        };
        let Some(second) = next_part(below.arena, first.parts, first.kids, below.above) else {
            return Ok(());
        };
        if next_part(below.arena, second.parts, second.kids, below.above).is_some() {
            return Ok(());
        }
        self.write_linked(below, first.place, &first.drawn, predicate, &second.drawn)
    }

    /// The IRI that is drawn, where what stands at the part is one.
    fn drawn_iri(&self, arena: &Arena, drawn: &Drawn) -> Result<Option<Iri>, NoMemory>
        requires { IsDrawnBelow (length arena.now.trees) drawn.now }
        ensures { IfOk result (λ iri. IsPredicate (drawn_form arena.now.trees drawn.now) iri) }
    {
        let end = drawn_end(arena, drawn, self.next);
        match self.term(&end)? {
            Term::Iri(iri) => Ok(Some(iri)),
            Term::Blank(_) | Term::Literal(_) => Ok(None),
        }
    }

    /// Adds the triples of axioms of which the first part is the predicate.
    fn write_stated(
        &mut self,
        below: &Below,
        parts: &[Part],
        kids: &[ExprId],
    ) -> Result<(), NoMemory>
        requires held { AreHeldBelow below.now }
        requires kids { AllByRecursion (λ kid. kid < below.now.above) kids.now }
        ensures { OnOk result (WritesStatement self.old self.new (by_triple sites.OtherLink
            (placed parts.now (kids_at below.now.arena.now.trees kids.now)))
            (sets_below below.now)) }
    {
        let Some(first) = next_part(below.arena, parts, kids, below.above) else {
            return Ok(());
        };
        let Some(second) = next_part(below.arena, first.parts, first.kids, below.above) else {
            return Ok(());
        };
        let Some(third) = next_part(below.arena, second.parts, second.kids, below.above) else {
            return Ok(());
        };
        if next_part(below.arena, third.parts, third.kids, below.above).is_some() {
            return Ok(());
        }
        let Some(predicate) = self.drawn_iri(below.arena, &first.drawn)? else {
            return Ok(());
        };
        self.write_linked(
            below,
            Place::Subject,
            &second.drawn,
            &Name::Given(&predicate),
            &third.drawn,
        )
    }
}
