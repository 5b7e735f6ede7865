//! Constructs and leaves that begin.

ghost use Rattle.std.specs.Prelude.{◌≡◌, IfSome, IsTrue, Option, Some, None};
ghost use Rattle.owl_tokens.specs.Tokens.{IsToken};
ghost use Rattle.owl_tokens.specs.declared.token.Token.{Token};
ghost use Rattle.owl_tokens.specs.declared.token.Token.TheVariants as token;
ghost use Rattle.owl_tree.specs.declared.row.AtomSort.TheVariants as atom;
ghost use Rattle.owl_tree.specs.Rows.{Leaf, row_of};
ghost use Rattle.owl_tree.specs.declared.tag.Tag.TheVariants as variant;
ghost use Rattle.fss_grammar.specs.Making.{Maker};
ghost use Rattle.fss_grammar.specs.Ready.{ComesFor, ComesName, IsReady, IsWithin};
ghost use Rattle.fss_acts.specs.Assembling.{Answers, IsComing, IsNode, May};

use crate::assembler::Assembler;
use crate::kept::Kept;
use crate::leaves::put_leaf;
use crate::refusals::of_making;
use crate::tokens::{digits_in, form_in, iri_behind, label_in, label_of, take_form};
use fss_grammar::Act;
use lexical_values::number_of;
use owl_atom::Iri;
use owl_characters::Text;
use owl_reader::TokenFault;
use owl_tokens::Token;
use owl_tree::{Atom, AtomSort, Row, Tag};

impl Assembler {
    /// A tree with this tag begins.
    pub(crate) fn begin(
        &mut self,
        tag: Tag,
        next: &Option<Token>,
        made: &mut Option<Iri>,
    ) -> Result<(), TokenFault>
        requires may { May (IsReady (Act.Begin tag) next.now) self.old }
        requires coming { IsComing self.old.prefixes next.now made.old }
        ensures { Answers (Act.Begin tag) next.now self.old result self.new }
    {
        match tag.row() {
            Row::Leaf(AtomSort::Iri) => self.begin_iri(tag, next, made),
            Row::Leaf(AtomSort::Label) => self.begin_label(tag, next),
            Row::Leaf(AtomSort::Literal) => self.begin_literal(tag, next),
            Row::Leaf(AtomSort::Number) => self.begin_number(tag, next),
            Row::Node(_, _) => self.open(tag),
        }
    }

    /// A construct is opened.
    fn open(&mut self, tag: Tag) -> Result<(), TokenFault>
        requires row { IsNode (row_of tag) }
        ensures { (next : Option Token) → Answers (Act.Begin tag) next self.old result self.new }
    {
        self.maker.made();
        match self.maker.open(tag) {
            Ok(()) => Ok(()),
            Err(fault) => Err(of_making(fault)),
        }
    }

    /// The IRI that comes is a leaf.
    fn begin_iri(
        &mut self,
        tag: Tag,
        next: &Option<Token>,
        made: &mut Option<Iri>,
    ) -> Result<(), TokenFault>
        requires row { row_of tag ≡ Leaf atom.Iri }
        requires may { May (λ m. IsWithin m × ComesName next.now) self.old }
        requires coming { IsComing self.old.prefixes next.now made.old }
        ensures { Answers (Act.Begin tag) next.now self.old result self.new }
    {
        let iri = iri_behind(self.alloc, &self.prefixes, next, made)?;
        put_leaf(&mut self.maker, tag, Atom::Iri(iri))
    }

    /// The label that comes is a leaf.
    fn begin_label(&mut self, tag: Tag, next: &Option<Token>) -> Result<(), TokenFault>
        requires row { row_of tag ≡ Leaf atom.Label }
        requires may { May (λ m. IsWithin m × ComesFor atom.Label next.now) self.old }
        requires token { IfSome next.now IsToken }
        ensures { Answers (Act.Begin tag) next.now self.old result self.new }
    {
        let label = label_of(self.alloc, label_in(next))?;
        put_leaf(&mut self.maker, tag, Atom::Label(label))
    }

    /// The number that comes is a leaf. That it is too deep is told before it is
    /// too large.
    fn begin_number(&mut self, tag: Tag, next: &Option<Token>) -> Result<(), TokenFault>
        requires row { row_of tag ≡ Leaf atom.Number }
        requires may { May (λ m. IsWithin m × ComesFor atom.Number next.now) self.old }
        requires token { IfSome next.now IsToken }
        ensures { Answers (Act.Begin tag) next.now self.old result self.new }
    {
        if self.maker.is_full() {
            return Err(TokenFault::TooDeep);
        }
        match number_of(digits_in(next)) {
            Some(number) => put_leaf(&mut self.maker, tag, Atom::Number(number)),
            None => Err(TokenFault::NumberTooLarge),
        }
    }

    /// The string that comes is kept.
    fn begin_literal(&mut self, tag: Tag, next: &Option<Token>) -> Result<(), TokenFault>
        requires row { row_of tag ≡ Leaf atom.Literal }
        requires may { May (λ m. IsWithin m × ComesFor atom.Literal next.now) self.old }
        ensures { Answers (Act.Begin tag) next.now self.old result self.new }
    {
        let form = Text::of(self.alloc, form_in(next).as_str())?;
        self.keep_text(tag, form)
    }

    /// The string that comes is taken and kept.
    pub(crate) fn keep_literal(&mut self, next: &mut Option<Token>) -> Result<(), TokenFault>
        requires may { May (IsReady (Act.Begin variant.Literal) next.old) self.old }
        ensures { Answers (Act.Begin variant.Literal) next.old self.old result self.new }
    {
        let form = take_form(next);
        self.keep_text(Tag::Literal, form)
    }

    /// A string is kept.
    fn keep_text(&mut self, tag: Tag, form: Text) -> Result<(), TokenFault>
        requires row { row_of tag ≡ Leaf atom.Literal }
        ensures { Answers (Act.Begin tag) (Some (token.Str form)) self.old result self.new }
    {
        if self.maker.is_full() {
            return Err(TokenFault::TooDeep);
        }
        self.kept = Kept::Text(tag, form);
        Ok(())
    }

    /// The IRI that comes is kept.
    pub(crate) fn hold(
        &mut self,
        next: &Option<Token>,
        made: &mut Option<Iri>,
    ) -> Result<(), TokenFault>
        requires may { May (IsReady Act.Hold next.now) self.old }
        requires coming { IsComing self.old.prefixes next.now made.old }
        ensures { Answers Act.Hold next.now self.old result self.new }
    {
        if self.maker.is_full() {
            return Err(TokenFault::TooDeep);
        }
        let iri = iri_behind(self.alloc, &self.prefixes, next, made)?;
        self.kept = Kept::Iri(iri);
        Ok(())
    }
}
