//! Literals and IRIs that were kept.

ghost use Rattle.std.specs.Prelude.{◌≡◌, ◌≢◌, ◌⊎◌, IfErr, IfOk, IfSome, IsNone, Option};
ghost use Rattle.std.specs.Option.{option_map};
ghost use Rattle.owl_characters.specs.Names.{IsLanguageTag};
ghost use Rattle.owl_tokens.specs.Tokens.{IsToken};
ghost use Rattle.owl_tokens.specs.declared.token.Token.{Token};
ghost use Rattle.owl_tree.specs.declared.row.AtomSort.TheVariants as atom;
ghost use Rattle.owl_tree.specs.Rows.{Leaf, row_of};
ghost use Rattle.fss_grammar.specs.Ready.{IsReady, KeepsIri, KeepsString};
ghost use Rattle.fss_acts.specs.Assembling.{Answers, AnswersHeld, IsLiteralOf, IsNoLiteral, IsComing, May};

use crate::assembler::Assembler;
use crate::kept::{take_iri, take_text};
use crate::leaves::put_leaf;
use crate::refusals::of_literal;
use crate::tokens::{iri_behind, language_in};
use fss_grammar::Act;
use owl_atom::{Iri, Literal};
use owl_characters::Text;
use owl_reader::TokenFault;
use owl_tokens::Token;
use owl_tree::{Atom, Tag};
use std::alloc::Global;

/// The literal that a string is with its datatype or its language tag.
fn literal_of(
    alloc: Global,
    form: &Text,
    datatype: Option<Iri>,
    language: Option<&Text>,
) -> Result<Literal, TokenFault>
    requires apart { IsNone datatype ⊎ IsNone language }
    requires language { IfSome language (λ l. IsLanguageTag l.now) }
    ensures ok { IfOk result (λ literal.
        IsLiteralOf form.now datatype (option_map (λ l. l.now) language.entry) literal) }
    ensures bad { IfErr result (λ f. f ≢ TokenFault.Memory →
        IsNoLiteral form.now datatype (option_map (λ l. l.now) language.entry) f) }
{
    let language = language.map(|text| text.as_str());
    match Literal::of(alloc, form.as_str(), datatype, language) {
        Ok(literal) => {
            // What was made a literal is one.
            literal.datatype();
            Ok(literal)
        }
        Err(fault) => Err(of_literal(fault)),
    }
}

impl Assembler {
    /// The string that was kept is a literal alone.
    pub(crate) fn plain(&mut self) -> Result<(), TokenFault>
        requires { May KeepsString self.old }
        ensures { (next : Option Token) → Answers Act.Plain next self.old result self.new }
    {
        let (tag, form) = take_text(&mut self.kept);
        let literal = literal_of(self.alloc, &form, None, None)?;
        put_leaf(&mut self.maker, tag, Atom::Literal(literal))
    }

    /// The string that was kept is a literal with the language tag that comes.
    pub(crate) fn tagged(&mut self, next: &Option<Token>) -> Result<(), TokenFault>
        requires may { May (IsReady Act.Tagged next.now) self.old }
        requires token { IfSome next.now IsToken }
        ensures { Answers Act.Tagged next.now self.old result self.new }
    {
        let language = language_in(next);
        let (tag, form) = take_text(&mut self.kept);
        let literal = literal_of(self.alloc, &form, None, Some(language))?;
        put_leaf(&mut self.maker, tag, Atom::Literal(literal))
    }

    /// The string that was kept is a literal with the datatype that comes.
    pub(crate) fn typed(
        &mut self,
        next: &Option<Token>,
        made: &mut Option<Iri>,
    ) -> Result<(), TokenFault>
        requires may { May (IsReady Act.Typed next.now) self.old }
        requires coming { IsComing self.old.prefixes next.now made.old }
        ensures { Answers Act.Typed next.now self.old result self.new }
    {
        let datatype = iri_behind(self.alloc, &self.prefixes, next, made)?;
        let (tag, form) = take_text(&mut self.kept);
        let literal = literal_of(self.alloc, &form, Some(datatype), None)?;
        put_leaf(&mut self.maker, tag, Atom::Literal(literal))
    }

    /// The IRI that was kept is a leaf with this tag.
    pub(crate) fn held(&mut self, tag: Tag) -> Result<(), TokenFault>
        requires row { row_of tag ≡ Leaf atom.Iri }
        requires may { May KeepsIri self.old }
        ensures { AnswersHeld tag self.old result self.new }
    {
        let iri = take_iri(&mut self.kept);
        put_leaf(&mut self.maker, tag, Atom::Iri(iri))
    }
}
