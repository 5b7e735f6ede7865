//! Assemblers of documents.

ghost use Rattle.std.specs.Prelude.{◌≡◌, [], IfOk, Ok, Result};
ghost use Rattle.man_raw.specs.Opened.{shut_frames, wrapped_frames};
ghost use Rattle.man_grammar.specs.Documents.{IsReadTo};
ghost use Rattle.man_grammar.specs.Acts.{act_numbered};
ghost use Rattle.man_grammar.specs.Runs.{all_done, done};
ghost use Rattle.man_grammar.specs.States as stated;
ghost use Rattle.man_grammar.specs.States.{acted, annotated, item_begun, nested, opening_frames, plain_read, put_leaf, putting, section_begun, unnested, with_body, with_subject};
ghost use Rattle.man_grammar.specs.declared.act.Act.TheVariants as act;
ghost use Rattle.owl_reader.specs.Computing.{Computes, TurnsTo};
ghost use Rattle.owl_reader.specs.declared.fault.TokenFault as fault;
ghost use Rattle.owl_tree.specs.declared.atom.Atom as held;
ghost use Rattle.man_read.specs.Forms.{ComesFormed};
ghost use Rattle.man_read.specs.Showing.{Made, Shows};

use crate::atoms::{
    form_in, label_atom, name_atom, number_atom, place_in, plain_atom, shorthand_atom, tagged_atom,
    type_atom, typed_atom,
};
use crate::names::Names;
use man_grammar::Act;
use man_raw::{Form, Heading, Listed, MOST_NESTS, Opened, Raw, RawDoc, RawHead, Section, What};
use owl_characters::{NoMemory, Text};
use owl_lexer::Placed;
use owl_reader::{Reason, TokenFault};
use owl_tokens::Token;
use owl_tree::Atom;
use std::alloc::{AllocError, Global};

/// What was made of a document so far.
#[derive(Drop)]
pub struct Assembler {
    pub(crate) alloc: Global,
    pub(crate) names: Names,
    /// The byte of a string whose datatype or tag was not read yet.
    pub(crate) form_at: u64,
    pub(crate) form: Text,
    pub(crate) opened: Opened,
    pub(crate) head: RawHead,
    /// The annotations of the ontology.
    pub(crate) notes: Vec<Raw>,
    pub(crate) listed: Listed,
}

impl Assembler {
    /// Nothing was read.
    pub fn new(alloc: Global) -> Result<Assembler, NoMemory>
        ensures { IfOk result (λ assembler. Made [] assembler) }
    {
        Ok(Assembler {
            alloc,
            names: Names::new(alloc)?,
            form_at: 0,
            form: Text::new(alloc),
            opened: Opened::new(alloc),
            head: RawHead {
                iri: None,
                version: None,
                imports: Vec::new(alloc),
            },
            notes: Vec::new(alloc),
            listed: Listed::new(alloc),
        })
    }

    /// The document that was read.
    pub(crate) fn into_document(self) -> RawDoc
        ensures { (state : stated.State) → Shows self state → IsReadTo result state }
    {
        RawDoc {
            head: self.head,
            prefixes: self.names.into_prefixes(),
            notes: self.notes,
            items: self.listed.into_items(),
        }
    }

    /// Does acts in turn, in front of this token or of the end.
    pub(crate) fn do_all(
        &mut self,
        acts: &[u8],
        next: &Option<Placed<Token>>,
    ) -> Result<(), TokenFault>
        requires { ComesFormed next.now }
        ensures { (state : stated.State) → Shows self.old state →
            TurnsTo Shows result self.new (all_done acts.now next.now state) }
    {
        for act in acts {
            self.do_numbered(*act, next)?;
        }
        Ok(())
    }

    /// Does the act with this number, if there is one.
    fn do_numbered(&mut self, number: u8, next: &Option<Placed<Token>>) -> Result<(), TokenFault>
        requires { ComesFormed next.now }
        ensures { (state : stated.State) → Shows self.old state →
            TurnsTo Shows result self.new (done (act_numbered number) next.now state) }
    {
        match Act::numbered(number) {
            Some(act) => self.perform(act, next),
            None => Ok(()),
        }
    }

    /// Does an act.
    fn perform(&mut self, act: Act, next: &Option<Placed<Token>>) -> Result<(), TokenFault>
        requires { ComesFormed next.now }
        ensures { (state : stated.State) → Shows self.old state →
            TurnsTo Shows result self.new (acted act next.now state) }
    {
        match act {
            Act::NamePrefix => self.name_prefix(next),
            Act::DeclarePrefix => self.declare_prefix(next),
            Act::OntologyIri => self.name_ontology(next),
            Act::VersionIri => self.name_version(next),
            Act::ImportIri => self.import(next),
            Act::HeadNotes => self.annotate(),
            Act::Open => self.open(next),
            Act::Subject => self.name_item(),
            Act::Part => self.add_part(),
            Act::Nest => self.nest(),
            Act::Unnest => self.unnest(),
            Act::NoNotes => self.put_leaf(place_in(next), What::Form(Form::Notes)),
            Act::Wrap => self.wrap(),
            Act::Number => self.put(place_in(next), number_atom(next)),
            Act::Name => self.read_name(next),
            Act::TypeName => self.put(place_in(next), type_atom(self.alloc, next)),
            Act::Label => self.put(place_in(next), label_atom(self.alloc, next)),
            Act::Text => self.keep_form(next),
            Act::Plain => self.read_plain(),
            Act::Tagged => self.read_tagged(next),
            Act::Typed => self.read_typed(next),
            Act::Shorthand => self.put(place_in(next), shorthand_atom(self.alloc, next)),
            Act::Item(heading) => self.begin_item(place_in(next), heading),
            Act::Section(section) => self.begin_section(section),
            Act::Word(word) => self.put_leaf(place_in(next), What::Word(word)),
            Act::Facet(facet) => self.put_leaf(place_in(next), What::Facet(facet)),
            Act::Shut(form) => self.shut(form),
        }
    }

    /// The name of a prefix comes.
    fn name_prefix(&mut self, next: &Option<Placed<Token>>) -> Result<(), TokenFault>
        requires { ComesFormed next.now }
        ensures { (state : stated.State) → Shows self.old state →
            TurnsTo Shows result self.new (acted act.NamePrefix next.now state) }
    {
        self.names.name_prefix(self.alloc, next)
    }

    /// The IRI of a prefix comes.
    fn declare_prefix(&mut self, next: &Option<Placed<Token>>) -> Result<(), TokenFault>
        requires { ComesFormed next.now }
        ensures { (state : stated.State) → Shows self.old state →
            TurnsTo Shows result self.new (acted act.DeclarePrefix next.now state) }
    {
        self.names.declare_prefix(self.alloc, next)
    }

    /// The IRI of the ontology comes.
    fn name_ontology(&mut self, next: &Option<Placed<Token>>) -> Result<(), TokenFault>
        requires { ComesFormed next.now }
        ensures { (state : stated.State) → Shows self.old state →
            TurnsTo Shows result self.new (acted act.OntologyIri next.now state) }
    {
        let iri = self.names.iri_in(self.alloc, next)?;
        self.head.iri = Some(iri);
        Ok(())
    }

    /// The IRI of the version comes.
    fn name_version(&mut self, next: &Option<Placed<Token>>) -> Result<(), TokenFault>
        requires { ComesFormed next.now }
        ensures { (state : stated.State) → Shows self.old state →
            TurnsTo Shows result self.new (acted act.VersionIri next.now state) }
    {
        let iri = self.names.iri_in(self.alloc, next)?;
        self.head.version = Some(iri);
        Ok(())
    }

    /// The IRI of what is imported comes.
    fn import(&mut self, next: &Option<Placed<Token>>) -> Result<(), TokenFault>
        requires { ComesFormed next.now }
        ensures { (state : stated.State) → Shows self.old state →
            TurnsTo Shows result self.new (acted act.ImportIri next.now state) }
    {
        let iri = self.names.iri_in(self.alloc, next)?;
        self.head.imports.push(iri).map_err(AllocError::from)?;
        Ok(())
    }

    /// The piece that was read is annotations of the ontology.
    fn annotate(&mut self) -> Result<(), TokenFault>
        ensures { (state : stated.State) → Shows self.old state →
            TurnsTo Shows result self.new (Ok (annotated state)) }
    {
        if let Some(notes) = self.opened.take_part() {
            self.notes.push(notes).map_err(AllocError::from)?;
        }
        Ok(())
    }

    /// A piece begins at the token that comes.
    fn open(&mut self, next: &Option<Placed<Token>>) -> Result<(), TokenFault>
        ensures { (state : stated.State) → Shows self.old state →
            TurnsTo Shows result self.new (acted act.Open next.now state) }
    {
        self.opened.open(place_in(next))?;
        Ok(())
    }

    /// The piece that was read is what the frame is of.
    fn name_item(&mut self) -> Result<(), TokenFault>
        ensures { (state : stated.State) → Shows self.old state →
            TurnsTo Shows result self.new (Ok (with_subject state)) }
    {
        let name = self.opened.take_part();
        self.listed.name_item(name);
        Ok(())
    }

    /// The piece that was read is a part of the section.
    fn add_part(&mut self) -> Result<(), TokenFault>
        ensures { (state : stated.State) → Shows self.old state →
            TurnsTo Shows result self.new (Ok (with_body state)) }
    {
        let pair = self.opened.take_pair();
        self.listed.add_part(pair)?;
        Ok(())
    }

    /// A nest begins.
    fn nest(&mut self) -> Result<(), TokenFault>
        ensures { (state : stated.State) → Shows self.old state →
            TurnsTo Shows result self.new (nested state) }
    {
        if self.opened.nests() >= MOST_NESTS {
            return Err(TokenFault::TooDeep);
        }
        self.opened.nest();
        Ok(())
    }

    /// A nest ends.
    fn unnest(&mut self) -> Result<(), TokenFault>
        ensures { (state : stated.State) → Shows self.old state →
            TurnsTo Shows result self.new (Ok (unnested state)) }
    {
        self.opened.unnest();
        Ok(())
    }

    /// The piece that was read last is the first part of a piece.
    fn wrap(&mut self) -> Result<(), TokenFault>
        ensures { (state : stated.State) → Shows self.old state →
            TurnsTo Shows result self.new (Ok (opening_frames state wrapped_frames)) }
    {
        self.opened.wrap()?;
        Ok(())
    }

    /// A piece ends.
    fn shut(&mut self, form: Form) -> Result<(), TokenFault>
        ensures { (state : stated.State) → Shows self.old state →
            TurnsTo Shows result self.new (Ok (opening_frames state (shut_frames form))) }
    {
        self.opened.shut(form)?;
        Ok(())
    }

    /// An item begins at this byte.
    fn begin_item(&mut self, at: u64, heading: Heading) -> Result<(), TokenFault>
        ensures { (state : stated.State) → Shows self.old state →
            TurnsTo Shows result self.new
            (Ok (item_begun at heading state)) }
    {
        self.listed.begin_item(at, heading)?;
        Ok(())
    }

    /// A section begins.
    fn begin_section(&mut self, section: Section) -> Result<(), TokenFault>
        ensures { (state : stated.State) → Shows self.old state →
            TurnsTo Shows result self.new (Ok (section_begun section state)) }
    {
        self.listed.begin_section(section);
        Ok(())
    }

    /// A piece without parts is read.
    fn put_leaf(&mut self, at: u64, what: What) -> Result<(), TokenFault>
        ensures { (state : stated.State) → Shows self.old state →
            TurnsTo Shows result self.new (Ok (put_leaf at what state)) }
    {
        self.opened.put_leaf(at, what)?;
        Ok(())
    }

    /// An atom is read, or could not be.
    fn put(&mut self, at: u64, read: Result<Atom, TokenFault>) -> Result<(), TokenFault>
        ensures { (state : stated.State) (wanted : Result held.Atom fault.TokenFault)
            → Shows self.old state → Computes read wanted →
            TurnsTo Shows result self.new (putting state at wanted) }
    {
        self.put_leaf(at, What::Atom(read?))
    }

    /// A name comes.
    fn read_name(&mut self, next: &Option<Placed<Token>>) -> Result<(), TokenFault>
        requires { ComesFormed next.now }
        ensures { (state : stated.State) → Shows self.old state →
            TurnsTo Shows result self.new (acted act.Name next.now state) }
    {
        let name = name_atom(self.alloc, &self.names, next);
        self.put(place_in(next), name)
    }

    /// A string comes, whose datatype or tag is not read yet.
    fn keep_form(&mut self, next: &Option<Placed<Token>>) -> Result<(), TokenFault>
        ensures { (state : stated.State) → Shows self.old state →
            TurnsTo Shows result self.new (acted act.Text next.now state) }
    {
        match form_in(next) {
            Some(form) => {
                self.form = Text::of(self.alloc, form.as_str())?;
                self.form_at = place_in(next);
                Ok(())
            }
            None => Err(TokenFault::Defect(Reason::NotHere)),
        }
    }

    /// The literal is the string alone.
    fn read_plain(&mut self) -> Result<(), TokenFault>
        ensures { (state : stated.State) → Shows self.old state →
            TurnsTo Shows result self.new (plain_read state) }
    {
        let literal = plain_atom(self.alloc, &self.form);
        self.put(self.form_at, literal)
    }

    /// The language tag of the string comes.
    fn read_tagged(&mut self, next: &Option<Placed<Token>>) -> Result<(), TokenFault>
        requires { ComesFormed next.now }
        ensures { (state : stated.State) → Shows self.old state →
            TurnsTo Shows result self.new (acted act.Tagged next.now state) }
    {
        let literal = tagged_atom(self.alloc, &self.form, next);
        self.put(self.form_at, literal)
    }

    /// The datatype of the string comes.
    fn read_typed(&mut self, next: &Option<Placed<Token>>) -> Result<(), TokenFault>
        requires { ComesFormed next.now }
        ensures { (state : stated.State) → Shows self.old state →
            TurnsTo Shows result self.new (acted act.Typed next.now state) }
    {
        let literal = typed_atom(self.alloc, &self.names, &self.form, next);
        self.put(self.form_at, literal)
    }
}
