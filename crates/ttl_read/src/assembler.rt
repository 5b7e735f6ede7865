//! Assemblers of graphs.

ghost use Rattle.std.specs.Prelude.{◌≡◌, ◌<◌, ◌+◌, [], IfErr, IfSome, OnOk, Option, Result};
ghost use Rattle.ttl_tokens.specs.TokenForms.{IsFormed};
ghost use Rattle.ttl_grammar.specs.Acts.{act_numbered};
ghost use Rattle.ttl_grammar.specs.Runs.{all_done, done, limited};
ghost use Rattle.ttl_grammar.specs.States as stated;
ghost use Rattle.ttl_grammar.specs.States.{acted, form_in, forming, reading};
ghost use Rattle.owl_reader.specs.declared.fault.TokenFault as fault;
ghost use Rattle.ttl_grammar.specs.declared.act.Act.TheVariants as act;
ghost use Rattle.ttl_grammar.specs.declared.node.Object as node;
ghost use Rattle.ttl_tokens.specs.declared.token.Token as lexeme;
ghost use Rattle.owl_reader.specs.Computing.{Computes, TurnsTo};
ghost use Rattle.ttl_read.specs.Keeping.{most_nodes};
ghost use Rattle.ttl_read.specs.Showing.{Holds, Made, Shows, TakesNext};

use crate::facts::Facts;
use crate::labels::graph_of;
use crate::names::Names;
use crate::refusals::of_graph;
use crate::terms::{
    form_in, iri_term, label_term, plain_term, shorthand_term, tagged_term, type_term, typed_term,
};
use iri_references::Base;
use owl_characters::Text;
use owl_reader::{Reason, TokenFault};
use rdf_graph::{Graph, MOST_TRIPLES};
use std::alloc::Global;
use std::mem;
use ttl_grammar::{Act, Object};
use ttl_tokens::Token;

/// How many triples may be stated, each counted as often as it is.
const MOST_STATED: u64 = 1 << 61;

/// What was made of a document so far.
#[derive(Drop)]
pub struct Assembler {
    pub(crate) alloc: Global,
    pub(crate) names: Names,
    /// The form of a literal whose datatype or tag was not read yet.
    pub(crate) form: Text,
    pub(crate) facts: Facts,
    /// How many triples were stated, each as often as it was.
    pub(crate) stated: u64,
    /// The graph, once the document has ended.
    pub(crate) graph: Graph,
}

impl Assembler {
    /// Nothing was read, of a document with this base IRI, if it has one. Takes no
    /// memory.
    pub fn new(alloc: Global, base: Option<Base>) -> Assembler
        ensures { Made base [] result }
    {
        Assembler {
            alloc,
            names: Names::new(alloc, base),
            form: Text::new(alloc),
            facts: Facts::new(alloc),
            stated: 0,
            graph: Graph::empty(alloc),
        }
    }

    /// Does acts in turn, in front of this token or of the end.
    pub(crate) fn do_all(&mut self, acts: &[u8], next: &Option<Token>) -> Result<(), TokenFault>
        requires { IfSome next.now IsFormed }
        ensures { (state : stated.State) → Shows self.old state →
            TurnsTo Shows result self.new (all_done acts.now next.now state) }
    {
        for act in acts {
            self.do_numbered(*act, next)?;
        }
        Ok(())
    }

    /// Does the act with this number, if there is one.
    fn do_numbered(&mut self, number: u8, next: &Option<Token>) -> Result<(), TokenFault>
        requires { IfSome next.now IsFormed }
        ensures { (state : stated.State) → Shows self.old state →
            TurnsTo Shows result self.new (done (act_numbered number) next.now state) }
    {
        match Act::numbered(number) {
            Some(act) => self.perform(act, next),
            None => Ok(()),
        }
    }

    /// Does an act.
    fn perform(&mut self, act: Act, next: &Option<Token>) -> Result<(), TokenFault>
        requires { IfSome next.now IsFormed }
        ensures { (state : stated.State) → Shows self.old state →
            TurnsTo Shows result self.new (acted act next.now state) }
    {
        match act {
            Act::Iri => self.read_iri(next),
            Act::Label => self.read(label_term(self.alloc, next)),
            Act::RdfType => self.read(type_term(self.alloc)),
            Act::Subject => Ok(self.facts.name_subject()),
            Act::Predicate => Ok(self.facts.name_predicate()),
            Act::Object => {
                self.count()?;
                Ok(self.facts.add_object()?)
            }
            Act::OpenBracket => self.facts.open_bracket(),
            Act::CloseBracket => Ok(self.facts.close_bracket()),
            Act::OpenCollection => self.facts.open_collection(),
            Act::Item => {
                self.count()?;
                self.facts.add_cell()
            }
            Act::Element => {
                self.count()?;
                Ok(self.facts.add_element()?)
            }
            Act::CloseCollection => {
                self.count()?;
                Ok(self.facts.close_collection()?)
            }
            Act::Text => self.keep(next),
            Act::Plain => self.read_plain(),
            Act::Tagged => self.read_tagged(next),
            Act::Typed => self.read_typed(next),
            Act::Shorthand => self.read(shorthand_term(self.alloc, next)),
            Act::NamePrefix => self.names.name_prefix(self.alloc, next),
            Act::DeclarePrefix => self.names.declare_prefix(self.alloc, next),
            Act::DeclareBase => self.names.declare_base(self.alloc, next),
            Act::EndStatement => Ok(()),
        }
    }

    /// Counts one triple more that is stated. No time reaches what may be counted.
    fn count(&mut self) -> Result<(), TokenFault>
        ensures counted { OnOk result (self.new ≡ record self.old { stated = self.old.stated + 1 }) }
        ensures few { OnOk result (self.old.stated < most_nodes) }
        ensures memory { IfErr result (λ e. e ≡ TokenFault.Memory) }
    {
        if self.stated >= MOST_STATED {
            return Err(TokenFault::Memory);
        }
        self.stated += 1;
        Ok(())
    }

    /// A term was read, or could not be.
    fn read(&mut self, term: Result<Object, TokenFault>) -> Result<(), TokenFault>
        ensures { (state : stated.State) (wanted : Result node.Object fault.TokenFault)
            → Shows self.old state → Computes term wanted →
            TurnsTo Shows result self.new (reading state wanted) }
    {
        self.facts.read(term?);
        Ok(())
    }

    /// Reads an IRI.
    fn read_iri(&mut self, next: &Option<Token>) -> Result<(), TokenFault>
        requires { IfSome next.now IsFormed }
        ensures { (state : stated.State) → Shows self.old state →
            TurnsTo Shows result self.new (acted act.Iri next.now state) }
    {
        let term = iri_term(self.alloc, &self.names, next);
        self.read(term)
    }

    /// Reads a literal of the form that was kept alone.
    fn read_plain(&mut self) -> Result<(), TokenFault>
        ensures { (state : stated.State) (next : Option lexeme.Token) → Shows self.old state →
            TurnsTo Shows result self.new (acted act.Plain next state) }
    {
        let term = plain_term(self.alloc, &self.form);
        self.read(term)
    }

    /// Reads a language tag behind the form that was kept.
    fn read_tagged(&mut self, next: &Option<Token>) -> Result<(), TokenFault>
        requires { IfSome next.now IsFormed }
        ensures { (state : stated.State) → Shows self.old state →
            TurnsTo Shows result self.new (acted act.Tagged next.now state) }
    {
        let term = tagged_term(self.alloc, &self.form, next);
        self.read(term)
    }

    /// Reads a datatype behind the form that was kept.
    fn read_typed(&mut self, next: &Option<Token>) -> Result<(), TokenFault>
        requires { IfSome next.now IsFormed }
        ensures { (state : stated.State) → Shows self.old state →
            TurnsTo Shows result self.new (acted act.Typed next.now state) }
    {
        let term = typed_term(self.alloc, &self.names, &self.form, next);
        self.read(term)
    }

    /// Keeps the form of a literal.
    fn keep(&mut self, next: &Option<Token>) -> Result<(), TokenFault>
        ensures { (state : stated.State) → Shows self.old state →
            TurnsTo Shows result self.new (forming state (form_in next.now)) }
    {
        match form_in(next) {
            Some(form) => {
                self.form = Text::of(self.alloc, form.as_str())?;
                Ok(())
            }
            None => Err(TokenFault::Defect(Reason::NotHere)),
        }
    }

    /// Does acts in turn, and ends the document where no token comes.
    pub(crate) fn take_next(&mut self, acts: &[u8], next: Option<Token>) -> Result<(), TokenFault>
        requires { IfSome next IsFormed }
        ensures { (state : stated.State) → Shows self.old state
            → TakesNext acts.now next state result self.new }
    {
        self.do_all(acts, &next)?;
        if next.is_none() {
            return self.close();
        }
        Ok(())
    }

    /// The document ends: its blank nodes get labels, and its triples are
    /// gathered.
    fn close(&mut self) -> Result<(), TokenFault>
        ensures { (state : stated.State) → Shows self.old state
            → TurnsTo Holds result self.new (limited state) }
    {
        let facts = mem::replace(&mut self.facts, Facts::new(self.alloc));
        let triples = facts.into_triples();
        if MOST_TRIPLES < triples.len() {
            return Err(TokenFault::TooMany);
        }
        match graph_of(self.alloc, triples) {
            Ok(graph) => {
                self.graph = graph;
                Ok(())
            }
            Err(fault) => Err(of_graph(fault)),
        }
    }
}
