//! Laws of the grammar, as functions that do nothing.

ghost use Rattle.std.specs.Prelude.{◌↔◌, ◌≡◌, true, [], ◌∷◌, ◌++◌, List, Option, ℕ, false, map, None, Some};
ghost use Rattle.grammar.specs.Derivations.{DerivesOf, Event, Derives};
ghost use Rattle.grammar.specs.Derivations.Event.{Do, Take};
ghost use Rattle.grammar.specs.TokenFeeding.{FedTokens};
ghost use Rattle.grammar.specs.declared.symbol.Symbol.{Symbol};
ghost use Rattle.grammar.specs.declared.symbol.Symbol.TheVariants.{Rule};
ghost use Rattle.owl_atom.specs.declared.prefixes.Prefix.{Prefix};
ghost use Rattle.owl_tokens.specs.declared.token.Token.{Token};
ghost use Rattle.owl_tree.specs.declared.row.Sort.{Sort};
ghost use Rattle.owl_tree.specs.declared.tag.Tag.{Tag};
ghost use Rattle.owl_tree.specs.Ontologies.{Ontology};
ghost use Rattle.owl_tree.specs.Rows.{admits};
ghost use Rattle.owl_tree.specs.Trees.{Tree, tag_of};
ghost use Rattle.fss_terms.specs.Functional.{IsTableOf, PrefixDeclaration, SpellsFunctional};
ghost use Rattle.fss_terms.specs.Spelling.{IsWritten, spelling};
ghost use Rattle.fss_terms.specs.Terms.{AreTerms};
ghost use Rattle.fss_grammar.specs.Acts.{act_number};
ghost use Rattle.fss_grammar.specs.Classes.{class_of};
ghost use Rattle.fss_grammar.specs.WrittenDocuments.{DerivesDocument, DerivesTree, IsWrittenDocument, DoesDocument, LeadsTo, NoneWritten};
ghost use Rattle.fss_grammar.specs.ActingLaws.{AgreeAt};
ghost use Rattle.fss_grammar.specs.Declaring.{DeclareNothing, OntologyBehind, is_of_declaration, is_ontology};
ghost use Rattle.fss_grammar.specs.Doing.{Acts, Does};
ghost use Rattle.fss_grammar.specs.Making.{Document, Maker, Performs, beginning, Makes, Runs};
ghost use Rattle.owl_tree.specs.Frames.{Frame};
ghost use Rattle.fss_grammar.specs.Meaning.{Events, FitsOne, Parses, Suits, between};
ghost use Rattle.fss_grammar.specs.Outlines.{Resembles};
ghost use Rattle.fss_grammar.specs.DoingLaws.{ActInTurn, DoneSoFar, EndTaken, InSteps};
ghost use Rattle.fss_grammar.specs.declared.acts.Act.{Act};
ghost use Rattle.fss_grammar.specs.Page.{rule_number};
ghost use Rattle.fss_grammar.specs.Page.Rule.{one};
ghost use Rattle.fss_grammar.specs.ReadyActs.{ActsAreReady, FedActsAreReady, LastActsAreReady};
ghost use Rattle.fss_grammar.specs.Table.{functional};

/// Laws: tokens derive from the rule of a sort, with events that put trees,
/// exactly where they are written for a tree of the sort.
pub fn trees_derive_as_written()
    ensures written { (prefixes : List Prefix) (sort : Sort) (tokens : List Token)
        (events : Events) →
        DerivesOf class_of functional (Rule (rule_number (one sort)) ∷ []) tokens events →
        Parses prefixes (FitsOne sort) (Suits sort) tokens events }
    ensures derives { (prefixes : List Prefix) (sort : Sort) (within : Tag)
        (tokens : List Token) (tree : Tree) → IsWritten tree → admits sort (tag_of tree) ≡ true →
        Suits sort within → AreTerms prefixes tokens (spelling within tree []) →
        (frame : Frame) (frames : List Frame) (document : Document) →
        DerivesTree prefixes sort tokens tree frame frames document }
{}

/// A law: tokens derive from the rule of documents (Structural Specification,
/// section 3.7), with events that make an ontology, exactly where they are
/// written for it.
pub fn documents_derive_as_written()
    ensures { (prefixes : List Prefix) (tokens : List Token)
        (declarations : List PrefixDeclaration) (o : Ontology) →
        DerivesDocument prefixes tokens declarations o
        ↔ IsWrittenDocument prefixes tokens declarations o }
{}

/// Laws: an act depends on the prefixes only by the IRI for which the next token
/// stands; by the declarations so far it does what it does by a table of them.
pub fn acts_go_by_tables()
    ensures alike { (p q : List Prefix) (act : Act) (next : Option Token) (m n : Maker) →
        AgreeAt p q next → Performs p act next m n → Performs q act next m n }
    ensures by_table { (p : List Prefix) (act : Act) (next : Option Token) (m n : Maker) →
        IsTableOf m.document.declarations p → Acts act next m n ↔ Performs p act next m n }
{}

/// Laws: what an act does, and what events do, is told by what was before.
pub fn acts_are_done_one_way()
    ensures act { (p : List Prefix) (act : Act) (next : Option Token) (m n k : Maker) →
        Performs p act next m n → Performs p act next m k → n ≡ k }
    ensures events { (events : Events) (m n k : Maker) →
        Does events m n → Does events m k → n ≡ k }
{}

/// A law: no two acts have one number.
pub fn acts_are_told_apart()
    ensures { (a b : Act) → act_number a ≡ act_number b → a ≡ b }
{}

/// Laws: a maker looks as the acts make it that were performed, with whatever
/// prefixes and whatever token behind each.
pub fn makers_look_as_made()
    ensures beginning { Resembles [] beginning }
    ensures act { (prefixes : List Prefix) (act : Act) (next : Option Token)
        (events : List (Event Token)) (m n : Maker) → Resembles events m →
        Performs prefixes act next m n → Resembles (events ++ Do (act_number act) ∷ []) n }
    ensures token { (token : Token) (events : List (Event Token)) (m : Maker) →
        Resembles events m → Resembles (events ++ Take token ∷ []) m }
{}

/// Laws: where the acts before were performed along a derivation of a document,
/// the next act finds in the maker what it needs; so do the acts that a parser
/// gives in front of a token, and at the end.
pub fn acts_are_ready()
    ensures along { ActsAreReady }
    ensures before { FedActsAreReady }
    ensures last { LastActsAreReady }
{}

/// Laws: events are done token by token, and in front of each token act by act.
pub fn events_are_done_in_steps()
    ensures token { (events : Events) (acts : List ℕ) (x : Token) (m n : Maker) →
        DoneSoFar events m → ActInTurn acts (Some x) m n →
        DoneSoFar (events ++ (map Do acts ++ Take x ∷ [])) n }
    ensures end { (events : Events) (acts : List ℕ) (m n : Maker) →
        DoneSoFar events m → ActInTurn acts None m n →
        Does (events ++ map Do acts) beginning n }
    ensures back { (events others : Events) (m n : Maker) → EndTaken events →
        Does (events ++ others) m n → InSteps (Does events) (Does others) m n }
{}

/// Laws: in a document there are only declarations in front of the keyword
/// Ontology, and none behind it, nor behind an act that is of no declaration.
pub fn declarations_come_first()
    ensures keyword { (tokens : List Token) (events : Events) →
        DerivesOf class_of functional (Rule 0 ∷ []) tokens events →
        OntologyBehind class_of tokens events }
    ensures act { (classes : List ℕ) (events others : List (Event ℕ)) (a : ℕ) →
        Derives functional (Rule 0 ∷ []) classes (events ++ Do a ∷ others) →
        is_of_declaration a ≡ false → DeclareNothing others }
{}

/// A law: the events of a document make by a table of all its declarations what
/// they make by the declarations before each name.
pub fn one_table_serves()
    ensures { (prefixes : List Prefix) (tokens : List Token) (events : Events)
        (declarations : List PrefixDeclaration) (o : Ontology) →
        DerivesOf class_of functional (Rule 0 ∷ []) tokens events →
        IsTableOf declarations prefixes → Makes prefixes events declarations o
        ↔ Does events beginning
        (between (record { declarations = declarations; ontology = o })) }
{}

/// A law: tokens derive from the rule of documents, with events that make an
/// ontology by the declarations before each name, exactly where they are written
/// for it.
pub fn documents_do_as_written()
    ensures { (prefixes : List Prefix) (tokens : List Token)
        (declarations : List PrefixDeclaration) (o : Ontology) →
        IsTableOf declarations prefixes → DoesDocument tokens declarations o
        ↔ IsWrittenDocument prefixes tokens declarations o }
{}

/// Laws: where a token is taken, what stands in front is done by the
/// declarations that stand there. From the keyword Ontology on, and from an act
/// on that is of no declaration, a table of all is a table of these.
pub fn documents_are_done_in_parts()
    ensures cut { (p : List Prefix) (tokens : List Token) (front rest : Events) (n : Maker) →
        DerivesOf class_of functional (Rule 0 ∷ []) tokens (front ++ rest) →
        IsTableOf n.document.declarations p → EndTaken front →
        Runs p (front ++ rest) beginning n → InSteps (Does front) (Runs p rest) beginning n }
    ensures before { (p : List Prefix) (tokens : List Token) (front rest : Events) (a : ℕ)
        (m n : Maker) →
        DerivesOf class_of functional (Rule 0 ∷ []) tokens (front ++ Do a ∷ rest) →
        is_of_declaration a ≡ false → Does (Do a ∷ rest) m n →
        IsTableOf n.document.declarations p → IsTableOf m.document.declarations p }
    ensures behind { (p : List Prefix) (tokens : List Token) (front middle rest : Events)
        (a : ℕ) (m n : Maker) →
        DerivesOf class_of functional (Rule 0 ∷ []) tokens (front ++ Do a ∷ (middle ++ rest)) →
        is_of_declaration a ≡ false → Does rest m n →
        IsTableOf n.document.declarations p → IsTableOf m.document.declarations p }
    ensures keyword { (p : List Prefix) (tokens : List Token) (front middle rest : Events)
        (x : Token) (m n : Maker) →
        DerivesOf class_of functional (Rule 0 ∷ []) tokens (front ++ Take x ∷ (middle ++ rest)) →
        is_ontology (class_of x) ≡ true → Does rest m n →
        IsTableOf n.document.declarations p → IsTableOf m.document.declarations p }
{}

/// Laws: where the acts in front of the next token, or of the end, can't be done
/// by the declarations so far, no document is written that begins with these
/// tokens.
pub fn undoable_is_unwritten()
    ensures token { (front : List Token) (x : Token) (events : Events) (acts : List ℕ)
        (m : Maker) → LeadsTo (front ++ x ∷ []) (events ++ (map Do acts ++ Take x ∷ [])) →
        DoneSoFar events m → ((n : Maker) → ActInTurn acts (Some x) m n → ⊥) →
        NoneWritten (front ++ x ∷ []) }
    ensures end { (tokens : List Token) (events : Events) (acts : List ℕ) (m : Maker) →
        ((all : Events) → DerivesOf class_of functional (Rule 0 ∷ []) tokens all →
        all ≡ events ++ map Do acts) →
        DoneSoFar events m → ((n : Maker) → ActInTurn acts None m n → ⊥) →
        (p : List Prefix) (declarations : List PrefixDeclaration) (o : Ontology) →
        IsTableOf declarations p → IsWrittenDocument p tokens declarations o → ⊥ }
    ensures act { (first others : List ℕ) (a : ℕ) (next : Option Token) (m k : Maker) →
        ActInTurn first next m k →
        ((act : Act) (n : Maker) → act_number act ≡ a → Acts act next k n → ⊥) →
        (n : Maker) → ActInTurn (first ++ a ∷ others) next m n → ⊥ }
    ensures spelled { (front : List Token) → NoneWritten front → (more : List Token)
        (p : List Prefix) (o : Ontology) → SpellsFunctional p o (front ++ more) → ⊥ }
{}

/// Laws: a parser that was fed tokens has given the events with which each
/// document that begins so derives. What derives for no document isn't written;
/// what the events of a whole document make is what it is written for.
pub fn fed_documents_are_written()
    ensures leads { (tokens : List Token) (events : Events) (expected : List Symbol) →
        FedTokens class_of functional (Rule 0 ∷ []) tokens events expected →
        LeadsTo tokens events }
    ensures underived { (front : List Token) →
        ((more : List Token) (all : Events) →
        DerivesOf class_of functional (Rule 0 ∷ []) (front ++ more) all → ⊥) →
        NoneWritten front }
    ensures written { (p : List Prefix) (tokens : List Token) (events : Events) (n : Maker) →
        DerivesOf class_of functional (Rule 0 ∷ []) tokens events →
        Does events beginning n → IsTableOf n.document.declarations p →
        IsWrittenDocument p tokens n.document.declarations n.document.ontology }
{}
