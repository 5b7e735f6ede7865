//! Laws of words, kinds and graphs, as functions that do nothing.

ghost use Rattle.std.specs.Prelude.{◌≡◌, ◌↔◌, ◌≤◌, ℕ, List, [], ◌∷◌, Contains, Some, length, map, true};
ghost use Rattle.owl_kind.specs.declared.kind.Kind.{Kind};
ghost use Rattle.owl_kind.specs.Kinds.{Entity, HasKind, SharesKinds};
ghost use Rattle.owl_tree.specs.declared.row.Sort.{Sort};
ghost use Rattle.owl_tree.specs.declared.row.Sort.TheVariants as sort;
ghost use Rattle.owl_tree.specs.Ontologies.{IsSameOntology, Ontology};
ghost use Rattle.owl_tree.specs.declared.tag.Tag.{Tag};
ghost use Rattle.owl_tree.specs.declared.tag.Tag.TheVariants as tag;
ghost use Rattle.owl_tree.specs.Rows.{fits, is_tag, row_of};
ghost use Rattle.owl_tree.specs.Trees.{Tree, tag_of};
ghost use Rattle.rdf_graph.specs.declared.term.Term.{Term};
ghost use Rattle.rdf_graph.specs.declared.triple.Triple.{Triple};
ghost use Rattle.rdf_meaning.specs.declared.row.Part.{Part};
ghost use Rattle.rdf_meaning.specs.declared.row.Want.{Want};
ghost use Rattle.rdf_meaning.specs.declared.row.Want.TheVariants.{One};
ghost use Rattle.rdf_meaning.specs.Denotation.{AreKeys, AtMostOne, Bearer, Denotes, Holds, IsRowOf, Lists, of_node, of_triple, simple};
ghost use Rattle.rdf_meaning.specs.Sound.{IsSoundBelow, LeadsToSound, HasSoundEnds};
ghost use Rattle.rdf_meaning.specs.Kinds.{HaveNoClash, has_kind};
ghost use Rattle.rdf_meaning.specs.Rows.{Row, axiom_rows, node_rows};
ghost use Rattle.owl_tree.specs.Tags.{is_axiom};
ghost use Rattle.std.specs.List.{list_any};
ghost use Rattle.rdf_meaning.specs.RowShapes.{is_expression, ways, ways_of_rows};
ghost use Rattle.rdf_meaning.specs.RowTests.{has_row};
ghost use Rattle.rdf_meaning.specs.declared.role.Role.{Role};
ghost use Rattle.rdf_meaning.specs.declared.role.Role.TheVariants as role;
ghost use Rattle.rdf_meaning.specs.Nodes.{IsChosenBy, carries, chosen, nodes_of, role_of};
ghost use Rattle.rdf_meaning.specs.Statements.{Annotates, AreAxioms, AreNodeAxioms, HasAxiom, HasNodeAxiom, HasNote, IsNoteOfSome, IsOfSome, IsOfSomeNode, InSteps, IsAxiomWith, IsDirectlyBelow, IsGrounded, Says, States};
ghost use Rattle.rdf_meaning.specs.Examples.{A, c, classes, complement, cycle, of_data, over, restriction, small, some_values, stated, u, union};
ghost use Rattle.rdf_meaning.specs.Words.{is_type, word_iri, word_number};
ghost use Rattle.rdf_meaning.specs.declared.word.Word.{Word};

/// Laws: no two words have one number, and no two classes, and no two
/// predicates, have one IRI. So a triple carries at most one word.
pub fn words_are_told_apart()
    ensures numbers { (a b : Word) → word_number a ≡ word_number b → a ≡ b }
    ensures iris { (a b : Word) → is_type a ≡ is_type b → word_iri a ≡ word_iri b → a ≡ b }
    ensures triple { (v w : Word) (t : Triple) → carries v t ≡ true → carries w t ≡ true → v ≡ w }
{}

/// Laws: an IRI has a kind exactly where the test says so. Where no declared IRI
/// has two kinds that it may not have (Structural Specification, section 5.8.1),
/// no IRI has, whether it is declared or not.
pub fn kinds_are_told_apart()
    ensures has_kind { (kinds : List Entity) (kind : Kind) (iri : List ℕ) → (has_kind kinds kind iri
        ≡ true) ↔ HasKind kinds kind iri }
    ensures no_shared { (kinds : List Entity) → HaveNoClash kinds → (iri : List ℕ)
        → SharesKinds kinds iri → ⊥ }
{}

/// Laws: what a word chooses of a node is the object of a triple of the node
/// that carries the word. The blank nodes of a role, but for individuals, are
/// the terms that have it.
pub fn nodes_are_by_their_triples()
    ensures chosen { (g : List Triple) (x : Term) (w : Word) (y : Term) → Contains (chosen g x w) y
        ↔ IsChosenBy g x w y }
    ensures nodes { (g : List Triple) (r : Role) (x : Term) → (r ≡ role.Individual → ⊥)
        → Contains (nodes_of g r) x ↔ (role_of g x ≡ r) }
{}

/// Laws: where no IRI has a clash, a term denotes at most one tree, a list of
/// elements or of keys one list, and parts one list of kids. At most one row of
/// an expression is of a node, so that a node denotes one tree whatever is asked
/// for, and at most one of an axiom of a node or triple.
pub fn terms_denote_one_tree()
    ensures tree { (g : List Triple) (k : List Entity) → HaveNoClash k → (x : Term) (w : Want)
        → AtMostOne (Denotes g k x w) }
    ensures list { (g : List Triple) (k : List Entity) → HaveNoClash k → (x : Term) (s : Sort)
        → AtMostOne (Lists g k x s) }
    ensures keys { (g : List Triple) (k : List Entity) → HaveNoClash k
        → (x : Term) (os ds : List Tree) → AreKeys g k x os ds → (ps es : List Tree)
        → AreKeys g k x ps es → (os ≡ ps) × (ds ≡ es) }
    ensures parts { (g : List Triple) (k : List Entity) → HaveNoClash k
        → (b : Bearer) (ps : List Part) → AtMostOne (Holds g k b ps) }
    ensures row { (g : List Triple) (k : List Entity) → HaveNoClash k → (x : Term)
        → AtMostOne (IsRowOf g k (of_node x) node_rows) }
    ensures any_sort { (g : List Triple) (k : List Entity) → HaveNoClash k
        → (x : Term) (s t : Sort) (ts us : List Tree) → has_row (role_of g x) ≡ true
        → Denotes g k x (One s) ts → Denotes g k x (One t) us → ts ≡ us }
    ensures axiom_row { (g : List Triple) (k : List Entity) → HaveNoClash k → (b : Bearer)
        → AtMostOne (IsRowOf g k b axiom_rows) }
{}

/// Laws: two ontologies that one graph states under the same kinds are
/// structurally equivalent (Structural Specification, section 2.1). So are two
/// that it says.
pub fn graphs_state_one_ontology()
    ensures states { (g : List Triple) (k : List Entity) (o p : Ontology) → States g k o
        → States g k p → IsSameOntology o p }
    ensures says { (g : List Triple) (k : List Entity) (o p : Ontology) → Says g k o → Says g k p
        → IsSameOntology o p }
{}

/// Laws: under kinds without a clash the axioms that triples are, as a list,
/// are those of each triple with each set of its annotations, and the axioms
/// that nodes stand for are those of each node with its annotations. There is
/// such a list exactly where each triple, and each node, has an axiom.
pub fn axioms_are_of_triples_and_nodes()
    ensures triples { (g : List Triple) (k : List Entity) → HaveNoClash k
        → (ts : List Triple) (us : List Tree) → AreAxioms g k ts us → (a : Tree) → Contains us a
        ↔ IsOfSome g k ts a }
    ensures each_triple { (g : List Triple) (k : List Entity) (ts : List Triple)
        → ((us : List Tree) × AreAxioms g k ts us) ↔ ((t : Triple) → Contains ts t
        → HasAxiom g k t) }
    ensures nodes { (g : List Triple) (k : List Entity) → HaveNoClash k
        → (xs : List Term) (us : List Tree) → AreNodeAxioms g k xs us → (a : Tree) → Contains us a
        ↔ IsOfSomeNode g k xs a }
    ensures each_node { (g : List Triple) (k : List Entity) (xs : List Term)
        → ((us : List Tree) × AreNodeAxioms g k xs us) ↔ ((x : Term) → Contains xs x
        → HasNodeAxiom g k x) }
{}

/// Laws: the annotations that triples say, as a list, are those of each triple
/// with each set of its own annotations. There is such a list exactly where each
/// triple says some.
pub fn annotations_are_of_triples()
    ensures triples { (g : List Triple) (k : List Entity) (ts : List Triple) (us : List Tree)
        → Annotates g k ts us → (a : Tree) → Contains us a ↔ IsNoteOfSome g k ts a }
    ensures each_triple { (g : List Triple) (k : List Entity) (ts : List Triple)
        → ((us : List Tree) × Annotates g k ts us) ↔ ((t : Triple) → Contains ts t
        → HasNote g k t) }
{}

/// Laws: each way to write the kids of an expression (Structural Specification,
/// sections 6 to 8) has its row, and its tag has no other. The tags with a row
/// are those of such expressions, and in the other table those of axioms.
pub fn rows_are_complete()
    ensures expressions { (t : Tag) → is_expression t ≡ true → ways_of_rows node_rows t
        ≡ ways (row_of t) }
    ensures expression_tags { (t : Tag) → list_any (λ row. is_tag row.tag t) node_rows
        ≡ is_expression t }
    ensures axiom_tags { (t : Tag) → list_any (λ row. is_tag row.tag t) axiom_rows ≡ is_axiom t }
{}

/// Laws: what a row gives are kids that its tag may have (Structural
/// Specification, sections 5 to 10); before those of an axiom stand its
/// annotations. So are the kids of a chain, of a group of keys, of an
/// annotation, and of a set of annotations.
pub fn rows_give_shapes()
    ensures expression { (g : List Triple) (k : List Entity) (b : Bearer) (row : Row) (ts : List Tree)
        → Contains node_rows row → Holds g k b row.parts ts → fits (row_of row.tag) (map tag_of ts)
        ≡ true }
    ensures axiom_kids { (g : List Triple) (k : List Entity) (b : Bearer) (row : Row) (ts : List Tree)
        → Contains axiom_rows row → Holds g k b row.parts ts → (n : Tree) → tag_of n ≡ tag.Notes
        → fits (row_of row.tag) (map tag_of (n ∷ ts)) ≡ true }
    ensures chain { (g : List Triple) (k : List Entity) (x : Term) (ts : List Tree) → 2 ≤ length ts
        → Lists g k x sort.ObjectPropertyExpression ts
        → fits (row_of tag.ObjectPropertyChain) (map tag_of ts) ≡ true }
    ensures object_keys { (g : List Triple) (k : List Entity) (x : Term) (os ds : List Tree)
        → AreKeys g k x os ds → fits (row_of tag.ObjectKeys) (map tag_of os) ≡ true }
    ensures data_keys { (g : List Triple) (k : List Entity) (x : Term) (os ds : List Tree)
        → AreKeys g k x os ds → fits (row_of tag.DataKeys) (map tag_of ds) ≡ true }
    ensures annotation { (g : List Triple) (k : List Entity) (x y : Term) (n p v : Tree) → tag_of n
        ≡ tag.Notes → simple g k sort.AnnotationProperty x ≡ Some p
        → simple g k sort.AnnotationValue y ≡ Some v
        → fits (row_of tag.Annotation) (map tag_of (n ∷ p ∷ v ∷ [])) ≡ true }
    ensures annotations { (g : List Triple) (k : List Entity) (ts : List Triple) (us : List Tree)
        → Annotates g k ts us → fits (row_of tag.Notes) (map tag_of us) ≡ true }
{}

/// Laws: from a term that denotes a tree, no way down over structural triples
/// goes on without end. So it is on no cycle.
pub fn denoted_nodes_are_grounded()
    ensures term { (g : List Triple) (k : List Entity) (x : Term) (s : Sort) (ts : List Tree)
        → Denotes g k x (One s) ts → IsGrounded g x }
    ensures list { (g : List Triple) (k : List Entity) (x : Term) (s : Sort) (ts : List Tree)
        → Lists g k x s ts → IsGrounded g x }
    ensures keys { (g : List Triple) (k : List Entity) (x : Term) (os ds : List Tree)
        → AreKeys g k x os ds → IsGrounded g x }
    ensures axiom_node { (g : List Triple) (k : List Entity) (x : Term) (t : Tag) (ts : List Tree)
        → IsAxiomWith g k (of_node x) t ts → IsGrounded g x }
    ensures no_cycle { (g : List Triple) (x : Term) → IsGrounded g x
        → InSteps (IsDirectlyBelow g) x x → ⊥ }
{}

/// Laws: the nodes of which a tree is denoted are sound, down to the last, and
/// so are the ends of a triple that is an axiom, and what a node leads to that
/// stands for one.
pub fn denoted_nodes_are_sound()
    ensures term { (g : List Triple) (k : List Entity) (x : Term) (s : Sort) (ts : List Tree)
        → Denotes g k x (One s) ts → IsSoundBelow g x }
    ensures ends { (g : List Triple) (k : List Entity) (t : Triple) (a : Tag) (ts : List Tree)
        → IsAxiomWith g k (of_triple t) a ts → HasSoundEnds g t }
    ensures axiom_node { (g : List Triple) (k : List Entity) (x : Term) (t : Tag) (ts : List Tree)
        → IsAxiomWith g k (of_node x) t ts → LeadsToSound g x }
    ensures grounded { (g : List Triple) (x : Term) → IsSoundBelow g x → IsGrounded g x }
{}

/// Worked cases: `_:u a owl:Class ; owl:unionOf ( :A [ a owl:Class ;
/// owl:complementOf :B ] )` denotes the union of `:A` and the complement of
/// `:B`; the kind of the property decides what a restriction denotes; a class
/// that is written as its own complement denotes nothing; and a graph says a
/// declaration and a subclass axiom whose annotation is annotated.
pub fn graphs_are_worked_out()
    ensures union { Denotes union classes u (One sort.ClassExpression)
        (over tag.ObjectUnionOf (A ∷ complement ∷ []) ∷ []) }
    ensures restriction { Denotes restriction of_data u (One sort.ClassExpression) (some_values ∷ []) }
    ensures cycle { (k : List Entity) (ts : List Tree)
        → Denotes cycle k c (One sort.ClassExpression) ts → ⊥ }
    ensures says { Says small classes stated }
{}
