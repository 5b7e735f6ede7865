//! Laws of the graph of an ontology, as functions that do nothing.

ghost use Rattle.std.specs.Prelude.{◌≡◌, ◌↔◌, ◌⊎◌, ℕ, true, false, List, [], ◌∷◌, Contains, map};
ghost use Rattle.owl_kind.specs.declared.kind.Kind.{Kind};
ghost use Rattle.owl_kind.specs.declared.kind.Kind.TheVariants as kind;
ghost use Rattle.owl_kind.specs.Kinds.{Entity};
ghost use Rattle.owl_list.specs.Ascending.{AreApart, HoldSame};
ghost use Rattle.owl_tree.specs.Ontologies.{Head, Ontology};
ghost use Rattle.owl_doc.specs.Entities.{AreWellTyped, entities};
ghost use Rattle.owl_tree.specs.Shape.{IsShaped};
ghost use Rattle.owl_tree.specs.Trees.{Tree};
ghost use Rattle.rdf_meaning.specs.Rows.{Row, axiom_rows, node_rows};
ghost use Rattle.rdf_mapping.specs.Drawing.{arcs_of, fit, form_of, kid_of, placed, tags_of};
ghost use Rattle.rdf_mapping.specs.Written.{AreIndividuals, HasFacetNames, IsDrawnWell};
ghost use Rattle.rdf_graph.specs.declared.term.Term.{Term};
ghost use Rattle.rdf_graph.specs.declared.term.Term.TheVariants.{Blank};
ghost use Rattle.rdf_mapping.specs.Spelling.{SpellParts, is_at_node};
ghost use Rattle.rdf_graph.specs.declared.triple.Triple.{Triple};
ghost use Rattle.rdf_meaning.specs.declared.role.Role.TheVariants as role;
ghost use Rattle.rdf_meaning.specs.declared.word.Word.{Word};
ghost use Rattle.rdf_meaning.specs.Kinds.{has_kind, may_be_declared};
ghost use Rattle.rdf_meaning.specs.Words.{word_iri};
ghost use Rattle.rdf_meaning.specs.Nodes.{carries, is_structural, role_of};
ghost use Rattle.rdf_meaning.specs.Statements.{header_notes, headers, is_annotation_triple, is_axiom_predicate, is_header_triple, main_triples};
ghost use Rattle.rdf_mapping.specs.Entries.{IsBeside};
ghost use Rattle.rdf_mapping.specs.Frames.{AreNamedApart, IsAny, IsOfNode, IsOwn, Keeps};
ghost use Rattle.std.specs.List.{AllByRecursion};
ghost use Rattle.rdf_mapping.specs.Forms.{Arcs, Form, list_form, made, twice};
ghost use Rattle.rdf_mapping.specs.FormSorts.{AllForms, HasOwnSort, IsOfNodes};
ghost use Rattle.blank_labels.specs.FreshLabels.{fresh_name};
ghost use Rattle.rdf_mapping.specs.Graphs.{graph_of, head_triples, labels_of};
ghost use Rattle.rdf_mapping.specs.GraphLaws.{triples_of};
ghost use Rattle.rdf_mapping.specs.Sorts.{AreSorted, HasHeader, IsAside, IsFree, IsHeaderNote, IsMain, IsProperty, SaysAxiom};

/// Laws: the graph of an ontology holds exactly the triples that are made of it,
/// each once, and keeps them over any interval of nodes.
pub fn graphs_hold_what_is_made()
    ensures same { (o : Ontology) (t : Triple) → Contains (graph_of o) t
        ↔ Contains (triples_of o) t }
    ensures apart { (o : Ontology) → AreApart (graph_of o) }
    ensures keeps { (o : Ontology) (low high : ℕ)
        → Keeps (fresh_name (labels_of o)) IsAny (graph_of o) (triples_of o) low high }
{}

/// Laws: a triple that makes a node what it is has one of the words of nodes, or
/// is of a facet, and its node has a role. In a graph whose triples are sorted,
/// the main triples are those that were made as axioms.
pub fn graphs_are_sorted()
    ensures of_node { (g : List Triple) (t : Triple) → is_structural g t ≡ true → IsOfNode t }
    ensures has_role { (g : List Triple) (t : Triple) → is_structural g t ≡ true
        → role_of g t.subject ≡ role.Individual → ⊥ }
    ensures main { (g : List Triple) (k : List Entity) (header : Term) (mains : List Triple)
        → AreSorted g k header mains → HoldSame (main_triples g k header) mains }
{}

/// Laws: a property of an ontology that can be said has no IRI that means
/// something in a graph, and makes no node what it is.
pub fn properties_are_free()
    ensures free { (k : Kind) → IsProperty k → (p : List ℕ) → may_be_declared k p ≡ true
        → IsFree p }
    ensures carries { (p : List ℕ) → IsFree p → (t : Triple) → t.predicate ≡ p → (w : Word)
        → carries w t ≡ true → ⊥ }
    ensures beside { (p : List ℕ) → IsFree p → IsBeside p }
    ensures tells { (p : List ℕ) → IsFree p → is_axiom_predicate p ≡ false }
    ensures no_class { (w : Word) → may_be_declared kind.Class (word_iri w) ≡ false }
{}

/// Laws: the triples of a node with annotations belong to it, or are these; those
/// that name the ontology are the header's, and so are its annotations.
pub fn annotations_are_no_axioms()
    ensures noted { (g : List Triple) (k : List Entity) (header : Term) (t : Triple)
        → (role_of g t.subject ≡ role.Main) ⊎ (role_of g t.subject ≡ role.Note)
        → IsAside g k header t }
    ensures head { (x : Term) (h : Head) (t : Triple) → Contains (head_triples x h) t
        → is_header_triple x t ≡ true }
    ensures note { (g : List Triple) (k : List Entity) (header : Term) (t : Triple) → t.subject
        ≡ header → IsFree t.predicate → has_kind k kind.AnnotationProperty t.predicate ≡ true
        → is_annotation_triple g k header t ≡ true }
{}

/// Law: a triple that says an axiom is a main triple, if its subject is no node
/// with annotations, and, at the header, its predicate is no annotation property.
pub fn axioms_are_main_triples()
    ensures { (g : List Triple) (k : List Entity) (header : Term) (t : Triple) → SaysAxiom t
        → (t.subject ≡ header → IsFree t.predicate → has_kind k kind.AnnotationProperty t.predicate
        ≡ true → ⊥) → (role_of g t.subject ≡ role.Main → ⊥) → (role_of g t.subject ≡ role.Note → ⊥)
        → IsMain g k header t }
{}

/// Laws: what a graph keeps of a list, once or twice, makes its cells what they
/// are, if it is so with the elements. So it is with a node and what its arcs lead
/// to.
pub fn forms_make_their_nodes()
    ensures made { (name : ℕ → List ℕ) (most : ℕ) → AreNamedApart name most
        → (g : List Triple) (arcs : Arcs) → HasOwnSort name most g arcs
        → AllForms (IsOfNodes name most g) arcs → IsOfNodes name most g (made arcs) }
    ensures list { (name : ℕ → List ℕ) (most : ℕ) → AreNamedApart name most
        → (g : List Triple) (fs : List Form) → AllByRecursion (IsOfNodes name most g) fs
        → IsOfNodes name most g (list_form fs) }
    ensures twice { (name : ℕ → List ℕ) (most : ℕ) → AreNamedApart name most
        → (g : List Triple) (f : Form) → IsOfNodes name most g f → IsOfNodes name most g (twice f) }
{}

/// Law: what a graph keeps of an expression that is drawn by a row makes its
/// nodes what they are, if it is so with what is drawn of its kids.
pub fn rows_make_their_nodes()
    ensures { (name : ℕ → List ℕ) (most : ℕ) → AreNamedApart name most
        → (g : List Triple) (k : List Entity) → AreApart g → (r : Row) → Contains node_rows r
        → (ts : List Tree) → fit r.parts (tags_of (map kid_of ts)) ≡ true
        → AllByRecursion (IsDrawnWell name most g k) ts
        → AllByRecursion (λ q. IsOfNodes name most g q.form) (map kid_of ts)
        → IsOfNodes name most g (made (arcs_of (placed r.parts (map kid_of ts)))) }
{}

/// Law: what a graph keeps of the drawing of a tree that is shaped and well typed
/// makes its nodes what they are, if no label in it is of a node that is more than
/// an individual.
pub fn trees_make_their_nodes()
    ensures { (name : ℕ → List ℕ) (most : ℕ) → AreNamedApart name most
        → (g : List Triple) (k : List Entity) → AreApart g → (t : Tree) → IsShaped t
        → AreWellTyped k (entities t) → HasFacetNames t → AreIndividuals g t
        → IsOfNodes name most g (form_of t) }
{}

/// Laws: a graph of which one node alone is of type owl:Ontology has it as its
/// header. The annotations of the header are the triples that were made so, if all
/// others of its triples name the ontology, or are axioms.
pub fn headers_are_read_back()
    ensures header { (g : List Triple) (header : Term) → HasHeader g header → headers g
        ≡ header ∷ [] }
    ensures notes { (g : List Triple) (k : List Entity) (header : Term) (links : List Triple)
        → (role_of g header ≡ role.Main → ⊥) → (role_of g header ≡ role.Note → ⊥) → ((t : Triple)
        → Contains links t → Contains g t × IsHeaderNote k header t) → ((t : Triple) → Contains g t
        → t.subject ≡ header → Contains links t ⊎ ((is_header_triple header t ≡ true)
        ⊎ IsMain g k header t)) → HoldSame (header_notes g k header) links }
{}

/// Laws: a blank node without a triple that would make it what it is, is an
/// individual. One that spells the row of an axiom stands for an axiom.
pub fn roles_are_read_back()
    ensures individual { (g : List Triple) (label : List ℕ) → ((t : Triple) → Contains g t
        → t.subject ≡ Blank label → IsOfNode t → ⊥) → role_of g (Blank label) ≡ role.Individual }
    ensures main { (g : List Triple) (label : List ℕ) (own : List Triple) (row : Row) → AreApart g
        → IsOwn IsOfNode g (Blank label) own → SpellParts own row.parts → Contains axiom_rows row
        → is_at_node row.site ≡ true → role_of g (Blank label) ≡ role.Main }
{}
