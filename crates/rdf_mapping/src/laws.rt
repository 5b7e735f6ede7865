//! Laws of graphs that are drawn, as functions that do nothing.

ghost use Rattle.std.specs.List.{filter, list_all, list_any};
ghost use Rattle.owl_list.specs.Ascending.{AreApart};
ghost use Rattle.rdf_meaning.specs.declared.word.Word.{Word};
ghost use Rattle.owl_kind.specs.Kinds.{Entity};
ghost use Rattle.owl_tree.specs.Trees.{Tree};
ghost use Rattle.owl_tree.specs.declared.row.Sort.{Sort};
ghost use Rattle.std.specs.List.{AllByRecursion};
ghost use Rattle.rdf_meaning.specs.declared.row.Want.TheVariants.{Many};
ghost use Rattle.rdf_meaning.specs.declared.row.Part.{Part};
ghost use Rattle.rdf_mapping.specs.Drawing.{arcs_of, fit, form_of, kid_of, listed, placed, tags_of};
ghost use Rattle.rdf_mapping.specs.Written.{IsDrawn, IsDrawnWell, doubled, draws_at, given, written};
ghost use Rattle.rdf_meaning.specs.Denotation.{Denotes, Fits, Holds, facets_of, of_node};
ghost use Rattle.rdf_meaning.specs.Rows.{Row, axiom_rows, node_rows};
ghost use Rattle.owl_tree.specs.declared.tag.Tag.{Tag};
ghost use Rattle.owl_tree.specs.Rows.{fits, row_of};
ghost use Rattle.rdf_meaning.specs.RowShapes.{is_expression};
ghost use Rattle.rdf_mapping.specs.RowForLaws.{HasRowFor};
ghost use Rattle.owl_tree.specs.Rows.{admits, is_tag};
ghost use Rattle.owl_tree.specs.declared.tag.Tag.TheVariants as tag;
ghost use Rattle.owl_tree.specs.Trees.{Kids, list_of, node};
ghost use Rattle.rdf_mapping.specs.Drawing.{kids_seen};
ghost use Rattle.owl_doc.specs.Entities.{AreWellTyped, entities};
ghost use Rattle.owl_tree.specs.Atoms.{IsAtom};
ghost use Rattle.owl_tree.specs.declared.atom.Atom.{Atom};
ghost use Rattle.owl_tree.specs.Rows.{takes};
ghost use Rattle.owl_tree.specs.Trees.{leaf};
ghost use Rattle.rdf_mapping.specs.Written.{AreIndividuals, HasFacetNames};
ghost use Rattle.owl_tree.specs.Equivalence.{IsEquivalent};
ghost use Rattle.owl_tree.specs.Shape.{IsShaped};
ghost use Rattle.rdf_meaning.specs.Statements.{IsAxiomWith};
ghost use Rattle.owl_tree.specs.Ontologies.{Ontology};
ghost use Rattle.rdf_graph.specs.declared.term.Term.TheVariants.{Iri};
ghost use Rattle.rdf_meaning.specs.declared.row.Site.TheVariants.{TypedBy, OtherType, LinkedBy, OtherLink};
ghost use Rattle.rdf_meaning.specs.Denotation.{axiom_predicates, axiom_types, site_of};
ghost use Rattle.rdf_meaning.specs.Nodes.{is_word, type_iri};
ghost use Rattle.rdf_meaning.specs.Words.{word_iri};
ghost use Rattle.rdf_meaning.specs.Denotation.{of_triple};
ghost use Rattle.rdf_mapping.specs.LinkedLaws.{one_part, two_parts};
ghost use Rattle.std.specs.Prelude.{Some};
ghost use Rattle.owl_tree.specs.Trees.{kid, no_kids};
ghost use Rattle.rdf_mapping.specs.Drawing.{row_for, statement_of};
ghost use Rattle.rdf_mapping.specs.Spelling.{DenoteParts, SpellParts, is_at_node, is_written_well};
ghost use Rattle.rdf_meaning.specs.Nodes.{carries, chosen, first_role, is_facet, marked_roles, marks_role, role_of};
ghost use Rattle.rdf_graph.specs.declared.term.Term.TheVariants.{Blank};
ghost use Rattle.std.specs.Prelude.{suc, ◌⊎◌, map, min, false, true, ◌≡◌, ◌≤◌, ◌<◌, ◌+◌, ◌*◌, ◌^◌, [], ◌∷◌, ℕ, List, Contains, length};
ghost use Rattle.rdf_graph.specs.declared.term.Term.{Term};
ghost use Rattle.rdf_graph.specs.declared.triple.Triple.{Triple};
ghost use Rattle.rdf_mapping.specs.Forms.{Arcs, Form, arc_nodes, blank, made, nodes, term_of, triples, twice};
ghost use Rattle.rdf_mapping.specs.Frames.{AreNamedApart, EachKept, IsOfNode, IsOwn, Keeps, KeepsArcs, KeepsTwice, Lies, is_node_word, own_triples};
ghost use Rattle.rdf_mapping.specs.Drawing.{Statement, linked, linked_back, looped};
ghost use Rattle.rdf_mapping.specs.Forms.{link, plain};
ghost use Rattle.rdf_mapping.specs.Frames.{AreOwned, IsAny, IsForeign};
ghost use Rattle.rdf_mapping.specs.Graphs.{Group, graph_of, group_triples, groups_of, header_nodes, labels_of, notes_from, standing_nodes, standing_triples, statement_nodes, statement_triples};
ghost use Rattle.rdf_mapping.specs.GroupFrames.{AreNotesApart, AreStatedApart, EachGroupKept, IsSubject, KeepsStanding, KeepsLinked, KeepsLooped, StatesApart, group_nodes};
ghost use Rattle.rdf_mapping.specs.Notes.{Notes, note_nodes, note_triples};
ghost use Rattle.blank_labels.specs.FreshLabels.{fresh_name};

/// Laws: the subjects of the triples of a form are its nodes, which have the
/// numbers from its first on, and nodes of intervals that are apart are apart.
/// A graph that keeps the triples of a node with arcs has exactly its own
/// triples at the node, and keeps those of each form that its arcs lead to. So it does
/// with the two cells of a list in which one element stands twice.
pub fn forms_are_kept_apart()
    ensures subjects { (name : ℕ → List ℕ) (f : Form) (n : ℕ) (t : Triple)
        → Contains (triples name f n) t → Lies name n (n + nodes f) t.subject }
    ensures apart { (name : ℕ → List ℕ) (most : ℕ) → AreNamedApart name most
        → (a b c d : ℕ) (x : Term) → Lies name a b x → Lies name c d x → b ≤ c → d ≤ most → ⊥ }
    ensures made { (name : ℕ → List ℕ) (most : ℕ) → AreNamedApart name most
        → (g : List Triple) (arcs : Arcs) (n : ℕ) → n + nodes (made arcs) ≤ most
        → Keeps name IsOfNode g (triples name (made arcs) n) n (n + nodes (made arcs))
        → KeepsArcs name IsOfNode g arcs n }
    ensures twice { (name : ℕ → List ℕ) (most : ℕ) → AreNamedApart name most
        → (g : List Triple) (f : Form) (n : ℕ) → n + nodes (twice f) ≤ most
        → Keeps name IsOfNode g (triples name (twice f) n) n (n + nodes (twice f))
        → KeepsTwice name IsOfNode g f n }
{}

/// Laws: of a node of which a graph has exactly these triples, a word that
/// stands once at most chooses their objects, a facet is theirs, and the role is
/// the first of which they have a mark.
pub fn nodes_are_by_their_own_triples()
    ensures chosen { (g : List Triple) (x : Term) (own : List Triple) → IsOwn IsOfNode g x own
        → AreApart g → (w : Word) → is_node_word w ≡ true → length (filter (carries w) own) ≤ 1
        → chosen g x w ≡ map (λ t. t.object) (filter (carries w) own) }
    ensures facets { (g : List Triple) (x : Term) (own : List Triple) → IsOwn IsOfNode g x own
        → AreApart g → length (filter (λ t. is_facet t.predicate) own) ≤ 1 → facets_of g x
        ≡ filter (λ t. is_facet t.predicate) own }
    ensures role { (g : List Triple) (label : List ℕ) (own : List Triple)
        → IsOwn IsOfNode g (Blank label) own → role_of g (Blank label)
        ≡ first_role (filter (λ r. list_any (marks_role r) own) marked_roles) }
{}

/// Laws: each row of a node has each of its words once, which make the role of
/// the node. A node of which a graph has exactly the triples of such a row is one
/// of the row, and its parts hold what the objects denote.
pub fn nodes_are_of_the_rows_that_they_spell()
    ensures expression_rows { (row : Row) → Contains node_rows row → is_written_well row ≡ true }
    ensures axiom_rows { (row : Row) → Contains axiom_rows row → is_at_node row.site ≡ true
        → is_written_well row ≡ true }
    ensures fits { (g : List Triple) (label : List ℕ) (own : List Triple) (row : Row) → AreApart g
        → IsOwn IsOfNode g (Blank label) own → SpellParts own row.parts → is_written_well row ≡ true
        → Fits g (of_node (Blank label)) row }
    ensures holds { (g : List Triple) (k : List Entity) (label : List ℕ) (own : List Triple) (row : Row) (us : List Tree)
        → AreApart g → IsOwn IsOfNode g (Blank label) own → SpellParts own row.parts
        → DenoteParts g k own row.parts us → is_written_well row ≡ true
        → Holds g k (of_node (Blank label)) row.parts us }
{}

/// Laws: where each of some trees is drawn, what is kept of the list of them
/// denotes them as they are written, one twice where two are wanted.
pub fn lists_are_drawn()
    ensures { (name : ℕ → List ℕ) (most : ℕ) → AreNamedApart name most
        → (g : List Triple) (k : List Entity) → AreApart g → (s : Sort) (least : ℕ) (ts : List Tree)
        → least ≤ 2 → min least 1 ≤ length ts → AllByRecursion (IsDrawn name most g k s) ts
        → (n : ℕ) → n + nodes (listed least (map form_of ts)) ≤ most
        → Keeps name IsOfNode g (triples name (listed least (map form_of ts)) n) n (n + nodes (listed least (map form_of ts)))
        → Denotes g k (term_of name (listed least (map form_of ts)) n) (Many s least) (doubled least (map written ts)) }
{}

/// Law: where kids that stand at the parts of a row are drawn well, the triples
/// that are drawn by the parts carry their words, and their objects denote what
/// the parts want, which gives the kids as they are written.
pub fn parts_are_drawn()
    ensures { (name : ℕ → List ℕ) (most : ℕ) → AreNamedApart name most
        → (g : List Triple) (k : List Entity) → AreApart g → (x : Term) (ps : List Part)
        → list_all (λ p. draws_at p.place p.want) ps ≡ true → (ts : List Tree) (m : ℕ)
        → fit ps (tags_of (map kid_of ts)) ≡ true → AllByRecursion (IsDrawnWell name most g k) ts
        → m + arc_nodes (arcs_of (placed ps (map kid_of ts))) ≤ most
        → EachKept name IsOfNode g (arcs_of (placed ps (map kid_of ts))) m
        → SpellParts (own_triples name x (arcs_of (placed ps (map kid_of ts))) m) ps × DenoteParts g k (own_triples name x (arcs_of (placed ps (map kid_of ts))) m) ps (given ps (map written ts)) }
{}

/// Law: each expression has a row that its kids fit, by which it is drawn.
pub fn expressions_have_rows()
    ensures { (t : Tag) (ts : List Tag) → is_expression t ≡ true → fits (row_of t) ts ≡ true
        → HasRowFor t ts }
{}

/// Law: an expression whose kids are drawn well is drawn: what is kept of its
/// form denotes it, as it is written, wherever it may stand.
pub fn nodes_are_drawn()
    ensures { (name : ℕ → List ℕ) (most : ℕ) → AreNamedApart name most
        → (g : List Triple) (k : List Entity) → AreApart g → (s : Sort) (t : Tag) (ks : Kids)
        → is_tag tag.FacetPair t ≡ false → HasRowFor t (tags_of (kids_seen ks)) → admits s t ≡ true
        → AllByRecursion (IsDrawnWell name most g k) (list_of ks)
        → IsDrawn name most g k s (node t ks) }
{}

/// Law: a leaf that is well typed is drawn, if no label in it is of a node that
/// is more than an individual.
pub fn leaves_are_drawn()
    ensures { (g : List Triple) (k : List Entity) (name : ℕ
        → List ℕ) (most : ℕ) (t : Tag) (a : Atom) → takes (row_of t) a ≡ true → IsAtom a
        → AreWellTyped k (entities (leaf t a)) → AreIndividuals g (leaf t a)
        → IsDrawnWell name most g k (leaf t a) }
{}

/// Law: each tree that is shaped and well typed, of which no label is of a node
/// that is more than an individual, is drawn: in any graph that keeps its form,
/// the form denotes the tree as it is written, wherever it may stand.
pub fn trees_are_drawn()
    ensures { (name : ℕ → List ℕ) (most : ℕ) → AreNamedApart name most
        → (g : List Triple) (k : List Entity) → AreApart g → (t : Tree) → IsShaped t
        → AreWellTyped k (entities t) → HasFacetNames t → AreIndividuals g t
        → IsDrawnWell name most g k t }
{}

/// Law: a tree as it is written is structurally equivalent to the tree
/// (Structural Specification, section 2.1).
pub fn trees_are_written_as_equivalent_ones()
    ensures { (t : Tree) → IsEquivalent (written t) t }
{}

/// Laws: annotations begin at the term that has them, or at nodes with the
/// numbers from their first on; an axiom begins at such nodes, or at a term of
/// the ontology. So a graph that keeps all groups of axioms keeps each of them.
pub fn groups_are_kept_apart()
    ensures annotations { (name : ℕ → List ℕ) (x : Term) (ns : Notes) (n : ℕ) (t : Triple)
        → Contains (note_triples name x ns n) t → (t.subject ≡ x)
        ⊎ Lies name n (n + note_nodes ns) t.subject }
    ensures statement { (name : ℕ → List ℕ) (most : ℕ) (s : Statement) (sets : List Notes) (n : ℕ)
        → StatesApart name most s
        → AreOwned name most (statement_triples name s sets n) n (n + statement_nodes s sets) }
    ensures groups { (name : ℕ → List ℕ) (most : ℕ) → AreNamedApart name most
        → (g : List Triple) (gs : List Group) (n : ℕ) → n + group_nodes gs ≤ most
        → AreStatedApart name most gs
        → Keeps name IsAny g (group_triples name gs n) n (n + group_nodes gs)
        → EachGroupKept name g gs n }
{}

/// Laws: a graph that keeps the triples of an axiom that is a triple between two
/// forms, or from one form to itself, and is no part of a numbered node, has the
/// triple, and keeps the forms and what reifies it.
pub fn statements_are_kept()
    ensures forth { (name : ℕ → List ℕ) (most : ℕ) → AreNamedApart name most
        → (g : List Triple) (f : Form) (p : List ℕ) (q : Form) (sets : List Notes) (n : ℕ)
        → n + statement_nodes (linked f p q) sets ≤ most → StatesApart name most (linked f p q)
        → IsSubject (term_of name f n)
        → (IsOfNode (link (term_of name f n) p (term_of name q (n + nodes f)))
        → IsForeign name most (term_of name f n))
        → Keeps name IsAny g (statement_triples name (linked f p q) sets n) n (n + statement_nodes (linked f p q) sets)
        → KeepsLinked name g (link (term_of name f n) p (term_of name q (n + nodes f))) f q sets n }
    ensures back_again { (name : ℕ → List ℕ) (most : ℕ) → AreNamedApart name most
        → (g : List Triple) (f : Form) (p : List ℕ) (q : Form) (sets : List Notes) (n : ℕ)
        → n + statement_nodes (linked_back f p q) sets ≤ most
        → StatesApart name most (linked_back f p q) → IsSubject (term_of name q (n + nodes f))
        → (IsOfNode (link (term_of name q (n + nodes f)) p (term_of name f n))
        → IsForeign name most (term_of name q (n + nodes f)))
        → Keeps name IsAny g (statement_triples name (linked_back f p q) sets n) n (n + statement_nodes (linked_back f p q) sets)
        → KeepsLinked name g (link (term_of name q (n + nodes f)) p (term_of name f n)) f q sets n }
    ensures itself { (name : ℕ → List ℕ) (most : ℕ) → AreNamedApart name most
        → (g : List Triple) (p : List ℕ) (f : Form) (sets : List Notes) (n : ℕ)
        → n + statement_nodes (looped p f) sets ≤ most → StatesApart name most (looped p f)
        → IsSubject (term_of name f n) → (IsOfNode (link (term_of name f n) p (term_of name f n))
        → IsForeign name most (term_of name f n))
        → Keeps name IsAny g (statement_triples name (looped p f) sets n) n (n + statement_nodes (looped p f) sets)
        → KeepsLooped name g (link (term_of name f n) p (term_of name f n)) f sets n }
{}

/// Laws: a graph that keeps an axiom with a node of its own keeps the node, with
/// exactly its own triples, has its annotations, and keeps the nodes of the same
/// axiom with other annotations. Where the kids are drawn well the node is the
/// axiom.
pub fn axioms_with_nodes_are_drawn()
    ensures kept { (name : ℕ → List ℕ) (most : ℕ) → AreNamedApart name most
        → (g : List Triple) (arcs : Arcs) (ns : Notes) (sets : List Notes) (n : ℕ)
        → n + standing_nodes arcs (ns ∷ sets) ≤ most → AreNotesApart ns
        → Keeps name IsAny g (standing_triples name arcs (ns ∷ sets) n) n (n + standing_nodes arcs (ns ∷ sets))
        → KeepsStanding name g arcs ns sets n }
    ensures drawn { (name : ℕ → List ℕ) (most : ℕ) → AreNamedApart name most
        → (g : List Triple) (k : List Entity) → AreApart g → (r : Row) → Contains axiom_rows r
        → is_at_node r.site ≡ true → (ts : List Tree) → fit r.parts (tags_of (map kid_of ts)) ≡ true
        → AllByRecursion (IsDrawnWell name most g k) ts → (n : ℕ)
        → n + suc (arc_nodes (arcs_of (placed r.parts (map kid_of ts)))) ≤ most
        → KeepsArcs name IsOfNode g (arcs_of (placed r.parts (map kid_of ts))) n
        → IsAxiomWith g k (of_node (blank name n)) r.tag (given r.parts (map written ts)) }
{}

/// Laws: numbers for which there is room have labels of their own, and the graph
/// of an ontology keeps each group of its axioms.
pub fn graphs_keep_their_groups()
    ensures labels { (labels : List (List ℕ)) (most : ℕ) → most + length labels ≤ 9 * 10 ^ 18
        → AreNamedApart (fresh_name labels) most }
    ensures groups { (o : Ontology) (most : ℕ) → most + length (labels_of o) ≤ 9 * 10 ^ 18
        → header_nodes o.head.name + note_nodes (notes_from o.annotations) + group_nodes (groups_of o.axioms) ≤ most
        → AreStatedApart (fresh_name (labels_of o)) most (groups_of o.axioms)
        → EachGroupKept (fresh_name (labels_of o)) (graph_of o) (groups_of o.axioms) (header_nodes o.head.name + note_nodes (notes_from o.annotations)) }
{}

/// Laws: which rows may say a triple is told by its predicate, where an axiom is
/// said by it, and of a type by its class, where an axiom is said by it.
pub fn axioms_are_told_by_their_triples()
    ensures predicate { (w : Word) → list_any (is_word w) axiom_predicates ≡ true → (s o : Term)
        → site_of (link s (word_iri w) o) ≡ LinkedBy w }
    ensures class { (w : Word) → list_any (is_word w) axiom_types ≡ true → (s : Term)
        → site_of (link s type_iri (Iri (word_iri w))) ≡ TypedBy w }
    ensures other_class { (s o : Term) → ((w : Word) → Contains axiom_types w → o ≡ Iri (word_iri w)
        → ⊥) → site_of (link s type_iri o) ≡ OtherType }
    ensures other_predicate { (s o : Term) (p : List ℕ) → (p ≡ type_iri → ⊥) → ((w : Word)
        → Contains axiom_predicates w → p ≡ word_iri w → ⊥) → site_of (link s p o) ≡ OtherLink }
{}

/// Laws: an axiom whose row is a triple between two trees, or one that gives a
/// tree a type, is the triple, where a graph keeps it, and the trees are drawn.
pub fn linked_axioms_are_drawn()
    ensures linked { (name : ℕ
        → List ℕ) (most : ℕ) (g : List Triple) (k : List Entity) (r : Row) (w : Word) (s u : Sort)
        → Contains axiom_rows r → r.site ≡ LinkedBy w → list_any (is_word w) axiom_predicates ≡ true
        → r.parts ≡ two_parts s u → (a b : Tree) → IsDrawn name most g k s a
        → IsDrawn name most g k u b → (sets : List Notes) (n : ℕ)
        → n + (nodes (form_of a) + nodes (form_of b)) ≤ most
        → KeepsLinked name g (link (term_of name (form_of a) n) (word_iri w) (term_of name (form_of b) (n + nodes (form_of a)))) (form_of a) (form_of b) sets n
        → IsAxiomWith g k (of_triple (link (term_of name (form_of a) n) (word_iri w) (term_of name (form_of b) (n + nodes (form_of a))))) r.tag (written a ∷ written b ∷ []) }
    ensures statement { (t : Tag) (ns a b : Tree) (r : Row) (w : Word) (s u : Sort)
        → row_for axiom_rows t (tags_of (kid_of a ∷ kid_of b ∷ [])) ≡ Some r → r.site ≡ LinkedBy w
        → r.parts ≡ two_parts s u → statement_of (node t (kid ns (kid a (kid b no_kids))))
        ≡ linked (form_of a) (word_iri w) (form_of b) }
    ensures typed { (name : ℕ
        → List ℕ) (most : ℕ) (g : List Triple) (k : List Entity) (r : Row) (w : Word) (s : Sort)
        → Contains axiom_rows r → r.site ≡ TypedBy w → list_any (is_word w) axiom_types ≡ true
        → r.parts ≡ one_part s → (a : Tree) → IsDrawn name most g k s a
        → (sets : List Notes) (n : ℕ) → n + nodes (form_of a) ≤ most
        → KeepsLinked name g (link (term_of name (form_of a) n) type_iri (Iri (word_iri w))) (form_of a) (plain (Iri (word_iri w))) sets n
        → IsAxiomWith g k (of_triple (link (term_of name (form_of a) n) type_iri (Iri (word_iri w)))) r.tag (written a ∷ []) }
{}
