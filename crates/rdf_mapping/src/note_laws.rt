//! Laws of annotations and reifications that are drawn, as functions that do
//! nothing.

ghost use Rattle.std.specs.Prelude.{true, ◌≡◌, ◌↔◌, ◌≤◌, ◌+◌, ◌*◌, ◌^◌, ℕ, length, List, [], ◌++◌, Contains};
ghost use Rattle.std.specs.List.{list_all};
ghost use Rattle.owl_list.specs.Ascending.{AreApart, HoldSame};
ghost use Rattle.rdf_meaning.specs.declared.role.Role.TheVariants as role;
ghost use Rattle.rdf_meaning.specs.Nodes.{carries_some, marks_role, role_of, words_of};
ghost use Rattle.rdf_meaning.specs.Statements.{Variants, noters, notes, notes_of, reifies};
ghost use Rattle.owl_kind.specs.Kinds.{Entity};
ghost use Rattle.owl_tree.specs.Equivalence.{IsEquivalent};
ghost use Rattle.owl_tree.specs.Ontologies.{HoldEquivalent, Ontology};
ghost use Rattle.owl_tree.specs.Trees.{Kids, Tree, list_of};
ghost use Rattle.rdf_mapping.specs.NoteTrees.{AreAllNotes, AreNotes, AreReadable, AreReadAs, AreSettled, AreVariants, EachSettled, annotation};
ghost use Rattle.rdf_mapping.specs.PlaceLaws.{IsRootAt};
ghost use Rattle.rdf_mapping.specs.VariantLaws.{AreOwnSets, IsOwnSet};
ghost use Rattle.rdf_graph.specs.declared.term.Term.{Term};
ghost use Rattle.rdf_graph.specs.declared.triple.Triple.{Triple};
ghost use Rattle.rdf_mapping.specs.Entries.{AreAllBeside, AreAllDeclarable, AreBeside, AreDrawn, AreEntries, Entry, IsEntryNode, IsNoterOf, IsSaid, entry_node, entry_triples, note_entries, note_links, note_roots, set_entries, set_roots};
ghost use Rattle.rdf_mapping.specs.Frames.{AreNamedApart, IsAny, IsOwn, Keeps};
ghost use Rattle.rdf_mapping.specs.Asides.{AreAside};
ghost use Rattle.rdf_mapping.specs.Drawing.{Statement};
ghost use Rattle.rdf_mapping.specs.GraphEntries.{IsAt, group_entries, group_others, group_roots, made_entries, made_nodes, made_others, made_roots, statement_entries, statement_others, statement_roots};
ghost use Rattle.rdf_mapping.specs.GroupFrames.{AreStatedApart, StatesApart, group_nodes};
ghost use Rattle.blank_labels.specs.FreshLabels.{fresh_name};
ghost use Rattle.rdf_mapping.specs.Graphs.{Group, axiom_notes, bare, graph_of, group_of, group_triples, groups_of, header_nodes, labels_of, notes_from, made_triples, set_nodes, set_triples, sets_of, statement_nodes, statement_triples};
ghost use Rattle.rdf_mapping.specs.Notes.{Notes, no_notes, note_nodes, notes_in, note_triples};

/// Laws: what is drawn of the annotations of a node, or of a triple with each
/// set of its annotations, are the annotations of the node, and the triples of
/// entries. These have the numbers of an interval, each its own. Where a graph
/// keeps what was drawn, and no other triples are of the node of an entry, such a
/// node has exactly the triples of its entry.
pub fn notes_are_drawn_by_entries()
    ensures notes { (name : ℕ → List ℕ) (x : Term) (ns : Notes) (n : ℕ)
        → AreDrawn name n (n + note_nodes ns) (note_links x ns) (note_roots x ns n) (note_entries name x ns n) (note_triples name x ns n) }
    ensures sets { (name : ℕ → List ℕ) (t : Triple) (sets : List Notes) (n : ℕ)
        → AreDrawn name n (n + set_nodes sets) [] (set_roots t sets n) (set_entries name t sets n) (set_triples name t sets n) }
    ensures own { (name : ℕ → List ℕ) (most : ℕ) → AreNamedApart name most
        → (g : List Triple) (low high : ℕ) (others : List Triple) (roots es : List Entry) (ts : List Triple)
        → high ≤ most → AreDrawn name low high others roots es ts → Keeps name IsAny g ts low high
        → ((e : Entry) (t : Triple) → Contains es e → Contains others t → t.subject
        ≡ entry_node name e → ⊥) → (e : Entry) → Contains es e
        → IsOwn IsAny g (entry_node name e) (entry_triples name e) }
{}

/// Laws: a node that has exactly the triples of an entry, whose annotations are
/// not of predicates that make a node what it is, is a reification. It reifies
/// the triple of the entry alone, and has its annotations. So has a node that
/// stands for an axiom.
pub fn entries_are_read_back()
    ensures role { (name : ℕ → List ℕ) (g : List Triple) → AreApart g → (e : Entry) → IsSaid e
        → IsOwn IsAny g (entry_node name e) (entry_triples name e) → role_of g (entry_node name e)
        ≡ role.Note }
    ensures reifies { (name : ℕ → List ℕ) (g : List Triple) → AreApart g → (e : Entry) → IsSaid e
        → IsOwn IsAny g (entry_node name e) (entry_triples name e) → (t : Triple)
        → (reifies g (entry_node name e) t ≡ true) ↔ (e.triple ≡ t) }
    ensures notes { (name : ℕ → List ℕ) (g : List Triple) → AreApart g → (e : Entry) → IsSaid e
        → IsOwn IsAny g (entry_node name e) (entry_triples name e) → (t : Triple)
        → Contains (notes_of g (entry_node name e)) t
        ↔ Contains (note_links (entry_node name e) e.notes) t }
    ensures main { (g : List Triple) (x : Term) (own : List Triple) (ns : Notes) → role_of g x
        ≡ role.Main → list_all (carries_some (words_of role.Main)) own ≡ true → AreBeside ns
        → IsOwn IsAny g x (own ++ note_links x ns) → (t : Triple) → Contains (notes_of g x) t
        ↔ Contains (note_links x ns) t }
{}

/// Laws: what is drawn gives the entries of a graph that keeps it, where nothing
/// else in it is a reification. Then the nodes that reify a triple, and have
/// annotations, are those of its entries.
pub fn noters_are_of_entries()
    ensures entries { (name : ℕ → List ℕ) (most : ℕ) → AreNamedApart name most
        → (g : List Triple) (low high : ℕ) (others : List Triple) (roots es : List Entry) (ts : List Triple)
        → high ≤ most → AreDrawn name low high others roots es ts → Keeps name IsAny g ts low high
        → ((e : Entry) (t : Triple) → Contains es e → Contains others t → t.subject
        ≡ entry_node name e → ⊥) → ((e f : Entry) → Contains es e → Contains roots f
        → f.triple.subject ≡ entry_node name e → ⊥) → ((e : Entry) → Contains es e → IsSaid e)
        → ((x : Term) → role_of g x ≡ role.Note → IsEntryNode name es x) → AreEntries name g es }
    ensures noters { (name : ℕ → List ℕ) (g : List Triple) → AreApart g → (es : List Entry)
        → AreEntries name g es → (t : Triple) (x : Term) → Contains (noters g t) x
        ↔ IsNoterOf name es t x }
{}

/// Laws: a triple of which each set of annotations is empty or an entry's, and
/// each entry has one of the sets, has variants, and these are the sets.
pub fn annotations_are_read_back()
    ensures same { (p v : Tree) (ts us : List Tree) → HoldEquivalent ts us
        → IsEquivalent (annotation p v (notes ts)) (annotation p v (notes us)) }
    ensures has { (name : ℕ → List ℕ) (g : List Triple) → AreApart g → (es : List Entry)
        → AreEntries name g es → (k : List Entity) (t : Triple) (own : List (List Tree))
        → AreOwnSets name g k es t (Contains own) → (sets : List Tree) × Variants g k t sets }
    ensures there { (name : ℕ → List ℕ) (g : List Triple) → AreApart g → (es : List Entry)
        → AreEntries name g es → (k : List Entity) (t : Triple) (own : List (List Tree))
        → AreOwnSets name g k es t (Contains own) → (sets : List Tree) → Variants g k t sets
        → (ts : List Tree) → Contains own ts
        → (us : List Tree) × Contains sets (notes us) × HoldEquivalent ts us }
    ensures back { (name : ℕ → List ℕ) (g : List Triple) → AreApart g → (es : List Entry)
        → AreEntries name g es → (k : List Entity) (t : Triple) (own : List (List Tree))
        → AreOwnSets name g k es t (Contains own) → (sets : List Tree) → Variants g k t sets
        → (s : Tree) → Contains sets s → IsOwnSet (Contains own) s }
{}

/// Laws: where the annotations of a node are settled, and the entries that reify
/// one of them are known, the triples that say them are read back as they were.
/// So it is with the annotations of an entry.
pub fn annotation_trees_are_read_back()
    ensures notes { (name : ℕ → List ℕ) (g : List Triple) → AreApart g → (es : List Entry)
        → AreEntries name g es
        → (k : List Entity) (x : Term) (ts : List Tree) (ns : Notes) (n : ℕ) (xs : List Triple)
        → AreNotes g k ts ns → AreSettled ns → EachSettled ns → HoldSame xs (note_links x ns)
        → ((f : Entry) → Contains (note_roots x ns n) f → Contains es f) → ((f : Entry)
        → Contains es f → Contains (note_links x ns) f.triple → Contains (note_roots x ns n) f)
        → AreReadAs g k xs ts }
    ensures entry { (name : ℕ → List ℕ) (g : List Triple) → AreApart g → (es : List Entry)
        → AreEntries name g es → (k : List Entity) (e : Entry) → Contains es e → (ts : List Tree)
        → AreNotes g k ts e.notes → AreSettled e.notes → EachSettled e.notes
        → AreReadAs g k (notes_of g (entry_node name e)) ts }
{}

/// Laws: a triple that is drawn with some sets of annotations has these as its
/// variants. The entries of what is drawn are said where no predicate of an
/// annotation makes a node what it is.
pub fn annotation_sets_are_read_back()
    ensures sets { (name : ℕ → List ℕ) (g : List Triple) → AreApart g → (es : List Entry)
        → AreEntries name g es
        → (k : List Entity) (t : Triple) (tss : List (List Tree)) (nss : List Notes) (n : ℕ)
        → AreAllNotes g k tss nss → (Contains nss no_notes → (ns : Notes) → Contains nss ns → ns
        ≡ no_notes) → ((f : Entry) → Contains (set_roots t nss n) f → Contains es f) → ((f : Entry)
        → Contains es f → f.triple ≡ t → Contains (set_roots t nss n) f) → (ts : List Tree)
        → Contains tss ts → AreVariants g k t tss }
    ensures notes_said { (name : ℕ → List ℕ) (x : Term) (ns : Notes) (n : ℕ) → AreAllBeside ns
        → (e : Entry) → Contains (note_entries name x ns n) e → IsSaid e }
    ensures sets_said { (name : ℕ → List ℕ) (t : Triple) (nss : List Notes) (n : ℕ) → ((ns : Notes)
        → Contains nss ns → AreAllBeside ns) → (e : Entry) → Contains (set_entries name t nss n) e
        → IsSaid e }
{}

/// Laws: an IRI that may be declared as an annotation property is no predicate
/// by which a node is what it is. Annotations whose properties and values are
/// read back are drawn as they stand.
pub fn annotation_properties_make_no_node()
    ensures beside { (ns : Notes) → AreAllDeclarable ns → AreAllBeside ns }
    ensures drawn { (g : List Triple) (k : List Entity) (ks : Kids) → AreReadable g k ks
        → AreNotes g k (list_of ks) (notes_in ks) }
{}

/// Laws: a statement with its sets of annotations, and the graph of an
/// ontology, are drawn of entries, and of triples that are of none.
pub fn graphs_are_drawn_by_entries()
    ensures statement { (name : ℕ → List ℕ) (s : Statement) (sets : List Notes) (n : ℕ)
        → AreDrawn name n (n + statement_nodes s sets) (statement_others name s sets n) (statement_roots name s sets n) (statement_entries name s sets n) (statement_triples name s sets n) }
    ensures graph { (name : ℕ → List ℕ) (o : Ontology)
        → AreDrawn name (header_nodes o.head.name) (made_nodes o) (made_others name o) (made_roots name o) (made_entries name o) (made_triples name o) }
{}

/// Laws: where the subject of a triple that is an axiom is no node that is
/// drawn, or its own, then what is drawn of axioms beside their entries is of no
/// node of an entry.
pub fn others_are_aside()
    ensures statement { (name : ℕ → List ℕ) (most : ℕ) (s : Statement) (sets : List Notes) (n : ℕ)
        → StatesApart name most s
        → AreAside name most n (n + statement_nodes s sets) (statement_others name s sets n) (statement_roots name s sets n) (statement_entries name s sets n) }
    ensures groups { (name : ℕ → List ℕ) (most : ℕ) (gs : List Group) (n : ℕ)
        → AreStatedApart name most gs
        → AreAside name most n (n + group_nodes gs) (group_others name gs n) (group_roots name gs n) (group_entries name gs n) }
{}

/// Law: the reifications in the graph of an ontology are those of the entries,
/// where nothing that is drawn beside them is a mark of one, no predicate of an
/// annotation makes a node what it is, and there are fewer nodes and labels than
/// fresh labels.
pub fn graphs_have_their_entries()
    ensures { (o : Ontology) → made_nodes o + length (labels_of o) ≤ 9 * 10 ^ 18
        → AreStatedApart (fresh_name (labels_of o)) (made_nodes o) (groups_of o.axioms)
        → AreAllBeside (notes_from o.annotations) → ((g : Group) (ns : Notes)
        → Contains (groups_of o.axioms) g → Contains g.sets ns → AreAllBeside ns) → ((t : Triple)
        → Contains (made_others (fresh_name (labels_of o)) o) t → marks_role role.Note t ≡ true → ⊥)
        → AreEntries (fresh_name (labels_of o)) (graph_of o) (made_entries (fresh_name (labels_of o)) o) }
{}

/// Laws: axioms that differ in their annotations alone are in one group, of
/// which each has the annotations as a set, and each group and set is of some
/// axiom.
pub fn groups_are_of_axioms()
    ensures axiom { (axioms : List Tree) (a : Tree) → Contains axioms a
        → Contains (groups_of axioms) (group_of axioms (bare a)) × Contains (sets_of (bare a) axioms) (axiom_notes a) }
    ensures group { (axioms : List Tree) (g : Group) → Contains (groups_of axioms) g
        → (a : Tree) × Contains axioms a × (group_of axioms (bare a) ≡ g) }
    ensures set { (axioms : List Tree) (b : Tree) (ns : Notes) → Contains (sets_of b axioms) ns
        → (a : Tree) × Contains axioms a × (bare a ≡ b) × (axiom_notes a ≡ ns) }
{}

/// Laws: each group has a place among the others, where its triples are, and
/// the entries that reify these. An entry that reifies a triple of no entry is
/// one of a node or triple of a group, or of the header.
pub fn groups_have_their_places()
    ensures place { (gs : List Group) (n : ℕ) (g : Group) → Contains gs g
        → (m : ℕ) × IsAt g m gs n }
    ensures triples { (name : ℕ → List ℕ) (g : Group) (m : ℕ) (gs : List Group) (n : ℕ)
        → IsAt g m gs n → (t : Triple) → Contains (statement_triples name g.statement g.sets m) t
        → Contains (group_triples name gs n) t }
    ensures roots { (name : ℕ → List ℕ) (g : Group) (m : ℕ) (gs : List Group) (n : ℕ)
        → IsAt g m gs n → (f : Entry) → Contains (statement_roots name g.statement g.sets m) f
        → Contains (group_roots name gs n) f }
    ensures root { (name : ℕ → List ℕ) (gs : List Group) (n : ℕ) (f : Entry)
        → Contains (group_roots name gs n) f → IsRootAt name gs n f }
    ensures again { (name : ℕ
        → List ℕ) (low high : ℕ) (others : List Triple) (roots es : List Entry) (ts : List Triple)
        → AreDrawn name low high others roots es ts → (f : Entry) → Contains es f → ((e : Entry)
        → Contains es e → f.triple.subject ≡ entry_node name e → ⊥) → Contains roots f }
{}
