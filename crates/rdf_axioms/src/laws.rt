//! Laws of axioms that are drawn, as functions that do nothing.

ghost use Rattle.std.specs.Prelude.{◌≡◌, ℕ, true, List, length};
ghost use Rattle.std.specs.List.{AllByRecursion};
ghost use Rattle.owl_doc.specs.Entities.{AreWellTyped, entities};
ghost use Rattle.owl_kind.specs.Kinds.{Entity};
ghost use Rattle.owl_list.specs.Ascending.{AreApart};
ghost use Rattle.owl_tree.specs.declared.tag.Tag.{Tag};
ghost use Rattle.owl_tree.specs.Ontologies.{IsOntology, Ontology};
ghost use Rattle.owl_tree.specs.Rows.{admits};
ghost use Rattle.owl_tree.specs.Tags.{is_axiom};
ghost use Rattle.owl_tree.specs.Trees.{Tree};
ghost use Rattle.rdf_graph.specs.declared.triple.Triple.{Triple};
ghost use Rattle.rdf_meaning.specs.Rows.{axiom_rows};
ghost use Rattle.rdf_sayable.specs.Sayable.{CanSayAll};
ghost use Rattle.rdf_normal.specs.NormalForms.{normal_form};
ghost use Rattle.rdf_mapping.specs.Drawing.{is_pair, statement_of};
ghost use Rattle.rdf_mapping.specs.Frames.{AreNamedApart};
ghost use Rattle.rdf_mapping.specs.RowForLaws.{HasRowIn};
ghost use Rattle.rdf_mapping.specs.Written.{AreIndividuals};
ghost use Rattle.rdf_axioms.specs.AxiomReading.{AreForeignLabels, IsReadBack, IsSayableAxiom};
ghost use Rattle.rdf_axioms.specs.AxiomReading.{IsWellDrawn};
ghost use Rattle.rdf_axioms.specs.AxiomRows.{CanBehind, HasPairRow, member};

/// Laws: the kids that an axiom of a normal form has behind its annotations fit
/// a row, unless one stands alone in a set of which pairs are triples, and then
/// two that are this one fit a row.
pub fn axioms_have_rows()
    ensures row { (t : Tag) (ts : List Tag) → is_axiom t ≡ true → CanBehind t ts
        → (is_pair t ≡ true → length ts ≡ 1 → ⊥) → HasRowIn axiom_rows t ts }
    ensures twice { (t u : Tag) → is_pair t ≡ true → admits (member t) u ≡ true
        → HasPairRow t u }
{}

/// Law: an axiom that can be said has a place in a graph: as a triple that says
/// an axiom, whose subject is no literal and none of the other nodes that are
/// drawn, or as a node of its own.
pub fn axioms_are_well_drawn()
    ensures { (name : ℕ → List ℕ) (most : ℕ) (k : List Entity) (a : Tree) → IsSayableAxiom k a
        → AreForeignLabels name most a → IsWellDrawn name most (statement_of a) }
{}

/// Law: an axiom that can be said is read back from each graph that has each
/// triple once and keeps what the axiom is, if no label in it is of a node that
/// is more than an individual: as an axiom that is equivalent to it, whatever
/// annotations both have.
pub fn axioms_are_read_back()
    ensures { (name : ℕ → List ℕ) (most : ℕ) → AreNamedApart name most
        → (g : List Triple) (k : List Entity) → AreApart g → (a : Tree) → IsSayableAxiom k a
        → AreIndividuals g a → IsReadBack name most g k a }
{}

/// Law: each axiom of an ontology that is its own normal form can be said, where
/// all of the ontology can be said, under kinds by which its axioms are well typed.
pub fn axioms_of_normal_forms_are_sayable()
    ensures { (k : List Entity) (o : Ontology) → IsOntology o → normal_form o ≡ o → CanSayAll o
        → AllByRecursion (λ a. AreWellTyped k (entities a)) o.axioms
        → AllByRecursion (IsSayableAxiom k) o.axioms }
{}
