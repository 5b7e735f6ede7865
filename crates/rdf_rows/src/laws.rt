//! Laws of the triples of a node, as functions that do nothing.

ghost use Rattle.std.specs.Prelude.{◌≡◌, ◌↔◌, List, [], ◌∷◌, Some};
ghost use Rattle.rdf_graph.specs.declared.term.Term.{Term};
ghost use Rattle.rdf_graph.specs.declared.triple.Triple.{Triple};
ghost use Rattle.rdf_meaning.specs.declared.word.Word.{Word};
ghost use Rattle.rdf_meaning.specs.declared.word.Word.TheVariants as word;
ghost use Rattle.rdf_meaning.specs.Denotation.{Fits, facets_of, of_node};
ghost use Rattle.rdf_meaning.specs.Nodes.{chosen, of_subject, role_of, roles_of};
ghost use Rattle.rdf_meaning.specs.Rows.{Row};
ghost use Rattle.rdf_meaning.specs.Statements.{IsReification};
ghost use Rattle.rdf_rows.specs.Chosen.{IsReificationOf, facets, objects_with, the_cell, the_only};
ghost use Rattle.rdf_rows.specs.Fits.{FitsRow};
ghost use Rattle.rdf_rows.specs.Roles.{roles_in};

/// Laws: what the triples of a node name, what they are marks of, and which rows
/// they fit, is what the graph says of the node.
pub fn nodes_are_told_by_their_triples()
    ensures objects { (g : List Triple) (x : Term) (w : Word)
        → chosen g x w ≡ objects_with w (of_subject g x) }
    ensures roles { (g : List Triple) (x : Term) → roles_of g x ≡ roles_in (of_subject g x) }
    ensures facets { (g : List Triple) (x : Term) → facets_of g x ≡ facets (of_subject g x) }
    ensures fits { (g : List Triple) (x : Term) (row : Row)
        → Fits g (of_node x) row ↔ FitsRow (role_of g x) (of_subject g x) row }
{}

/// Laws: of what is told as the only one, as a cell, and as a reification.
pub fn only_ones_are_told()
    ensures objects { (xs : List Term) (x : Term) → (the_only xs ≡ Some x) ↔ (xs ≡ x ∷ []) }
    ensures triples { (ts : List Triple) (t : Triple) → (the_only ts ≡ Some t) ↔ (ts ≡ t ∷ []) }
    ensures cells { (ts : List Triple) (x y : Term) → (the_cell ts ≡ Some (x, y))
        ↔ ((objects_with word.First ts ≡ x ∷ []) × (objects_with word.Rest ts ≡ y ∷ [])) }
    ensures reifications { (g : List Triple) (x : Term)
        → IsReification g x ↔ IsReificationOf (of_subject g x) }
{}
