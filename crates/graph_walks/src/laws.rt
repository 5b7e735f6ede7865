//! Laws of rings and forests.

ghost use Rattle.std.specs.Prelude.{ℕ, List};
ghost use Rattle.graph_walks.specs.Forests.{HasForest, HasNoRing, IsForest};

/// Law: links of which none closes a ring have a forest.
pub fn links_without_rings_have_a_forest()
    ensures { (links : List (ℕ × ℕ)) → HasNoRing links → HasForest links }
{}

/// Law: in a forest no link closes a ring.
pub fn forests_have_no_ring()
    ensures { (links parents : List (ℕ × ℕ)) → IsForest links parents → HasNoRing links }
{}
