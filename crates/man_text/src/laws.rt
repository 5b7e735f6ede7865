//! Laws of texts, as functions that do nothing.

ghost use Rattle.std.specs.Prelude.{◌≡◌, ◌⊎◌, Ok};
ghost use Rattle.man_resolve.specs.declared.place.Place.TheVariants as place;
ghost use Rattle.man_resolve.specs.Expressions.{Knows, meant};
ghost use Rattle.owl_tree.specs.declared.row.Sort.{Sort};
ghost use Rattle.owl_tree.specs.declared.row.Sort.TheVariants as sort;
ghost use Rattle.owl_tree.specs.Trees.{Tree};
ghost use Rattle.written_trees.specs.Written.{written_form};
ghost use Rattle.man_text.specs.Expressions.{IsExpression, TellsPropertiesApart};
ghost use Rattle.man_text.specs.Undecided.{undecided};

/// Laws: what is said of a class expression or a data range by its words alone means it,
/// under kinds that tell object properties from data properties, and is said of no other.
pub fn words_mean_their_expressions()
    ensures classes { (ks : Knows) (t : Tree) → TellsPropertiesApart ks →
        IsExpression ks sort.ClassExpression t →
        meant ks (undecided (written_form t)) place.Class ≡ Ok (written_form t) }
    ensures ranges { (ks : Knows) (t : Tree) → TellsPropertiesApart ks →
        IsExpression ks sort.DataRange t →
        meant ks (undecided (written_form t)) place.Range ≡ Ok (written_form t) }
    ensures undecided_once { (ks : Knows) (s : Sort) (t u : Tree) → TellsPropertiesApart ks →
        (s ≡ sort.ClassExpression) ⊎ (s ≡ sort.DataRange) →
        IsExpression ks s t → IsExpression ks s u →
        undecided (written_form t) ≡ undecided (written_form u) → t ≡ u }
{}
