//! Laws of fresh labels.

ghost use Rattle.std.specs.Prelude.{◌≡◌, ◌+◌, ◌*◌, ◌<◌, ◌^◌, ℕ, Contains, List, length};
ghost use Rattle.owl_characters.specs.Names.{IsLabel};
ghost use Rattle.blank_labels.specs.FreshLabels.{fresh_name};

/// Laws: nodes with other numbers have other labels, and none of the labels
/// beside which they were made, where numbers and labels are fewer than nine
/// times 10 to the 18th in all.
pub fn fresh_labels_are_told_apart()
    ensures apart { (labels : List (List ℕ)) (m n : ℕ) → m + length labels < 9 * 10 ^ 18
        → n + length labels < 9 * 10 ^ 18 → fresh_name labels m ≡ fresh_name labels n → m ≡ n }
    ensures fresh { (labels : List (List ℕ)) (n : ℕ) → n + length labels < 9 * 10 ^ 18
        → Contains labels (fresh_name labels n) → ⊥ }
    ensures labels { (labels : List (List ℕ)) (n : ℕ) → n + length labels < 9 * 10 ^ 18
        → IsLabel (fresh_name labels n) }
{}
