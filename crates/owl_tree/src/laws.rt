//! Laws of trees and ontologies, as functions that do nothing.

ghost use Rattle.std.specs.Prelude.{◌≡◌, ◌≤◌, ◌↔◌, List, map};
ghost use Rattle.std.specs.declared.cmp.Ordering.TheVariants.{Equal};
ghost use Rattle.std.specs.Cmp.{IsTotalOrder};
ghost use Rattle.owl_tree.specs.Canonical.{canonical, SetsAscend};
ghost use Rattle.owl_tree.specs.Equivalence.{IsEquivalent};
ghost use Rattle.owl_tree.specs.Ontologies.{canonical_ontology, IsOntology, IsSameOntology, Ontology, ontology_weight};
ghost use Rattle.owl_tree.specs.Order.{tree_cmp};
ghost use Rattle.owl_tree.specs.Shape.{IsShaped};
ghost use Rattle.owl_tree.specs.Trees.{depth, kids_of, node, tag_of, Tree, weight};
ghost use Rattle.owl_tree.specs.declared.tag.Tag.{Tag};

/// Laws: trees are in one order, and only equal trees tie.
pub fn trees_are_ordered()
    ensures total { IsTotalOrder tree_cmp }
    ensures equal { (a b : Tree) → (tree_cmp a b ≡ Equal) ↔ (a ≡ b) }
{}

/// Laws: trees are structurally equivalent (Structural Specification, section
/// 2.1) exactly if they have the same canonical form. So equivalence is
/// reflexive, symmetric and transitive.
///
/// Equivalent trees have the same tag and the same depth, and if one has a
/// shape of the Structural Specification, so has the other.
pub fn equivalence_is_equal_forms()
    ensures forms { (a b : Tree) → IsEquivalent a b ↔ (canonical a ≡ canonical b) }
    ensures reflexive { (a : Tree) → IsEquivalent a a }
    ensures symmetric { (a b : Tree) → IsEquivalent a b → IsEquivalent b a }
    ensures transitive { (a b c : Tree) → IsEquivalent a b → IsEquivalent b c → IsEquivalent a c }
    ensures tag { (a b : Tree) → IsEquivalent a b → tag_of a ≡ tag_of b }
    ensures depth { (a b : Tree) → IsEquivalent a b → depth a ≡ depth b }
    ensures shape { (a b : Tree) → IsEquivalent a b → IsShaped a → IsShaped b }
{}

/// Laws: of the trees that are structurally equivalent to a tree (Structural
/// Specification, section 2.1), its canonical form is the one whose sets
/// ascend.
///
/// It has the tag and the depth of the tree, and weighs no more. It has a
/// shape of the Structural Specification exactly if the tree has. A node has
/// the same form with the forms of its kids.
pub fn canonical_forms()
    ensures equivalent { (t : Tree) → IsEquivalent t (canonical t) }
    ensures ascends { (t : Tree) → SetsAscend (canonical t) }
    ensures only { (t u : Tree) → IsEquivalent t u → SetsAscend u → u ≡ canonical t }
    ensures again { (t : Tree) → canonical (canonical t) ≡ canonical t }
    ensures tag { (t : Tree) → tag_of (canonical t) ≡ tag_of t }
    ensures depth { (t : Tree) → depth (canonical t) ≡ depth t }
    ensures weight { (t : Tree) → weight (canonical t) ≤ weight t }
    ensures shape { (t : Tree) → IsShaped t ↔ IsShaped (canonical t) }
    ensures node { (t : Tag) (kids : List Tree) → canonical (node t (kids_of (map canonical kids))) ≡ canonical (node t (kids_of kids)) }
{}

/// Laws: ontologies are structurally equivalent (Structural Specification,
/// section 2.1) exactly if they have the same canonical form. So this
/// equivalence is reflexive, symmetric and transitive, and equivalent
/// ontologies weigh the same.
///
/// An ontology is equivalent to its canonical form, which is its own canonical
/// form. If the annotations and axioms of one of two equivalent ontologies
/// have shapes of the Structural Specification, so have those of the other.
pub fn ontologies_are_same_by_equal_forms()
    ensures forms { (o p : Ontology) → IsSameOntology o p ↔ (canonical_ontology o ≡ canonical_ontology p) }
    ensures reflexive { (o : Ontology) → IsSameOntology o o }
    ensures symmetric { (o p : Ontology) → IsSameOntology o p → IsSameOntology p o }
    ensures transitive { (o p q : Ontology) → IsSameOntology o p → IsSameOntology p q → IsSameOntology o q }
    ensures weight { (o p : Ontology) → IsSameOntology o p → ontology_weight o ≡ ontology_weight p }
    ensures equivalent { (o : Ontology) → IsSameOntology o (canonical_ontology o) }
    ensures again { (o : Ontology) → canonical_ontology (canonical_ontology o) ≡ canonical_ontology o }
    ensures shape { (o p : Ontology) → IsSameOntology o p → IsOntology o → IsOntology p }
    ensures canonical_shape { (o : Ontology) → IsOntology o ↔ IsOntology (canonical_ontology o) }
{}
