//! Laws of OWL 2 DL's orders and forests, and of what breaks its rules.

ghost use Rattle.std.specs.Prelude.{◌≡◌, ◌↔◌, List, [], Contains};
ghost use Rattle.owl_breaches.specs.Sites.{Ontologies};
ghost use Rattle.owl_tree.specs.Ontologies.{Ontology, canonical_ontology};
ghost use Rattle.owl_tree.specs.Trees.{Tree};
ghost use Rattle.dl_rules.specs.Assertions.{ClosesRing, ForestExists, Link};
ghost use Rattle.dl_rules.specs.Definitions.{DatatypeOrderExists, Definition, IsCyclic, definitions};
ghost use Rattle.dl_rules.specs.Hierarchy.{BreaksOrder, HierarchyOrderExists, chains};
ghost use Rattle.dl_rules.specs.Properties.{Chain, Property};
ghost use Rattle.dl_rules.specs.Rules.{AreDlBreaches, IsInDL};

/// Law: an order of datatypes exists exactly where no definition is cyclic.
pub fn no_definition_is_cyclic_where_an_order_exists()
    ensures { (axioms : List Tree) → ((d : Definition) → Contains (definitions axioms) d → IsCyclic axioms d → ⊥) ↔ DatatypeOrderExists axioms }
{}

/// Law: an order of properties exists exactly where no chain breaks it.
pub fn chains_break_no_order_where_one_exists()
    ensures { (axioms : List Tree) → ((chain : Chain Property) → Contains (chains axioms) chain → BreaksOrder axioms chain → ⊥) ↔ HierarchyOrderExists axioms }
{}

/// Law: a forest of links exists exactly where none of them closes a ring.
pub fn no_link_closes_a_ring_where_a_forest_exists()
    ensures { (links : List Link) → ((l : Link) → Contains links l → ClosesRing links l → ⊥) ↔ ForestExists links }
{}

/// Law: ontologies in canonical form are in OWL 2 DL exactly where no part breaks a
/// rule.
pub fn closures_in_dl_have_no_breaches()
    ensures { (c : Ontologies) → ((o : Ontology) → Contains c.all o → canonical_ontology o ≡ o) → IsInDL c ↔ AreDlBreaches c [] }
{}
