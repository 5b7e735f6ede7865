//! Laws of needed declarations, as functions that do nothing.

ghost use Rattle.std.specs.Prelude.{◌≡◌, ◌++◌, [], List, Contains};
ghost use Rattle.owl_doc.specs.Entities.{AreWellTyped};
ghost use Rattle.owl_kind.specs.Kinds.{Entity};
ghost use Rattle.owl_tree.specs.Ontologies.{Ontology};
ghost use Rattle.owl_declare.specs.Needed.{AreNeeded, named_in, with_needs};

/// Laws: with what it needs, each class, datatype and property of an ontology is declared
/// or built in, and nothing more is needed. No other declarations do that which lack one
/// of these, and what is needed is one list.
pub fn needed_declarations_are_enough()
    ensures typed { (kinds needs : List Entity) (o : Ontology) → AreNeeded kinds o needs →
        AreWellTyped (kinds ++ needs) (named_in (with_needs needs o)) }
    ensures none { (kinds needs : List Entity) (o : Ontology) → AreNeeded kinds o needs →
        AreNeeded (kinds ++ needs) (with_needs needs o) [] }
    ensures least { (kinds needs others : List Entity) (o : Ontology) → AreNeeded kinds o needs →
        AreWellTyped (kinds ++ others) (named_in o) →
        (e : Entity) → Contains needs e → Contains others e }
    ensures once { (kinds needs others : List Entity) (o : Ontology) → AreNeeded kinds o needs →
        AreNeeded kinds o others → needs ≡ others }
{}
