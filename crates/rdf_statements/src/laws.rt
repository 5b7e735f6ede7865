//! Laws of axioms and of parts, as functions that do nothing.

ghost use Rattle.std.specs.Prelude.{◌≤◌, List};
ghost use Rattle.owl_kind.specs.Kinds.{Entity};
ghost use Rattle.owl_tree.specs.Canonical.{canonical};
ghost use Rattle.owl_tree.specs.Trees.{Tree, depth, weight};
ghost use Rattle.rdf_graph.specs.declared.triple.Triple.{Triple};
ghost use Rattle.rdf_meaning.specs.Denotation.{Bearer};
ghost use Rattle.rdf_meaning.specs.Statements.{IsAxiomWith};
ghost use Rattle.rdf_roles.specs.Tables.{RoleTable};
ghost use Rattle.rdf_statements.specs.declared.form.AxiomForm.{AxiomForm};
ghost use Rattle.rdf_statements.specs.Forms.{AllKidsMean, IsAxiomForm};
ghost use Rattle.rdf_statements.specs.GraphTrees.{IsPartOf};

/// Law: where each kid of the form of a triple or of a node stands for a tree, the
/// triple or node is the axiom of the form's tag over these.
pub fn axiom_forms_say()
    ensures { (g : List Triple) (k : List Entity) (roles : RoleTable) (b : Bearer)
        (form : AxiomForm) (ts : List Tree) → IsAxiomForm g k roles b form
        → AllKidsMean g k roles form.kids.items ts → IsAxiomWith g k b form.tag ts }
{}

/// Laws: a part of a tree is no deeper than the tree, and its canonical form no
/// heavier.
pub fn parts_are_smaller()
    ensures depth { (t u : Tree) → IsPartOf t u → depth t ≤ depth u }
    ensures weight { (t u : Tree) → IsPartOf t u → weight (canonical t) ≤ weight (canonical u) }
{}
