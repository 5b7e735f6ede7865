//! Laws of forms, as functions that do nothing.

ghost use Rattle.std.specs.Prelude.{◌≡◌, List, [], ◌∷◌, Some};
ghost use Rattle.owl_kind.specs.Kinds.{Entity};
ghost use Rattle.owl_tree.specs.declared.row.Sort.{Sort};
ghost use Rattle.owl_tree.specs.Trees.{Tree, kids_of, node};
ghost use Rattle.rdf_graph.specs.declared.term.Term.{Term};
ghost use Rattle.rdf_graph.specs.declared.triple.Triple.{Triple};
ghost use Rattle.rdf_meaning.specs.declared.row.Want.TheVariants.{One};
ghost use Rattle.rdf_meaning.specs.Denotation.{Denotes, sort_of};
ghost use Rattle.rdf_meaning.specs.Nodes.{role_of};
ghost use Rattle.rdf_roles.specs.Tables.{RoleTable};
ghost use Rattle.rdf_nodes.specs.declared.form.Form.{Form};
ghost use Rattle.rdf_nodes.specs.Operands.{AllMean, IsForm};

/// Law: where each operand of a node's form stands for a tree, the node denotes
/// the tree of the form's tag over these, of the sort that its role gives.
pub fn forms_denote()
    ensures { (g : List Triple) (k : List Entity) (roles : RoleTable) (x : Term)
        (form : Form) (s : Sort) (ts : List Tree) → IsForm g k roles x form
        → sort_of (role_of g x) ≡ Some s
        → AllMean g k roles form.operands.items ts
        → Denotes g k x (One s) (node form.tag (kids_of ts) ∷ []) }
{}
