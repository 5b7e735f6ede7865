//! Laws of nested text, as functions that do nothing.

ghost use Rattle.std.specs.Prelude.{◌≡◌, ℕ, List};
ghost use Rattle.owl_atom.specs.declared.prefixes.Prefix.{Prefix};
ghost use Rattle.rdf_graph.specs.declared.triple.Triple.{Triple};
ghost use Rattle.ttl_nested.specs.Forms.{Line};
ghost use Rattle.ttl_nest.specs.NestedForm.{IsNestedForm, IsNestedText};

/// A law: a graph has one nested form at most.
pub fn graphs_have_one_form()
    ensures { (g : List Triple) (lines others : List Line)
        → IsNestedForm g lines → IsNestedForm g others → lines ≡ others }
{}

/// A law: a graph has one nested text at most.
pub fn graphs_have_one_text()
    ensures { (prefixes : List Prefix) (g : List Triple) (text other : List ℕ)
        → IsNestedText prefixes g text → IsNestedText prefixes g other → text ≡ other }
{}
