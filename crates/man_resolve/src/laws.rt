//! Laws of what documents mean, as functions that do nothing.

ghost use Rattle.std.specs.Prelude.{◌≡◌, List, true};
ghost use Rattle.man_raw.specs.Documents.{DocumentTree};
ghost use Rattle.man_raw.specs.declared.form.Form.{Form};
ghost use Rattle.man_raw.specs.declared.heading.Heading.{Heading};
ghost use Rattle.man_raw.specs.declared.heading.Section.{Section};
ghost use Rattle.owl_kind.specs.Kinds.{Entity};
ghost use Rattle.owl_tree.specs.Ontologies.{IsSameOntology, Ontology};
ghost use Rattle.owl_tree.specs.declared.atom.Atom.{Atom};
ghost use Rattle.man_resolve.specs.Fitting.{atom_fits, section_fits, shape_fits};
ghost use Rattle.man_resolve.specs.Places.{sentence_of, shape_of};
ghost use Rattle.man_resolve.specs.declared.place.Place.{Place};
ghost use Rattle.man_resolve.specs.Resolved.{FramesMean, IsUnresolved};
ghost use Rattle.man_resolve.specs.declared.fault.ResolveFault.{ResolveFault};

/// Laws: what frames mean under kinds of names, within the limits, is one ontology up to
/// structural equivalence (Structural Specification, section 2.1), and why they mean
/// none is one fault, and never both.
pub fn frames_mean_one_ontology()
    ensures ontology { (d : DocumentTree) (k : List Entity) (o p : Ontology) → FramesMean d k o
        → FramesMean d k p → IsSameOntology o p }
    ensures fault { (d : DocumentTree) (k : List Entity) (e f : ResolveFault)
        → IsUnresolved d k e → IsUnresolved d k f → e ≡ f }
    ensures apart { (d : DocumentTree) (k : List Entity) (o : Ontology) (f : ResolveFault)
        → FramesMean d k o → IsUnresolved d k f → ⊥ }
{}

/// Laws: what the tables of places give fits the rows of the tags (Structural
/// Specification, sections 5 to 10). An atom is a leaf that may stand at its place, what a
/// form stands for may stand there and has kids of its row, and so have the axioms that
/// a section says.
pub fn tables_fit_rows()
    ensures atoms { (p : Place) (a : Atom) → atom_fits p a ≡ true }
    ensures shapes { (p : Place) (f : Form) → shape_fits p (shape_of p f) ≡ true }
    ensures sections { (h : Heading) (s : Section) → section_fits h (sentence_of h s) ≡ true }
{}
