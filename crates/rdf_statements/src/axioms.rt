//! Axioms in a store.

ghost use Rattle.std.specs.Prelude.{◌≡◌, ◌∷◌, IfErr, IfOk, List};
ghost use Rattle.owl_tree.specs.Trees.{Tree, kids_of, node};
ghost use Rattle.rdf_meaning.specs.Statements.{axioms_of};
ghost use Rattle.rdf_statements.specs.Holding.{IsFaultOfOne};
ghost use Rattle.tree_stores.specs.Stores.{AreStanding, IsTreeFault, Keeps, StandFor};

use owl_characters::NoMemory;
use owl_tree::Tag;
use std::alloc::{AllocError, Global};
use tree_stores::{TreeFault, TreeStore};

/// The numbers of the axioms of the tag over the kids, one with each of the sets of
/// annotations in front.
pub(crate) fn hold_axioms<S: TreeStore>(
    alloc: Global,
    store: &mut S,
    tag: Tag,
    sets: &[S::Number],
    kids: &[S::Number],
) -> Result<Vec<S::Number>, TreeFault<S::Heavy>>
    requires sets { AreStanding (S.stands store.old) sets.now }
    requires kids { AreStanding (S.stands store.old) kids.now }
    ensures held { (ss ts : List Tree) → StandFor (S.stands store.old) ss sets.now
        → StandFor (S.stands store.old) ts kids.now →
        IfOk result (λ axioms. StandFor (S.stands store.new) (axioms_of tag ts ss) axioms.items) }
    ensures fault { (ss ts : List Tree) → StandFor (S.stands store.old) ss sets.now
        → StandFor (S.stands store.old) ts kids.now →
        IfErr result (IsFaultOfOne (axioms_of tag ts ss)) }
    ensures kept { Keeps (S.stands store.old) (S.stands store.new) }
{
    let mut axioms = Vec::new(alloc);
    let mut rest = sets;
    while let Some((set, behind)) = rest.split_first() {
        let axiom = hold_axiom(alloc, store, tag, *set, kids)?;
        axioms.push(axiom).map_err(AllocError::from)?;
        rest = behind;
    }
    Ok(axioms)
}

/// The number of the axiom of the tag over the kids, with the set of annotations in
/// front.
pub(crate) fn hold_axiom<S: TreeStore>(
    alloc: Global,
    store: &mut S,
    tag: Tag,
    set: S::Number,
    kids: &[S::Number],
) -> Result<S::Number, TreeFault<S::Heavy>>
    requires { AreStanding (S.stands store.old) (set ∷ kids.now) }
    ensures held { (s : Tree) (ts : List Tree) → S.stands store.old s set
        → StandFor (S.stands store.old) ts kids.now →
        IfOk result (S.stands store.new (node tag (kids_of (s ∷ ts)))) }
    ensures fault { (s : Tree) (ts : List Tree) → S.stands store.old s set
        → StandFor (S.stands store.old) ts kids.now →
        IfErr result (IsTreeFault (node tag (kids_of (s ∷ ts)))) }
    ensures kept { Keeps (S.stands store.old) (S.stands store.new) }
{
    let all = with_set(alloc, set, kids)?;
    store.hold_node(tag, all)
}

/// The set, and then the kids.
fn with_set<N: Copy>(alloc: Global, set: N, kids: &[N]) -> Result<Vec<N>, NoMemory>
    ensures { IfOk result (λ all. all.items ≡ set ∷ kids.now) }
{
    let mut all = Vec::new(alloc);
    all.push(set).map_err(AllocError::from)?;
    all.extend_from_slice(kids)?;
    Ok(all)
}
