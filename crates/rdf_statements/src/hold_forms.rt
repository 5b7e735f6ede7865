//! The axioms of forms in a store.

ghost use Rattle.std.specs.Prelude.{◌∷◌, [], Contains, IfErr, IfOk, List};
ghost use Rattle.owl_tree.specs.Trees.{Tree};
ghost use Rattle.rdf_annotations.specs.Annotations.{IsFaultOfSome};
ghost use Rattle.rdf_nodes.specs.Numbers.{AreKnown, AreNumbered};
ghost use Rattle.rdf_statements.specs.Forms.{AllKidsMean, KidMeans};
ghost use Rattle.rdf_statements.specs.Holding.{FormStands, HaveTrees, IsOfForm, IsOfKids, KidStands, KidsStand};
ghost use Rattle.tree_stores.specs.Stores.{AreStanding, Keeps, StandFor};

use crate::axioms::hold_axioms;
use crate::form::{AxiomForm, Kid};
use rdf_nodes::Source;
use std::alloc::AllocError;
use tree_stores::{TreeFault, TreeStore};

/// The numbers of the axioms of the form, one with each of the sets of annotations.
pub(crate) fn hold_form<S: TreeStore>(
    source: &Source,
    store: &mut S,
    ids: &[Option<S::Number>],
    form: &AxiomForm,
    sets: &[S::Number],
) -> Result<Vec<S::Number>, TreeFault<S::Heavy>>
    requires numbered { AreNumbered source.now.graph.now source.now.kinds.now source.now.roles.now
        (S.stands store.old) ids.now }
    requires known { AreKnown source.now.graph.now source.now.roles.now ids.now }
    requires trees { HaveTrees source.now.graph.now source.now.kinds.now source.now.roles.now
        form.now.kids.items }
    requires sets { AreStanding (S.stands store.old) sets.now }
    ensures held { (ss : List Tree) → StandFor (S.stands store.old) ss sets.now →
        IfOk result (λ axioms. FormStands source.now.graph.now source.now.kinds.now
        source.now.roles.now (S.stands store.new) form.now ss axioms.items) }
    ensures fault { (ss : List Tree) (s : Tree) → StandFor (S.stands store.old) ss sets.now
        → Contains ss s →
        IfErr result (IsFaultOfSome (IsOfForm source.now.graph.now source.now.kinds.now
        source.now.roles.now form.now ss)) }
    ensures kept { Keeps (S.stands store.old) (S.stands store.new) }
{
    let kids = hold_kids(source, store, ids, &form.kids)?;
    hold_axioms(source.alloc, store, form.tag, sets, &kids)
}

/// The numbers of the kids.
fn hold_kids<S: TreeStore>(
    source: &Source,
    store: &mut S,
    ids: &[Option<S::Number>],
    kids: &[Kid],
) -> Result<Vec<S::Number>, TreeFault<S::Heavy>>
    requires numbered { AreNumbered source.now.graph.now source.now.kinds.now source.now.roles.now
        (S.stands store.old) ids.now }
    requires known { AreKnown source.now.graph.now source.now.roles.now ids.now }
    requires trees { HaveTrees source.now.graph.now source.now.kinds.now source.now.roles.now
        kids.now }
    ensures held { IfOk result (λ ns. KidsStand source.now.graph.now source.now.kinds.now
        source.now.roles.now (S.stands store.new) kids.now ns.items) }
    ensures fault { IfErr result (IsFaultOfSome (IsOfKids source.now.graph.now
        source.now.kinds.now source.now.roles.now kids.now)) }
    ensures kept { Keeps (S.stands store.old) (S.stands store.new) }
{
    let mut numbers = Vec::new(source.alloc);
    let mut rest = kids;
    while let Some((kid, behind)) = rest.split_first() {
        let number = hold_kid(source, store, ids, kid)?;
        numbers.push(number).map_err(AllocError::from)?;
        rest = behind;
    }
    Ok(numbers)
}

/// The number of the kid.
fn hold_kid<S: TreeStore>(
    source: &Source,
    store: &mut S,
    ids: &[Option<S::Number>],
    kid: &Kid,
) -> Result<S::Number, TreeFault<S::Heavy>>
    requires numbered { AreNumbered source.now.graph.now source.now.kinds.now source.now.roles.now
        (S.stands store.old) ids.now }
    requires known { AreKnown source.now.graph.now source.now.roles.now ids.now }
    requires tree { HaveTrees source.now.graph.now source.now.kinds.now source.now.roles.now
        (kid.now ∷ []) }
    ensures held { IfOk result (KidStands source.now.graph.now source.now.kinds.now
        source.now.roles.now (S.stands store.new) kid.now) }
    ensures fault { IfErr result (IsFaultOfSome (KidMeans source.now.graph.now
        source.now.kinds.now source.now.roles.now kid.now)) }
    ensures kept { Keeps (S.stands store.old) (S.stands store.new) }
{
    match kid {
        Kid::One(operand) => Ok(source.hold_operand(store, ids, operand)?),
        Kid::Group(tag, operands) => {
            let members = source.hold_operands(store, ids, operands)?;
            store.hold_node(*tag, members)
        }
    }
}
