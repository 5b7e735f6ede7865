//! What a document means, as steps.

ghost use Rattle.std.specs.Prelude.{◌≡◌, [], IfErr, Ok, OnOk};
ghost use Rattle.std.specs.List.{flat_map};
ghost use Rattle.owl_assembly.specs.Filling.{AreAnnotations, AreAxioms};
ghost use Rattle.man_resolve.specs.Building.{AddsAll, IsFaultOf};
ghost use Rattle.man_resolve.specs.Expressions.{all_of, knows};
ghost use Rattle.man_resolve.specs.Items.{annotations_of, axioms_of, resolved};
ghost use Rattle.man_resolve.specs.Limits.{ontology_made};
ghost use Rattle.man_resolve.specs.Making.{trees_of};

use crate::expressions::{mean_each, parts_of};
use crate::fault::ResolveFault;
use crate::items::mean_item;
use crate::place::Place;
use crate::shape::Places;
use crate::step::Step;
use man_raw::{Form, Raw, RawDoc, RawItem, What};
use owl_kind::Kinds;

/// Adds the annotations and the axioms of the document (Manchester Syntax, section
/// 2.4).
pub fn mean_document<'a>(
    kinds: &Kinds,
    raw: &'a RawDoc,
    notes: &mut Vec<Step<'a>>,
    axioms: &mut Vec<Step<'a>>,
) -> Result<(), ResolveFault>
    requires notes { notes.old.items ≡ [] }
    requires axioms { axioms.old.items ≡ [] }
    ensures made { OnOk result (resolved (knows kinds.now) raw.now
        ≡ Ok (ontology_made raw.now.head notes.new.items axioms.new.items)) }
    ensures are_annotations { OnOk result (AreAnnotations (trees_of notes.new.items)) }
    ensures are_axioms { OnOk result (AreAxioms (trees_of axioms.new.items)) }
    ensures fault { IfErr result (IsFaultOf (resolved (knows kinds.now) raw.now)) }
{
    mean_notes(kinds, &raw.notes, notes)?;
    mean_items(kinds, &raw.items, axioms)
}

/// Adds the annotations of these blocks.
fn mean_notes<'a>(
    kinds: &Kinds,
    blocks: &'a [Raw],
    steps: &mut Vec<Step<'a>>,
) -> Result<(), ResolveFault>
    ensures added { OnOk result (AddsAll steps.old.items steps.new.items
        (all_of (flat_map (annotations_of (knows kinds.now)) blocks.now))) }
    ensures fault { IfErr result (IsFaultOf
        (all_of (flat_map (annotations_of (knows kinds.now)) blocks.now))) }
{
    for block in blocks {
        mean_block(kinds, block, steps)?;
    }
    Ok(())
}

/// Adds the annotations of the block.
fn mean_block<'a>(
    kinds: &Kinds,
    block: &'a Raw,
    steps: &mut Vec<Step<'a>>,
) -> Result<(), ResolveFault>
    ensures added { OnOk result (AddsAll steps.old.items steps.new.items
        (all_of (annotations_of (knows kinds.now) block.now))) }
    ensures fault { IfErr result (IsFaultOf
        (all_of (annotations_of (knows kinds.now) block.now))) }
{
    match block.what {
        What::Form(Form::Notes) => {
            mean_each(kinds, Places::all(Place::Note), parts_of(block), 0, steps)?;
            Ok(())
        }
        _ => Err(ResolveFault::WrongForm { at: block.at }),
    }
}

/// Adds the axioms of these items.
fn mean_items<'a>(
    kinds: &Kinds,
    items: &'a [RawItem],
    steps: &mut Vec<Step<'a>>,
) -> Result<(), ResolveFault>
    ensures added { OnOk result (AddsAll steps.old.items steps.new.items
        (all_of (flat_map (axioms_of (knows kinds.now)) items.now))) }
    ensures fault { IfErr result (IsFaultOf
        (all_of (flat_map (axioms_of (knows kinds.now)) items.now))) }
{
    for item in items {
        mean_item(kinds, item, steps)?;
    }
    Ok(())
}
