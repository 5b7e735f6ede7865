//! The properties of a key.

ghost use Rattle.std.specs.Prelude.{◌≡◌, ◌≤◌, ◌++◌, List, IfErr, IfOk, OnOk, map};
ghost use Rattle.owl_tree.specs.Trees.{Tree};
ghost use Rattle.man_resolve.specs.Building.{AddsTree, AddsWanted, Build, IsFaultOf, building, built};
ghost use Rattle.man_resolve.specs.Expressions.{all_at, all_of, knows, meant};
ghost use Rattle.man_resolve.specs.Items.{group, is_wanted};

use crate::expressions::mean;
use crate::fault::ResolveFault;
use crate::place::Place;
use crate::step::{Step, add, ends_in_data};
use man_raw::Raw;
use owl_kind::Kinds;
use owl_tree::Tag;

/// Adds a node over those of the properties that are data properties, or over all
/// others.
pub fn mean_group<'a>(
    kinds: &Kinds,
    tag: Tag,
    datas: bool,
    parts: &'a [Raw],
    steps: &mut Vec<Step<'a>>,
) -> Result<(), ResolveFault>
    ensures added { OnOk result (AddsTree steps.old.items steps.new.items
        (group tag datas (all_of (all_at Place.Property
        (map (meant (knows kinds.now)) parts.now))))) }
    ensures fault { IfErr result (IsFaultOf
        (group tag datas (all_of (all_at Place.Property
        (map (meant (knows kinds.now)) parts.now))))) }
{
    let mut count = 0;
    for part in parts {
        count += mean_wanted(kinds, datas, part, steps)?;
    }
    add(steps, Step::Node(tag, count))?;
    Ok(())
}

/// Adds the property where it is wanted, and says how many were added.
fn mean_wanted<'a>(
    kinds: &Kinds,
    datas: bool,
    part: &'a Raw,
    steps: &mut Vec<Step<'a>>,
) -> Result<usize, ResolveFault>
    ensures added { IfOk result (λ count. AddsWanted steps.old.items steps.new.items datas count
        (meant (knows kinds.now) part.now Place.Property)) }
    ensures fault { IfErr result (IsFaultOf
        (meant (knows kinds.now) part.now Place.Property)) }
    ensures few { IfOk result (λ count. count ≤ 1) }
{
    let before = steps.len();
    mean(kinds, Place::Property, part, steps)?;
    if is_wanted(datas, steps) {
        Ok(1)
    } else {
        steps.truncate(before);
        Ok(0)
    }
}

/// Whether the last tree is wanted: the name of a data property, or none.
fn is_wanted(datas: bool, steps: &[Step]) -> bool
    ensures { (front : List Build) (t : Tree) → built steps.now ≡ front ++ building t
        → result ≡ is_wanted datas t }
{
    if datas {
        ends_in_data(steps)
    } else {
        !ends_in_data(steps)
    }
}
