//! The breaches of one document.

ghost use Rattle.std.specs.Prelude.{◌≡◌, ◌++◌, OnErr, OnOk, length, take};
ghost use Rattle.breach_lists.specs.Adding.{breaches_if, breaches_of, marked_breaches};

use graph_walks::has_mark;
use owl_arena::ExprId;
use owl_characters::NoMemory;
use owl_doc::{Breach, Item, Rule};
use std::alloc::AllocError;

/// Adds those parts of a document that break the rule: the header, where it does, and
/// those of the axioms that have a mark. At want of memory some of them may be added.
pub fn add_parts(
    rule: Rule,
    document: usize,
    header_breaks: bool,
    axioms: &[ExprId],
    marks: &[bool],
    found: &mut Vec<Breach>,
) -> Result<(), NoMemory>
    ensures ok { OnOk result (found.new.items ≡ found.old.items
        ++ breaches_of rule document header_breaks axioms.now marks.now) }
    ensures kept { take (length found.old.items) found.new.items ≡ found.old.items }
{
    push_if(header_breaks, rule, document, Item::Header, found)?;
    add_axioms(rule, document, axioms, marks, found)?;
    Ok(())
}

/// Adds those of the axioms that have a mark.
fn add_axioms(
    rule: Rule,
    document: usize,
    axioms: &[ExprId],
    marks: &[bool],
    found: &mut Vec<Breach>,
) -> Result<(), AllocError>
    ensures ok { OnOk result (found.new.items
        ≡ found.old.items ++ marked_breaches rule document axioms.now marks.now) }
    ensures kept { take (length found.old.items) found.new.items ≡ found.old.items }
{
    'places: for place in 0..axioms.len() {
        let item = Item::Axiom(axioms[place]);
        push_if(has_mark(marks, place), rule, document, item, found)?;
    }
    Ok(())
}

/// Adds that the part of the document breaks the rule, where it does.
fn push_if(
    is_broken: bool,
    rule: Rule,
    document: usize,
    item: Item,
    found: &mut Vec<Breach>,
) -> Result<(), AllocError>
    ensures ok { OnOk result (found.new.items ≡ found.old.items ++ breaches_if is_broken rule document item) }
    ensures err { OnErr result (found.new.items ≡ found.old.items) }
{
    if is_broken {
        found.push(Breach {
            rule,
            document,
            item,
        })?;
    }
    Ok(())
}
