//! The steps of a maker, over its parts.

ghost use Rattle.std.specs.Prelude.{◌≡◌, ◌&&◌, ◌⊎◌, Bool, IsErrOf, IsOk, ◌<◌, ◌≤◌, ◌↔◌, ◌∷◌, [], List, false, true, IfErr, IfOk, IfSome, IsNone, OnErr, OnOk, Some, length, slice_get};
ghost use Rattle.owl_arena.specs.Held.{AreHeld, node_over};
ghost use Rattle.owl_arena.specs.Shared.{deepest};
ghost use Rattle.owl_maker.specs.Kept.{AreAllHeld, IsHeldIn, IsShutLight, kids_at, numbers_in, outlines_in, seen, top_at};
ghost use Rattle.owl_maker.specs.Makings.{Grows, IsHeavy};
ghost use Rattle.owl_maker.specs.Steps.{empty_outline, forms_with, is_keyless_in, item_with, kids_with, numbers_with, outline_with as with_member, outlines_shut, outlines_with};
ghost use Rattle.owl_maker.specs.declared.fault.MakeFault.{MakeFault};
ghost use Rattle.owl_tree.specs.Canonical.{canonical};
ghost use Rattle.owl_doc.specs.declared.fault.AddFault.{AddFault};
ghost use Rattle.owl_tree.specs.Rows.{is_group};
ghost use Rattle.owl_tree.specs.Shape.{IsShaped};
ghost use Rattle.owl_tree.specs.Trees.{Tree, depth, leaf};

use crate::fault::MakeFault;
use crate::parts::{Open, Outline};
use owl_arena::{ExprId, Grow};
use owl_doc::{AddFault, Builder};
use owl_tree::{Atom, Tag};
use std::alloc::{AllocError, Global};

/// The number of a leaf; `None` where a tree in the item is too heavy.
pub fn make_leaf(
    builder: &mut Builder,
    is_heavy: bool,
    tag: Tag,
    atom: Atom,
) -> Result<Option<ExprId>, MakeFault>
    requires shaped { IsShaped (leaf tag atom) }
    ensures some { IfOk result (λ made. IfSome made (λ id. slice_get builder.new.arena.trees id
        ≡ Some (leaf tag atom))) }
    ensures none { IfOk result (λ made. IsNone made ↔ (is_heavy ≡ true)) }
    ensures grows { Grows builder.old builder.new }
    ensures memory { IfErr result (λ fault. fault ≡ MakeFault.Memory) }
{
    if is_heavy {
        return Ok(None);
    }
    match builder.leaf(tag, atom) {
        Ok(id) => Ok(Some(id)),
        Err(Grow::TooMany) => Err(MakeFault::Memory),
        Err(Grow::Memory) => Err(MakeFault::Memory),
        Err(Grow::BadShape) => unreachable!(),
        Err(Grow::TooDeep) => unreachable!(),
        Err(Grow::TooHeavy) => unreachable!(),
    }
}

/// The number of a node; `None` where it is too heavy, or a tree in the item
/// was.
pub fn make_node(
    builder: &mut Builder,
    is_heavy: bool,
    tag: Tag,
    kids: Vec<ExprId>,
) -> Result<Option<ExprId>, MakeFault>
    requires held { AreHeld builder.old.arena.trees kids.items }
    requires shaped { is_heavy ≡ false
        → IsShaped (node_over builder.old.arena.trees tag kids.items) }
    requires level { is_heavy ≡ false
        → depth (node_over builder.old.arena.trees tag kids.items) ≤ deepest }
    ensures some { IfOk result (λ made. IfSome made (λ id. (is_heavy ≡ false)
        × (slice_get builder.new.arena.trees id
        ≡ Some (canonical (node_over builder.old.arena.trees tag kids.items))))) }
    ensures none { IfOk result (λ made. IsNone made → is_heavy ≡ false
        → IsHeavy (node_over builder.old.arena.trees tag kids.items)) }
    ensures grows { Grows builder.old builder.new }
    ensures memory { IfErr result (λ fault. fault ≡ MakeFault.Memory) }
{
    if is_heavy {
        return Ok(None);
    }
    match builder.node(tag, kids) {
        Ok(id) => Ok(Some(id)),
        Err(Grow::TooHeavy) => Ok(None),
        Err(Grow::TooMany) => Err(MakeFault::Memory),
        Err(Grow::Memory) => Err(MakeFault::Memory),
        Err(Grow::BadShape) => unreachable!(),
        Err(Grow::TooDeep) => unreachable!(),
    }
}

/// Opens a construct inside the others.
pub fn push_open(alloc: Global, stack: &mut Vec<Open>, tag: Tag) -> Result<(), MakeFault>
    ensures outlines { OnOk result (outlines_in stack.new.items
        ≡ empty_outline tag ∷ outlines_in stack.old.items) }
    ensures kids { OnOk result (numbers_in stack.new.items ≡ [] ∷ numbers_in stack.old.items) }
    ensures held { (ts : List Tree) → AreAllHeld ts (numbers_in stack.old.items)
        → AreAllHeld ts (numbers_in stack.new.items) }
    ensures memory { IfErr result (λ fault. fault ≡ MakeFault.Memory) }
    ensures err { OnErr result (stack.new.items ≡ stack.old.items) }
{
    let outline = Outline {
        tag,
        has_kids: false,
        has_key: false,
    };
    let kids = Vec::new(alloc);
    Ok(
        stack
            .push(Open { outline, kids })
            .map_err(AllocError::from)?,
    )
}

/// Adds a leaf to the innermost construct.
pub fn put_leaf(
    builder: &mut Builder,
    stack: &mut Vec<Open>,
    is_heavy: bool,
    tag: Tag,
    atom: Atom,
) -> Result<(), MakeFault>
    requires inside { 0 < length stack.old.items }
    requires shaped { IsShaped (leaf tag atom) }
    requires held { AreAllHeld builder.old.arena.trees (numbers_in stack.old.items) }
    ensures outlines { OnOk result (outlines_in stack.new.items
        ≡ outlines_with false (outlines_in stack.old.items)) }
    ensures kids { OnOk result (is_heavy ≡ false → kids_at builder.new stack.new.items
        ≡ forms_with (leaf tag atom) (kids_at builder.old stack.old.items)) }
    ensures held { AreAllHeld builder.new.arena.trees (numbers_in stack.new.items) }
    ensures grows { Grows builder.old builder.new }
    ensures memory { IfErr result (λ fault. fault ≡ MakeFault.Memory) }
    ensures err { OnErr result ((outlines_in stack.new.items ≡ outlines_in stack.old.items)
        × (numbers_in stack.new.items ≡ numbers_in stack.old.items)) }
{
    let made = make_leaf(builder, is_heavy, tag, atom)?;
    add_kid(stack, made, false)
}

/// Whether the innermost construct is a HasKey without a property.
pub fn is_keyless(stack: &Vec<Open>) -> bool
    ensures { result ≡ is_keyless_in (outlines_in stack.now.items) }
{
    match stack.last() {
        Some(top) => top.outline.tag == Tag::HasKey && !top.outline.has_key,
        None => false,
    }
}

/// Puts a tree behind the kids of the innermost construct.
fn add_kid(stack: &mut Vec<Open>, kid: Option<ExprId>, is_key: bool) -> Result<(), MakeFault>
    requires { 0 < length stack.old.items }
    ensures outlines { OnOk result (outlines_in stack.new.items
        ≡ outlines_with is_key (outlines_in stack.old.items)) }
    ensures kids { OnOk result (numbers_in stack.new.items
        ≡ kids_with kid (numbers_in stack.old.items)) }
    ensures held { (ts : List Tree) → IsHeldIn ts kid
        → AreAllHeld ts (numbers_in stack.old.items)
        → AreAllHeld ts (numbers_in stack.new.items) }
    ensures memory { IfErr result (λ fault. fault ≡ MakeFault.Memory) }
    ensures err { OnErr result ((outlines_in stack.new.items ≡ outlines_in stack.old.items)
        × (numbers_in stack.new.items ≡ numbers_in stack.old.items)) }
{
    let Open { outline, mut kids } = stack.pop().unwrap();
    match push_kid(&mut kids, kid) {
        Ok(()) => {
            let outline = outline_with(outline, is_key);
            stack.push(Open { outline, kids }).unwrap();
            Ok(())
        }
        Err(fault) => {
            stack.push(Open { outline, kids }).unwrap();
            Err(fault)
        }
    }
}

/// The outline with one more kid.
fn outline_with(outline: Outline, is_key: bool) -> Outline
    ensures { result ≡ with_member is_key outline }
{
    Outline {
        tag: outline.tag,
        has_kids: true,
        has_key: outline.has_key || is_key,
    }
}

fn push_kid(kids: &mut Vec<ExprId>, kid: Option<ExprId>) -> Result<(), MakeFault>
    ensures kids { OnOk result (kids.new.items ≡ numbers_with kid kids.old.items) }
    ensures memory { IfErr result (λ fault. fault ≡ MakeFault.Memory) }
    ensures err { OnErr result (kids.new.items ≡ kids.old.items) }
{
    match kid {
        Some(id) => Ok(kids.push(id).map_err(AllocError::from)?),
        None => Ok(()),
    }
}

/// Shuts the innermost construct, which is then a kid of the one around it, or
/// the item, and tells whether a tree in the item is too heavy.
pub fn shut_top(
    builder: &mut Builder,
    stack: &mut Vec<Open>,
    item: &mut Option<ExprId>,
    is_heavy: &mut bool,
) -> Result<(), MakeFault>
    requires inside { 0 < length stack.old.items }
    requires held { AreAllHeld builder.old.arena.trees (numbers_in stack.old.items) }
    requires item_held { IsHeldIn builder.old.arena.trees item.old }
    requires shaped { is_heavy.old ≡ false → IsShaped (top_at builder.old stack.old.items) }
    requires level { is_heavy.old ≡ false → depth (top_at builder.old stack.old.items) ≤ deepest }
    ensures outlines { OnOk result (outlines_in stack.new.items
        ≡ outlines_shut (outlines_in stack.old.items)) }
    ensures light { OnOk result (is_heavy.new ≡ false
        → IsShutLight is_heavy.old (canonical (top_at builder.old stack.old.items)) (seen
        builder.old stack.old.items item.old) (seen builder.new stack.new.items item.new)) }
    ensures heavy { OnOk result (is_heavy.new ≡ true → is_heavy.old ≡ false
        → IsHeavy (top_at builder.old stack.old.items)) }
    ensures held { AreAllHeld builder.new.arena.trees (numbers_in stack.new.items) }
    ensures item_held { IsHeldIn builder.new.arena.trees item.new }
    ensures grows { Grows builder.old builder.new }
    ensures memory { IfErr result (λ fault. fault ≡ MakeFault.Memory) }
{
    let top = stack.pop().unwrap();
    let Open { outline, kids } = top;
    let made = make_node(builder, *is_heavy, outline.tag, kids)?;
    *is_heavy = made.is_none();
    let is_key = is_key_group(outline);
    place(stack, item, made, is_key)
}

/// Whether the construct is a group of keys that has a member.
fn is_key_group(outline: Outline) -> bool
    ensures { result ≡ (is_group outline.tag && outline.has_kids) }
{
    outline.tag.is_group() && outline.has_kids
}

/// Puts a tree that was shut behind the kids of the innermost construct, or in
/// the place of the item.
fn place(
    stack: &mut Vec<Open>,
    item: &mut Option<ExprId>,
    made: Option<ExprId>,
    is_key: bool,
) -> Result<(), MakeFault>
    ensures outlines { OnOk result (outlines_in stack.new.items
        ≡ outlines_with is_key (outlines_in stack.old.items)) }
    ensures kids { OnOk result (numbers_in stack.new.items
        ≡ kids_with made (numbers_in stack.old.items)) }
    ensures item { OnOk result (item.new ≡ item_with made item.old (numbers_in stack.old.items)) }
    ensures held { (ts : List Tree) → IsHeldIn ts made
        → AreAllHeld ts (numbers_in stack.old.items)
        → AreAllHeld ts (numbers_in stack.new.items) }
    ensures item_held { (ts : List Tree) → IsHeldIn ts made → IsHeldIn ts item.old
        → IsHeldIn ts item.new }
    ensures memory { IfErr result (λ fault. fault ≡ MakeFault.Memory) }
{
    if stack.is_empty() {
        *item = made;
        return Ok(());
    }
    add_kid(stack, made, is_key)
}

/// What comes of an item that was added or not.
pub fn outcome_of(added: Result<bool, AddFault>) -> Result<(), MakeFault>
    requires { IsErrOf added AddFault.WrongTag → ⊥ }
    ensures ok { IsOk result ↔ IsOk added }
    ensures too_heavy { IsErrOf result MakeFault.TooHeavy ↔ IsErrOf added AddFault.TooHeavy }
    ensures refusals { IfErr result (λ fault.
        (fault ≡ MakeFault.TooHeavy) ⊎ (fault ≡ MakeFault.Memory)) }
{
    match added {
        Ok(_) => Ok(()),
        Err(AddFault::TooHeavy) => Err(MakeFault::TooHeavy),
        Err(AddFault::Memory) => Err(MakeFault::Memory),
        Err(AddFault::WrongTag) => unreachable!(),
    }
}
