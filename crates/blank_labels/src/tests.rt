//! That a fresh label can be made.

use crate::{FreshLabels, LabelNumbers};
use owl_characters::NoMemory;
use rdf_terms::Label;
use std::alloc::Global;
use std::test::Fail;

/// The labels beside one.
fn beside(alloc: Global, label: &Label) -> Result<FreshLabels, NoMemory> {
    let mut numbers = LabelNumbers::new(alloc);
    numbers.count(label)?;
    Ok(numbers.fresh_labels())
}

#[test]
fn second_label_behind_3_is_gen5(rt: HostRuntime) -> Result<(), Fail> {
    let label = Label::of(rt.alloc(), "gen3")?;
    let fresh = beside(rt.alloc(), &label)?.label(rt.alloc(), 1)?;
    assert_eq!(rt; fresh.text(), "gen5");
    Ok(())
}
