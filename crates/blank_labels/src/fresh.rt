//! Labels for blank nodes that have none.

ghost use Rattle.std.specs.Prelude.{◌≡◌, ◌+◌, ◌∷◌, [], IfOk, IfSome, OnErr, OnOk};
ghost use Rattle.blank_labels.specs.FreshLabels.{passing};
ghost use Rattle.blank_labels.specs.LabelNumbers.{Counts, arranged, names_beside, no_numbers};

use crate::far::{far_number, passing};
use crate::labels::{label_number, labelled};
use owl_characters::NoMemory;
use owl_list::arrange;
use rdf_terms::Label;
use std::alloc::{AllocError, Global};
use std::marker::Model;

/// The numbers of the labels that stand in a document, which contracts see as
/// they were counted.
#[derive(Debug, Drop)]
pub struct LabelNumbers {
    greatest: u64,
    far: Vec<u64>,
}

impl Model for LabelNumbers {
    ghost use Rattle.blank_labels.specs.LabelNumbers as numbers;

    ghost Value = { numbers.LabelNumbers };

    ghost view = { λ n. record { greatest = n.greatest; far = n.far.items } };
}

impl LabelNumbers {
    /// Those of no labels. Takes no memory.
    pub fn new(alloc: Global) -> LabelNumbers
        ensures { result ≡ no_numbers }
    {
        LabelNumbers {
            greatest: 0,
            far: Vec::new(alloc),
        }
    }

    /// Counts a label. At want of memory the numbers stay as they were.
    pub fn count(&mut self, label: &Label) -> Result<(), NoMemory>
        ensures ok { OnOk result (Counts self.old self.new (label.now ∷ [])) }
        ensures err { OnErr result (self.new ≡ self.old) }
    {
        if let Some(number) = far_number(label) {
            self.far.push(number).map_err(AllocError::from)?;
        }
        self.greatest = self.greatest.max(label_number(label));
        Ok(())
    }

    /// The labels of the blank nodes that have none, beside those that were counted.
    pub fn fresh_labels(self) -> FreshLabels
        ensures { result ≡ arranged self }
    {
        let mut taken = self.far;
        arrange(&mut taken);
        FreshLabels {
            greatest: self.greatest,
            taken,
        }
    }
}

/// Labels for the blank nodes that have none, which contracts see as the numbers
/// beside which they are made.
#[derive(Debug, Drop)]
pub struct FreshLabels {
    greatest: u64,
    taken: Vec<u64>,
}

impl Model for FreshLabels {
    ghost use Rattle.std.specs.Ordering.{nat_cmp};
    ghost use Rattle.owl_list.specs.Ascending.{IsAscending};
    ghost use Rattle.blank_labels.specs.LabelNumbers as numbers;

    ghost Value = { numbers.LabelNumbers };

    ghost view = { λ f. record { greatest = f.greatest; far = f.taken.items } };

    ghost invariant = { λ f. IsAscending nat_cmp f.taken.items };
}

impl FreshLabels {
    /// The label of the blank node with this number among those that have none.
    ///
    /// Refuses for want of memory alone; so many nodes and labels that their
    /// numbers pass 2^64 - 1 fit into no memory.
    #[tactic(auto, unfolding(crate::specs::FreshLabels::numbered_label))]
    pub fn label(&self, alloc: Global, number: u64) -> Result<Label, NoMemory>
        ensures { IfOk result (λ label. label ≡ names_beside self.now number) }
    {
        let passed = self.number(number).ok_or(NoMemory)?;
        labelled(alloc, passed)
    }

    /// The number in the label of this blank node.
    fn number(&self, number: u64) -> Option<u64>
        ensures { IfSome result (λ passed. passed
            ≡ passing self.now.far (self.now.greatest + 1 + number)) }
    {
        let first = self.greatest.checked_add(1)?.checked_add(number)?;
        passing(&self.taken, first)
    }
}
