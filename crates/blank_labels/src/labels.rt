//! Labels that are `gen` and a number.

ghost use Rattle.std.specs.Prelude.{◌≡◌, ◌<◌, ◌^◌, IfOk};
ghost use Rattle.blank_labels.specs.Labels.{are_counted, counted_number, label_number, labelled};

use owl_characters::NoMemory;
use rdf_terms::{Label, LabelFault};
use std::alloc::Global;

/// The number of a label that is `gen` and 1 to 18 digits without a leading
/// zero, or 0.
pub fn label_number(label: &Label) -> u64
    ensures number { result ≡ label_number label.now }
    ensures below { result < 10 ^ 18 }
{
    match label.text().strip_prefix("gen") {
        Some(digits) => counted_number(digits),
        None => 0,
    }
}

/// The number that the digits write, or 0 where they are not counted.
fn counted_number(digits: &str) -> u64
    ensures number { result ≡ counted_number digits.now }
    ensures below { result < 10 ^ 18 }
{
    if are_counted(digits) {
        digits.parse().unwrap_or(0)
    } else {
        0
    }
}

/// The most digits of a number that is counted, so that it is far below 2^64.
const MOST_DIGITS: usize = 18;

/// Whether the text is 1 to 18 digits without a leading zero.
fn are_counted(digits: &str) -> bool
    ensures { result ≡ are_counted digits.now }
{
    if digits.is_empty() || digits.starts_with('0') {
        return false;
    }
    digits.len() <= MOST_DIGITS && digits.bytes().all(|b| b.is_ascii_digit())
}

/// The label of a number.
pub fn labelled(alloc: Global, number: u64) -> Result<Label, NoMemory>
    ensures { IfOk result (λ label. label ≡ labelled number) }
{
    let text = format!(in alloc; "gen{number}")?;
    match Label::of(alloc, &text) {
        Ok(label) => Ok(label),
        Err(LabelFault::Memory) => Err(NoMemory),
        Err(LabelFault::BadLabel) => unreachable!(),
    }
}
