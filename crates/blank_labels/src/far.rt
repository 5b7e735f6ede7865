//! Labels whose numbers have 19 digits, and numbers that pass over them.

ghost use Rattle.std.specs.Prelude.{◌≡◌, IfSome};
ghost use Rattle.std.specs.Ordering.{nat_cmp};
ghost use Rattle.owl_list.specs.Ascending.{IsAscending};
ghost use Rattle.blank_labels.specs.FreshLabels.{are_far, far_in, far_number, passing};

use rdf_terms::Label;

/// How many digits a number has that a fresh one may come to.
const FAR_DIGITS: usize = 19;

/// The number of a label that is `gen` and 19 digits without a leading zero.
pub fn far_number(label: &Label) -> Option<u64>
    ensures { result ≡ far_number label.now }
{
    match label.text().strip_prefix("gen") {
        Some(digits) => far_in(digits),
        None => None,
    }
}

fn far_in(digits: &str) -> Option<u64>
    ensures { result ≡ far_in digits.now }
{
    if are_far(digits) {
        digits.parse().ok()
    } else {
        None
    }
}

/// Whether the text is 19 digits without a leading zero.
fn are_far(digits: &str) -> bool
    ensures { result ≡ are_far digits.now }
{
    if digits.len() != FAR_DIGITS || digits.starts_with('0') {
        return false;
    }
    digits.bytes().all(|b| b.is_ascii_digit())
}

/// The number, where those that are taken, which ascend, are passed over: found
/// by a search for how many they are.
pub fn passing(taken: &[u64], number: u64) -> Option<u64>
    requires { IsAscending nat_cmp taken.now }
    ensures { IfSome result (λ passed. passed ≡ passing taken.now number) }
{
    let mut low = 0;
    let mut high = taken.len();
    while low < high {
        let middle = low + (high - low) / 2;
        if taken[middle].saturating_sub(middle as u64) <= number {
            low = middle + 1;
        } else {
            high = middle;
        }
    }
    number.checked_add(low as u64)
}
