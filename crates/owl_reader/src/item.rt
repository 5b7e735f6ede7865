//! The items of a document, and where they begin.

ghost use Rattle.std.specs.Prelude.{◌≡◌};
ghost use Rattle.owl_reader.specs.Items.{ends_item, item_start, resumes_item};

use crate::syntax::Syntax;

/// What an act says of the token behind it.
#[derive(Clone, Copy, Debug, PartialEq, Eq)]
pub enum Mark {
    /// Nothing.
    Within,
    /// It is the last token of its item.
    Last,
    /// It belongs to the item before, which goes on.
    Again,
}

/// An item that is begun or whole, and the byte at which it begins.
#[derive(Clone, Copy, Debug, PartialEq, Eq)]
pub struct Item {
    pub at: u64,
    pub is_whole: bool,
}

/// Whether the token behind these acts ends its item.
pub fn ends_item<S: Syntax>(acts: &[u8]) -> bool
    ensures { (context : S.Context) → result ≡ ends_item (S.rules context).mark acts.now }
{
    acts.iter().any(|act| S::mark_of(*act) == Mark::Last)
}

/// Whether the token behind these acts belongs to the item before, though it
/// was whole.
pub fn resumes_item<S: Syntax>(acts: &[u8]) -> bool
    ensures { (context : S.Context) → result ≡ resumes_item (S.rules context).mark acts.now }
{
    acts.iter().any(|act| S::mark_of(*act) == Mark::Again)
}

/// The byte at which the item begins that a token at this byte belongs to, which
/// begins one or not.
pub fn item_start(begins: bool, resumes: bool, last: Option<Item>, at: u64) -> u64
    ensures { result ≡ item_start begins resumes last at }
{
    match last {
        Some(item) if !begins && (resumes || !item.is_whole) => item.at,
        _ => at,
    }
}
