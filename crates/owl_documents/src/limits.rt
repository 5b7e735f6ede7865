//! How many bytes documents may have.

ghost use Rattle.std.specs.Prelude.{◌≤◌, ◌↔◌, ℕ, List, length};
ghost use Rattle.owl_command.specs.Commands.{Source};
ghost use Rattle.owl_documents.specs.Documents.{AreFew, IsRefused, most_bytes_of_all};
ghost use Rattle.owl_documents.specs.Reading.{IsLimit};

use crate::trouble::Refusal;
use owl_characters::MOST_BYTES;

/// The most bytes of all documents together.
const MOST_BYTES_OF_ALL: u64 = 1 << 28;

/// How many bytes a document may have behind so many of others.
pub fn room_behind(before: u64) -> u64
    requires { before ≤ most_bytes_of_all }
    ensures { (size : ℕ) → size ≤ result ↔ AreFew before size }
{
    MOST_BYTES.min(MOST_BYTES_OF_ALL - before)
}

/// The limit that a document passes which has more.
pub fn limit_behind(before: u64) -> Refusal
    requires { before ≤ most_bytes_of_all }
    ensures passed { (source : Source) (bytes : List ℕ)
        → (AreFew before (length bytes) → ⊥) → IsRefused before source bytes result }
    ensures limit { IsLimit result }
{
    if MOST_BYTES <= MOST_BYTES_OF_ALL - before {
        Refusal::DocumentBytes
    } else {
        Refusal::AllBytes
    }
}
