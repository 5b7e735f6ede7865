//! What a line of a row says.

ghost use Rattle.std.specs.Prelude.{◌≡◌, ◌↔◌, Some, IsNone, IsOk, OnOk, OnErr};

use crate::fault::RowFault;

/// Whether a line says nothing: it is empty, or begins with `#`.
pub fn is_comment(line: &str) -> bool {
    line.is_empty() || line.starts_with('#')
}

/// The word that a line begins with, and what stands behind it and a space.
pub fn word_of(line: &str) -> (&str, &str) {
    line.split_once(' ').unwrap_or((line, ""))
}

/// Sets what no line before has set.
pub fn set<T: Drop>(place: &mut Option<T>, value: T) -> Result<(), RowFault>
    ensures first { IsOk result ↔ IsNone place.old }
    ensures ok { OnOk result (place.new ≡ Some value) }
    ensures err { OnErr result (place.new ≡ place.old) }
{
    if place.is_some() {
        return Err(RowFault::Twice);
    }
    *place = Some(value);
    Ok(())
}

/// The number that a text is.
pub fn number_of(text: &str) -> Result<u64, RowFault> {
    text.parse::<u64>().map_err(|_| RowFault::NoNumber)
}
