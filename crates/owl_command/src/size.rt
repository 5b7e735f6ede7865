//! The size of a trial among the words.

ghost use Rattle.std.specs.Prelude.{◌≡◌, IfSome, IfNone};
ghost use Rattle.owl_command.specs.WordParts.{IsNoSizeWord, IsSizeWord, are_digits};

/// The most classes that the document of a trial has.
const MOST_CLASSES: u32 = 20000;

/// Whether the word is digits without a leading zero.
fn are_digits(word: &str) -> bool
    ensures { result ≡ are_digits word.now }
{
    !word.starts_with('0') && word.bytes().all(|b| b.is_ascii_digit())
}

/// The size of a trial that the word writes, from 1 to 20000 in digits without a
/// leading zero.
pub fn trial_size(word: &str) -> Option<u32>
    ensures some { IfSome result (IsSizeWord word.now) }
    ensures none { IfNone result (IsNoSizeWord word.now) }
{
    if !are_digits(word) {
        return None;
    }
    match word.parse::<u32>() {
        Ok(size) if size <= MOST_CLASSES => Some(size),
        _ => None,
    }
}
