//! Parts of characters.

ghost use Rattle.std.specs.Prelude.{◌≡◌, ◌≤◌, take, drop};
ghost use Rattle.ttl_tokens.specs.TurtleValues.{inside};

/// The first characters, or all where there are fewer.
pub fn front(chars: &[char], count: usize) -> &[char]
    ensures { result.now ≡ take count chars.now }
{
    &chars[..count.min(chars.len())]
}

/// The characters behind the first ones, or none where there are fewer.
pub fn past(chars: &[char], count: usize) -> &[char]
    ensures { result.now ≡ drop count chars.now }
{
    &chars[count.min(chars.len())..]
}

/// The characters without as many in front, and as many behind.
pub fn inside(chars: &[char], count: usize) -> &[char]
    requires { count ≤ 3 }
    ensures { result.now ≡ inside count chars.now }
{
    front(past(chars, count), chars.len().saturating_sub(2 * count))
}
