//! Numbers of digits.

ghost use Rattle.std.specs.Prelude.{◌≡◌, ◌<◌, ◌≤◌, ◌^◌, MatchOption};
ghost use Rattle.std.specs.Char.{is_ascii_digit};
ghost use Rattle.std.specs.Str.Parse.{digits_value};
ghost use Rattle.owl_characters.specs.Names.{IsRunOf};

use owl_characters::Text;

/// The number that the digits write, unless it has more than 64 bits.
pub fn number_of(digits: &Text) -> Option<u64>
    requires { IsRunOf is_ascii_digit digits.now }
    ensures { MatchOption result (2 ^ 64 ≤ digits_value 10 digits.now)
        (λ number. (number ≡ digits_value 10 digits.now) × (number < 2 ^ 64)) }
{
    match digits.as_str().parse::<u64>() {
        Ok(number) => Some(number),
        Err(_) => None,
    }
}
