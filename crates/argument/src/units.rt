// The units of a range: a number of one digit to three, of at most 127.
ghost use Rattle.std.specs.Prelude.{◌≡◌};
ghost use Rattle.argument.specs.Units.{units_in};

use crate::{ZERO, three_digits};

// The most units that a range may have.
const MOST_UNITS: u8 = 127;

// The units that an argument names.
pub fn units_in(text: &[u8]) -> Option<u8>
    ensures { result ≡ units_in text.now }
{
    match text {
        [a] => three_digits(MOST_UNITS, ZERO, ZERO, *a),
        [a, b] => three_digits(MOST_UNITS, ZERO, *a, *b),
        [a, b, c] => three_digits(MOST_UNITS, *a, *b, *c),
        _ => None,
    }
}
