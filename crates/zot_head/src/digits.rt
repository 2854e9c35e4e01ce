//! Numbers that are written in digits.
ghost use Rattle.std.specs.Prelude.{◌≡◌, ℕ, ◌^◌, ◌<◌, ◌≤◌, length, slice_index};
ghost use Rattle.std.specs.Char.{digit_value};
ghost use Rattle.std.specs.Str.Parse.{digits_value as digits_value_of};

use httparse::parse_hex_digit;

/// The number that the digits write in that radix.
pub(crate) fn digits_value(radix: u64, digits: &[u8]) -> u64
    requires radix { radix ≤ 16 }
    requires digits { (k : ℕ) → k < length digits.now
        → digit_value (slice_index digits.now k) < radix }
    requires fits { radix ^ length digits.now ≤ 2 ^ 64 }
    ensures { result ≡ digits_value_of radix digits.now }
{
    let mut value = 0;
    for digit in digits {
        let Some(d) = parse_hex_digit(*digit) else {
            unreachable!()
        };
        value = value * radix + d;
    }
    value
}
