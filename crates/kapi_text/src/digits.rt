//! Numbers as decimal digits, and hexadecimal digits.
ghost use Rattle.std.specs.Prelude.{◌≡◌, ◌≤◌, ◌<◌, length, true, if◌then◌else◌, Some, None, IfSome};
ghost use Rattle.std.specs.Char.{digit_value, is_ascii_digit, is_digit};
ghost use Rattle.std.specs.List.{list_all};
ghost use Rattle.std.specs.Str.Parse.{digits_value};

/// Whether all bytes are decimal digits.
pub fn are_digits(digits: &[u8]) -> bool
    ensures { result ≡ list_all is_ascii_digit digits.now }
{
    digits.iter().all(|digit| digit.is_ascii_digit())
}

/// The number that at most 18 decimal digits write.
pub fn number(digits: &[u8]) -> u64
    requires few { length digits.now ≤ 18 }
    requires digits { list_all is_ascii_digit digits.now ≡ true }
    ensures { result ≡ digits_value 10 digits.now }
{
    let mut number = 0;
    for digit in digits {
        number = number * 10 + u64::from(*digit - b'0');
    }
    number
}

/// The value of a hexadecimal digit of either case.
pub fn hex_value(digit: u8) -> Option<u8>
    ensures value { result ≡ (if is_digit digit 16 then Some (digit_value digit) else None) }
    ensures small { IfSome result (λ v. v < 16) }
{
    match digit {
        b'0'..=b'9' => Some(digit - b'0'),
        b'a'..=b'f' => Some(digit - b'a' + 10),
        b'A'..=b'F' => Some(digit - b'A' + 10),
        _ => None,
    }
}
