//! Numbers as digits.

ghost use Rattle.std.specs.Prelude.{◌≡◌, ◌^◌, ◌&&◌, ◌==◌, IsTrue, Some, None, if◌then◌else◌, nat_le, ℤ};
ghost use Rattle.std.specs.Char.{is_ascii_digit};
ghost use Rattle.std.specs.List.{list_all};
ghost use Rattle.std.specs.Str.Parse.{digits_value};
ghost use Rattle.vdv451_text.specs.Fields.{is_digits, number_of, not_negative, negative};

fn are_only_digits(bytes: &[u8]) -> bool
    ensures { result ≡ list_all is_ascii_digit bytes.now }
{
    bytes.iter().all(|byte| byte.is_ascii_digit())
}

/// One or more digits.
pub fn are_digits(bytes: &[u8]) -> bool
    ensures { result ≡ is_digits bytes.now }
{
    !bytes.is_empty() && are_only_digits(bytes)
}

/// The value of digits, up to a bound.
fn digits_up_to(digits: &[u8], most: u64) -> Option<u64>
    ensures { result ≡ (if is_digits digits.now && nat_le (digits_value 10 digits.now) most then Some (digits_value 10 digits.now) else None) }
{
    if !are_digits(digits) {
        return None;
    }
    let mut value = 0u128;
    for digit in digits {
        value = value * 10 + u128::from(*digit - b'0');
        if value > u128::from(most) {
            return None;
        }
    }
    Some(value as u64)
}

fn positive_number(digits: &[u8]) -> Option<i64>
    ensures { result ≡ not_negative digits.now }
{
    let value = digits_up_to(digits, i64::MAX as u64)?;
    Some(value as i64)
}

fn negative_number(digits: &[u8]) -> Option<i64>
    ensures { result ≡ negative digits.now }
{
    let value = digits_up_to(digits, 1 << 63)?;
    Some(0i64.wrapping_sub_unsigned(value))
}

/// The number that bare bytes spell: a sign where there is one, and digits, within 64 bits.
pub fn spelled_number(bytes: &[u8]) -> Option<i64>
    ensures { result ≡ number_of bytes.now }
{
    match bytes {
        [b'+', digits @ ..] => positive_number(digits),
        [b'-', digits @ ..] => negative_number(digits),
        _ => positive_number(bytes),
    }
}

/// Whether digits have this value.
pub fn is_value(digits: &[u8], number: u64) -> bool
    requires { IsTrue (is_digits digits.now) }
    ensures { result ≡ (digits_value 10 digits.now == number) }
{
    match digits_up_to(digits, number) {
        Some(value) => value == number,
        None => false,
    }
}
