// Values: the number that a field writes.
#![tactic(auto)]

ghost use Rattle.std.specs.Prelude.{◌≡◌, ◌≤◌, pos, length};
ghost use Rattle.std.proofs.Math.Option.{map};
ghost use Rattle.model.specs.Limits.{max_digits};
ghost use Rattle.model.specs.Reader.{magnitude, negative, value_of};
ghost use Rattle.values.specs.Given.{scanned, digits_value, signed_value};

use model::MAX_DIGITS;

// The number of a field of 1 to 18 digits without a leading zero.
fn digits_value(field: &[u8]) -> Option<u64>
    ensures { digits_value result ≡ magnitude field.now }
{
    let first = *field.first()?;
    if MAX_DIGITS < field.len() {
        return None;
    }
    if first == b'0' && 1 < field.len() {
        return None;
    }
    scan_digits(field)
}

// The number of a field of digits, at most 18.
fn scan_digits(field: &[u8]) -> Option<u64>
    requires { length field.now ≤ max_digits }
    ensures { digits_value result ≡ scanned 0 field.now }
{
    let mut value = 0;
    for &b in field {
        if !b.is_ascii_digit() {
            return None;
        }
        value = value * 10 + u64::from(b - b'0');
    }
    Some(value)
}

// The number of a field of digits.
fn positive_value(field: &[u8]) -> Option<i64>
    ensures { signed_value result ≡ map pos (magnitude field.now) }
{
    let n = digits_value(field)?;
    Some(n as i64)
}

// The number of the digits behind a minus, which do not write 0.
fn negative_value(field: &[u8]) -> Option<i64>
    ensures { signed_value result ≡ negative (magnitude field.now) }
{
    let n = digits_value(field)?;
    if n == 0 {
        return None;
    }
    Some(-(n as i64))
}

// The number of a field: digits, with a minus before them if it is negative.
pub fn signed_value(field: &[u8]) -> Option<i64>
    ensures { signed_value result ≡ value_of field.now }
{
    match field.strip_prefix(b"-") {
        Some(digits) => negative_value(digits),
        None => positive_value(field),
    }
}
