ghost use Rattle.std.specs.Prelude.{◌≡◌, ◌≤◌, ◌<◌, ◌^◌, IsTrue, pos, neg_ℤ};
ghost use Rattle.std.specs.Option.{SomeIff};
ghost use Rattle.std.specs.Str.Parse.{digits_value};
ghost use Rattle.token_text.specs.Token.{are_digits, token_of};

/// The number of largest magnitude to which one more digit can be appended within an i64.
pub(crate) const LAST_TO_EXTEND: u64 = 922_337_203_685_477_580;

/// The magnitude of the least i64.
pub(crate) const LEAST_MAGNITUDE: u64 = 9_223_372_036_854_775_808;

/// The number that one or more digits write, where it is at most the magnitude of the least i64.
fn magnitude(digits: &[u8]) -> Option<u64>
    ensures { SomeIff result (IsTrue (are_digits digits.now) × (digits_value 10 digits.now ≤ 2 ^ 63)) (digits_value 10 digits.now) }
{
    if digits.is_empty() {
        return None;
    }
    let mut value = 0;
    for digit in digits {
        if !digit.is_ascii_digit() {
            return None;
        }
        if value > LAST_TO_EXTEND {
            return None;
        }
        value = value * 10 + u64::from(*digit - b'0');
    }
    if value > LEAST_MAGNITUDE {
        return None;
    }
    Some(value)
}

/// The token of digits after a minus, where i64 has it.
fn negative(digits: &[u8]) -> Option<i64>
    ensures { SomeIff result (IsTrue (are_digits digits.now) × (digits_value 10 digits.now ≤ 2 ^ 63)) (neg_ℤ (pos (digits_value 10 digits.now))) }
{
    let value = magnitude(digits)?;
    if value == LEAST_MAGNITUDE {
        return Some(i64::MIN);
    }
    Some(-(value as i64))
}

/// The token of digits alone, where i64 has it.
fn non_negative(digits: &[u8]) -> Option<i64>
    ensures { SomeIff result (IsTrue (are_digits digits.now) × (digits_value 10 digits.now < 2 ^ 63)) (pos (digits_value 10 digits.now)) }
{
    let value = magnitude(digits)?;
    if value == LEAST_MAGNITUDE {
        return None;
    }
    Some(value as i64)
}

/// The token that a field writes: an optional minus and one or more decimal digits, with a value in i64.
pub(crate) fn token(field: &[u8]) -> Option<i64>
    ensures { result ≡ token_of field.now }
{
    let (first, rest) = field.split_first()?;
    if *first == b'-' {
        return negative(rest);
    }
    non_negative(field)
}
