ghost use Rattle.std.specs.Prelude.{◌≡◌, ◌<◌, ◌≤◌, ◌^◌, IfSome};
ghost use Rattle.pisdf_program.specs.Number.{is_digit, number_within};

pub(crate) fn is_digit(byte: u8) -> bool
    ensures { result ≡ is_digit byte }
{
    byte.is_ascii_digit()
}

/// The number that a text of decimal digits spells, where it has at least one digit and at most `digits`, and
/// the number lies from `low` to `high`.
#[tactic(auto, unfolding(crate::specs::Number::number_within))]
pub(crate) fn number_within(digits: usize, low: u32, high: u32, text: &str) -> Option<u32>
    requires { high < 2 ^ 17 }
    ensures number { result ≡ number_within digits low high text.now }
    ensures within { IfSome result (λ n. n ≤ high) }
    ensures least { IfSome result (λ n. low ≤ n) }
{
    if text.is_empty() || text.len() > digits {
        return None;
    }
    let mut number = 0;
    for byte in text.as_bytes() {
        if !is_digit(*byte) {
            return None;
        }
        number = number * 10 + u32::from(*byte - b'0');
        if number > high {
            return None;
        }
    }
    if number < low { None } else { Some(number) }
}
