ghost use Rattle.std.specs.Prelude.{◌≡◌, ◌≤◌, length, None, Some, if◌then◌else◌, IfSome};
ghost use Rattle.std.specs.List.{list_all};
ghost use Rattle.urna_base.specs.Digits.{is_digit, value_of_digits, digits_value, decimal_value, decimal_within};

/// The number that exactly `n` ASCII digits write, leading zeros included; `None` where `bytes` is anything else.
///
/// The caller owes that `n` is 1 to 18.
#[tactic(auto, unfolding(crate::specs::Digits::digits_value))]
pub fn digits(bytes: &[u8], n: u32) -> Option<u64>
    requires some { 1 ≤ n }
    requires few { n ≤ 18 }
    ensures { result ≡ digits_value n bytes.now }
{
    if bytes.len() == n as usize {
        value_of(bytes)
    } else {
        None
    }
}

/// The number that 1 to 18 ASCII digits without a leading zero write, or 0 for the text `0`; `None` where `bytes` is
/// anything else.
#[tactic(auto, unfolding(crate::specs::Digits::decimal_value))]
pub fn decimal(bytes: &[u8]) -> Option<u64>
    ensures { result ≡ decimal_value bytes.now }
{
    match bytes {
        [] => None,
        [b'0', _, ..] => None,
        _ if bytes.len() > 18 => None,
        _ => value_of(bytes),
    }
}

/// The number that a decimal writes, where it is from `low` to `high`; `None` where it isn't, and where `bytes` is no decimal.
pub fn decimal_within(bytes: &[u8], low: u64, high: u64) -> Option<u64>
    ensures value { result ≡ decimal_within low high bytes.now }
    ensures least { IfSome result (λ n. low ≤ n) }
    ensures most { IfSome result (λ n. n ≤ high) }
{
    let value = decimal(bytes)?;
    if low <= value && value <= high {
        Some(value)
    } else {
        None
    }
}

/// The number that the bytes write, where each is a digit.
fn value_of(bytes: &[u8]) -> Option<u64>
    requires { length bytes.now ≤ 18 }
    ensures { result ≡ (if list_all is_digit bytes.now then Some (value_of_digits bytes.now) else None) }
{
    let mut value = 0u64;
    for byte in bytes {
        if !byte.is_ascii_digit() {
            return None;
        }
        value = value * 10 + u64::from(*byte - b'0');
    }
    Some(value)
}
