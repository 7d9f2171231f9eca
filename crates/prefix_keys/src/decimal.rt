//! Decimal digits and the numbers that they represent.
ghost use Rattle.std.specs.Prelude.{◌≡◌, ◌≤◌, IfSome};
ghost use Rattle.std.specs.List.{list_all};
ghost use Rattle.prefix_keys.specs.Text.{decimal_number, is_digit};

/// Returns `true` if every byte is a decimal digit.
pub fn are_digits(text: &[u8]) -> bool
    ensures { result ≡ list_all is_digit text.now }
{
    text.iter().all(|byte| byte.is_ascii_digit())
}

/// Returns the number that 1 to `digits` decimal digits represent, or `None` if the text is anything else or the number
/// exceeds the limit. Leading zeros are allowed.
#[tactic(auto, using(crate::proofs::Room::digits_room))]
pub fn read_decimal(text: &[u8], digits: usize, limit: u64) -> Option<u64>
    requires { digits ≤ 20 }
    ensures value { result ≡ decimal_number digits limit text.now }
    ensures limited { IfSome result (λ number. number ≤ limit) }
{
    if text.is_empty() || text.len() > digits {
        return None;
    }
    let mut number = 0u128;
    for b in text {
        if *b < b'0' || *b > b'9' {
            return None;
        }
        number = number * 10 + u128::from(*b - b'0');
    }
    if number <= u128::from(limit) {
        Some(number as u64)
    } else {
        None
    }
}
