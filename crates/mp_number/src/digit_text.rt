// Texts of digits.
ghost use Rattle.std.specs.Prelude.{◌≡◌, ◌≤◌, ◌<◌, ◌^◌, IfSome, length, true};
ghost use Rattle.std.specs.Str.Parse.{digits_value};
ghost use Rattle.mp_number.specs.Number.{all_digits, are_few_digits, short_number};

/// The number that one to `most` digits write, or nothing exactly where the text isn't that.
#[tactic(auto, unfolding(crate::specs::Number::short_number))]
pub fn short_number(text: &[u8], most: usize) -> Option<u128>
    requires { most ≤ 38 }
    ensures value { result ≡ short_number most text.now }
    ensures below { IfSome result (λ number. number < 10 ^ most) }
{
    if are_few_digits(text, most) {
        Some(digits_value(text))
    } else {
        None
    }
}

/// Whether all bytes are digits.
pub fn all_digits(text: &[u8]) -> bool
    ensures { result ≡ all_digits text.now }
{
    text.iter().all(|byte| byte.is_ascii_digit())
}

// Whether the text is one to `most` digits.
fn are_few_digits(text: &[u8], most: usize) -> bool
    ensures { result ≡ are_few_digits most text.now }
{
    all_digits(text) && 1 <= text.len() && text.len() <= most
}

// What at most 38 digits are worth.
fn digits_value(digits: &[u8]) -> u128
    requires digits { all_digits digits.now ≡ true }
    requires few { length digits.now ≤ 38 }
    ensures { result ≡ digits_value 10 digits.now }
{
    let mut value = 0;
    for digit in digits {
        value = value * 10 + u128::from(*digit - b'0');
    }
    value
}
