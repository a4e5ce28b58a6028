// The exact size of a spelled number, without the powers of ten of its exponent.
ghost use Rattle.std.specs.Prelude.{◌≡◌, ◌↔◌, ◌≤◌, ◌<◌, ◌+◌, ◌*◌, ◌/◌, ◌%◌, ◌^◌, ◌++◌, min, true, IsTrue, length, false, ◌⊎◌};
ghost use Rattle.std.specs.List.{list_all};
ghost use Rattle.std.specs.Str.Parse.{digits_value, digits_value_after};
ghost use Rattle.mp_number.specs.Number.{all_digits, numerator, denominator, is_zero_digit};

use crate::spelling::Spelling;

/// A number's size: its whole part, or a greater number than the limit where it is above, and
/// whether nothing stands behind the point.
#[derive(Clone, Copy, Debug, PartialEq, Eq)]
pub struct Size {
    pub whole: u64,
    pub exact: bool,
}

impl Size {
    /// Whether the size, behind the point too, is above a limit.
    pub fn is_above(self, limit: u64) -> bool
        ensures { IsTrue result ↔ ((limit < self.whole) ⊎ ((self.whole ≡ limit) × (self.exact ≡ false))) }
    {
        self.whole > limit || self.whole == limit && !self.exact
    }
}

/// The size of a number with its point moved so many places more to the right.
pub fn scaled(number: &Spelling<'_>, places: u32, limit: u64) -> Size
    requires places { places ≤ 6 }
    requires limit { limit ≤ 10 ^ 18 }
    ensures whole { result.whole ≡ min (limit + 1) (numerator number.now * 10 ^ places / denominator number.now) }
    ensures exact { IsTrue result.exact ↔ (numerator number.now * 10 ^ places % denominator number.now ≡ 0) }
{
    let right = number.moves.right + places;
    let left = number.moves.left;
    if left <= right {
        moved_right(
            number.whole,
            number.fraction,
            (right - left) as usize,
            limit,
        )
    } else {
        moved_left(
            number.whole,
            number.fraction,
            (left - right) as usize,
            limit,
        )
    }
}

// The size where the point moves to the right: digits behind it, then zeros, come before it.
fn moved_right(whole: &[u8], fraction: &[u8], places: usize, limit: u64) -> Size
    requires whole { all_digits whole.now ≡ true }
    requires fraction { all_digits fraction.now ≡ true }
    requires limit { limit ≤ 10 ^ 18 }
    ensures whole { result.whole ≡ min (limit + 1) (digits_value 10 (whole.now ++ fraction.now) * 10 ^ places / 10 ^ length fraction.now) }
    ensures exact { IsTrue result.exact ↔ (digits_value 10 (whole.now ++ fraction.now) * 10 ^ places % 10 ^ length fraction.now ≡ 0) }
{
    let taken = places.min(fraction.len());
    let (front, rest) = fraction.split_at(taken);
    let digits = with_digits(with_digits(0, whole, limit), front, limit);
    Size {
        whole: with_zeros(digits, places - taken, limit),
        exact: are_zeros(rest),
    }
}

// The size where the point moves to the left: digits before it come behind it.
fn moved_left(whole: &[u8], fraction: &[u8], places: usize, limit: u64) -> Size
    requires whole { all_digits whole.now ≡ true }
    requires fraction { all_digits fraction.now ≡ true }
    requires limit { limit ≤ 10 ^ 18 }
    ensures whole { result.whole ≡ min (limit + 1) (digits_value 10 (whole.now ++ fraction.now) / 10 ^ (length fraction.now + places)) }
    ensures exact { IsTrue result.exact ↔ (digits_value 10 (whole.now ++ fraction.now) % 10 ^ (length fraction.now + places) ≡ 0) }
{
    let (front, rest) = whole.split_at(whole.len().saturating_sub(places));
    Size {
        whole: with_digits(0, front, limit),
        exact: are_zeros(rest) && are_zeros(fraction),
    }
}

// The number with these digits behind it, or one more than the limit where it is above.
fn with_digits(number: u64, digits: &[u8], limit: u64) -> u64
    requires digits { all_digits digits.now ≡ true }
    requires number { number ≤ limit + 1 }
    requires limit { limit ≤ 10 ^ 18 }
    ensures value { result ≡ min (limit + 1) (digits_value_after 10 number digits.now) }
    ensures most { result ≤ limit + 1 }
{
    let mut total = number;
    for digit in digits {
        total = (total * 10 + u64::from(*digit - b'0')).min(limit + 1);
    }
    total
}

// The number with so many zeros behind it, or one more than the limit where it is above.
fn with_zeros(number: u64, zeros: usize, limit: u64) -> u64
    requires number { number ≤ limit + 1 }
    requires limit { limit ≤ 10 ^ 18 }
    ensures { result ≡ min (limit + 1) (number * 10 ^ zeros) }
{
    let mut total = number;
    for _ in 0..zeros {
        if total == 0 || total > limit {
            return total;
        }
        total = (total * 10).min(limit + 1);
    }
    total
}

// Whether all digits are 0.
fn are_zeros(digits: &[u8]) -> bool
    ensures { result ≡ list_all is_zero_digit digits.now }
{
    digits.iter().all(|digit| *digit == b'0')
}
