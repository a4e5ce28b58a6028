// Reading of decimal numbers.
ghost use Rattle.std.specs.Prelude.{◌≡◌, ◌≤◌, ◌^◌, nat_abs, IfOk};
ghost use Rattle.mp_number.specs.Number.{micro_of, whole_of, signed as signed_of};

use crate::scale::scaled;
use crate::spelling::spelled;

/// Why a text gives no number.
#[derive(Clone, Copy, Debug, PartialEq, Eq)]
pub enum NumberFault {
    /// The text isn't the spelling of a number.
    NotNumber,
    /// The value is farther from 0 than is allowed.
    OutOfRange,
    /// The value has a part behind the point.
    NotWhole,
}

// The greatest size of a whole number.
const MAX_WHOLE: u64 = 999_999_999;

// The greatest size of a number in millionths, and the decimal places of a millionth.
const MAX_MICRO: u64 = 1_000_000_000_000_000_000;

const MICRO_PLACES: u32 = 6;

/// The whole number that a text spells, as `7`, `-0.5e1` or `10e-1`. The value is exact. Beyond
/// 999,999,999 on either side it is `OutOfRange`, and else `NotWhole` where it isn't whole.
pub fn read_whole(text: &[u8]) -> Result<i32, NumberFault>
    ensures value { result ≡ whole_of text.now }
    ensures range { IfOk result (λ z. nat_abs z ≤ 999999999) }
{
    let Some(number) = spelled(text) else {
        return Err(NumberFault::NotNumber);
    };
    let size = scaled(&number, 0, MAX_WHOLE);
    if size.is_above(MAX_WHOLE) {
        return Err(NumberFault::OutOfRange);
    }
    if !size.exact {
        return Err(NumberFault::NotWhole);
    }
    Ok(signed(number.negative, size.whole) as i32)
}

/// The number that a text spells, in millionths: further decimals are dropped, towards zero.
/// Beyond 10^12 on either side, before the scaling, it is `OutOfRange`. It never is `NotWhole`.
pub fn read_micro(text: &[u8]) -> Result<i64, NumberFault>
    ensures value { result ≡ micro_of text.now }
    ensures range { IfOk result (λ z. nat_abs z ≤ 10 ^ 18) }
{
    let Some(number) = spelled(text) else {
        return Err(NumberFault::NotNumber);
    };
    let size = scaled(&number, MICRO_PLACES, MAX_MICRO);
    if size.is_above(MAX_MICRO) {
        return Err(NumberFault::OutOfRange);
    }
    Ok(signed(number.negative, size.whole))
}

// The number of this size, on the one side of 0 or the other.
fn signed(negative: bool, size: u64) -> i64
    requires { size ≤ 10 ^ 18 }
    ensures { result ≡ signed_of negative size }
{
    if negative {
        -(size as i64)
    } else {
        size as i64
    }
}
