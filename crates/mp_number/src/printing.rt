// The printed text of numbers.
ghost use Rattle.std.specs.Prelude.{◌≡◌, ◌++◌, ◌+◌, ◌<◌, ◌≤◌, OnErr, OnOk, length};
ghost use Rattle.std.specs.Fmt.{signed_decimal};
ghost use Rattle.arrayvec.specs.ArrayVec.{array_vec_len};
ghost use Rattle.mp_number.specs.Number.{fraction_text, micro_text, significant};

use crate::memory::NoMemory;
use arrayvec::ArrayVec;
use itoa::Buffer;

// Room for the text of any number of millionths.
const MAX_TEXT: usize = 64;

// How many millionths a whole has.
const MICRO: u64 = 1_000_000;

/// Appends the decimal text of a whole number, with a `-` before it where it is negative.
/// Without memory for it the vector stays as it was.
pub fn push_whole(to: &mut Vec<u8>, value: i128) -> Result<(), NoMemory>
    ensures text { OnOk result (to.new.items ≡ to.old.items ++ signed_decimal value) }
    ensures err { OnErr result (to.new.items ≡ to.old.items) }
{
    to.extend_from_slice(Buffer::new().format(value).as_bytes())?;
    Ok(())
}

/// Appends the text of a number of millionths: a `-` where it is negative, the whole part, and,
/// where the millionths aren't 0, a `.` and the six digits without the zeros at their end.
/// Without memory for it the vector stays as it was.
pub fn push_micro(to: &mut Vec<u8>, value: i64) -> Result<(), NoMemory>
    ensures text { OnOk result (to.new.items ≡ to.old.items ++ micro_text value) }
    ensures err { OnErr result (to.new.items ≡ to.old.items) }
{
    let size = value.unsigned_abs();
    let mut text = ArrayVec::<u8, MAX_TEXT>::new();
    if value < 0 {
        text.push(b'-');
    }
    append(&mut text, Buffer::new().format(size / MICRO).as_bytes());
    push_fraction(&mut text, size % MICRO);
    to.extend_from_slice(text.as_slice())?;
    Ok(())
}

// Appends a point and so many millionths, or nothing where there are none.
fn push_fraction(text: &mut ArrayVec<u8, MAX_TEXT>, millionths: u64)
    requires few { millionths < 1000000 }
    requires room { array_vec_len text.old + 7 ≤ 64 }
    ensures { text.new.items ≡ text.old.items ++ fraction_text millionths }
{
    if millionths == 0 {
        return;
    }
    let mut buffer = Buffer::new();
    // The digit in front keeps the zeros behind it.
    let (_, digits) = buffer.format(MICRO + millionths).as_bytes().split_at(1);
    text.push(b'.');
    append(text, without_end_zeros(digits));
}

// The digits without the zeros at their end.
fn without_end_zeros(digits: &[u8]) -> &[u8]
    ensures { result.now ≡ significant digits.now }
{
    let mut end = digits.len();
    while end > 0 && digits[end - 1] == b'0' {
        end -= 1;
    }
    &digits[..end]
}

// Appends bytes for which there is room.
fn append(text: &mut ArrayVec<u8, MAX_TEXT>, bytes: &[u8])
    requires { array_vec_len text.old + length bytes.now ≤ 64 }
    ensures { text.new.items ≡ text.old.items ++ bytes.now }
{
    for byte in bytes {
        text.push(*byte);
    }
}
