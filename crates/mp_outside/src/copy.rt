// Copying from a place on.
ghost use Rattle.std.specs.Prelude.{◌≡◌, ◌≤◌, ◌^◌, length};
ghost use Rattle.mp_outside.specs.Contents.{ReadsFrom};

/// Copies bytes from a place on into a buffer, as many as fit, and says how many.
pub fn copy_from(bytes: &[u8], at: u64, buf: &mut [u8]) -> usize
    requires { at ≤ 2 ^ 28 }
    ensures copied { ReadsFrom bytes.now at result buf.new }
    ensures bound { result ≤ length buf.new }
{
    let at = at as usize;
    if at >= bytes.len() {
        return 0;
    }
    let rest = &bytes[at..];
    let count = rest.len().min(buf.len());
    buf[..count].copy_from_slice(&rest[..count]);
    count
}
