// The lines of a file.
ghost use Rattle.std.specs.Prelude.{◌≡◌, ◌≤◌, ◌<◌, ◌∷◌, [], IfNone, IfSome, length};
ghost use Rattle.bstr.specs.Records.{trim_record};
ghost use Rattle.mp_text.specs.Lines.{line_end, lines_of, text_of, without_line_feed};

use bstr::ByteSlice;

/// The first line, with the line feed that ends it, and what stands behind it; or nothing exactly
/// where there is no byte.
pub fn next_line(bytes: &[u8]) -> Option<(&[u8], &[u8])>
    ensures none { IfNone result (lines_of bytes.now ≡ []) }
    ensures lines { IfSome result (λ cut. lines_of bytes.now ≡ cut.0.now ∷ lines_of cut.1.now) }
    ensures some { IfSome result (λ cut. 0 < length cut.0.now) }
    ensures less { IfSome result (λ cut. length cut.1.now < length bytes.now) }
{
    if bytes.is_empty() {
        return None;
    }
    // Most lines of an image are one digit, which needs no search.
    if bytes.len() > 1 && bytes[0] != b'\n' && bytes[1] == b'\n' {
        return Some(bytes.split_at(2));
    }
    let end = line_end(bytes).unwrap_or(bytes.len());
    Some(bytes.split_at(end))
}

/// Where the first line ends: the place behind the first line feed, or nothing where there is none.
/// Of bytes that others follow, what stands before that place is their first line too.
pub fn line_end(bytes: &[u8]) -> Option<usize>
    ensures end { result ≡ line_end bytes.now }
    ensures within { IfSome result (λ end. (0 < end) × (end ≤ length bytes.now)) }
{
    match bytes.find_byte(b'\n') {
        Some(place) => Some(place + 1),
        None => None,
    }
}

/// The line without the line feed that ends it.
pub fn without_line_feed(line: &[u8]) -> &[u8]
    ensures { result.now ≡ without_line_feed line.now }
{
    without_last(line, b'\n')
}

/// What a line says: without its line feed, and without one carriage return before that or at the
/// file's end.
pub fn line_text(line: &[u8]) -> &[u8]
    ensures { result.now ≡ text_of line.now }
{
    without_last(without_line_feed(line), b'\r')
}

// Without this byte, where it is the last.
fn without_last(bytes: &[u8], last: u8) -> &[u8]
    ensures { result.now ≡ trim_record last bytes.now }
{
    if !bytes.is_empty() && bytes[bytes.len() - 1] == last {
        &bytes[..bytes.len() - 1]
    } else {
        bytes
    }
}
