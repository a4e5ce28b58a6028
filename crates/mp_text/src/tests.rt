// Lines and fields, one after another.
use crate::{cut, field_at, has_fields, line_end, line_text, next_field, next_line, trimmed};

#[test]
fn a_file_is_cut_into_lines(rt: HostRuntime) {
    let mut rest = b"a\r\n\nb\r\r\n\r".as_slice();
    let lines: [(&[u8], &[u8]); 4] = [
        (b"a\r\n", b"a"),
        (b"\n", b""),
        (b"b\r\r\n", b"b\r"),
        (b"\r", b""),
    ];
    for (whole, text) in lines {
        let (line, behind) = next_line(rest).expect(&rt, "a line is left");
        assert!(rt; line == whole && line_text(line) == text);
        rest = behind;
    }
    assert!(rt; next_line(rest).is_none());
    assert!(rt; line_end(b"ab\nc") == Some(3) && line_end(b"abc").is_none());
}

#[test]
fn a_line_is_cut_into_fields(rt: HostRuntime) {
    let line = b" 0.0\t 9 x ".as_slice();
    assert!(rt; field_at(line, 2) == Some(b"9".as_slice()) && field_at(line, 4).is_none());
    assert!(rt; has_fields(line, 3) && !has_fields(line, 4) && !has_fields(b" \t", 1));
    assert!(rt; next_field(b"\t").is_none());
    assert!(rt; trimmed(line) == b"0.0\t 9 x".as_slice());
    let (name, value) = cut(b"a=b=c", b'=').expect(&rt, "there is a separator");
    assert!(rt; name == b"a".as_slice() && value == b"b=c".as_slice());
    assert!(rt; cut(b"abc", b'=').is_none());
}
