// The accepted spellings of numbers, printed numbers, and numbers in a row.
use crate::{
    Micro, NumberFault, push_behind_spaces, push_micro, push_spaced, push_whole, read_micro,
    read_whole, short_number,
};

#[test]
fn whole_numbers_are_read(rt: HostRuntime) {
    let rows: [(&[u8], Result<i32, NumberFault>); 24] = [
        (b"10e-1", Ok(1)),
        (b"1.5", Err(NumberFault::NotWhole)),
        (b".", Err(NumberFault::NotNumber)),
        (b"1e400", Err(NumberFault::OutOfRange)),
        (b"1e1000", Err(NumberFault::NotNumber)),
        (b"+.5e1", Ok(5)),
        (b"1.0E+00", Ok(1)),
        (b"1.0000", Ok(1)),
        (b"-007", Ok(-7)),
        (b"-0", Ok(0)),
        (b"5.", Ok(5)),
        (b"25d-1", Err(NumberFault::NotWhole)),
        (b"12D2", Ok(1200)),
        (b"0e999", Ok(0)),
        (b"", Err(NumberFault::NotNumber)),
        (b"-", Err(NumberFault::NotNumber)),
        (b"1.2.3", Err(NumberFault::NotNumber)),
        (b"1e", Err(NumberFault::NotNumber)),
        (b"1e+", Err(NumberFault::NotNumber)),
        (b"1 ", Err(NumberFault::NotNumber)),
        (b"999999999", Ok(999999999)),
        (b"999999999.5", Err(NumberFault::OutOfRange)),
        (b"-1000000000", Err(NumberFault::OutOfRange)),
        (b"-999999999", Ok(-999999999)),
    ];
    for (text, value) in rows {
        assert!(rt; read_whole(text) == value);
    }
}

#[test]
fn millionths_are_read(rt: HostRuntime) {
    let rows: [(&[u8], Result<i64, NumberFault>); 10] = [
        (b"1.23456789", Ok(1234567)),
        (b"-1.9999999", Ok(-1999999)),
        (b"1e12", Ok(1_000_000_000_000_000_000)),
        (b"1000000000000.0000001", Err(NumberFault::OutOfRange)),
        (b"-1e12", Ok(-1_000_000_000_000_000_000)),
        (b"1e-6", Ok(1)),
        (b"123e-8", Ok(1)),
        (b"1e-999", Ok(0)),
        (b"1.5e", Err(NumberFault::NotNumber)),
        (b"2.5E1", Ok(25_000_000)),
    ];
    for (text, value) in rows {
        assert!(rt; read_micro(text) == value);
    }
}

#[test]
fn a_number_has_at_most_64_bytes(rt: HostRuntime) {
    let longest = b"0000000000000000000000000000000000000000000000000000000000000007";
    let longer = b"00000000000000000000000000000000000000000000000000000000000000007";
    let shifted = b".00000000000000000000000000000000000000000000000000000000025e+59";
    assert!(rt; longest.len() == 64 && longer.len() == 65 && shifted.len() == 64);
    assert!(rt; read_whole(longest) == Ok(7));
    assert!(rt; read_whole(longer) == Err(NumberFault::NotNumber));
    assert!(rt; read_whole(shifted) == Ok(25));
}

#[test]
fn numbers_are_printed(rt: HostRuntime) {
    let mut text = Vec::new(rt.alloc());
    push_whole(&mut text, -12).expect(&rt, "memory is left");
    text.push(b' ').expect(&rt, "memory is left");
    for value in [1500000, -250000, 3000000, 0, -1, i64::MIN] {
        push_micro(&mut text, value).expect(&rt, "memory is left");
        text.push(b' ').expect(&rt, "memory is left");
    }
    assert!(rt;
        text.as_slice() == b"-12 1.5 -0.25 3 0 -0.000001 -9223372036854.775808 ".as_slice()
    );
}

#[test]
fn short_numbers_have_so_many_digits(rt: HostRuntime) {
    let rows: [(&[u8], usize, Option<u128>); 6] = [
        (b"0064", 4, Some(64)),
        (b"00064", 4, None),
        (b"", 4, None),
        (b"+1", 4, None),
        (b"18446744073709551616", 20, Some(18446744073709551616)),
        (b"1.", 4, None),
    ];
    for (text, most, number) in rows {
        assert!(rt; short_number(text, most) == number);
    }
}

#[test]
fn numbers_stand_in_a_row(rt: HostRuntime) {
    let mut text = Vec::new(rt.alloc());
    push_spaced(&mut text, &[6u32, 1, 1]).expect(&rt, "memory is left");
    push_behind_spaces(&mut text, &[0i32, -9]).expect(&rt, "memory is left");
    push_behind_spaces(&mut text, &[Micro(1500000)]).expect(&rt, "memory is left");
    assert!(rt; text.as_slice() == b"6 1 1 0 -9 1.5".as_slice());
}
