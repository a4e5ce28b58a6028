// Tables that are fed in pieces. The image has six cells of the categories 0 and 1.
use crate::tests::{codes, has_rows};
use crate::{Table, TableError, TableFault, TableReader, Want};
use mp_base::NoMemory;
use std::alloc::Global;
use std::slice;

// A reader of the image that was fed nothing yet.
fn reader(alloc: Global) -> Result<TableReader, NoMemory> {
    let want = Want::Image { column: 1, rows: 6 };
    TableReader::new(alloc, want, codes())
}

// The table of bytes that are fed one at a time.
fn read_by_bytes(alloc: Global, bytes: &[u8]) -> Result<Table, TableError> {
    let mut reader = reader(alloc)?;
    for byte in bytes {
        reader.feed(slice::from_ref(byte))?;
    }
    reader.end()
}

// The first byte with which an error is told, counted from 0, that error, and the one at the end.
fn told_by_bytes(
    alloc: Global,
    bytes: &[u8],
) -> Result<Option<(usize, TableError, Option<TableError>)>, NoMemory> {
    let mut reader = reader(alloc)?;
    for (place, byte) in bytes.iter().enumerate() {
        if let Err(error) = reader.feed(slice::from_ref(byte)) {
            return Ok(Some((place, error, reader.end().err())));
        }
    }
    Ok(None)
}

#[test]
fn a_table_may_be_cut_anywhere(rt: HostRuntime) {
    let bytes =
        b"line\r\n 2 6x1x1\r\na\r\nb\r\n 0.0  9\r\n1.0000 9\r\n1.0E+00\t9\r\n0 9 5\r\n1. x\r\n+1 9";
    let table = read_by_bytes(rt.alloc(), bytes).expect(&rt, "it is accepted");
    assert!(rt; table.lines == 10);
    assert!(rt; has_rows(&table.rows, 5, &[0, 1, 1, 0, 1, 1]));
}

#[test]
fn a_fault_is_told_when_its_line_ends(rt: HostRuntime) {
    let bytes = b"line\n1\nfacies\n0\n1\n1\n0\n1\n7\n";
    let told = told_by_bytes(rt.alloc(), bytes).expect(&rt, "memory is left");
    let fault = TableError::Fault(TableFault::UnknownCategory { line: 9 });
    assert!(rt; bytes.len() == 26);
    assert!(rt; told == Some((25, fault, Some(fault))));
}
