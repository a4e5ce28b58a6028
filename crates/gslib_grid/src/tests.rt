// Tables that are accepted and refused. The image has six cells of the categories 0 and 1.
ghost use Rattle.std.specs.Prelude.{◌≡◌, ◌≤◌, pos, negsuc, [], ◌∷◌};
ghost use Rattle.gslib_grid.specs.Table.{wanted_of};

use crate::{Row, Rows, Table, TableError, TableFault, Want, image_from_table, read_table};
use arrayvec::ArrayVec;
use mp_base::{Cat, CellId, CodeList, Codes, Shape};
use std::alloc::Global;

const IMAGE: &[u8] = b"line\n1\nfacies\n0\n1\n1\n0\n1\n1\n";

const WELLS: &[u8] = b"wells\n4\nX\nY\nZ\nfacies\n0 0 0 1\n1 0 0 0\n2 0 0 1\n";

pub fn codes() -> Codes
    ensures categories { result.categories ≡ pos 0 ∷ pos 1 ∷ [] }
    ensures missing { result.missing ≡ negsuc 9966698 }
{
    let mut categories = ArrayVec::new();
    categories.push(0);
    categories.push(1);
    Codes {
        categories: CodeList::new(categories),
        missing: -9_966_699,
    }
}

fn read(alloc: Global, bytes: &[u8], want: &Want) -> Result<Table, TableError>
    requires { 1 ≤ (wanted_of want.now).category }
{
    let codes = codes();
    read_table(alloc, bytes, want, &codes)
}

fn read_image(alloc: Global, bytes: &[u8]) -> Result<Table, TableError> {
    let want = Want::Image { column: 1, rows: 6 };
    read(alloc, bytes, &want)
}

// Whether the rows have these lines and categories.
pub fn has_rows(rows: &Rows, first: u32, cats: &[u8]) -> bool {
    let mut line = first;
    let mut all = rows.len() == cats.len();
    for (number, cat) in cats.iter().enumerate() {
        all = all && has_row(rows, number, line, Cat(*cat));
        line = line.wrapping_add(1);
    }
    all
}

// Whether the row of this number has this line and this category.
fn has_row(rows: &Rows, number: usize, line: u32, cat: Cat) -> bool {
    rows.category(number) == Some(cat) && rows.get(number).is_some_and(|row| row.line == line)
}

#[test]
fn an_image_is_read(rt: HostRuntime) {
    let producers =
        b"line\r\n 2 6x1x1\r\na\r\nb\r\n 0.0  9\r\n1.0000 9\r\n1.0E+00\t9\r\n0 9 5\r\n1. x\r\n+1 9";
    let tables: [(&[u8], u32, u32); 3] = [
        (IMAGE, 9, 4),
        (b"line\n1\nfacies\n0\n1\n1\n0\n1\n1\n\r", 10, 4),
        (producers, 10, 5),
    ];
    for (bytes, lines, first) in tables {
        let table = read_image(rt.alloc(), bytes).expect(&rt, "it is accepted");
        assert!(rt; table.lines == lines);
        assert!(rt; has_rows(&table.rows, first, &[0, 1, 1, 0, 1, 1]));
    }
}

#[test]
fn the_cells_are_the_rows_in_order(rt: HostRuntime) {
    let bytes = b"line\n1\nfacies\n0\n\n 1\t\n-9966699\n0\n1\n1\n";
    let table = read_image(rt.alloc(), bytes).expect(&rt, "it is accepted");
    let shape = Shape::new(6, 1, 1).expect(&rt, "it has six cells");
    assert!(rt; table.rows.len() == 6);
    let grid = image_from_table(rt.alloc(), &table, shape).expect(&rt, "memory is left");
    let cells = [0, 1, 8, 0, 1, 1];
    assert!(rt; shape.cells() == 6);
    for (number, cat) in cells.iter().enumerate() {
        let found = grid.get(CellId(number as u32));
        assert!(rt; found.map_or(8, |found| found.0) == *cat);
    }
}

#[test]
fn a_refused_image_names_its_first_fault(rt: HostRuntime) {
    let tables: [(&[u8], TableFault); 16] = [
        (
            b"line\n1\nfacies\n0\n1\n1\n0\n1\n7\n",
            TableFault::UnknownCategory { line: 9 },
        ),
        (
            b"line\n1\nfacies\n0\n1\n1\n0\n1\n",
            TableFault::TooFewRows { line: 8 },
        ),
        (
            b"line\n1\nfacies\n0\n1\n1\n0\n1\n1\n1\n",
            TableFault::TooManyRows { line: 10 },
        ),
        (b"line\n0\nfacies\n0\n1\n1\n0\n1\n1\n", TableFault::BadCount),
        (
            b"line\n65\nfacies\n0\n1\n1\n0\n1\n1\n",
            TableFault::BadCount,
        ),
        (
            b"line\n1x\nfacies\n0\n1\n1\n0\n1\n1\n",
            TableFault::BadCount,
        ),
        (
            b"line\n-1\nfacies\n0\n1\n1\n0\n1\n1\n",
            TableFault::BadCount,
        ),
        (
            b"line\n2\nfacies\n0\n1\n1\n0\n1\n1\n",
            TableFault::ShortRow { line: 5 },
        ),
        (
            b"line\n1\nfacies\n1e\n1\n1\n0\n1\n1\n",
            TableFault::BadNumber { line: 4 },
        ),
        (
            b"line\n1\nfacies\n1.5\n1\n1\n0\n1\n1\n",
            TableFault::BadNumber { line: 4 },
        ),
        (
            b"line\n1\nfacies\n1e30\n1\n1\n0\n1\n1\n",
            TableFault::BadNumber { line: 4 },
        ),
        (b"", TableFault::NoTitle),
        (b"line\n3\na\nb\n", TableFault::BadCount),
        (
            b"line\n1\nfacies\n0\n7\n1x\n",
            TableFault::UnknownCategory { line: 5 },
        ),
        (
            b"line\n1\nfacies\n0\n1x\n7\n",
            TableFault::BadNumber { line: 5 },
        ),
        (b"\n0000000001\nfacies\n0\n", TableFault::BadCount),
    ];
    for (bytes, fault) in tables {
        let answer = read_image(rt.alloc(), bytes);
        assert!(rt; answer.err() == Some(TableError::Fault(fault)));
    }
}

// What the image's first so many bytes lack.
fn fault_of_cut(count: usize) -> TableFault {
    match count {
        0 => TableFault::NoTitle,
        1..=7 => TableFault::BadCount,
        8..=14 => TableFault::TooFewRows { line: 3 },
        15 | 16 => TableFault::TooFewRows { line: 4 },
        17 | 18 => TableFault::TooFewRows { line: 5 },
        19 | 20 => TableFault::TooFewRows { line: 6 },
        21 | 22 => TableFault::TooFewRows { line: 7 },
        _ => TableFault::TooFewRows { line: 8 },
    }
}

#[test]
fn a_cut_image_lacks_rows(rt: HostRuntime) {
    assert!(rt; IMAGE.len() == 26);
    for count in 0..25 {
        let answer = read_image(rt.alloc(), &IMAGE[..count]);
        assert!(rt; answer.err() == Some(TableError::Fault(fault_of_cut(count))));
    }
    let table = read_image(rt.alloc(), &IMAGE[..25]).expect(&rt, "it is accepted");
    assert!(rt; has_rows(&table.rows, 4, &[0, 1, 1, 0, 1, 1]));
}

#[test]
fn points_are_read(rt: HostRuntime) {
    let want = Want::Points {
        columns: [1, 2, 3, 4],
    };
    let table = read(rt.alloc(), WELLS, &want).expect(&rt, "it is accepted");
    assert!(rt; table.lines == 9);
    assert!(rt; has_rows(&table.rows, 7, &[1, 0, 1]));
    for (number, x) in [0, 1_000_000, 2_000_000].iter().enumerate() {
        let row = table.rows.get(number).expect(&rt, "it has three rows");
        assert!(rt; row.x == Some(*x) && row.y == Some(0) && row.z == Some(0));
    }
    let flat = Want::Points {
        columns: [2, 0, 0, 1],
    };
    let bytes = b"wells\n2\nfacies\nX\n1 -0.5\n-9966699 2\n7 x\n";
    let answer = read(rt.alloc(), bytes, &flat);
    assert!(rt; answer.err() == Some(TableError::Fault(TableFault::BadNumber { line: 7 })));
    let table = read(rt.alloc(), &bytes[..35], &flat).expect(&rt, "it is accepted");
    let first = Row {
        line: 5,
        x: Some(-500_000),
        y: None,
        z: None,
        cat: Some(Cat(1)),
    };
    let second = Row {
        line: 6,
        x: Some(2_000_000),
        y: None,
        z: None,
        cat: None,
    };
    assert!(rt; table.rows.get(0) == Some(first));
    assert!(rt; table.rows.get(1) == Some(second));
    assert!(rt; table.rows.get(2).is_none());
}

#[test]
fn a_column_may_be_missing(rt: HostRuntime) {
    let want = Want::Image { column: 2, rows: 6 };
    let answer = read(rt.alloc(), IMAGE, &want);
    assert!(rt; answer.err() == Some(TableError::Fault(TableFault::NoColumn)));
}

#[test]
fn a_long_title_is_refused(rt: HostRuntime) {
    let mut bytes = Vec::new(rt.alloc());
    for _ in 0..65_536 {
        bytes.push(b'-').expect(&rt, "memory is left");
    }
    bytes
        .extend_from_slice(b"\n1\nfacies\n0\n1\n1\n0\n1\n1")
        .expect(&rt, "memory is left");
    assert!(rt; read_image(rt.alloc(), bytes.as_slice()).is_ok());
    bytes.insert(0, b'-').expect(&rt, "memory is left");
    let answer = read_image(rt.alloc(), bytes.as_slice());
    assert!(rt; answer.err() == Some(TableError::Fault(TableFault::TooLong { line: 1 })));
}
