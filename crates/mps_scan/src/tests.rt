// The words of `scan`, their fit with the parameters, and its text.
use crate::coded::CodedDatum;
use crate::fit::fitting_event;
use crate::{read_scan_words, scan};
use arrayvec::ArrayVec;
use mp_base::{Cat, CodeList, NoMemory};
use mp_outside::{MemFiles, MemSink};
use mps_inputs::Name;
use std::alloc::Global;
use std::test::Fail;
use std::thread::Threads;
use ti_scan::Datum;

fn coded(position: u8, code: i32) -> CodedDatum {
    CodedDatum { position, code }
}

#[test]
fn words_name_a_level_and_an_event(rt: HostRuntime) -> Result<(), Fail> {
    for (level, number) in [("1", 1), ("8", 8), ("0003", 3)] {
        let words = read_scan_words(level.as_bytes(), b"none");
        assert!(rt;
            words.is_some_and(|words| words.level == number && words.event.items().is_empty())
        );
    }
    for (event, first, last) in [
        ("1=0,3=1", coded(1, 0), coded(3, 1)),
        ("01=-0,64=007", coded(1, 0), coded(64, 7)),
        ("9=-999999999,10=1", coded(9, -999_999_999), coded(10, 1)),
    ] {
        let words = read_scan_words(b"1", event.as_bytes());
        assert!(rt; words.is_some_and(|words| words.event.items() == [first, last].as_slice()));
    }
    Ok(())
}

#[test]
fn other_words_are_refused(rt: HostRuntime) -> Result<(), Fail> {
    for level in ["0", "9", "00001", "", "+1", "1 ", "-1"] {
        assert!(rt;
            read_scan_words(level.as_bytes(), b"none").is_none(),
            "of {level}"
        );
    }
    for event in [
        "",
        ",",
        "1=0,",
        ",1=0",
        "1=0,,3=1",
        "3=1,1=0",
        "1=0,1=1",
        "0=1",
        "65=0",
        "001=0",
        "1",
        "1=",
        "=1",
        "1=+1",
        "1=--1",
        "1=-",
        "1=1=1",
        "1=1234567890",
        "1= 1",
        "None",
        "none,1=0",
    ] {
        assert!(rt;
            read_scan_words(b"1", event.as_bytes()).is_none(),
            "of {event}"
        );
    }
    Ok(())
}

// The codes 0 and 1.
fn two_codes() -> CodeList {
    let mut codes = ArrayVec::new();
    codes.push(0);
    codes.push(1);
    CodeList::new(codes)
}

#[test]
fn words_fit_the_parameters_or_are_refused(rt: HostRuntime) -> Result<(), Fail> {
    let codes = two_codes();
    for (level, event, fits) in [
        ("1", "none", true),
        ("1", "1=1,2=0", true),
        ("1", "2=001", true),
        ("2", "none", false),
        ("1", "3=1", false),
        ("1", "1=0,3=1", false),
        ("1", "1=7", false),
        ("1", "1=-1", false),
        ("1", "1=-9966699", false),
    ] {
        let words = read_scan_words(level.as_bytes(), event.as_bytes());
        let answer = words.map(|words| fitting_event(&words, 1, 2, &codes).is_some());
        assert_eq!(rt; answer, Some(fits), "of {level} {event}");
    }
    Ok(())
}

#[test]
fn codes_stand_for_the_indices_of_categories(rt: HostRuntime) -> Result<(), Fail> {
    let mut codes = ArrayVec::new();
    codes.push(-3);
    codes.push(0);
    codes.push(7);
    let codes = CodeList::new(codes);
    let words = read_scan_words(b"2", b"1=007,2=-0,5=-3");
    let event = words.and_then(|words| fitting_event(&words, 2, 5, &codes));
    let data = [(1, 2), (2, 1), (5, 0)].map(|(position, cat)| Datum {
        position,
        cat: Cat(cat),
    });
    assert!(rt; event.is_some_and(|event| event.items() == data.as_slice()));
    Ok(())
}

const SIX_CELLS: &str =
    "image = t6.dat\nimage_shape = 6 1 1\ncategories = 0 1\ngrid = 4 1 1\nradii = 1 0 0\ntemplate = 2\nmin_replicates = 1\noutput = out.dat\n";

const SIX_CELLS_BY_LIST: &str =
    "image = t6.dat\nimage_shape = 6 1 1\ncategories = 0 1\ngrid = 4 1 1\nradii = 1 0 0\ntemplate = 2\nmin_replicates = 1\nstore = list\noutput = out.dat\n";

const EIGHT_CELLS: &str =
    "image = t8.dat\nimage_shape = 8 1 1\ncategories = 0 1\ngrid = 5 1 1\nradii = 2 0 0\ntemplate = 4\nmin_replicates = 2\noutput = out.dat\n";

// Whether a scan over files of these bytes tells this text of an event at the level 1.
fn tells(
    rt: &(impl Threads + Sync),
    alloc: Global,
    parameters: &str,
    image: (&str, &[u8]),
    event: &str,
    text: &str,
) -> Result<bool, NoMemory> {
    let mut files = MemFiles::new(alloc);
    files.put("p", parameters.as_bytes())?;
    files.put(image.0, image.1)?;
    let Some(words) = read_scan_words(b"1", event.as_bytes()) else {
        return Ok(false);
    };
    let mut out = MemSink::new(alloc);
    let answer = scan(rt, alloc, &mut files, &mut out, &Name::new("p"), &words);
    Ok(answer.is_ok() && out.bytes() == text.as_bytes())
}

#[test]
fn a_scan_tells_the_replicates_of_an_event(rt: HostRuntime) -> Result<(), Fail> {
    let six = b"line\n1\nfacies\n0\n1\n1\n0\n1\n1\n".as_slice();
    let eight = b"line\n1\nfacies\n0\n0\n1\n1\n0\n1\n0\n0\n".as_slice();
    for (parameters, image, event, text) in [
        (
            SIX_CELLS,
            ("t6.dat", six),
            "1=1",
            "store tree 6\nprefix 0 counts 1 3\nprefix 1 counts 1 1\nretained 1 reach 2 counts 1 1\n",
        ),
        (
            SIX_CELLS_BY_LIST,
            ("t6.dat", six),
            "1=1",
            "store list 3\nprefix 0 counts 1 3\nprefix 1 counts 1 1\nretained 1 reach 2 counts 1 1\n",
        ),
        (
            EIGHT_CELLS,
            ("t8.dat", eight),
            "1=0,3=1",
            "store tree 15\nprefix 0 counts 1 3\nprefix 1 counts 0 2\nprefix 2 counts 0 1\nretained 1 reach 3 counts 0 2\n",
        ),
    ] {
        assert!(rt;
            tells(&rt, rt.alloc(), parameters, image, event, text)?,
            "of {event}"
        );
    }
    Ok(())
}
