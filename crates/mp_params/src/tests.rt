// Files that are read and refused, and the printed text of parameters.
use crate::{
    Key, Name, Params, ParamsError, ParamsFault, StoreChoice, Targets, print_params, read_params,
};
use arrayvec::ArrayVec;
use std::alloc::{AllocError, Global};

// The parameters of a small simulation, with what is required and the replicates.
const SMALL: &[u8] =
    b"image = ti.dat\nimage_shape = 6 1 1\ncategories = 0 1\ngrid = 4 1 1\nradii = 1 0 0\ntemplate = 2\nmin_replicates = 1\noutput = out.dat\n";

const SMALL_PRINTED: &[u8] =
    b"version = 1\nimage = ti.dat\nimage_shape = 6 1 1\nimage_column = 1\ncategories = 0 1\nmissing = -9966699\ngrid = 4 1 1\norigin = 0 0 0\nsize = 1 1 1\npoint_columns = 1 2 3 4\nradii = 1 0 0\ntemplate = 2\nmax_data = 64\nmin_replicates = 1\nlevels = 1\nservo = 0\nseed = 0\nrealisations = 1\nstore = tree\nwindow = 64\noutput = out.dat\n";

// Every key, out of order, with remarks, blanks, ends of lines with CR, and numbers in several
// spellings.
const FULL: &[u8] =
    b"# a remark with \xff\r\n\r\n\t # another\noutput = results/a = b.dat \r\nstore=list\n seed\t=18446744073709551615\nversion = 1\nimage = ti.dat\nimage_shape = 6 1e1 +3\nimage_column = 2\ncategories = -1   5\t7\nmissing = -9\ngrid = 4 5 6\norigin = -0.5 1.25 1e6\nsize = .5 0.000001 1000000000\npoints = wells 2.dat\npoint_columns = 0 0 3 64\nradii = 64 0 7\ntemplate = 64\nmax_data = 1\nmin_replicates = 1000000\nlevels = 8\nservo = 999\ntargets = 500000 499999 1\nrealisations = 1000\nwindow = 256\r";

const FULL_PRINTED: &[u8] =
    b"version = 1\nimage = ti.dat\nimage_shape = 6 10 3\nimage_column = 2\ncategories = -1 5 7\nmissing = -9\ngrid = 4 5 6\norigin = -0.5 1.25 1000000\nsize = 0.5 0.000001 1000000000\npoints = wells 2.dat\npoint_columns = 0 0 3 64\nradii = 64 0 7\ntemplate = 64\nmax_data = 1\nmin_replicates = 1000000\nlevels = 8\nservo = 999\ntargets = 500000 499999 1\nseed = 18446744073709551615\nrealisations = 1000\nstore = list\nwindow = 256\noutput = results/a = b.dat\n";

const BAD_LINE: Option<ParamsFault> = Some(ParamsFault::BadLine { line: 9 });

const BAD_VALUE: Option<ParamsFault> = Some(ParamsFault::BadValue { line: 9 });

// Texts behind a small file, and what it is refused for.
const BEHIND: [(&[u8], Option<ParamsFault>); 34] = [
    (b"", None),
    (b"  \t\n # servo = 1000\n#\n", None),
    (b"servo = 999", None),
    (b"servo = 1000", BAD_VALUE),
    (b"servo = 1.5", BAD_VALUE),
    (b"servo =", BAD_VALUE),
    (b"servo = 1 2", BAD_VALUE),
    (b"Servo = 1", BAD_LINE),
    (b"servo 1", BAD_LINE),
    (b"= 1", BAD_LINE),
    (b"ser vo = 1", BAD_LINE),
    (b"servo = 1\x7f", BAD_LINE),
    (b"servo = 1\r\r\n", BAD_LINE),
    (b"sevro = 1", Some(ParamsFault::UnknownKey { line: 9 })),
    (
        b"servo = 1\nservo = 1000",
        Some(ParamsFault::Twice { line: 10 }),
    ),
    (b"output = another", Some(ParamsFault::Twice { line: 9 })),
    (b"\n\nseed = -1", Some(ParamsFault::BadValue { line: 11 })),
    (b"seed = 18446744073709551616", BAD_VALUE),
    (b"seed = 000000000000000000001", BAD_VALUE),
    (b"seed = 00000000000000000001", None),
    (b"seed = 1e1", BAD_VALUE),
    (b"version = 2", BAD_VALUE),
    (b"version = 1.0", BAD_VALUE),
    (b"size = 1 0 1", BAD_VALUE),
    (b"size = 1 1 1000000000.000001", BAD_VALUE),
    (b"point_columns = 1 2 3 0", BAD_VALUE),
    (b"store = Tree", BAD_VALUE),
    (b"points = \t", BAD_VALUE),
    (b"missing = 1", Some(ParamsFault::BadMissing)),
    (b"targets = 400000 599999", Some(ParamsFault::BadTargets)),
    (b"targets = 1000000", Some(ParamsFault::BadTargets)),
    (b"targets = 400000 600000", None),
    (b"targets = 0 0 0 0 0 0 0 0 1000000", BAD_VALUE),
    (b"missing = 0\ntargets = 1", Some(ParamsFault::BadMissing)),
];

// Whole files, and what they are refused for.
const WHOLE: [(&[u8], ParamsFault); 8] = [
    (b"", ParamsFault::Absent { key: Key::Image }),
    (
        b"\n\nservo = 1000\nimage",
        ParamsFault::BadValue { line: 3 },
    ),
    (b"categories = 1 1", ParamsFault::BadValue { line: 1 }),
    (
        b"categories = 1 2 3 4 5 6 7 8 9",
        ParamsFault::BadValue { line: 1 },
    ),
    (
        b"image_shape = 1024 1024 2",
        ParamsFault::BadValue { line: 1 },
    ),
    (b"image_shape = 1 0 1", ParamsFault::BadValue { line: 1 }),
    (
        b"template = 2\nradii = 1 0 0\nimage_shape = 6 1 1\nimage = ti.dat\ncategories = 0 1",
        ParamsFault::Absent { key: Key::Grid },
    ),
    (
        b"image = t\nimage_shape = 6 1 1\ngrid = 4 1 1\nradii = 1 0 0\ntemplate = 2\noutput = o\ncategories = 0 -9966699",
        ParamsFault::BadMissing,
    ),
];

// What a small file is refused for once this text stands behind it.
fn fault_behind(alloc: Global, more: &[u8]) -> Result<(), ParamsError> {
    let mut file = Vec::from_slice(alloc, SMALL)?;
    file.extend_from_slice(more)?;
    read_params(alloc, &file)?;
    Ok(())
}

// The text that what a file says is printed as.
fn printed(alloc: Global, file: &[u8]) -> Option<Vec<u8>> {
    let params = read_params(alloc, file).ok()?;
    print_params(alloc, &params).ok()
}

#[test]
fn a_file_is_printed_whole_and_read_back(rt: HostRuntime) {
    for (file, text) in [
        (SMALL, SMALL_PRINTED),
        (SMALL_PRINTED, SMALL_PRINTED),
        (FULL, FULL_PRINTED),
        (FULL_PRINTED, FULL_PRINTED),
    ] {
        let printed = printed(rt.alloc(), file).expect(&rt, "the file is right");
        assert!(rt; printed.as_slice() == text);
    }
}

#[test]
fn the_first_fault_of_a_line_decides(rt: HostRuntime) {
    for (more, fault) in BEHIND {
        let error = fault_behind(rt.alloc(), more).err();
        assert!(rt; error == fault.map(ParamsError::Fault));
    }
}

#[test]
fn whole_files_are_refused(rt: HostRuntime) {
    for (file, fault) in WHOLE {
        let error = read_params(rt.alloc(), file).err();
        assert!(rt; error == Some(ParamsError::Fault(fault)));
    }
}

// A small file that is filled up by a remark.
fn file_of_length(alloc: Global, length: usize) -> Result<Vec<u8>, AllocError> {
    let mut file = Vec::from_slice(alloc, SMALL)?;
    for _ in SMALL.len()..length {
        file.push(b'#')?;
    }
    Ok(file)
}

#[test]
fn a_file_has_at_most_65536_bytes(rt: HostRuntime) {
    let mut file = file_of_length(rt.alloc(), 65536).expect(&rt, "memory is left");
    assert!(rt; read_params(rt.alloc(), &file).is_ok());
    file.push(b'#').expect(&rt, "memory is left");
    let error = read_params(rt.alloc(), &file).err();
    assert!(rt; error == Some(ParamsError::Fault(ParamsFault::TooLong)));
}

fn name_of(alloc: Global, text: &str) -> Result<Option<Name>, AllocError> {
    Ok(Name::new(String::from_str(alloc, text)?))
}

#[test]
fn names_keep_what_they_are_given(rt: HostRuntime) {
    let blank = name_of(rt.alloc(), " a").expect(&rt, "memory is left");
    let name = name_of(rt.alloc(), "a = b").expect(&rt, "memory is left");
    let name = name.expect(&rt, "the text is a name");
    assert!(rt; blank.is_none() && name.as_slice() == b"a = b".as_slice());
    assert!(rt; name.into_inner().as_str() == "a = b");
}

#[test]
fn targets_keep_what_they_are_given(rt: HostRuntime) {
    let mut parts = ArrayVec::new();
    parts.push(250_000);
    parts.push(750_000);
    let targets = Targets::new(parts);
    assert!(rt; targets.as_slice() == [250_000, 750_000].as_slice());
    assert!(rt; targets.into_inner().len() == 2);
}

// Whether the shapes, the codes and the files are those that stand where no line has their key.
fn are_default_forms(params: &Params) -> bool {
    params.version == 1
        && params.image_column == 1
        && params.missing == -9_966_699
        && params.origin == [0, 0, 0]
        && params.size == [1_000_000, 1_000_000, 1_000_000]
        && params.points.is_none()
        && params.point_columns == [1, 2, 3, 4]
}

// The same of what says how to simulate.
fn are_default_choices(params: &Params) -> bool {
    params.max_data == 64
        && params.min_replicates == 1
        && params.levels == 1
        && params.servo == 0
        && params.targets.is_none()
        && params.seed == 0
        && params.realisations == 1
        && params.window == 64
        && params.store == StoreChoice::Tree
}

#[test]
fn defaults_stand_where_no_line_has_a_key(rt: HostRuntime) {
    let params = read_params(rt.alloc(), SMALL).expect(&rt, "the file is right");
    assert!(rt; are_default_forms(&params) && are_default_choices(&params));
}
