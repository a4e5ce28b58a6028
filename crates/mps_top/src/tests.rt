// Commands over files in memory: the words, the files, and what comes of them.
ghost use Rattle.std.specs.Prelude.{◌≡◌, ◌<◌, All, IfOk};
ghost use Rattle.std.specs.Thread.{IsSync};
ghost use Rattle.mp_base.specs.declared.cell.Entry.{Entry as EntryOf};
ghost use Rattle.ti_scan.specs.Event.{StandsFor};
ghost use Rattle.event_retrieve.specs.Sequential.{sequential};
ghost use Rattle.seq_engine.specs.Setup.{IsSetup};
ghost use Rattle.seq_engine.specs.Store.{store_counts, store_reach};

use crate::{answer, answer_alone, answer_in_memory};
use event_retrieve::LevelPlan;
use mp_base::{Entry, Grid, NoMemory};
use mp_outside::{CallKind, MemFiles, MemSink, NoFaultFiles, NoFaultSink};
use mps_demo::draw_inputs;
use mps_inputs::judge;
use seq_engine::{OneThread, Setup, Store, StoreKind, Stores, run_realisation};
use spec_run::{Workers, run_level_by};
use std::alloc::Global;
use std::sync::Wait;
use std::test::Fail;
use std::thread::Threads;
use worker_gate::{HoldGate, OpenGate};

// The first lines of `p1`. What a case needs beside them stands behind them.
const COMMON: &str = "image = ti.dat\ncategories = 0 1\noutput = out.dat\n";

const LINE: &str =
    "image_shape = 6 1 1\ngrid = 4 1 1\nradii = 1 0 0\ntemplate = 2\nmin_replicates = 1\n";

const IMAGE: &str = "line\n1\nfacies\n0\n1\n1\n0\n1\n1\n";

// The same image, with other line ends, columns and forms of the numbers.
const IMAGE_AGAIN: &str =
    "line\r\n 2 6x1x1\r\nfacies\r\nother\r\n 0.0  9\r\n1.0000 9\r\n1.0E+00\t9\r\n0 9 5\r\n1. x\r\n+1 9";

const ONES: &str = "line\n1\nfacies\n1\n1\n1\n1\n1\n1\n";

const TWELVE_ONES: &str = "line\n1\nfacies\n1\n1\n1\n1\n1\n1\n1\n1\n1\n1\n1\n1\n";

const SEVEN: &str = "line\n1\nfacies\n7\n";

const WELLS: &str = "wells\n4\nX\nY\nZ\nfacies\n0 0 0 1\n1 0 0 0\n2 0 0 1\n";

const BAD_WELLS: &str = "wells\n4\nX\nY\nZ\nfacies\n0 0 0 1\n1 0 0 2\n2 0 0 1\n";

const REPORT: &str =
    "categories 0 1\ngrid 4 1 1\npoints 0 used 0 skipped 0\ntarget 2 4\nlevel 1 nodes 4 positions 4\nrealisation 0 counts 1 3\ndone\n";

const REALISATION: &str = "mpsim 4 1 1 realisations 1 seed 0\n1\ncategory\n1\n1\n1\n0\n";

const CHECKED: &str =
    "version = 1\nimage = ti.dat\nimage_shape = 6 1 1\nimage_column = 1\ncategories = 0 1\nmissing = -9966699\ngrid = 4 1 1\norigin = 0 0 0\nsize = 1 1 1\npoint_columns = 1 2 3 4\nradii = 1 0 0\ntemplate = 2\nmax_data = 64\nmin_replicates = 1\nlevels = 1\nservo = 0\nseed = 0\nrealisations = 1\nstore = tree\nwindow = 64\noutput = out.dat\nimage cells 6 known 6\npoints 0 used 0 skipped 0\nlevel 1 nodes 4 positions 4\nok\n";

const FOUR_AT_ONCE: &str =
    "schedule 1\nrealisation 0 level 1 workers 4\nclaim 1\nfront 1\nlook 1\nlook 1\ncount 1\noffer 1\nclaim 2\nfront 2\nlook 2\nlook 2\ncount 2\noffer 2\nclaim 3\nfront 3\nlook 3\nlook 3\ncount 3\noffer 3\nclaim 4\nfront 4\nlook 4\nlook 4\ncount 4\noffer 4\nsettle\nsettle\nshow\nsettle\nshow\nsettle\nforce\nsettle\nshow\nsettle\nforce\nsettle\nshow\nsettle\n";

const FOUR_ANSWERED: &str =
    "claim 1 -> ticket 0\nfront 1 -> seen 0\nlook 1 -> unknown 1\nlook 1 -> unknown 2\ncount 1 -> counted 0 2 1 3\noffer 1 -> kept 0\nclaim 2 -> ticket 1\nfront 2 -> seen 0\nlook 2 -> unknown 1\nlook 2 -> unknown 2\ncount 2 -> counted 0 2 1 3\noffer 2 -> kept 1\nclaim 3 -> ticket 2\nfront 3 -> seen 0\nlook 3 -> unknown 1\nlook 3 -> unknown 2\ncount 3 -> counted 0 2 1 3\noffer 3 -> kept 2\nclaim 4 -> ticket 3\nfront 4 -> seen 0\nlook 4 -> unknown 1\nlook 4 -> unknown 2\ncount 4 -> counted 0 2 1 3\noffer 4 -> kept 3\nsettle -> committed 0 0 1\nsettle -> skip\nshow -> shown 1\nsettle -> committed 1 3 0\nshow -> shown 2\nsettle -> stale 2 0 1\nforce -> recounted 2 1 2 1 1\nsettle -> committed 2 1 1\nshow -> shown 3\nsettle -> stale 3 1 2\nforce -> recounted 3 2 2 0 1\nsettle -> committed 3 2 1\nshow -> shown 4\nsettle -> ended 4\nlog 4 of 4\nrealisation 0\n1\n1\n1\n0\n";

const LEVEL_TWO: &str = "schedule 1\n\n# two workers\nrealisation 0 level 2 workers 2\n";

const SERVO_1000: &str =
    "image_shape = 6 1 1\ngrid = 4 1 1\nradii = 1 0 0\ntemplate = 2\nmin_replicates = 1\nservo = 1000\n";

const BAD_POINTS: &str =
    "image_shape = 6 1 1\ngrid = 4 1 1\nradii = 1 0 0\ntemplate = 2\nmin_replicates = 1\npoints = bad.dat\n";

const NO_POINTS: &str =
    "image_shape = 6 1 1\ngrid = 4 1 1\nradii = 1 0 0\ntemplate = 2\nmin_replicates = 1\npoints = v.dat\n";

const FIVE: &str =
    "image_shape = 6 1 1\ngrid = 4 1 1\nradii = 1 0 0\ntemplate = 2\nmin_replicates = 5\n";

const USAGE: &str =
    "mpsim: usage: run PARAMS [--workers N] | check PARAMS | scan PARAMS LEVEL EVENT | replay PARAMS SCHEDULE | demo N [--list]\n";

// What a command is given: its words with a blank between each two, the lines of `p1` behind the common
// ones, and the image.
#[derive(Clone, Copy)]
struct Given {
    words: &'static str,
    lines: &'static str,
    image: &'static str,
}

// What comes of it: the status, what is written to `out` and to `err`, and the output file.
#[derive(Clone, Copy)]
struct Wanted {
    status: u8,
    out: &'static str,
    err: &'static str,
    file: Option<&'static str>,
}

// A run on the image of six cells.
const RUN: Given = Given {
    words: "run p1",
    lines: LINE,
    image: IMAGE,
};

// It ends well, with these texts in the output file and on `out`.
fn done(file: &'static str, out: &'static str) -> Wanted {
    Wanted {
        status: 0,
        out,
        err: "",
        file: Some(file),
    }
}

// It ends well with this text on `out`, and makes no file.
fn printed(out: &'static str) -> Wanted {
    Wanted {
        status: 0,
        out,
        err: "",
        file: None,
    }
}

// It is refused with this line, and makes no file.
fn refused(status: u8, err: &'static str) -> Wanted {
    Wanted {
        status,
        out: "",
        err,
        file: None,
    }
}

// The output file can't be written beyond this front of it.
fn cut(front: &'static str) -> Wanted {
    Wanted {
        status: 4,
        out: "",
        err: "mpsim: cannot write out.dat\n",
        file: Some(front),
    }
}

// The words of a line.
fn words_of(alloc: Global, line: &str) -> Result<Vec<String>, Fail> {
    let mut words = Vec::new(alloc);
    for word in line.split(' ') {
        words.push(String::from_str(alloc, word)?)?;
    }
    Ok(words)
}

// `p1` and the image, the wells, and two schedules.
fn files_of(alloc: Global, given: &Given) -> Result<MemFiles, Fail> {
    let parameters = format!(in alloc; "{COMMON}{}", given.lines)?;
    let mut files = MemFiles::new(alloc);
    files.put("p1", parameters.as_bytes())?;
    files.put("ti.dat", given.image.as_bytes())?;
    files.put("w.dat", WELLS.as_bytes())?;
    files.put("bad.dat", BAD_WELLS.as_bytes())?;
    files.put("s1", FOUR_AT_ONCE.as_bytes())?;
    files.put("s2", LEVEL_TWO.as_bytes())?;
    Ok(files)
}

// What differs of what came and what was wanted.
fn difference(
    files: &MemFiles,
    status: u8,
    out: &MemSink,
    err: &MemSink,
    wanted: &Wanted,
) -> &'static str {
    if status != wanted.status {
        "the status"
    } else if out.bytes() != wanted.out.as_bytes() {
        "out"
    } else if err.bytes() != wanted.err.as_bytes() {
        "err"
    } else if files.get("out.dat") != wanted.file.map(|text| text.as_bytes()) {
        "the file"
    } else {
        "nothing"
    }
}

// Serves the words over the files, and tells what differs from what is wanted.
fn serve<R: Threads + Sync>(
    rt: &R,
    alloc: Global,
    line: &str,
    files: &mut MemFiles,
    out: &mut MemSink,
    err: &mut MemSink,
    wanted: &Wanted,
) -> Result<&'static str, Fail> {
    let words = words_of(alloc, line)?;
    let status = answer_alone(rt, alloc, &words, files, out, err);
    Ok(difference(files, status, out, err, wanted))
}

// The same where nothing fails.
fn differs<R: Threads + Sync>(
    rt: &R,
    alloc: Global,
    given: &Given,
    wanted: &Wanted,
) -> Result<&'static str, Fail> {
    let mut files = files_of(alloc, given)?;
    let mut out = MemSink::new(alloc);
    let mut err = MemSink::new(alloc);
    serve(
        rt,
        alloc,
        given.words,
        &mut files,
        &mut out,
        &mut err,
        wanted,
    )
}

#[test]
fn a_run_writes_its_realisations_and_a_report(rt: HostRuntime) -> Result<(), Fail> {
    // the lines of `p1`, the image, the output file and the report
    for (lines, image, file, report) in [
        (LINE, IMAGE, REALISATION, REPORT),
        (LINE, IMAGE_AGAIN, REALISATION, REPORT),
        (
            "image_shape = 6 1 1\ngrid = 4 1 1\nradii = 1 0 0\ntemplate = 2\nmin_replicates = 1\nservo = 500\n",
            IMAGE,
            REALISATION,
            REPORT,
        ),
        (
            "image_shape = 6 1 1\ngrid = 3 1 1\nradii = 1 0 0\ntemplate = 2\nmin_replicates = 1\npoints = w.dat\n",
            IMAGE,
            "mpsim 3 1 1 realisations 1 seed 0\n1\ncategory\n1\n0\n1\n",
            "categories 0 1\ngrid 3 1 1\npoints 3 used 3 skipped 0\ntarget 2 4\nlevel 1 nodes 3 positions 4\nrealisation 0 counts 1 2\ndone\n",
        ),
        (
            "image_shape = 12 1 1\ngrid = 3 1 1\nradii = 1 0 0\ntemplate = 2\nmin_replicates = 1\nlevels = 3\n",
            TWELVE_ONES,
            "mpsim 3 1 1 realisations 1 seed 0\n1\ncategory\n1\n1\n1\n",
            "categories 0 1\ngrid 3 1 1\npoints 0 used 0 skipped 0\ntarget 0 12\nlevel 3 nodes 1 positions 4\nlevel 2 nodes 2 positions 8\nlevel 1 nodes 3 positions 10\nrealisation 0 counts 0 3\ndone\n",
        ),
        (
            "image_shape = 6 1 1\ngrid = 2 1 1\nradii = 1 0 0\ntemplate = 2\nmin_replicates = 1\nrealisations = 2\n",
            ONES,
            "mpsim 2 1 1 realisations 2 seed 0\n1\ncategory\n1\n1\n1\n1\n",
            "categories 0 1\ngrid 2 1 1\npoints 0 used 0 skipped 0\ntarget 0 6\nlevel 1 nodes 2 positions 4\nrealisation 0 counts 0 2\nrealisation 1 counts 0 2\ndone\n",
        ),
        (
            "image_shape = 6 1 1\ngrid = 2 1 1\nradii = 1 0 0\ntemplate = 2\nmin_replicates = 1\nservo = 999\ntargets = 1000000 0\n",
            ONES,
            "mpsim 2 1 1 realisations 1 seed 0\n1\ncategory\n1\n0\n",
            "categories 0 1\ngrid 2 1 1\npoints 0 used 0 skipped 0\ntarget 1000000 0\nlevel 1 nodes 2 positions 4\nrealisation 0 counts 1 1\ndone\n",
        ),
    ] {
        let words = "run p1";
        let given = Given {
            words,
            lines,
            image,
        };
        let differs = differs(&rt, rt.alloc(), &given, &done(file, report))?;
        assert_eq!(rt; differs, "nothing", "of {report}");
    }
    Ok(())
}

#[test]
fn the_other_commands_print_a_text(rt: HostRuntime) -> Result<(), Fail> {
    for (words, text) in [
        ("check p1", CHECKED),
        (
            "scan p1 1 1=1",
            "store tree 6\nprefix 0 counts 1 3\nprefix 1 counts 1 1\nretained 1 reach 2 counts 1 1\n",
        ),
        ("replay p1 s1", FOUR_ANSWERED),
    ] {
        let lines = LINE;
        let image = IMAGE;
        let given = Given {
            words,
            lines,
            image,
        };
        let differs = differs(&rt, rt.alloc(), &given, &printed(text))?;
        assert_eq!(rt; differs, "nothing", "of {words}");
    }
    Ok(())
}

#[test]
fn a_refusal_is_told_and_makes_no_file(rt: HostRuntime) -> Result<(), Fail> {
    // the words, the lines of `p1`, the image, the status and the line on `err`
    for (words, lines, image, status, line) in [
        ("walk p1", LINE, IMAGE, 1, USAGE),
        ("check ", LINE, IMAGE, 1, USAGE),
        ("demo -7", LINE, IMAGE, 1, USAGE),
        ("scan p1 1 3=1", LINE, SEVEN, 1, USAGE),
        ("scan p1 2 none", LINE, SEVEN, 1, USAGE),
        ("scan p1 1 1=7", LINE, SEVEN, 1, USAGE),
        ("scan p9 1 3=1", LINE, SEVEN, 3, "mpsim: cannot read p9\n"),
        ("run p9", LINE, IMAGE, 3, "mpsim: cannot read p9\n"),
        (
            "run p1",
            "",
            IMAGE,
            2,
            "mpsim: parameters: image_shape is absent\n",
        ),
        (
            "run p1",
            SERVO_1000,
            IMAGE,
            2,
            "mpsim: parameters: line 9: bad value\n",
        ),
        (
            "check p1",
            SERVO_1000,
            IMAGE,
            2,
            "mpsim: parameters: line 9: bad value\n",
        ),
        (
            "run p1",
            LINE,
            SEVEN,
            5,
            "mpsim: image: line 4: unknown category\n",
        ),
        (
            "check p1",
            LINE,
            SEVEN,
            5,
            "mpsim: image: line 4: unknown category\n",
        ),
        (
            "scan p1 1 none",
            LINE,
            SEVEN,
            5,
            "mpsim: image: line 4: unknown category\n",
        ),
        (
            "replay p1 s3",
            LINE,
            SEVEN,
            5,
            "mpsim: image: line 4: unknown category\n",
        ),
        (
            "run p1",
            BAD_POINTS,
            SEVEN,
            5,
            "mpsim: image: line 4: unknown category\n",
        ),
        (
            "run p1",
            BAD_POINTS,
            IMAGE,
            6,
            "mpsim: points: line 8: unknown category\n",
        ),
        (
            "check p1",
            BAD_POINTS,
            IMAGE,
            6,
            "mpsim: points: line 8: unknown category\n",
        ),
        ("run p1", NO_POINTS, IMAGE, 3, "mpsim: cannot read v.dat\n"),
        (
            "run p1",
            FIVE,
            IMAGE,
            7,
            "mpsim: too few positions at level 1: have 4, want 5\n",
        ),
        (
            "scan p1 1 1=1",
            FIVE,
            IMAGE,
            7,
            "mpsim: too few positions at level 1: have 4, want 5\n",
        ),
        (
            "replay p1 s2",
            FIVE,
            IMAGE,
            7,
            "mpsim: too few positions at level 1: have 4, want 5\n",
        ),
        ("replay p1 s3", LINE, IMAGE, 3, "mpsim: cannot read s3\n"),
        ("replay p1 s2", LINE, IMAGE, 10, "mpsim: schedule: line 4\n"),
    ] {
        let given = Given {
            words,
            lines,
            image,
        };
        let differs = differs(&rt, rt.alloc(), &given, &refused(status, line))?;
        assert_eq!(rt; differs, "nothing", "of {words}: {line}");
    }
    Ok(())
}

// Serves `run p1` where the nth call of a kind fails behind these many bytes.
fn differs_where_it_fails<R: Threads + Sync>(
    rt: &R,
    alloc: Global,
    kind: CallKind,
    nth: u32,
    added: u32,
    wanted: &Wanted,
) -> Result<&'static str, Fail> {
    let mut files = files_of(alloc, &RUN)?;
    files.fail(kind, nth, added)?;
    let mut out = MemSink::new(alloc);
    let mut err = MemSink::new(alloc);
    serve(rt, alloc, RUN.words, &mut files, &mut out, &mut err, wanted)
}

#[test]
fn one_failing_call_is_told(rt: HostRuntime) -> Result<(), Fail> {
    let whole = done(REALISATION, REPORT);
    for (kind, nth, added, wanted) in [
        (CallKind::Read, 1, 0, refused(3, "mpsim: cannot read p1\n")),
        (CallKind::Read, 2, 0, refused(3, "mpsim: cannot read p1\n")),
        (
            CallKind::Read,
            3,
            0,
            refused(3, "mpsim: cannot read ti.dat\n"),
        ),
        (
            CallKind::Read,
            4,
            0,
            refused(3, "mpsim: cannot read ti.dat\n"),
        ),
        (CallKind::Read, 5, 0, whole),
        (
            CallKind::Create,
            1,
            0,
            refused(4, "mpsim: cannot write out.dat\n"),
        ),
        (CallKind::Append, 1, 10, cut("mpsim 4 1 ")),
        (CallKind::Append, 2, 10, whole),
    ] {
        let differs = differs_where_it_fails(&rt, rt.alloc(), kind, nth, added, &wanted)?;
        assert_eq!(rt; differs, "nothing", "of call {nth}");
    }
    Ok(())
}

// Serves the words where the first write to `out` fails and, where it is told, the first to `err`.
fn differs_without_out<R: Threads + Sync>(
    rt: &R,
    alloc: Global,
    words: &str,
    wanted: &Wanted,
) -> Result<&'static str, Fail> {
    let mut files = files_of(alloc, &RUN)?;
    let mut out = MemSink::new(alloc);
    out.fail(1, 0)?;
    let mut err = MemSink::new(alloc);
    serve(rt, alloc, words, &mut files, &mut out, &mut err, wanted)
}

#[test]
fn a_text_that_cannot_be_written_is_told(rt: HostRuntime) -> Result<(), Fail> {
    for (words, file) in [
        ("run p1", Some(REALISATION)),
        ("check p1", None),
        ("scan p1 1 1=1", None),
        ("replay p1 s1", None),
        ("demo 7", None),
    ] {
        let wanted = Wanted {
            status: 9,
            out: "",
            err: "mpsim: cannot write the report\n",
            file,
        };
        let differs = differs_without_out(&rt, rt.alloc(), words, &wanted)?;
        assert_eq!(rt; differs, "nothing", "of {words}");
    }
    Ok(())
}

#[test]
fn a_line_on_err_that_fails_changes_no_status(rt: HostRuntime) -> Result<(), Fail> {
    let mut files = files_of(rt.alloc(), &RUN)?;
    files.fail(CallKind::Read, 1, 0)?;
    let mut out = MemSink::new(rt.alloc());
    let mut err = MemSink::new(rt.alloc());
    err.fail(1, 7)?;
    let wanted = refused(3, "mpsim: ");
    let differs = serve(
        &rt,
        rt.alloc(),
        RUN.words,
        &mut files,
        &mut out,
        &mut err,
        &wanted,
    )?;
    assert_eq!(rt; differs, "nothing");
    Ok(())
}

#[test]
fn over_files_that_never_fail_a_run_is_the_same(rt: HostRuntime) -> Result<(), Fail> {
    let parameters = format!(in rt.alloc(); "{COMMON}{LINE}")?;
    let words = words_of(rt.alloc(), RUN.words)?;
    let mut files = NoFaultFiles::new(rt.alloc());
    files.put("p1", parameters.as_bytes())?;
    files.put("ti.dat", IMAGE.as_bytes())?;
    let mut out = NoFaultSink::new(rt.alloc());
    let mut err = NoFaultSink::new(rt.alloc());
    let status = answer_in_memory(&rt, rt.alloc(), &words, &mut files, &mut out, &mut err);
    assert_eq!(rt; status, 0);
    assert_eq!(rt; files.get("out.dat").unwrap_or(b""), REALISATION.as_bytes());
    assert_eq!(rt; out.bytes(), REPORT.as_bytes());
    assert!(rt; err.bytes().is_empty());
    Ok(())
}

// The same image on a grid so wide that a worker always finds a node to count beside another's.
const WIDE: Given = Given {
    words: "run p1",
    lines: "image_shape = 6 1 1\ngrid = 100 100 1\nradii = 1 0 0\ntemplate = 2\nmin_replicates = 1\n",
    image: ONES,
};

// The output file of the run on one thread.
fn file_of_one<R: Threads + Sync>(rt: &R, alloc: Global) -> Result<Vec<u8>, Fail> {
    let mut files = files_of(alloc, &WIDE)?;
    let words = words_of(alloc, WIDE.words)?;
    let mut out = MemSink::new(alloc);
    let mut err = MemSink::new(alloc);
    answer_alone(rt, alloc, &words, &mut files, &mut out, &mut err);
    Ok(Vec::from_slice(alloc, files.get("out.dat").unwrap_or(b"none"))?)
}

#[test]
fn answer_meets(rt: HostRuntime) -> Result<(), Fail> {
    let alloc = rt.alloc();
    let one = file_of_one(&rt, alloc)?;
    let words = words_of(alloc, "run p1 --workers 2")?;
    let mut files = files_of(alloc, &WIDE)?;
    let mut out = MemSink::new(alloc);
    let mut err = MemSink::new(alloc);
    let gate = HoldGate::new(1_000_000_000);
    let status = answer(&rt, alloc, &words, &mut files, &mut out, &mut err, &gate);
    assert_eq!(rt; status, 0);
    assert!(rt; gate.met());
    assert_eq!(rt; files.get("out.dat").unwrap_or(b""), one.as_slice());
    Ok(())
}

// The simulation that `demo 7` runs. No level of it has too few positions.
fn demo_setup(alloc: Global) -> Result<Setup, NoMemory>
    ensures { IfOk result IsSetup }
{
    let inputs = draw_inputs(alloc, 7)?;
    match judge(alloc, inputs) {
        Ok(judged) => Ok(judged.setup),
        Err(_) => Err(NoMemory),
    }
}

// Realisation 0 by one thread and the search tree.
fn by_one<R: Threads + Sync>(rt: &R, alloc: Global, setup: &Setup) -> Result<Grid, NoMemory>
    requires { IsSetup setup.now }
{
    let mut runner = OneThread::new(rt, StoreKind::Tree);
    run_realisation(alloc, setup, 0, &mut runner).map_err(|_| NoMemory)
}

// Realisation 0 by four workers and the list.
fn by_four<R: Threads + Wait + Sync>(rt: &R, alloc: Global, setup: &Setup) -> Result<Grid, NoMemory>
    requires { IsSetup setup.now }
{
    let simulate = |alloc: Global, plan: &LevelPlan<'_>, store: Store<'_>| -> Result<
        Vec<Entry>,
        NoMemory,
    >
        requires threads { IsSync R.row }
        requires store { StandsFor store_counts store_reach store plan.now.source }
        ensures log { IfOk result (λ log. log.items ≡ sequential plan.now) }
        ensures cats { IfOk result (λ log. All (λ (e : EntryOf). e.cat < plan.now.source.cats) log.items) }
    { run_level_by(rt, alloc, plan, &store, &OpenGate, 4, 64) };
    let mut runner = Workers::new(rt, Stores::new(StoreKind::List), simulate);
    run_realisation(alloc, setup, 0, &mut runner).map_err(|_| NoMemory)
}

#[test]
fn four_workers_give_the_grid_of_one_thread(rt: HostRuntime) -> Result<(), Fail> {
    let setup = demo_setup(rt.alloc())?;
    let one = by_one(&rt, rt.alloc(), &setup)?;
    let four = by_four(&rt, rt.alloc(), &setup)?;
    assert_eq!(rt; one.shape().cells(), 10_000);
    assert_eq!(rt; four.as_bytes(), one.as_bytes());
    Ok(())
}
