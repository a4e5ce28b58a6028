// Schedules that are read, and those that are refused with their lines.
use crate::{ScheduleError, Step, read_schedule};
use std::test::Fail;

// Files that are accepted for three realisations and two levels, with the realisation, the level, the
// number of workers and the steps.
const ACCEPTED: [(&[u8], (u32, u8, u8), &[Step]); 4] = [
    (
        b"schedule 1\nrealisation 0 level 1 workers 1\n",
        (0, 1, 1),
        &[],
    ),
    (
        b"schedule 1\nrealisation 2 level 2 workers 64\nclaim 1\nfront 2\nlook 3\ncount 4\noffer 64\nsettle\nforce\nshow\n",
        (2, 2, 64),
        &[
            Step::Claim(1),
            Step::Front(2),
            Step::Look(3),
            Step::Count(4),
            Step::Offer(64),
            Step::Settle,
            Step::Force,
            Step::Show,
        ],
    ),
    (
        b"# a remark with \xff\r\n\r\n\t # schedule 2\n schedule\t1 \r\n\n#\nrealisation  01 level 0002 workers\t007\r\n \t \n\tclaim  01\r\n# show\nshow",
        (1, 2, 7),
        &[Step::Claim(1), Step::Show],
    ),
    (
        b"schedule 1\nrealisation 0000 level 0001 workers 0002\nlook 0002\nlook 0002\noffer 1\r",
        (0, 1, 2),
        &[Step::Look(2), Step::Look(2), Step::Offer(1)],
    ),
];

// Files that are refused for three realisations and two levels, each with the line that doesn't fit.
const REFUSED: [(&[u8], u32); 32] = [
    (b"", 1),
    (b"\n# schedule 1\n", 3),
    (b"# no line feed", 2),
    (b"schedule 1", 2),
    (b"schedule 1\n\n#\n", 4),
    (b"schedule 01\nrealisation 9", 1),
    (b"schedule\n", 1),
    (b"schedule 1 1\n", 1),
    (b"Schedule 1\n", 1),
    (b"schedule 2\n", 1),
    (b"\n\nschedule1\n", 3),
    (b"schedule 1\nrealisation 3 level 1 workers 1\n", 2),
    (b"schedule 1\nrealisation 0 level 0 workers 1\n", 2),
    (b"schedule 1\nrealisation 0 level 3 workers 1\n", 2),
    (b"schedule 1\nrealisation 0 level 1 workers 0\n", 2),
    (b"schedule 1\nrealisation 0 level 1 workers 65\n", 2),
    (b"schedule 1\nrealisation 00000 level 1 workers 1\n", 2),
    (b"schedule 1\nrealisation -0 level 1 workers 1\n", 2),
    (b"schedule 1\nrealisation 0 level 1 workers 1 1\n", 2),
    (b"schedule 1\nrealisation 0 level 1 workers\n", 2),
    (b"schedule 1\nlevel 1 realisation 0 workers 1\n", 2),
    (b"schedule 1\n#\nclaim 1\n", 3),
    (b"schedule 1\nrealisation 0 level 1 workers 2\nclaim 0", 3),
    (b"schedule 1\nrealisation 0 level 1 workers 2\nclaim 3", 3),
    (
        b"schedule 1\nrealisation 0 level 1 workers 2\nclaim 00001",
        3,
    ),
    (b"schedule 1\nrealisation 0 level 1 workers 2\nclaim", 3),
    (b"schedule 1\nrealisation 0 level 1 workers 2\nclaim 1 1", 3),
    (b"schedule 1\nrealisation 0 level 1 workers 2\nsettle 1", 3),
    (b"schedule 1\nrealisation 0 level 1 workers 2\nSettle", 3),
    (b"schedule 1\nrealisation 0 level 1 workers 2\nshow #", 3),
    (
        b"schedule 1\nrealisation 0 level 1 workers 2\nshow\r\r\n",
        3,
    ),
    (
        b"schedule 1\nrealisation 0 level 1 workers 2\nshow\n\n#\nlook 2\nlok 2\nlook 9",
        7,
    ),
];

#[test]
fn a_file_is_read_with_all_its_steps(rt: HostRuntime) {
    for (file, (realisation, level, workers), steps) in ACCEPTED {
        let schedule = read_schedule(rt.alloc(), file, 3, 2)
            .ok()
            .expect(&rt, "the file is right");
        assert_eq!(rt; schedule.realisation, realisation);
        assert_eq!(rt; schedule.level, level);
        assert_eq!(rt; schedule.workers, workers);
        assert!(rt; schedule.steps.as_slice() == steps);
    }
}

#[test]
fn the_first_line_that_does_not_fit_decides(rt: HostRuntime) {
    for (file, line) in REFUSED {
        let error = read_schedule(rt.alloc(), file, 3, 2).err();
        assert!(rt; error == Some(ScheduleError::BadLine { line }));
    }
}

#[test]
fn a_file_is_too_long_whatever_its_lines_hold(rt: HostRuntime) -> Result<(), Fail> {
    let mut file = vec![in rt.alloc(); b'#'; 4_194_304]?;
    let error = read_schedule(rt.alloc(), &file, 1, 1).err();
    assert!(rt; error == Some(ScheduleError::BadLine { line: 2 }));
    file.push(b'#')?;
    let error = read_schedule(rt.alloc(), &file, 1, 1).err();
    assert!(rt; error == Some(ScheduleError::TooLong));
    Ok(())
}
