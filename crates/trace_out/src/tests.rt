// A trace with each answer.
ghost use Rattle.std.specs.Prelude.{◌≡◌, length};
ghost use Rattle.commit_board.specs.declared.settle.Settle.TheVariants as settles;

use crate::{LogLength, push_trace};
use arrayvec::ArrayVec;
use commit_board::{Claim, Keep, Settle};
use event_retrieve::Retained;
use mp_base::{Cat, CellId, CodeList, Codes, Counts, Entry, Grid, Shape};
use spec_steps::{Answer, Schedule, Step, Steps};
use std::test::Fail;

const TEXT: &[u8] =
    b"claim 1 -> full 3 1\nclaim 64 -> all 9\nfront 3 -> seen 4\nfront 2 -> late 6\nlook 1 -> known 2 -7\nlook 1 -> unknown 3\ncount 1 -> counted 1 2 30 4\noffer 1 -> kept 7\noffer 2 -> late 8\noffer 3 -> held 9\nsettle -> committed 0 12 5\nsettle -> none 1\nsettle -> stale 1 0 2\nforce -> recounted 1 0 3 10 20\nsettle -> committed 1 3 -7\nsettle -> ended 2\nshow -> shown 2\nshow -> skip\nlog 2 of 5\nrealisation 6\n-7\n5\n";

const STEPS: [Step; 18] = [
    Step::Claim(1),
    Step::Claim(64),
    Step::Front(3),
    Step::Front(2),
    Step::Look(1),
    Step::Look(1),
    Step::Count(1),
    Step::Offer(1),
    Step::Offer(2),
    Step::Offer(3),
    Step::Settle,
    Step::Settle,
    Step::Settle,
    Step::Force,
    Step::Settle,
    Step::Settle,
    Step::Show,
    Step::Show,
];

fn retained(len: u8, reach: u8, counts: [u32; 2]) -> Retained {
    Retained {
        len,
        reach,
        counts: Counts::of(&counts),
    }
}

fn committed(cell: u32, cat: u8) -> Settle
    ensures { result ≡ settles.Committed (record { cell = cell; cat = cat }) }
{
    Settle::Committed(Entry {
        cell: CellId(cell),
        cat: Cat(cat),
    })
}

fn codes() -> Codes
    ensures { length result.categories ≡ 2 }
{
    let mut categories = ArrayVec::new();
    categories.push(5);
    categories.push(-7);
    Codes {
        categories: CodeList::new(categories),
        missing: -99,
    }
}

#[test]
fn each_step_has_its_line_with_its_answer(rt: HostRuntime) -> Result<(), Fail> {
    let mut grid = Grid::unknown(rt.alloc(), Shape::new(2, 1, 1)?)?;
    assert_eq!(rt; grid.shape().cells(), 2);
    grid.set(CellId(0), Some(Cat(1)));
    grid.set(CellId(1), Some(Cat(0)));
    let schedule = Schedule {
        realisation: 6,
        level: 1,
        workers: 64,
        steps: Steps::new(Vec::from_slice(rt.alloc(), &STEPS)?),
    };
    let stale = Settle::Stale {
        front: 1,
        entry: 0,
        position: 2,
    };
    let answers = [
        Answer::Claimed(Claim::Full { next: 3, front: 1 }),
        Answer::Claimed(Claim::AllClaimed { length: 9 }),
        Answer::Seen { front: 4 },
        Answer::Late { front: 6 },
        Answer::Known {
            position: 2,
            cat: Cat(1),
        },
        Answer::Unknown { position: 3 },
        Answer::Counted(retained(1, 2, [30, 4])),
        Answer::Offered {
            index: 7,
            keep: Keep::Kept,
        },
        Answer::Offered {
            index: 2,
            keep: Keep::Late { front: 8 },
        },
        Answer::Offered {
            index: 9,
            keep: Keep::Held { index: 9 },
        },
        Answer::Settled(committed(12, 0)),
        Answer::Settled(Settle::NotOffered { front: 1 }),
        Answer::Settled(stale),
        Answer::Recounted {
            index: 1,
            retained: retained(0, 3, [10, 20]),
        },
        Answer::Settled(committed(3, 1)),
        Answer::Settled(Settle::Ended { length: 2 }),
        Answer::Shown { front: 2 },
        Answer::Skip,
    ];
    let log = LogLength {
        entries: 2,
        nodes: 5,
    };
    let mut text = Vec::new(rt.alloc());
    push_trace(&mut text, &codes(), &schedule, &answers, log, &grid)?;
    assert!(rt; text.as_slice() == TEXT);
    Ok(())
}
