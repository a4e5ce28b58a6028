ghost use Rattle.std.specs.Prelude.{◌≡◌, ◌<◌, ◌≤◌, All, IfOk, length};
ghost use Rattle.mp_base.specs.Grid.{IsBelow};
ghost use Rattle.event_retrieve.specs.Plan.{KnowsNodes};

use crate::Step::{Claim, Count, Force, Front, Look, Offer, Settle, Show};
use crate::{Answer, Schedule, Step, Steps, run_schedule};
use commit_board::Settle as Settled;
use event_retrieve::{LevelPlan, PlanError};
use mp_base::{Cat, CellId, Counts, Grid, NoMemory, Shape};
use path_stream::Words;
use servo_fraction::Target;
use std::alloc::Global;
use std::process::Abort;
use std::test::Fail;
use template_order::Template;
use ti_scan::Eroded;

// A row of unknown cells.
fn blank(alloc: Global, cells: u32) -> Result<Grid, NoMemory>
    requires some { 1 ≤ cells }
    requires few { cells ≤ 100 }
    ensures sides { IfOk result (λ g. g.sides ≡ record { nx = cells; ny = 1; nz = 1 }) }
    ensures below { IfOk result (λ g. All (IsBelow 2) g.cells) }
    ensures nodes { IfOk result (λ g. KnowsNodes g 1) }
{
    let shape = Shape {
        nx: cells,
        ny: 1,
        nz: 1,
    };
    Grid::unknown(alloc, shape)
}

// An image of one row, of two categories.
fn row(alloc: Global, cats: &[u8]) -> Result<Grid, NoMemory>
    requires some { 1 ≤ length cats.now }
    requires few { length cats.now ≤ 100 }
    requires below { All (λ k. k < 2) cats.now }
    ensures { IfOk result (λ g. All (IsBelow 2) g.cells) }
{
    let mut image = blank(alloc, cats.len() as u32)?;
    for i in 0..cats.len() {
        image.set(CellId(i as u32), Some(Cat(cats[i])));
    }
    Ok(image)
}

// Three workers claim the first nodes, of which the third's lies beside the first's. It looks before
// anything is committed and offers what it saw; the other nodes are counted at the front.
const STEPS: [Step; 17] = [
    Claim(1),
    Claim(2),
    Claim(3),
    Front(3),
    Look(3),
    Look(3),
    Count(3),
    Offer(3),
    Force,
    Settle,
    Show,
    Force,
    Settle,
    Show,
    Settle,
    Force,
    Settle,
];

// Whether this is a guess at the front 2 that has missed the first entry, at the first position.
fn has_missed(answer: &Answer) -> bool {
    matches!(
        answer,
        Answer::Settled(Settled::Stale {
            front: 2,
            entry: 0,
            position: 1,
        })
    )
}

// A plan over a row of four unknown cells, by the words of the seed 0 and the stream 0.
fn plan_of<'a>(alloc: Global, eroded: &'a Eroded<'a>) -> Result<LevelPlan<'a>, PlanError>
    requires { eroded.now.cats ≡ 2 }
    ensures source { IfOk result (λ p. p.source ≡ eroded.now) }
{
    let start = blank(alloc, 4)?;
    let target = Target::new(Counts::of(&[2, 4]));
    LevelPlan::new(alloc, 1, eroded, start, Words::new(0, 0), target, 0, 1, 64)
}

fn schedule(alloc: Global) -> Result<Schedule, NoMemory>
    ensures { IfOk result (λ s. s.workers ≡ 3) }
{
    Ok(Schedule {
        realisation: 0,
        level: 1,
        workers: 3,
        steps: Steps::new(Vec::from_array(alloc, STEPS)?),
    })
}

// What the last count of the guess is answered, and which entries are committed at the end.
fn goes_by_the_steps(
    rt: &impl Abort,
    alloc: Global,
    plan: &LevelPlan<'_>,
    eroded: &Eroded<'_>,
) -> Result<(), Fail>
    requires { plan.now.source ≡ eroded.now }
{
    let schedule = schedule(alloc)?;
    let (answers, world) = run_schedule(alloc, plan, eroded, &schedule, 64)?;
    assert!(rt; answers.get(14).is_some_and(has_missed));
    assert!(rt; world.log().len() == 3);
    let log = world.finish(plan, eroded);
    let entries = [(0, 1), (3, 0), (1, 1), (2, 1)];
    assert!(rt;
        log.iter()
            .map(|entry| (entry.cell.0, entry.cat.0))
            .eq(entries)
    );
    Ok(())
}

#[test]
fn a_guess_that_missed_an_entry_is_counted_again(rt: HostRuntime) -> Result<(), Fail> {
    let image = row(rt.alloc(), &[0, 1, 1, 0, 1, 1])?;
    let template = Template::new(rt.alloc(), [1, 0, 0], 2)?;
    let eroded = Eroded::new(rt.alloc(), &image, &template, 2)?;
    let plan = plan_of(rt.alloc(), &eroded)?;
    goes_by_the_steps(&rt, rt.alloc(), &plan, &eroded)
}
