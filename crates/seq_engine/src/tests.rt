// Worked realisations, and a setup for tests.
ghost use Rattle.std.specs.Prelude.{◌≡◌, ◌<◌, ◌≤◌, All, IfOk, false};
ghost use Rattle.mp_base.specs.Grid.{IsBelow};
ghost use Rattle.ti_scan.specs.Event.{StandsFor};
ghost use Rattle.event_retrieve.specs.Sequential.{sequential};
ghost use Rattle.seq_engine.specs.Setup.{IsSetup};
ghost use Rattle.seq_engine.specs.Store.{store_counts, store_reach};

use crate::{
    LevelRunner, OneThread, RunError, Setup, Store, StoreKind, Stores, check_positions, run_level,
    run_realisation,
};
use event_retrieve::LevelPlan;
use mp_base::{Cat, CellId, Counts, Entry, Grid, NoMemory, Shape};
use servo_fraction::Target;
use std::alloc::Global;
use std::process::Abort;
use std::test::Fail;
use std::thread::Threads;
use template_order::Template;

/// A setup over an image and hard data of two categories, without a servosystem.
pub fn setup_over(
    image: Grid,
    template: Template,
    hard: Grid,
    levels: u8,
    min_replicates: u32,
    seed: u64,
) -> Setup
    requires below { All (IsBelow 2) image.cells }
    requires hard_below { All (IsBelow 2) hard.cells }
    requires whole { template.stretched ≡ false }
    ensures { IsSetup result }
{
    Setup {
        image,
        template,
        shape: hard.shape(),
        hard,
        cats: 2,
        target: Target::new(Counts::of(&[1, 1])),
        levels: levels.clamp(1, 8),
        servo: 0,
        max_data: 64,
        min_replicates: min_replicates.clamp(1, 1000),
        seed,
    }
}

// What is written for a cell that has nothing.
const NONE: u8 = 2;

// Images of one row.
const WAVES: [u8; 30] = [
    0, 0, 1, 1, 0, 1, 0, 0, 1, 1, 1, 0, 0, 1, 0, 1, 1, 0, 0, 0, 1, 0, 1, 1, 0, 0, 1, 1, 1, 0,
];

const BANDS: [u8; 30] = [
    1, 1, 1, 0, 0, 0, 1, 1, 1, 0, 0, 0, 0, 1, 1, 1, 1, 0, 0, 0, 1, 1, 1, 0, 0, 0, 1, 1, 1, 1,
];

// A grid of one row.
fn row(alloc: Global, cats: &[u8]) -> Result<Grid, NoMemory>
    ensures { IfOk result (λ grid. All (IsBelow 2) grid.cells) }
{
    let count = u32::try_from(cats.len()).unwrap_or(1);
    let Ok(shape) = Shape::new(count, 1, 1) else {
        return Err(NoMemory);
    };
    let mut grid = Grid::unknown(alloc, shape)?;
    for number in 0..shape.cells() {
        let cat = cats.get(number as usize).copied().unwrap_or(NONE);
        if cat < NONE {
            grid.set(CellId(number), Some(Cat(cat)));
        }
    }
    Ok(grid)
}

// A template along x.
fn along_x(alloc: Global, radius: u8, count: u8) -> Result<Template, NoMemory>
    ensures { IfOk result (λ template. template.stretched ≡ false) }
{
    Template::new(alloc, [radius.min(64), 0, 0], count.clamp(1, 64))
}

// A setup over rows, by a radius and the count of a template, at the seed 0.
fn setup_of(
    alloc: Global,
    cats: &[u8],
    template: (u8, u8),
    hard: &[u8],
    levels: u8,
    min_replicates: u32,
) -> Result<Setup, NoMemory>
    ensures { IfOk result (λ setup. IsSetup setup) }
{
    let image = row(alloc, cats)?;
    let template = along_x(alloc, template.0, template.1)?;
    let hard = row(alloc, hard)?;
    Ok(setup_over(image, template, hard, levels, min_replicates, 0))
}

/// A realisation by a runner of its own.
pub fn realised_by(
    rt: &(impl Threads + Sync),
    alloc: Global,
    setup: &Setup,
    realisation: u32,
    kind: StoreKind,
) -> Result<Grid, RunError>
    requires setup { IsSetup setup.now }
    requires realisation { realisation ≤ 999 }
{
    let mut runner = OneThread::new(rt, kind);
    run_realisation(alloc, setup, realisation, &mut runner)
}

// A worked realisation: the image, the template's radius and count, the hard data, how many positions
// each level has, and the cells of the number 0 at the seed 0.
#[derive(Drop)]
struct Worked {
    cats: &'static [u8],
    template: (u8, u8),
    min_replicates: u32,
    hard: &'static [u8],
    positions: &'static [u32],
    expected: &'static [u8],
}

const WORKED: [Worked; 6] = [
    Worked {
        cats: &[0, 1, 1, 0, 1, 1],
        template: (1, 2),
        min_replicates: 1,
        hard: &[NONE, NONE, NONE, NONE],
        positions: &[4],
        expected: &[1, 1, 1, 0],
    },
    Worked {
        cats: &[0, 0, 1, 1, 0, 1, 0, 0],
        template: (2, 4),
        min_replicates: 2,
        hard: &[NONE, NONE, NONE, NONE, NONE],
        positions: &[4],
        expected: &[1, 0, 1, 1, 1],
    },
    Worked {
        cats: &[0, 1, 1, 0, 1, 1],
        template: (1, 2),
        min_replicates: 1,
        hard: &[NONE],
        positions: &[4],
        expected: &[1],
    },
    Worked {
        cats: &[0, 1, 1, 0, 1, 1],
        template: (0, 2),
        min_replicates: 1,
        hard: &[NONE, NONE, NONE, NONE],
        positions: &[6],
        expected: &[1, 1, 1, 0],
    },
    Worked {
        cats: &[1, 1, 1, 1, 1, 1, 1, 1, 1, 1, 1, 1],
        template: (1, 2),
        min_replicates: 1,
        hard: &[NONE, NONE, NONE],
        positions: &[10, 8, 4],
        expected: &[1, 1, 1],
    },
    Worked {
        cats: &[0, 1, 1, 0, 1, 1],
        template: (1, 2),
        min_replicates: 1,
        hard: &[1, 0, 1],
        positions: &[4],
        expected: &[1, 0, 1],
    },
];

// A realisation is as it was worked out, over scans and over trees.
fn is_realised<R: Abort + Threads + Sync>(
    rt: &R,
    alloc: Global,
    worked: &Worked,
) -> Result<(), RunError> {
    let levels = u8::try_from(worked.positions.len()).unwrap_or(8);
    let setup = setup_of(
        alloc,
        worked.cats,
        worked.template,
        worked.hard,
        levels,
        worked.min_replicates,
    )?;
    assert_eq!(rt;
        check_positions(alloc, &setup)?.as_slice(),
        worked.positions
    );
    for kind in [StoreKind::Scan, StoreKind::Tree, StoreKind::List] {
        let realised = realised_by(rt, alloc, &setup, 0, kind)?;
        assert_eq!(rt; realised.as_bytes(), worked.expected);
    }
    Ok(())
}

#[test]
fn worked_realisations(rt: HostRuntime) -> Result<(), Fail> {
    for worked in &WORKED {
        is_realised(&rt, rt.alloc(), worked)?;
    }
    Ok(())
}

#[test]
fn the_coarsest_level_with_too_few_positions_is_named(rt: HostRuntime) -> Result<(), Fail> {
    for (template, level, have, want) in [((1, 2), 1, 4, 5), ((2, 4), 2, 0, 10)] {
        let six = [0, 1, 1, 0, 1, 1].as_slice();
        let setup = setup_of(rt.alloc(), six, template, &[NONE; 4], level, want)?;
        let refused = RunError::TooFewPositions { level, have, want };
        assert!(rt; check_positions(rt.alloc(), &setup).is_err_and(|error| error == refused));
        let run = realised_by(&rt, rt.alloc(), &setup, 0, StoreKind::Scan);
        assert!(rt; run.is_err_and(|error| error == refused));
    }
    Ok(())
}

// The next two realisations of a runner are those of new scans. The first of four cells is known.
fn serves<R: Abort + Threads + Sync>(
    rt: &R,
    alloc: Global,
    runner: &mut OneThread<'_, R>,
    setup: &Setup,
) -> Result<(), RunError>
    requires { IsSetup setup.now }
{
    for number in 0..2 {
        let realisation = run_realisation(alloc, setup, number, runner)?;
        let anew = realised_by(rt, alloc, setup, number, StoreKind::Scan)?;
        assert_eq!(rt; realisation.as_bytes(), anew.as_bytes());
        if realisation.shape().cells() == 4 && number == 0 {
            assert_eq!(rt; realisation.as_bytes(), [1, 1, 1, 0].as_slice());
        }
    }
    Ok(())
}

#[test]
fn a_runner_serves_each_setup_by_its_own_stores(rt: HostRuntime) -> Result<(), Fail> {
    let six = [0, 1, 1, 0, 1, 1].as_slice();
    let waves = WAVES.as_slice();
    let bands = BANDS.as_slice();
    let blank = [NONE; 20].as_slice();
    let mut runner = OneThread::new(&rt, StoreKind::Tree);
    for (cats, template, levels, cells) in [
        (six, (1, 2), 1, 4),
        (waves, (2, 4), 3, 20),
        (bands, (2, 4), 3, 20),
        (waves, (2, 4), 3, 20),
        (waves, (1, 2), 3, 20),
        (bands, (2, 4), 3, 20),
        (six, (1, 2), 1, 4),
    ] {
        let hard = blank.get(..cells).unwrap_or(blank);
        let setup = setup_of(rt.alloc(), cats, template, hard, levels, 1)?;
        serves(&rt, rt.alloc(), &mut runner, &setup)?;
    }
    Ok(())
}

// Simulates each level over stores that were prepared before the first.
#[derive(Drop)]
struct Prepared<'a, R: Threads + Sync> {
    rt: &'a R,
    stores: Stores,
}

impl<'a, R: Threads + Sync> LevelRunner for Prepared<'a, R> {
    ghost use Rattle.std.specs.Prelude.{⊤};
    ghost use denote.Param.Send.{IsSync};

    ghost ready = { λ _. IsSync R.row };

    ghost ran = { λ _ _ _. ⊤ };

    fn run(&mut self, alloc: Global, plan: &LevelPlan<'_>) -> Result<Vec<Entry>, NoMemory> {
        let simulate = |alloc: Global, plan: &LevelPlan<'_>, store: Store<'_>|
            requires { StandsFor store_counts store_reach store plan.now.source }
            ensures log { IfOk result (λ log. log.items ≡ sequential plan.now) }
            ensures cats { IfOk result (λ log. All (λ e. e.cat < plan.now.source.cats) log.items) }
        { run_level(alloc, plan, &store) };
        self.stores.run(self.rt, alloc, plan, &simulate)
    }
}

#[test]
fn stores_that_were_built_side_by_side_change_no_answer(rt: HostRuntime) -> Result<(), Fail> {
    for (kind, threads) in [
        (StoreKind::Scan, 2),
        (StoreKind::Tree, 1),
        (StoreKind::Tree, 2),
        (StoreKind::Tree, 4),
        (StoreKind::List, 2),
    ] {
        let setup = setup_of(rt.alloc(), WAVES.as_slice(), (2, 4), &[NONE; 20], 3, 1)?;
        let mut stores = Stores::new(kind);
        stores.prepare(&rt, rt.alloc(), &setup, threads);
        let mut runner = Prepared { rt: &rt, stores };
        let realisation = run_realisation(rt.alloc(), &setup, 0, &mut runner)?;
        let anew = realised_by(&rt, rt.alloc(), &setup, 0, StoreKind::Scan)?;
        assert_eq!(rt; realisation.as_bytes(), anew.as_bytes());
    }
    Ok(())
}
