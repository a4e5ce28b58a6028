ghost use Rattle.std.specs.Prelude.{◌≡◌, ◌<◌, ◌≤◌, All, IfOk, length};
ghost use Rattle.std.specs.Thread.{IsSync};
ghost use Rattle.mp_base.specs.Grid.{IsBelow};
ghost use Rattle.event_retrieve.specs.Plan.{IsLog, IsPlan, KnowsNodes};
ghost use Rattle.shared_grid.specs.Names.{HasCell};

use crate::{Cells, CellsWriter, Naming, Reader, SharedGrid, Site, Writer};
use event_retrieve::LevelPlan;
use mp_base::{Cat, CellId, Counts, Entry, Grid, NoMemory, Shape};
use path_stream::Words;
use servo_fraction::Target;
use std::alloc::Global;
use std::marker::Brand;
use std::sync::atomic::AtomicU64;
use std::sync::atomic::Ordering::SeqCst;
use std::test::Fail;
use std::thread;
use std::thread::Threads;
use template_order::Template;
use ti_scan::Eroded;

const WATCHERS: u64 = 3;

// Unknown cells.
fn blank(alloc: Global, shape: Shape) -> Result<Grid, NoMemory>
    ensures sides { IfOk result (λ g. g.sides ≡ shape) }
    ensures below { IfOk result (λ g. All (IsBelow 2) g.cells) }
    ensures nodes { IfOk result (λ g. KnowsNodes g 1) }
{
    Grid::unknown(alloc, shape)
}

// An image of one row, of two categories.
fn row(alloc: Global) -> Result<Grid, Fail>
    ensures { IfOk result (λ g. All (IsBelow 2) g.cells) }
{
    let mut image = blank(alloc, Shape::new(8, 1, 1)?)?;
    for number in 0..8 {
        let cat = Cat(u8::from(number == 2 || number == 3 || number == 5));
        image.set(CellId(number), Some(cat));
    }
    Ok(image)
}

// A plan over unknown cells.
fn plan_of<'a>(alloc: Global, eroded: &'a Eroded<'a>, shape: Shape) -> Result<LevelPlan<'a>, Fail>
    requires { eroded.now.cats ≡ 2 }
{
    let start = blank(alloc, shape)?;
    let target = Target::new(Counts::of(&[5, 3]));
    let words = Words::new(0, 0);
    Ok(LevelPlan::new(alloc, 1, eroded, start, words, target, 0, 2, 64)?)
}

// A story over the path of a plan, with these categories in turn.
fn story_of(alloc: Global, plan: &LevelPlan<'_>, cats: &[u8]) -> Result<Vec<Entry>, NoMemory>
    requires { 0 < length cats.now }
    ensures { IfOk result (λ story. IsLog plan.now story.items) }
{
    let mut story = Vec::new(alloc);
    for index in 0..plan.length() {
        let cat = Cat(cats[index as usize % cats.len()]);
        let cell = plan.cell_of(index);
        story.push(Entry { cell, cat })?;
    }
    Ok(story)
}

// What was found while three entries were shown.
#[derive(Clone, Copy, Debug, PartialEq, Eq)]
struct Found {
    unseen: Option<Cat>,
    ahead: Option<Cat>,
    front: u32,
    seen: Option<Cat>,
}

// That a pass has seen so many entries: a call of this is proved.
fn has_seen<N: Naming, T: Site>(_pass: &Reader<N, T>, _entries: u32)
    requires { _pass.now ≡ _entries }
{}

// Publishes three entries, and looks at the cells 0 and 4 and at the front meanwhile.
fn look<N: Naming, T: Site>(cells: Cells<N>, writer: CellsWriter<N>, story: &[Entry]) -> Found
    requires words { (cells ≡ T.words) × (writer ≡ T.words) }
    requires story { story.now ≡ N.story }
    requires enough { 3 ≤ length story.now }
    requires inside { HasCell N.plan 0 × HasCell N.plan 4 }
{
    let (grid, mut writer) = SharedGrid::<N, T>::new(cells, writer);
    grid.publish(&mut writer, story[0]);
    let mut a = grid.note(&mut writer);
    let mut b = grid.reader(&mut a);
    has_seen(&a, 1);
    has_seen(&b, 1);
    let unseen = grid.read(&mut a, CellId(0));
    grid.publish(&mut writer, story[1]);
    grid.publish(&mut writer, story[2]);
    let ahead = grid.read(&mut a, CellId(4));
    has_seen(&a, 1);
    let front = grid.front(&mut a);
    let seen = grid.read(&mut a, CellId(0));
    grid.meet(&mut b, &mut a);
    has_seen(&a, front);
    has_seen(&b, front);
    let c = grid.reader(&mut b);
    grid.give_back(&mut a, c);
    has_seen(&a, front);
    Found {
        unseen,
        ahead,
        front,
        seen,
    }
}

// The same at a name.
fn look_named<N: Naming>(
    alloc: Global,
    plan: &LevelPlan<'_>,
    story: &[Entry],
) -> Result<Option<Found>, NoMemory>
    requires plan { plan.now ≡ N.plan }
    requires story { (story.now ≡ N.story) × IsLog N.plan N.story }
{
    if plan.start().shape().cells() < 5 || story.len() < 3 {
        return Ok(None);
    }
    let (cells, writer) = Cells::<N>::new(alloc, plan.start())?;
    Ok(Some(look::<N, Brand>(cells, writer, story)))
}

// What is found over a story of a plan with this path; nothing where it has another.
fn found_over(
    alloc: Global,
    plan: &LevelPlan<'_>,
    path: &[u32],
) -> Result<Option<Found>, NoMemory> {
    let story = story_of(alloc, plan, &[0, 1, 1, 1, 1])?;
    if !story
        .iter()
        .map(|entry| entry.cell.0)
        .eq(path.iter().copied())
    {
        return Ok(None);
    }
    look_named::<Brand>(alloc, plan, story.as_slice())
}

#[test]
fn a_pass_may_find_more_than_it_has_seen(rt: HostRuntime) -> Result<(), Fail> {
    let image = row(rt.alloc())?;
    let template = Template::new(rt.alloc(), [2, 0, 0], 4)?;
    let eroded = Eroded::new(rt.alloc(), &image, &template, 2)?;
    let plan = plan_of(rt.alloc(), &eroded, Shape::new(5, 1, 1)?)?;
    let found = found_over(rt.alloc(), &plan, &[1, 0, 4, 2, 3])?;
    let expected = Found {
        unseen: None,
        ahead: Some(Cat(1)),
        front: 3,
        seen: Some(Cat(1)),
    };
    assert_eq!(rt; found, Some(expected));
    Ok(())
}

// Publishes the whole story once all watchers have come, or after some turns.
fn publish_all<N: Naming, T: Site>(
    grid: &SharedGrid<N, T>,
    mut writer: Writer<N, T>,
    story: &[Entry],
    come: &AtomicU64,
)
    requires story { story.now ≡ N.story }
    requires writer { writer ≡ record { stored = 0; front = 0 } }
{
    for _ in 0..1_000_000 {
        if come.load(SeqCst) == WATCHERS {
            break;
        }
        thread::yield_now();
    }
    for i in 0..story.len() {
        grid.publish(&mut writer, story[i]);
    }
}

// A thread that looks on, and whether all that it found is as the rule says.
#[derive(Drop)]
struct Watcher<N: Naming, T: Site> {
    pass: Reader<N, T>,
    fine: bool,
}

impl<N: Naming, T: Site> Watcher<N, T> {
    // The cell of an entry shows the story's value, or nothing where the entry isn't shown.
    fn look(&mut self, grid: &SharedGrid<N, T>, story: &[Entry], front: usize, index: usize)
        requires story { story.now ≡ N.story }
        requires named { IsPlan N.plan × IsLog N.plan N.story }
        requires index { index < length story.now }
    {
        let entry = story[index];
        self.fine &= match grid.read(&mut self.pass, entry.cell) {
            Some(cat) => cat == entry.cat,
            None => front <= index,
        };
    }

    // Looks on until all is shown, and then at all cells.
    fn watch(&mut self, grid: &SharedGrid<N, T>, story: &[Entry])
        requires story { story.now ≡ N.story }
        requires named { IsPlan N.plan × IsLog N.plan N.story }
    {
        let mut last = 0;
        for round in 0..u64::MAX {
            let front = grid.front(&mut self.pass) as usize;
            self.fine &= last <= front;
            if front >= story.len() {
                break;
            }
            last = front;
            self.look(grid, story, front, front);
            self.look(grid, story, front, front.saturating_sub(1));
            self.look(grid, story, front, (round % story.len() as u64) as usize);
        }
        for index in 0..story.len() {
            self.look(grid, story, story.len(), index);
        }
    }
}

// All watchers look on, each in a thread of its own.
fn watch_all<N: Naming, T: Site, R: Threads + Sync>(
    rt: &R,
    grid: &SharedGrid<N, T>,
    mut watchers: Vec<Watcher<N, T>>,
    story: &[Entry],
    come: &AtomicU64,
) -> bool
    requires story { story.now ≡ N.story }
    requires named { IsPlan N.plan × IsLog N.plan N.story }
{
    thread::for_each_mut(
        rt,
        watchers.as_mut_slice(),
        WATCHERS as usize,
        &|_, watcher: &mut Watcher<N, T>|
            requires { (story.now ≡ N.story) × IsPlan N.plan × IsLog N.plan N.story }
        {
            come.fetch_add(1, SeqCst);
            watcher.watch(grid, story);
        },
    );
    watchers.iter().all(|watcher| watcher.fine)
}

// One thread publishes the story and others look on. Whether all that they found is as the rule
// says.
fn run<N: Naming, T: Site, R: Threads + Sync>(
    rt: &R,
    alloc: Global,
    cells: Cells<N>,
    writer: CellsWriter<N>,
    story: &[Entry],
) -> Result<bool, NoMemory>
    requires words { (cells ≡ T.words) × (writer ≡ T.words) }
    requires story { story.now ≡ N.story }
    requires named { IsPlan N.plan × IsLog N.plan N.story }
{
    let (grid, mut writer) = SharedGrid::<N, T>::new(cells, writer);
    let mut watchers = Vec::new(alloc);
    for _ in 0..WATCHERS {
        let pass = grid.note(&mut writer);
        watchers.push(Watcher { pass, fine: true })?;
    }
    let come = AtomicU64::new(0);
    let (grid, come) = (&grid, &come);
    let (_, fine) = thread::join(
        rt,
        move ||
            requires { (story.now ≡ N.story) × (writer ≡ record { stored = 0; front = 0 }) }
        { publish_all(grid, writer, story, come) },
        move || -> bool
            requires { (story.now ≡ N.story) × IsPlan N.plan × IsLog N.plan N.story × IsSync R.row }
        { watch_all(rt, grid, watchers, story, come) },
    );
    Ok(fine)
}

// The same at a name.
fn run_named<N: Naming, R: Threads + Sync>(
    rt: &R,
    alloc: Global,
    plan: &LevelPlan<'_>,
    story: &[Entry],
) -> Result<bool, NoMemory>
    requires plan { plan.now ≡ N.plan }
    requires story { (story.now ≡ N.story) × IsLog N.plan N.story }
{
    let (cells, writer) = Cells::<N>::new(alloc, plan.start())?;
    run::<N, Brand, R>(rt, alloc, cells, writer, story)
}

// Whether all goes as the rule says over a story of so many entries.
fn goes_over<R: Threads + Sync>(
    rt: &R,
    alloc: Global,
    plan: &LevelPlan<'_>,
    entries: usize,
) -> Result<bool, NoMemory> {
    let story = story_of(alloc, plan, &[0, 1, 2, 3, 4, 5, 6])?;
    if story.len() != entries {
        return Ok(false);
    }
    run_named::<Brand, R>(rt, alloc, plan, story.as_slice())
}

#[test]
fn three_threads_read_while_one_publishes_a_hundred_thousand_entries(
    rt: HostRuntime,
) -> Result<(), Fail> {
    let image = row(rt.alloc())?;
    let template = Template::new(rt.alloc(), [2, 0, 0], 4)?;
    let eroded = Eroded::new(rt.alloc(), &image, &template, 2)?;
    let plan = plan_of(rt.alloc(), &eroded, Shape::new(400, 250, 1)?)?;
    assert!(rt; goes_over(&rt, rt.alloc(), &plan, 100_000)?);
    Ok(())
}
