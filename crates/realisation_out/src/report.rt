// The report of a run.
ghost use Rattle.std.specs.Prelude.{◌≡◌, ◌++◌, IfOk, OnErr, OnOk};
ghost use Rattle.realisation_out.specs.Report.{report_text as text_of_report};

use crate::facts::{LevelPositions, RealisationCounts};
use crate::lines::{
    push_level_lines, push_points_line, put_categories, put_grid, put_realisations, put_target,
};
use mp_base::{Codes, NoMemory, Shape};
use servo_fraction::Target;
use std::alloc::Global;

/// What a run tells: the codes of the categories; the grid; how many points there are, how many cells
/// got a datum and how many points were skipped; the target; the eroded positions by level; and the
/// categories of each realisation's cells.
#[derive(Drop)]
pub struct Report {
    pub codes: Codes,
    pub shape: Shape,
    pub rows: u32,
    pub used: u32,
    pub skipped: u32,
    pub target: Target,
    pub positions: LevelPositions,
    pub counts: RealisationCounts,
}

/// Appends the text of the report. Without memory for it the vector stays as it was.
pub fn push_report(to: &mut Vec<u8>, facts: &Report) -> Result<(), NoMemory>
    ensures text { OnOk result (to.new.items ≡ to.old.items ++ text_of_report facts.now) }
    ensures err { OnErr result (to.new.items ≡ to.old.items) }
{
    let text = report_text(*to.allocator(), facts)?;
    to.extend_from_slice(text.as_slice())?;
    Ok(())
}

// The whole text, line by line.
#[tactic(auto, unfolding(crate::specs::Report::report_text))]
fn report_text(alloc: Global, facts: &Report) -> Result<Vec<u8>, NoMemory>
    ensures { IfOk result (λ text. text.items ≡ text_of_report facts.now) }
{
    let mut text = Vec::new(alloc);
    put_categories(&mut text, facts.codes.categories.as_slice())?;
    put_grid(&mut text, facts.shape)?;
    push_points_line(&mut text, facts.rows, facts.used, facts.skipped)?;
    put_target(&mut text, facts.target.parts().as_slice())?;
    push_level_lines(&mut text, facts.shape, facts.positions.as_slice())?;
    put_realisations(&mut text, facts.counts.as_slice())?;
    text.extend_from_slice(b"done\n")?;
    Ok(text)
}
