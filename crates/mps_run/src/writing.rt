// The work of `run`, once its inputs are judged.
ghost use Rattle.std.specs.Prelude.{◌≡◌, IfErr, length};
ghost use Rattle.realisation_out.specs.Report.{report_text as report_text_of};
ghost use Rattle.seq_engine.specs.Setup.{IsSetup};
ghost use Rattle.mps_inputs.specs.Answers.{seen};
ghost use Rattle.mps_inputs.specs.Files.{IsReportFault, Reported};
ghost use Rattle.mps_inputs.specs.Inputs.{codes_in};
ghost use Rattle.mps_run.specs.Outcome.{EndsRun};
ghost use Rattle.mps_run.specs.Texts.{IsReport};

use crate::realisations::write_realisations;
use mp_base::Counts;
use mp_outside::{Files, Sink};
use mps_inputs::{Fault, Judged, report};
use realisation_out::{LevelPositions, RealisationCounts, Report, push_report};
use seq_engine::LevelRunner;
use std::alloc::Global;

/// Simulates by a runner, writes the realisation file, and once it is whole the report.
pub fn write_run<R: LevelRunner, F: Files, O: Sink>(
    alloc: Global,
    files: &mut F,
    out: &mut O,
    judged: Judged,
    runner: &mut R,
) -> Result<(), Fault>
    requires setup { IsSetup judged.setup }
    requires cats { judged.setup.cats ≡ length judged.parameters.categories }
    requires codes { judged.codes ≡ codes_in judged.parameters }
    requires ready { R.ready runner.old }
    ensures { EndsRun judged (seen (F.seen files.old) (O.seen out.old)) (seen (F.seen files.new) (O.seen out.new)) result }
{
    let counts = write_realisations(
        alloc,
        files,
        judged.parameters.output.as_str(),
        &judged.parameters,
        &judged.codes,
        &judged.setup,
        runner,
    )?;
    tell_report(alloc, out, &facts_of(judged, counts))
}

/// Tells the report of a run on `out`.
pub fn tell_report<O: Sink>(alloc: Global, out: &mut O, facts: &Report) -> Result<(), Fault>
    ensures written { Reported (report_text_of facts.now) (O.seen out.old) (O.seen out.new) result }
    ensures cause { IfErr result (IsReportFault (O.seen out.old) (O.seen out.new)) }
{
    let mut text = Vec::new(alloc);
    if push_report(&mut text, facts).is_err() {
        return Err(Fault::OutOfMemory);
    }
    report(out, &text)
}

/// What the report of judged inputs tells, by the counts of their realisations' cells.
pub fn facts_of(judged: Judged, counts: Vec<Counts>) -> Report
    ensures { IsReport judged counts.items result }
{
    let Judged {
        parameters,
        codes,
        setup,
        positions,
        rows,
        used,
        skipped,
    } = judged;
    Report {
        codes,
        shape: parameters.grid,
        rows,
        used,
        skipped,
        target: setup.target.copy(),
        positions: LevelPositions::new(positions),
        counts: RealisationCounts::new(counts),
    }
}
