// Whether the image has enough eroded positions.
ghost use Rattle.std.specs.Prelude.{◌≡◌, ◌⊎◌, ◌≤◌, IfErr, IfOk, None, Some, length};
ghost use Rattle.seq_engine.specs.Setup.{IsSetupButTarget};
ghost use Rattle.seq_engine.specs.Realisation.{level_positions, positions_by_level, short_level, too_few};

use crate::setup::{RunError, Setup};
use arrayvec::ArrayVec;
use mp_base::NoMemory;
use multigrid::stretched;
use std::alloc::Global;
use ti_scan::count_positions;

/// The number of eroded positions by level, the finest first. It is refused exactly where a level
/// has fewer than `min_replicates`, and names the coarsest such level. The setup's target isn't
/// looked at.
pub fn check_positions(alloc: Global, setup: &Setup) -> Result<ArrayVec<u32, 8>, RunError>
    requires { IsSetupButTarget setup.now }
    ensures counts { IfOk result (λ counts. counts.items ≡ positions_by_level setup.now) }
    ensures enough { IfOk result (λ _. short_level setup.now ≡ None) }
    ensures few { IfErr result (λ e. (e ≡ RunError.NoMemory) ⊎ (too_few setup.now ≡ Some e)) }
{
    let mut counts = ArrayVec::new();
    for coarser in 0..setup.levels {
        let level = setup.levels - coarser;
        let have = positions_at(alloc, setup, level)?;
        let want = setup.min_replicates;
        if have < want {
            return Err(RunError::TooFewPositions { level, have, want });
        }
        counts.insert(0, have);
    }
    Ok(counts)
}

// How many eroded positions a level has.
fn positions_at(alloc: Global, setup: &Setup, level: u8) -> Result<u32, NoMemory>
    requires setup { IsSetupButTarget setup.now }
    requires some { 1 ≤ level }
    requires few { level ≤ setup.now.levels }
    ensures { IfOk result (λ have. have ≡ length (level_positions setup.now level)) }
{
    let template = stretched(alloc, &setup.template, level)?;
    Ok(count_positions(&setup.image, &template))
}
