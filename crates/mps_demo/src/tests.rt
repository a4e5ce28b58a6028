// The reports of some seeds. What is expected comes from a program of its own that follows the
// definitions and simulates by scanning the image.
use crate::demo;
use mp_outside::MemSink;
use mps_inputs::Fault;
use seq_engine::StoreKind;
use std::test::Fail;

const SEED_0: &str =
    "categories 0 1\ngrid 100 100 1\npoints 30 used 30 skipped 0\ntarget 53750 8750\nlevel 3 nodes 625 positions 51076\nlevel 2 nodes 2500 positions 56644\nlevel 1 nodes 10000 positions 59536\nrealisation 0 counts 8238 1762\ndone\n";

const SEED_7: &str =
    "categories 0 1\ngrid 100 100 1\npoints 30 used 30 skipped 0\ntarget 53750 8750\nlevel 3 nodes 625 positions 51076\nlevel 2 nodes 2500 positions 56644\nlevel 1 nodes 10000 positions 59536\nrealisation 0 counts 8280 1720\ndone\n";

// Two wells of this seed are in one cell.
const SEED_9: &str =
    "categories 0 1\ngrid 100 100 1\npoints 30 used 29 skipped 0\ntarget 53750 8750\nlevel 3 nodes 625 positions 51076\nlevel 2 nodes 2500 positions 56644\nlevel 1 nodes 10000 positions 59536\nrealisation 0 counts 8255 1745\ndone\n";

const GREATEST_SEED: &str =
    "categories 0 1\ngrid 100 100 1\npoints 30 used 30 skipped 0\ntarget 53750 8750\nlevel 3 nodes 625 positions 51076\nlevel 2 nodes 2500 positions 56644\nlevel 1 nodes 10000 positions 59536\nrealisation 0 counts 8183 1817\ndone\n";

#[test]
fn each_seed_has_its_report(rt: HostRuntime) {
    for (seed, kind, report) in [
        (0, StoreKind::Tree, SEED_0),
        (7, StoreKind::Tree, SEED_7),
        (7, StoreKind::List, SEED_7),
        (9, StoreKind::Tree, SEED_9),
        (4_294_967_295, StoreKind::List, GREATEST_SEED),
    ] {
        let mut out = MemSink::new(rt.alloc());
        assert!(rt; demo(&rt, rt.alloc(), &mut out, seed, kind).is_ok());
        assert_eq!(rt; out.bytes(), report.as_bytes(), "of seed {seed}");
    }
}

#[test]
fn a_report_that_cannot_be_written_is_told(rt: HostRuntime) -> Result<(), Fail> {
    let mut out = MemSink::new(rt.alloc());
    out.fail(1, 10)?;
    let answer = demo(&rt, rt.alloc(), &mut out, 7, StoreKind::Tree);
    assert!(rt; matches!(answer, Err(Fault::CannotReport)));
    assert_eq!(rt; out.bytes(), b"categories".as_slice());
    Ok(())
}
