use crate::{Ranks, Words, draw_path, stream_of};
use mp_base::{CellId, Shape};
use std::test::Fail;

#[test]
fn words_of_the_zero_key(rt: HostRuntime) {
    let words = Words::new(0, 0);
    for (place, expected) in [
        0xADE0_B876,
        0x903D_F1A0,
        0xE56A_5D40,
        0x28BD_8653,
        0xB819_D2BD,
        0x1AED_8DA0,
        0xCCEF_36A8,
        0xC70D_778B,
        0x7C59_41DA,
        0x8D48_5751,
        0x3FE0_2477,
        0x374A_D8B8,
        0xF4B8_436A,
        0x1CA1_1815,
        0x69B6_87C3,
        0x8665_EEB2,
    ]
    .iter()
    .enumerate()
    {
        assert_eq!(rt; words.at(place as u64), *expected, "at {place}");
    }
    let mut cursor = words.from(14);
    assert_eq!(rt; cursor.next_word(), 0x69B6_87C3);
    assert_eq!(rt; cursor.next_word(), 0x8665_EEB2);
}

#[test]
fn paths_and_their_ranks(rt: HostRuntime) -> Result<(), Fail> {
    let nodes = [CellId(0), CellId(1), CellId(2), CellId(3), CellId(4)];
    let words = Words::new(0, 0);
    let four = draw_path(rt.alloc(), &nodes[..4], &words)?;
    assert_eq!(rt;
        four.as_slice(),
        [CellId(0), CellId(3), CellId(1), CellId(2)].as_slice()
    );
    let five = draw_path(rt.alloc(), &nodes, &words)?;
    let expected = [CellId(1), CellId(0), CellId(4), CellId(2), CellId(3)];
    assert_eq!(rt; five.as_slice(), expected.as_slice());
    assert!(rt; five.iter().all(|cell| cell.0 < 6));
    let shape = Shape::new(6, 1, 1)?;
    let ranks = Ranks::new(rt.alloc(), shape, &five)?;
    assert_eq!(rt; ranks.len(), 5);
    for (cell, rank) in [
        (0, Some(1)),
        (1, Some(0)),
        (2, Some(3)),
        (3, Some(4)),
        (4, Some(2)),
        (5, None),
        (6, None),
    ] {
        assert_eq!(rt; ranks.rank(CellId(cell)), rank, "of cell {cell}");
    }
    let later = [0, 1, 2, 3, 4, 5, 6].map(|cell| ranks.comes_later(CellId(cell), 2));
    assert_eq!(rt; later, [false, false, true, true, true, false, false]);
    Ok(())
}

#[test]
fn streams_by_realisation_and_level(rt: HostRuntime) {
    assert_eq!(rt; stream_of(0, 1), 0);
    assert_eq!(rt; stream_of(2, 3), 34);
}
