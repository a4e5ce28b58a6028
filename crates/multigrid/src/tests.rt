use crate::{node_count, nodes_of, on_level, spacing, stretched};
use mp_base::{CellId, Shape};
use std::test::Fail;
use template_order::Template;

fn shape(nx: u32, ny: u32, nz: u32) -> Result<Shape, Fail> {
    Ok(Shape::new(nx, ny, nz)?)
}

#[test]
fn nodes_stand_at_multiples_of_the_spacing(rt: HostRuntime) -> Result<(), Fail> {
    let line = shape(9, 1, 1)?;
    let nodes = nodes_of(rt.alloc(), line, 3)?;
    assert_eq!(rt;
        nodes.as_slice(),
        [CellId(0), CellId(4), CellId(8)].as_slice()
    );
    assert_eq!(rt; spacing(3), 4);
    let block = shape(3, 3, 3)?;
    let nodes = nodes_of(rt.alloc(), block, 2)?;
    let corners = [0, 2, 6, 8, 18, 20, 24, 26].map(|number| CellId(number));
    assert_eq!(rt; nodes.as_slice(), corners.as_slice());
    assert_eq!(rt; block.cells(), 27);
    assert!(rt; on_level(block, CellId(18), 2));
    assert!(rt; !on_level(block, CellId(9), 2));
    Ok(())
}

#[test]
fn each_level_has_as_many_nodes_as_are_counted(rt: HostRuntime) -> Result<(), Fail> {
    let field = shape(100, 100, 1)?;
    for (level, count) in [(3, 625), (2, 2500), (1, 10_000)] {
        assert_eq!(rt; node_count(field, level), count);
        assert_eq!(rt; nodes_of(rt.alloc(), field, level)?.len(), count as usize);
    }
    Ok(())
}

#[test]
fn a_template_is_stretched_on_each_axis(rt: HostRuntime) -> Result<(), Fail> {
    let template = Template::new(rt.alloc(), [1, 1, 1], 64)?;
    let wide = stretched(rt.alloc(), &template, 3)?;
    assert_eq!(rt; wide.len(), template.len());
    assert!(rt; wide.is_stretched());
    let pairs = wide.vectors().iter().zip(template.vectors());
    for (far, near) in pairs {
        assert_eq!(rt;
            (far.dx, far.dy, far.dz),
            (
                near.dx.saturating_mul(4),
                near.dy.saturating_mul(4),
                near.dz.saturating_mul(4)
            )
        );
    }
    Ok(())
}
