use crate::Template;
use mp_base::Vector;
use std::test::Fail;

fn vector(dx: i32, dy: i32, dz: i32) -> Vector {
    Vector { dx, dy, dz }
}

fn squared(v: &Vector) -> u64 {
    let (x, y, z) = (
        v.dx.unsigned_abs(),
        v.dy.unsigned_abs(),
        v.dz.unsigned_abs(),
    );
    let (x, y, z) = (u64::from(x), u64::from(y), u64::from(z));
    x.saturating_mul(x)
        .saturating_add(y.saturating_mul(y))
        .saturating_add(z.saturating_mul(z))
}

#[test]
fn the_nearest_vectors_come_first(rt: HostRuntime) -> Result<(), Fail> {
    let six = [
        vector(-1, 0, 0),
        vector(1, 0, 0),
        vector(0, -1, 0),
        vector(-2, 0, 0),
        vector(2, 0, 0),
        vector(0, 1, 0),
    ];
    let template = Template::new(rt.alloc(), [2, 1, 0], 64)?;
    assert_eq!(rt; template.vectors(), six.as_slice());
    let template = Template::new(rt.alloc(), [2, 1, 0], 3)?;
    assert_eq!(rt; template.vectors(), &six[..3]);
    let sides = [
        vector(-1, 0, 0),
        vector(1, 0, 0),
        vector(-2, 0, 0),
        vector(2, 0, 0),
    ];
    let template = Template::new(rt.alloc(), [2, 0, 0], 4)?;
    assert_eq!(rt; template.vectors(), sides.as_slice());
    let template = Template::new(rt.alloc(), [1, 0, 0], 2)?;
    assert_eq!(rt; template.vectors(), &sides[..2]);
    let template = Template::new(rt.alloc(), [0, 0, 0], 64)?;
    assert!(rt; template.is_empty());
    Ok(())
}

#[test]
fn ties_of_a_wide_template_are_cut_in_order(rt: HostRuntime) -> Result<(), Fail> {
    let template = Template::new(rt.alloc(), [10, 10, 0], 40)?;
    assert_eq!(rt; template.len(), 40);
    let vectors = template.vectors();
    let last = [
        vector(-2, -3, 0),
        vector(2, -3, 0),
        vector(-3, -2, 0),
        vector(3, -2, 0),
    ];
    assert_eq!(rt; vectors.len(), 40);
    assert_eq!(rt; &vectors[36..], last.as_slice());
    assert_eq!(rt; vectors.iter().filter(|v| squared(v) <= 10).count(), 36);
    Ok(())
}

#[test]
fn positions_count_from_one_and_stretching_keeps_them(rt: HostRuntime) -> Result<(), Fail> {
    let template = Template::new(rt.alloc(), [2, 1, 1], 64)?;
    assert!(rt; !template.is_stretched());
    assert_eq!(rt; template.position_of(vector(0, 0, -1)), Some(3));
    assert_eq!(rt; template.position_of(vector(0, 0, 0)), None);
    let wide = template.scaled(rt.alloc(), 4)?;
    assert!(rt; wide.is_stretched());
    assert_eq!(rt; wide.len(), template.len());
    assert_eq!(rt; wide.position_of(vector(0, 0, -4)), Some(3));
    assert_eq!(rt; wide.position_of(vector(0, 0, -1)), None);
    Ok(())
}
