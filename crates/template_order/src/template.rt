// Templates.
ghost use Rattle.std.specs.Prelude.{◌≡◌, ◌≢◌, ◌<◌, ◌≤◌, All, IfNone, IfSome, length};
ghost use Rattle.std.specs.List.{HoldsAt};
ghost use Rattle.template_order.specs.Template.{IsWithin, times};
ghost use Rattle.template_order.specs.Radii.{radii_in, radii_of};

use crate::order::{Radii, nearest};
use mp_base::{NoMemory, Vector};
use std::alloc::Global;
use std::marker::Model;

/// At most 64 vectors from a node to other cells, nearest first. They differ, and none is zero.
#[derive(Drop)]
pub struct Template {
    list: Vec<Vector>,
    stretched: bool,
}

impl Model for Template {
    ghost use Rattle.template_order.specs.Template.{TemplateOf, IsTemplate};

    ghost Value = { TemplateOf };

    ghost view = { λ t. record { vectors = t.list.items; stretched = t.stretched } };

    ghost invariant = { λ t. IsTemplate (record { vectors = t.list.items; stretched = t.stretched }) };
}

fn as_radii(radii: [u8; 3]) -> Radii
    ensures { radii_of result ≡ radii_in radii }
{
    Radii {
        x: u32::from(radii[0]),
        y: u32::from(radii[1]),
        z: u32::from(radii[2]),
    }
}

impl Template {
    ghost use Rattle.std.specs.Prelude.{ℕ, ◌↔◌, [], false, true, map, Contains, IfOk, IsSome, IsTrue, Some};
    ghost use Rattle.template_order.specs.Template.{IsSmall, IsTemplate, template_of, vector_at};

    /// The nearest vectors of the ellipsoid with these half axes along x, y and z, at most so
    /// many. A radius of 0 allows only the offset 0 on its axis. Vectors at one distance stand in
    /// the order of z, then y, then x.
    pub fn new(alloc: Global, radii: [u8; 3], count: u8) -> Result<Template, NoMemory>
        requires radii { IsSmall (radii_in radii) }
        requires count { (1 ≤ count) × (count ≤ 64) }
        ensures { IfOk result (λ t. t ≡ record { vectors = template_of (radii_in radii) count; stretched = false }) }
    {
        let list = nearest(alloc, as_radii(radii), count as usize)?;
        Ok(Template {
            list,
            stretched: false,
        })
    }

    /// The vectors, in order.
    pub fn vectors(&self) -> &[Vector]
        ensures vectors { result.now ≡ self.now.vectors }
        ensures template { IsTemplate self.now }
    {
        self.list.as_slice()
    }

    /// How many vectors there are.
    pub fn len(&self) -> u8
        ensures len { result ≡ length self.now.vectors }
        ensures few { result ≤ 64 }
    {
        self.list.len() as u8
    }

    /// Whether there is no vector.
    pub fn is_empty(&self) -> bool
        ensures { IsTrue result ↔ (self.now.vectors ≡ []) }
    {
        self.list.is_empty()
    }

    /// Whether the vectors were stretched.
    pub fn is_stretched(&self) -> bool
        ensures { result ≡ self.now.stretched }
    {
        self.stretched
    }

    /// The position of a vector, counted from 1, or nothing exactly where the template hasn't got
    /// it.
    pub fn position_of(&self, v: Vector) -> Option<u8>
        ensures inverse { (p : ℕ) → (result ≡ Some p) ↔ (vector_at self.now p ≡ Some v) }
        ensures present { IsSome result ↔ Contains self.now.vectors v }
    {
        let index = index_of(self.vectors(), v)?;
        Some(index as u8 + 1)
    }

    /// The template of a level: each vector so many times as long, in the same order.
    pub fn scaled(&self, alloc: Global, factor: u32) -> Result<Template, NoMemory>
        requires whole { self.now.stretched ≡ false }
        requires factor { (1 ≤ factor) × (factor ≤ 128) }
        ensures { IfOk result (λ t. t ≡ record { vectors = map (times factor) self.now.vectors; stretched = true }) }
    {
        let mut list = Vec::with_capacity(alloc, self.list.len())?;
        for v in self.vectors() {
            list.push(longer(*v, factor))?;
        }
        Ok(Template {
            list,
            stretched: true,
        })
    }
}

// The place of the first vector that is v.
fn index_of(list: &[Vector], v: Vector) -> Option<usize>
    ensures found { IfSome result (λ i. (i < length list.now) × HoldsAt (λ w. w ≡ v) list.now i) }
    ensures missing { IfNone result (All (λ w. w ≢ v) list.now) }
{
    list.iter().position(|w| *w == v)
}

// A vector, so many times as long.
fn longer(v: Vector, factor: u32) -> Vector
    requires near { IsWithin 64 v }
    requires factor { factor ≤ 128 }
    ensures { result ≡ times factor v }
{
    let factor = factor as i32;
    Vector {
        dx: factor * v.dx,
        dy: factor * v.dy,
        dz: factor * v.dz,
    }
}
