// The nearest candidates of a template, by their keys.
ghost use Rattle.std.specs.Prelude.{◌≡◌, ◌+◌, ◌*◌, ◌≤◌, ◌^◌, ◌++◌, ◌∷◌, [], All, IfOk, IsTrue, OnOk, false, length, nat_abs, true};
ghost use Rattle.template_order.specs.Template.{IsSmall, IsTemplate, IsWithin, distance as distance_of, is_near_enough, offset as offset_of, template_of, vector};
ghost use Rattle.template_order.specs.Keys.{AreLeast, IsShortOrder, is_up_to, keys_of, plane, planes, row, vector_of as vector_of_key};
ghost use Rattle.template_order.specs.Radii.{radii_of};

use mp_base::{NoMemory, Vector};
use std::alloc::Global;

/// A vector's distance, z, y and x.
pub type Key = (u64, i32, i32, i32);

/// The half axes of a template along x, y and z.
#[derive(Clone, Copy)]
pub struct Radii {
    pub x: u32,
    pub y: u32,
    pub z: u32,
}

// The square of an offset in the unit of the other two half axes.
fn square(offset: u32, p: u64, q: u64) -> u64
    requires offset { offset ≤ 64 }
    requires p { p ≤ 64 }
    requires q { q ≤ 64 }
    ensures value { result ≡ (offset * p * q) ^ 2 }
    ensures small { result ≤ 2 ^ 36 }
{
    let side = u64::from(offset) * p * q;
    prove!(side <= 1 << 18);
    side * side
}

fn distance(radii: Radii, v: Vector) -> u64
    requires small { IsSmall (radii_of radii) }
    requires near { IsWithin 64 v }
    ensures { result ≡ distance_of (radii_of radii) v }
{
    let (a, b, c) = (
        u64::from(radii.x.max(1)),
        u64::from(radii.y.max(1)),
        u64::from(radii.z.max(1)),
    );
    square(v.dx.unsigned_abs(), b, c)
        + square(v.dy.unsigned_abs(), a, c)
        + square(v.dz.unsigned_abs(), a, b)
}

fn is_candidate(radii: Radii, distance: u64) -> bool
    requires small { IsSmall (radii_of radii) }
    ensures { result ≡ is_near_enough (radii_of radii) distance }
{
    let (b, c) = (u64::from(radii.y.max(1)), u64::from(radii.z.max(1)));
    let most = square(radii.x.max(1), b, c);
    distance > 0 && distance <= most
}

fn offset(radius: u32, k: u32) -> i32
    requires radius { radius ≤ 64 }
    requires k { k ≤ 2 * radius }
    ensures value { result ≡ offset_of radius k }
    ensures near { nat_abs result ≤ 64 }
{
    k as i32 - radius as i32
}

// Vector number k, counted from 0, of row j of plane i of the box.
fn vector_at(radii: Radii, i: u32, j: u32, k: u32) -> Vector
    requires small { IsSmall (radii_of radii) }
    requires i { i ≤ 2 * radii.z }
    requires j { j ≤ 2 * radii.y }
    requires k { k ≤ 2 * radii.x }
    ensures value { result ≡ vector (offset_of radii.x k) (offset_of radii.y j) (offset_of radii.z i) }
    ensures near { IsWithin 64 result }
{
    Vector {
        dx: offset(radii.x, k),
        dy: offset(radii.y, j),
        dz: offset(radii.z, i),
    }
}

fn key(distance: u64, v: Vector) -> Key
    ensures { result ≡ (distance, v.dz, v.dy, v.dx) }
{
    (distance, v.dz, v.dy, v.dx)
}

// Whether there are so many keys, none of them after this one.
fn is_past(keys: &[Key], count: usize, key: Key) -> bool
    requires { IsShortOrder count keys.now }
    ensures many { IsTrue result → count ≤ length keys.now }
    ensures later { IsTrue result → All (λ k. is_up_to key k ≡ true) keys.now }
{
    match keys.last() {
        Some(last) => keys.len() >= count && *last <= key,
        None => count == 0,
    }
}

// Takes one more key, and keeps the least.
fn offer(keys: &mut Vec<Key>, count: usize, key: Key) -> Result<(), NoMemory>
    requires { IsShortOrder count keys.old.items }
    ensures { OnOk result (AreLeast count (keys.old.items ++ key ∷ []) keys.new.items) }
{
    if is_past(keys.as_slice(), count, key) {
        return Ok(());
    }
    keys.push(key)?;
    keys.sort()?;
    keys.truncate(count);
    Ok(())
}

// Takes the key of a vector of the box, if it is a candidate.
fn offer_vector(keys: &mut Vec<Key>, count: usize, radii: Radii, v: Vector) -> Result<(), NoMemory>
    requires order { IsShortOrder count keys.old.items }
    requires small { IsSmall (radii_of radii) }
    requires near { IsWithin 64 v }
    ensures { OnOk result (AreLeast count (keys.old.items ++ keys_of (radii_of radii) (v ∷ [])) keys.new.items) }
{
    let d = distance(radii, v);
    if is_candidate(radii, d) {
        offer(keys, count, key(d, v))?;
    }
    Ok(())
}

fn offer_row(
    keys: &mut Vec<Key>,
    count: usize,
    radii: Radii,
    i: u32,
    j: u32,
) -> Result<(), NoMemory>
    requires order { IsShortOrder count keys.old.items }
    requires small { IsSmall (radii_of radii) }
    requires i { i ≤ 2 * radii.z }
    requires j { j ≤ 2 * radii.y }
    ensures { OnOk result (AreLeast count (keys.old.items ++ keys_of (radii_of radii) (row (radii_of radii) i j (2 * radii.x + 1))) keys.new.items) }
{
    for k in 0..2 * radii.x + 1 {
        offer_vector(keys, count, radii, vector_at(radii, i, j, k))?;
    }
    Ok(())
}

fn offer_plane(keys: &mut Vec<Key>, count: usize, radii: Radii, i: u32) -> Result<(), NoMemory>
    requires order { IsShortOrder count keys.old.items }
    requires small { IsSmall (radii_of radii) }
    requires i { i ≤ 2 * radii.z }
    ensures { OnOk result (AreLeast count (keys.old.items ++ keys_of (radii_of radii) (plane (radii_of radii) i (2 * radii.y + 1))) keys.new.items) }
{
    for j in 0..2 * radii.y + 1 {
        offer_row(keys, count, radii, i, j)?;
    }
    Ok(())
}

fn offer_box(keys: &mut Vec<Key>, count: usize, radii: Radii) -> Result<(), NoMemory>
    requires order { IsShortOrder count keys.old.items }
    requires small { IsSmall (radii_of radii) }
    ensures { OnOk result (AreLeast count (keys.old.items ++ keys_of (radii_of radii) (planes (radii_of radii) (2 * radii.z + 1))) keys.new.items) }
{
    for i in 0..2 * radii.z + 1 {
        offer_plane(keys, count, radii, i)?;
    }
    Ok(())
}

fn vector_of(key: &Key) -> Vector
    ensures { result ≡ vector_of_key key.now }
{
    Vector {
        dx: key.3,
        dy: key.2,
        dz: key.1,
    }
}

/// The nearest candidates in order, at most so many. Only that many keys are kept while the box is
/// gone through, so that large radii take no more memory.
pub fn nearest(alloc: Global, radii: Radii, count: usize) -> Result<Vec<Vector>, NoMemory>
    requires small { IsSmall (radii_of radii) }
    requires count { count ≤ 64 }
    ensures vectors { IfOk result (λ list. list.items ≡ template_of (radii_of radii) count) }
    ensures template { IfOk result (λ list. IsTemplate (record { vectors = list.items; stretched = false })) }
{
    let mut keys = Vec::new(alloc);
    offer_box(&mut keys, count, radii)?;
    let mut list = Vec::with_capacity(alloc, count)?;
    for key in keys.as_slice() {
        list.push(vector_of(key))?;
    }
    Ok(list)
}
