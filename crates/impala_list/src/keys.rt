// Keys that stand for the patterns of positions.
ghost use Rattle.std.specs.Prelude.{◌≡◌, ℕ, ◌+◌, ◌*◌, ◌<◌, ◌≤◌, ◌^◌, IfOk, length, slice_index, true};
ghost use Rattle.ti_scan.specs.Eroded.{positions_of};
ghost use Rattle.pattern_store.specs.Levels.{AreAlike, AreShown, many};
ghost use Rattle.impala_list.specs.Keys.{AppendsDigits, AreBelow, AreKeys, HaveRoom};

use crate::ranking::ranked;
use mp_base::NoMemory;
use pattern_store::read_shown;
use std::alloc::Global;
use std::thread::Threads;
use ti_scan::Eroded;

// A key for each eroded position, and a bound that they are below.
#[derive(Drop)]
struct Keys {
    keys: Vec<u64>,
    bound: u64,
}

// Whether keys below a bound have room for one digit more in a base.
fn has_room(bound: u64, base: u8) -> bool
    requires { 1 ≤ base }
    ensures { result ≡ true → bound * base < 2 ^ 64 }
{
    bound <= u64::MAX / u64::from(base)
}

// The places as keys.
fn widened(alloc: Global, places: &[u32]) -> Result<Vec<u64>, NoMemory>
    ensures { IfOk result (λ keys. keys.items ≡ places.now) }
{
    let mut keys = Vec::with_capacity(alloc, places.len())?;
    for place in places {
        keys.push(u64::from(*place))?;
    }
    Ok(keys)
}

// The keys, or where these have no room for one digit more their ranks among the distinct ones.
fn with_room(
    rt: &(impl Threads + Sync),
    alloc: Global,
    keys: Keys,
    base: u8,
) -> Result<Keys, NoMemory>
    requires some { 1 ≤ base }
    requires few { length keys.keys.items < 2 ^ 32 }
    requires below { AreBelow keys.bound keys.keys.items }
    ensures { IfOk result (λ next. HaveRoom base keys.keys.items next.keys.items next.bound) }
{
    if has_room(keys.bound, base) {
        return Ok(keys);
    }
    let ranking = ranked(rt, alloc, &keys.keys)?;
    Ok(Keys {
        keys: widened(alloc, &ranking.places)?,
        bound: u64::from(ranking.classes),
    })
}

// Appends a digit to each key.
fn append_digits(keys: &mut [u64], base: u8, digits: &[u8])
    requires same { length digits.now ≡ length keys.old }
    requires fit { (i : ℕ) → i < length keys.old → slice_index keys.old i * base + slice_index digits.now i < 2 ^ 64 }
    ensures { AppendsDigits base digits.now keys.old keys.new }
{
    for i in 0..keys.len() {
        keys[i] = keys[i] * u64::from(base) + u64::from(digits[i]);
    }
}

// Keys of one template position more, of which this is shown.
fn deepen(
    rt: &(impl Threads + Sync),
    alloc: Global,
    eroded: &Eroded<'_>,
    keys: Keys,
    _depth: u8,
    shown: &[u8],
) -> Result<Keys, NoMemory>
    requires keys { AreKeys eroded.now _depth keys.keys.items keys.bound }
    requires depth { _depth < length eroded.now.template }
    requires shown { AreShown eroded.now (_depth + 1) (positions_of eroded.now.image eroded.now.template) shown.now }
    ensures { IfOk result (λ next. AreKeys eroded.now (_depth + 1) next.keys.items next.bound) }
{
    let _ = eroded.positions();
    let cats = eroded.cats();
    let mut next = with_room(rt, alloc, keys, cats)?;
    append_digits(&mut next.keys, cats, shown);
    next.bound *= u64::from(cats);
    Ok(next)
}

/// A key for each eroded position: two are the same exactly where the positions' patterns are. Its
/// digits are the categories in the order of the template. Where one more might not fit, the keys
/// give way to their ranks.
pub fn keys_of(
    rt: &(impl Threads + Sync),
    alloc: Global,
    eroded: &Eroded<'_>,
) -> Result<Vec<u64>, NoMemory>
    ensures count { IfOk result (λ keys. length keys.items ≡ many eroded.now) }
    ensures alike { IfOk result (λ keys. AreAlike eroded.now (length eroded.now.template) keys.items) }
{
    let count = eroded.positions().len();
    let reach = eroded.template().len();
    let mut shown = vec![in alloc; 0u8; count]?;
    let mut keys = Keys {
        keys: vec![in alloc; 0u64; count]?,
        bound: 1,
    };
    for depth in 0..reach {
        read_shown(eroded, depth + 1, &mut shown);
        keys = deepen(rt, alloc, eroded, keys, depth, &shown)?;
    }
    Ok(keys.keys)
}
