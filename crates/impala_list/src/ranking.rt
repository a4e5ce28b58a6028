// The places of keys among the distinct ones.
ghost use Rattle.std.specs.Prelude.{◌<◌, ◌^◌, IfOk, length};
ghost use Rattle.std.specs.List.{AllZip};
ghost use Rattle.impala_list.specs.Ranking.{AreDistinct, AreRanked, IsAmong, IsPlace};

use mp_base::NoMemory;
use rayon::prelude::*;
use std::alloc::Global;
use std::thread::Threads;

/// The place of each key among the distinct ones, in rising order, and how many of these there are.
#[derive(Drop)]
pub struct Ranking {
    pub places: Vec<u32>,
    pub classes: u32,
}

// The distinct keys, in rising order.
fn distinct_of(
    rt: &(impl Threads + Sync),
    alloc: Global,
    keys: &[u64],
) -> Result<Vec<u64>, NoMemory>
    ensures { IfOk result (λ distinct. AreDistinct keys.now distinct.items) }
{
    let mut distinct = Vec::from_slice(alloc, keys)?;
    par_sort_unstable(rt, &mut distinct);
    distinct.dedup();
    Ok(distinct)
}

// The place of a key among the distinct ones.
fn place_of(distinct: &[u64], key: u64) -> u32
    requires { IsAmong distinct.now key }
    ensures { IsPlace distinct.now key result }
{
    match distinct.binary_search(&key) {
        Ok(place) => place as u32,
        Err(_) => unreachable!(),
    }
}

// The places of keys among the distinct ones.
fn places_among(
    rt: &(impl Threads + Sync),
    alloc: Global,
    keys: &[u64],
    distinct: &[u64],
) -> Result<Vec<u32>, NoMemory>
    requires distinct { AreDistinct keys.now distinct.now }
    requires few { length distinct.now < 2 ^ 32 }
    ensures { IfOk result (λ places. AllZip (λ key place. IsPlace distinct.now key place) keys.now places.items) }
{
    let places = keys
        .par_iter()
        .map(
            |key: &u64| -> u32
                requires { IsAmong distinct.now key.now }
                ensures { IsPlace distinct.entry.now key.now result }
            { place_of(distinct, *key) },
        )
        .collect(rt, alloc)?;
    Ok(places)
}

/// Ranks keys among the distinct ones.
pub fn ranked(rt: &(impl Threads + Sync), alloc: Global, keys: &[u64]) -> Result<Ranking, NoMemory>
    requires { length keys.now < 2 ^ 32 }
    ensures { IfOk result (λ ranking. AreRanked keys.now ranking.places.items ranking.classes) }
{
    let distinct = distinct_of(rt, alloc, keys)?;
    let places = places_among(rt, alloc, keys, &distinct)?;
    Ok(Ranking {
        places,
        classes: distinct.len() as u32,
    })
}
