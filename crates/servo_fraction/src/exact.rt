// Exact weights, in whole numbers. Products stay below 2^104, so a u128 holds each of them.
ghost use Rattle.std.specs.Prelude.{◌≡◌, ◌<◌, ◌≤◌, ◌^◌, length};
ghost use Rattle.std.specs.List.{sum};
ghost use Rattle.servo_fraction.specs.Weights.{weight as exact_weight, weights_of, pick_of};

use crate::parts::{Target, Weights};
use arrayvec::ArrayVec;
use mp_base::{Cat, Counts};

// The sums of the counts, of the target's parts and of the known nodes, and the servo, which is in
// thousandths.
#[derive(Clone, Copy)]
struct Sums {
    counts: u128,
    target: u128,
    known: u128,
    servo: u128,
    ghost counts_fit: { counts ≤ 2 ^ 20 },
    ghost target_fits: { target ≤ 2 ^ 20 },
    ghost known_fits: { known ≤ 2 ^ 20 },
    ghost servo_fits: { servo ≤ 999 },
}

// The weight of a category with this count, part of the target and number of known nodes.
fn weight(all: Sums, count: u32, part: u32, known: u32) -> u128
    requires count { count ≤ all.counts }
    requires part { part ≤ all.target }
    requires known { known ≤ all.known }
    ensures { result ≡ exact_weight all.counts all.target all.known all.servo count part known }
{
    let (count, part, known) = (u128::from(count), u128::from(part), u128::from(known));
    if all.known == 0 {
        return count;
    }
    let raised = count * all.target * all.known * (1000 - all.servo)
        + all.servo * all.counts * (part * all.known);
    let lowered = all.servo * all.counts * (known * all.target);
    raised.saturating_sub(lowered)
}

/// The weight of each category at a node, from the counts of its replicates, the wanted shares and
/// the categories of the nodes that are known so far. The servo, in thousandths, says how strongly
/// the shares are pulled to the target: with 0 the weights are in proportion to the counts. A
/// category that is so far above its share that its weight would be negative has none. While no
/// node is known, the weights are the counts.
///
/// The correction is that of the servosystem of SNESIM programs (Strebelle 2002), in whole numbers.
pub fn weights(counts: &Counts, target: &Target, known: &Counts, servo: u16) -> Weights
    requires target_len { length target.now ≡ length counts.now }
    requires known_len { length known.now ≡ length counts.now }
    requires counts_some { 1 ≤ sum counts.now }
    requires counts_few { sum counts.now ≤ 2 ^ 20 }
    requires known_few { sum known.now ≤ 2 ^ 20 }
    requires servo { servo ≤ 999 }
    ensures weights { result ≡ weights_of counts.now target.now known.now servo }
    ensures len { length result ≡ length counts.now }
    ensures some { 1 ≤ sum result }
    ensures fits { sum result < 2 ^ 72 }
{
    let parts = target.parts();
    let all = Sums {
        counts: u128::from(counts.total()),
        target: u128::from(parts.total()),
        known: u128::from(known.total()),
        servo: u128::from(servo),
    };
    let mut result = ArrayVec::<u128, 8>::new();
    for k in 0..counts.len() {
        let cat = Cat(k);
        result.push(weight(all, counts.get(cat), parts.get(cat), known.get(cat)));
    }
    Weights::of(result.as_slice())
}

/// The category that a random word picks: the least whose weight, together with those before it,
/// exceeds the point between 0 and the sum of the weights at which the word lies. The word 0 lies
/// at 0, and the point is rounded down.
pub fn pick(weights: &Weights, word: u32) -> Cat
    requires some { 1 ≤ sum weights.now }
    requires fits { sum weights.now < 2 ^ 72 }
    ensures category { result ≡ pick_of weights.now word }
    ensures inside { result < length weights.now }
{
    let parts = weights.as_slice();
    let all: u128 = parts.iter().sum();
    let point = u128::from(word) * all / (1 << 32);
    let mut sum = 0;
    for (k, part) in parts.iter().enumerate() {
        sum += *part;
        if point < sum {
            return Cat(k as u8);
        }
    }
    unreachable!()
}
