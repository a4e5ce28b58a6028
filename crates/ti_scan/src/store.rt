// Stores of counts.
ghost use Rattle.std.specs.Prelude.{◌≡◌, ℕ, ◌≤◌, List, length, take};
ghost use Rattle.std.specs.List.{sum};
ghost use Rattle.ti_scan.specs.declared.event.Datum.{Datum};
ghost use Rattle.ti_scan.specs.Event.{IsEvent};
ghost use Rattle.ti_scan.specs.Prefix.{longest};

use crate::eroded::Eroded;
use crate::event::Event;
use mp_base::Counts;

/// The longest prefix of an event that has enough replicates, and their counts.
#[derive(Drop)]
pub struct LongestPrefix {
    /// How many data it has.
    pub len: u8,
    /// How many of its replicates have each category at their centre.
    pub counts: Counts,
}

/// Answers how often each category is at the centre of a data event. It takes no memory, and
/// threads may share it.
pub trait CountStore: Sync {
    /// What is answered for an event.
    ghost gives: { Self → List Datum → List ℕ };

    /// The length of the template: positions of events go up to it.
    ghost reaches: { Self → ℕ };

    /// How many replicates of the event have each category at their centre.
    fn counts(&self, event: &Event) -> Counts
        requires { IsEvent (reaches self.now) event.now }
        ensures { result ≡ gives self.now event.now };

    /// The longest prefix of at most `most` data that has at least `min` replicates, and its
    /// counts. Where no prefix has as many, it is the empty one.
    fn longest_prefix(&self, event: &Event, most: u8, min: u32) -> LongestPrefix
        requires event { IsEvent (reaches self.now) event.now }
        requires most { most ≤ length event.now }
        ensures len { result.len ≡ longest (gives self.now) min event.now most }
        ensures counts { result.counts ≡ gives self.now (take result.len event.now) }
    {
        let mut low = 0;
        let mut high = most;
        while low < high {
            let middle = high - (high - low) / 2;
            if self.counts(&event.prefix(middle)).total() >= u64::from(min) {
                low = middle;
            } else {
                high = middle - 1;
            }
        }
        LongestPrefix {
            len: low,
            counts: self.counts(&event.prefix(low)),
        }
    }

    /// A longer prefix has no more replicates.
    ghost falls: { (x : Self) (event : List Datum) (m k : ℕ) → m ≤ k → sum (gives x (take k event)) ≤ sum (gives x (take m event)) };
}

impl<'a> CountStore for Eroded<'a> {
    ghost use Rattle.std.specs.Prelude.{length};
    ghost use Rattle.ti_scan.specs.Event.{counts_of};
    ghost use Rattle.ti_scan.specs.Growing.{total-take-le};

    ghost gives = { λ e event. counts_of e event };

    ghost reaches = { λ e. length e.template };

    ghost falls = { λ e event m k le. total-take-le e event m k le };

    fn counts(&self, event: &Event) -> Counts {
        self.scan_counts(event)
    }
}
