// The calls of one kind, and which of them are to fail.
ghost use Rattle.std.specs.Prelude.{◌≡◌, OnOk, OnErr, nat_eq};
ghost use Rattle.std.specs.Map.{lookup};

use mp_number::NoMemory;
use std::alloc::Global;
use std::marker::Model;

/// How many calls of a kind were made, and the calls that are to fail: the number of each, and
/// how many bytes it adds first.
#[derive(Drop)]
pub struct Calls {
    made: u64,
    entries: Vec<(u32, u32)>,
}

impl Model for Calls {
    ghost use Rattle.mp_outside.specs.Calls.{CallPlan};

    ghost Value = { CallPlan };

    ghost view = { λ calls. record { made = calls.made; failing = calls.entries.items } };
}

impl Calls {
    ghost use Rattle.mp_outside.specs.Calls.{no_call, counted, due, with_failing};

    /// No call made, none to fail.
    pub fn new(alloc: Global) -> Calls
        ensures { result ≡ no_call }
    {
        Calls {
            made: 0,
            entries: Vec::new(alloc),
        }
    }

    /// Has the nth call fail, after it has added so many bytes.
    pub fn plan(&mut self, nth: u32, added: u32) -> Result<(), NoMemory>
        ensures ok { OnOk result (self.new ≡ with_failing nth added self.old) }
        ensures err { OnErr result (self.new ≡ self.old) }
    {
        self.entries.push((nth, added))?;
        Ok(())
    }

    /// Counts a call. It is to fail exactly where there is an entry for it, after so many bytes.
    pub fn count_call(&mut self) -> Option<u32>
        ensures due { result ≡ due self.old }
        ensures counted { self.new ≡ counted self.old }
    {
        self.made = self.made.saturating_add(1);
        entry_for(&self.entries, self.made)
    }
}

// The bytes of the first entry for the nth call.
fn entry_for(entries: &[(u32, u32)], nth: u64) -> Option<u32>
    ensures { result ≡ lookup (nat_eq nth) entries.now }
{
    for entry in entries {
        if nth == u64::from(entry.0) {
            return Some(entry.1);
        }
    }
    None
}
