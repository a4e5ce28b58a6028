// The text of `scan`.
ghost use Rattle.std.specs.Prelude.{◌≡◌, ◌++◌, OnErr, OnOk, length, map};
ghost use Rattle.ti_scan.specs.Event.{IsEvent, StandsFor, counts_of};
ghost use Rattle.mps_scan.specs.Text.{counts_line, counts_text, kept_line, prefix_lines, prefixes_of, retained_line, scan_text, store_line};

use event_retrieve::{LevelPlan, retain};
use mp_base::{Counts, NoMemory, push_behind_spaces, push_whole};
use mp_values::{StoreChoice, push_store};
use ti_scan::{CountStore, Event};

/// Appends what `scan` tells of an event: the kind and the size of the store, the counts of each prefix
/// of the event from the empty one on, and what is retained of the event. Without memory for it the
/// vector stays as it was.
#[tactic(auto, unfolding(crate::specs::Text::scan_text))]
pub fn push_scan_text<S: CountStore>(
    to: &mut Vec<u8>,
    choice: StoreChoice,
    size: u32,
    plan: &LevelPlan<'_>,
    event: &Event,
    counts: &[Counts],
    store: &S,
) -> Result<(), NoMemory>
    requires store { StandsFor S.gives S.reaches store.now plan.now.source }
    requires event { IsEvent (length plan.now.source.template) event.now }
    requires counts { counts.now ≡ map (counts_of plan.now.source) (prefixes_of event.now) }
    ensures text { OnOk result (to.new.items ≡ to.old.items ++ scan_text choice size plan.now event.now) }
    ensures err { OnErr result (to.new.items ≡ to.old.items) }
{
    let mut text = Vec::new(*to.allocator());
    push_size(&mut text, choice, size)?;
    push_prefixes(&mut text, plan, event, counts)?;
    push_retained(&mut text, plan, event, store)?;
    to.extend_from_slice(&text)?;
    Ok(())
}

fn push_size(to: &mut Vec<u8>, choice: StoreChoice, size: u32) -> Result<(), NoMemory>
    ensures { OnOk result (to.new.items ≡ to.old.items ++ store_line choice size) }
{
    to.extend_from_slice(b"store ")?;
    push_store(to, choice)?;
    to.push(b' ')?;
    push_whole(to, i128::from(size))?;
    to.push(b'\n')?;
    Ok(())
}

// A line for each prefix of the event, of which these are the counts.
fn push_prefixes(
    to: &mut Vec<u8>,
    _plan: &LevelPlan<'_>,
    _event: &Event,
    counts: &[Counts],
) -> Result<(), NoMemory>
    requires { counts.now ≡ map (counts_of _plan.now.source) (prefixes_of _event.now) }
    ensures { OnOk result (to.new.items ≡ to.old.items ++ prefix_lines (counts_of _plan.now.source) _event.now) }
{
    for len in 0..counts.len() {
        push_prefix(to, len, &counts[len])?;
    }
    Ok(())
}

// The line of the first `len` data.
fn push_prefix(to: &mut Vec<u8>, len: usize, counts: &Counts) -> Result<(), NoMemory>
    ensures { OnOk result (to.new.items ≡ to.old.items ++ counts_line len counts.now) }
{
    to.extend_from_slice(b"prefix ")?;
    push_whole(to, len as i128)?;
    push_counts(to, counts)?;
    to.push(b'\n')?;
    Ok(())
}

fn push_retained<S: CountStore>(
    to: &mut Vec<u8>,
    plan: &LevelPlan<'_>,
    event: &Event,
    store: &S,
) -> Result<(), NoMemory>
    requires store { StandsFor S.gives S.reaches store.now plan.now.source }
    requires event { IsEvent (length plan.now.source.template) event.now }
    ensures { OnOk result (to.new.items ≡ to.old.items ++ retained_line plan.now event.now) }
{
    let kept = retain(plan, event, store);
    push_kept(to, kept.len, kept.reach, &kept.counts)
}

fn push_kept(to: &mut Vec<u8>, len: u8, reach: u8, counts: &Counts) -> Result<(), NoMemory>
    ensures { OnOk result (to.new.items ≡ to.old.items ++ kept_line len reach counts.now) }
{
    to.extend_from_slice(b"retained ")?;
    push_whole(to, i128::from(len))?;
    to.extend_from_slice(b" reach ")?;
    push_whole(to, i128::from(reach))?;
    push_counts(to, counts)?;
    to.push(b'\n')?;
    Ok(())
}

fn push_counts(to: &mut Vec<u8>, counts: &Counts) -> Result<(), NoMemory>
    ensures { OnOk result (to.new.items ≡ to.old.items ++ counts_text counts.now) }
{
    to.extend_from_slice(b" counts")?;
    push_behind_spaces(to, counts.as_slice())
}
