// The texts of answers. They are appended to a text of which nothing is kept where memory runs out.
ghost use Rattle.std.specs.Prelude.{◌≡◌, ◌++◌, ◌<◌, ◌≤◌, OnOk, length};
ghost use Rattle.mp_base.specs.Grid.{IsBelow};
ghost use Rattle.spec_steps.specs.Answers.{category_in, committed_category};
ghost use Rattle.trace_out.specs.Answers.{answer_text, claim_text, commits_in, committed_text, counted_text, keep_text, known_text, recounted_text, retained_text, settle_text, told};

use commit_board::{Claim, Keep, Settle};
use event_retrieve::Retained;
use mp_base::{Cat, Entry, NoMemory, push_behind_spaces, push_whole};
use spec_steps::Answer;

/// Appends the text of an answer. So many nodes were committed before, and each category that the
/// answer names has a code.
pub fn push_answer(
    to: &mut Vec<u8>,
    answer: &Answer,
    committed: usize,
    codes: &[i32],
) -> Result<(), NoMemory>
    requires { IsBelow (length codes.now) (category_in answer.now) }
    ensures { OnOk result (to.new.items ≡ to.old.items ++ answer_text codes.now committed answer.now) }
{
    match answer {
        Answer::Claimed(claim) => push_claim(to, claim),
        Answer::Seen { front } => push_told(to, b"seen", &[*front]),
        Answer::Late { front } => push_told(to, b"late", &[*front]),
        Answer::Known { position, cat } => push_known(to, *position, *cat, codes),
        Answer::Unknown { position } => push_told(to, b"unknown", &[u32::from(*position)]),
        Answer::Counted(retained) => push_counted(to, retained),
        Answer::Offered { index, keep } => push_keep(to, *index, *keep),
        Answer::Settled(settle) => push_settle(to, *settle, committed, codes),
        Answer::Recounted { index, retained } => push_recounted(to, *index, retained),
        Answer::Shown { front } => push_told(to, b"shown", &[*front]),
        Answer::Skip => push_told(to, b"skip", &[]),
    }
}

/// How many commits an answer is: one or none.
pub fn commits_in(answer: &Answer) -> usize
    ensures value { result ≡ commits_in answer.now }
    ensures few { result ≤ 1 }
{
    match answer {
        Answer::Settled(Settle::Committed(_)) => 1,
        _ => 0,
    }
}

/// Appends a word, and numbers behind it.
pub fn push_told(to: &mut Vec<u8>, word: &[u8], numbers: &[u32]) -> Result<(), NoMemory>
    ensures { OnOk result (to.new.items ≡ to.old.items ++ told word.now numbers.now) }
{
    to.extend_from_slice(word)?;
    push_behind_spaces(to, numbers)
}

fn push_claim(to: &mut Vec<u8>, claim: &Claim) -> Result<(), NoMemory>
    ensures { OnOk result (to.new.items ≡ to.old.items ++ claim_text claim.now) }
{
    match claim {
        Claim::Ticket(ticket) => push_told(to, b"ticket", &[ticket.index()]),
        Claim::Full { next, front } => push_told(to, b"full", &[*next, *front]),
        Claim::AllClaimed { length } => push_told(to, b"all", &[*length]),
    }
}

// A known cell at a position, by the code of its category.
fn push_known(to: &mut Vec<u8>, position: u8, cat: Cat, codes: &[i32]) -> Result<(), NoMemory>
    requires { cat < length codes.now }
    ensures { OnOk result (to.new.items ≡ to.old.items ++ known_text codes.now position cat) }
{
    push_told(to, b"known", &[u32::from(position)])?;
    push_behind_spaces(to, &[codes[cat.0 as usize]])
}

fn push_counted(to: &mut Vec<u8>, retained: &Retained) -> Result<(), NoMemory>
    ensures { OnOk result (to.new.items ≡ to.old.items ++ counted_text retained.now) }
{
    to.extend_from_slice(b"counted")?;
    push_retained(to, retained)
}

fn push_recounted(to: &mut Vec<u8>, index: u32, retained: &Retained) -> Result<(), NoMemory>
    ensures { OnOk result (to.new.items ≡ to.old.items ++ recounted_text index retained.now) }
{
    push_told(to, b"recounted", &[index])?;
    push_retained(to, retained)
}

fn push_retained(to: &mut Vec<u8>, retained: &Retained) -> Result<(), NoMemory>
    ensures { OnOk result (to.new.items ≡ to.old.items ++ retained_text retained.now) }
{
    push_behind_spaces(to, &[u32::from(retained.len), u32::from(retained.reach)])?;
    push_behind_spaces(to, retained.counts.as_slice())
}

// An offer that is unclaimed has no text: it doesn't come where steps are taken one after another.
fn push_keep(to: &mut Vec<u8>, index: u32, keep: Keep) -> Result<(), NoMemory>
    ensures { OnOk result (to.new.items ≡ to.old.items ++ keep_text index keep) }
{
    match keep {
        Keep::Kept => push_told(to, b"kept", &[index]),
        Keep::Late { front } => push_told(to, b"late", &[front]),
        Keep::Held { index } => push_told(to, b"held", &[index]),
        Keep::Unclaimed { .. } => Ok(()),
    }
}

fn push_settle(
    to: &mut Vec<u8>,
    settle: Settle,
    committed: usize,
    codes: &[i32],
) -> Result<(), NoMemory>
    requires { IsBelow (length codes.now) (committed_category settle) }
    ensures { OnOk result (to.new.items ≡ to.old.items ++ settle_text codes.now committed settle) }
{
    match settle {
        Settle::Committed(entry) => push_committed(to, entry, committed, codes),
        Settle::NotOffered { front } => push_told(to, b"none", &[front]),
        Settle::Stale {
            front,
            entry,
            position,
        } => push_told(to, b"stale", &[front, entry, u32::from(position)]),
        Settle::Ended { length } => push_told(to, b"ended", &[length]),
    }
}

// An entry at its place of the log, by its cell and the code of its category.
fn push_committed(
    to: &mut Vec<u8>,
    entry: Entry,
    place: usize,
    codes: &[i32],
) -> Result<(), NoMemory>
    requires { entry.cat < length codes.now }
    ensures { OnOk result (to.new.items ≡ to.old.items ++ committed_text codes.now place entry) }
{
    to.extend_from_slice(b"committed ")?;
    push_whole(to, place as i128)?;
    push_behind_spaces(to, &[entry.cell.0])?;
    push_behind_spaces(to, &[codes[entry.cat.0 as usize]])
}
