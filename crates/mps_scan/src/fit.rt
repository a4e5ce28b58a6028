// How the words of `scan` fit the parameters.
ghost use Rattle.std.specs.Prelude.{◌≡◌, ◌≤◌, Some, None, IfSome, OnSome, if◌then◌else◌};
ghost use Rattle.std.specs.List.{position};
ghost use Rattle.std.specs.Ordering.{int_eq};
ghost use Rattle.ti_scan.specs.Event.{IsEvent};
ghost use Rattle.mps_scan.specs.Words.{decoded, event_for, is_datum};

use crate::coded::CodedDatum;
use crate::words::ScanWords;
use mp_base::{Cat, CodeList};
use ti_scan::{Datum, Event};

/// The event that words ask for, or nothing exactly where they don't fit: the level is none of the
/// levels, a position is beyond the template, or a code stands for no category.
#[tactic(auto, unfolding(crate::specs::Words::event_for))]
pub fn fitting_event(
    words: &ScanWords,
    levels: u8,
    template_len: u8,
    categories: &CodeList,
) -> Option<Event>
    ensures value { result ≡ event_for levels template_len categories.now words.now }
    ensures event { IfSome result (IsEvent template_len) }
    ensures level { OnSome result (words.now.level ≤ levels) }
{
    if words.level > levels {
        return None;
    }
    let mut event = Event::empty();
    for coded in words.event.items() {
        let Some(datum) = datum_for(coded, template_len, categories) else {
            return None;
        };
        event.push(datum);
    }
    Some(event)
}

// A datum by its category, where its position is one of the template and its code a category's.
fn datum_for(coded: &CodedDatum, template_len: u8, categories: &CodeList) -> Option<Datum>
    ensures { result ≡ (if is_datum template_len categories.now coded.now then Some (decoded categories.now coded.now) else None) }
{
    let Some(index) = index_of(categories.as_slice(), coded) else {
        return None;
    };
    if coded.position > template_len {
        return None;
    }
    Some(Datum {
        position: coded.position,
        cat: Cat(index as u8),
    })
}

// The place of a datum's code.
fn index_of(codes: &[i32], coded: &CodedDatum) -> Option<usize>
    ensures { result ≡ position (λ c. int_eq c coded.now.code) codes.now }
{
    codes.iter().position(|code| *code == coded.code)
}
