// A sound list beside its span.
ghost use Rattle.std.specs.Prelude.{◌≡◌, ◌≤◌, true, false, MatchOption};
ghost use Rattle.span.specs.Spans.{span_of};
ghost use Rattle.coretests.specs.Entries.{ordered_from, periods, sound, askable};

use crate::entry::{Entry, MAX_ENTRIES, MAX_TICKS};
use span::span_of;

// Made by `new` and `asked` alone. What the tests compute of a sound list are methods in their own files.
#[derive(Clone, Copy)]
pub(crate) struct SoundList<'a> {
    pub(crate) entries: &'a [Entry],
    pub(crate) span: u32,
    ghost sound: { sound entries.now ≡ true },
    ghost whole: { span ≡ span_of (periods entries.now) },
    // Both follow, and keep the sums of a span small.
    ghost some: { 1 ≤ span },
    ghost short: { span ≤ 1000000 },
}

// Whether every entry is in range and the deadlines do not fall.
fn is_ordered(list: &[Entry]) -> bool
    ensures { result ≡ ordered_from 0 list.now }
{
    // one loop: `all` and then `is_sorted_by_key` goes over a list twice, and past a deadline that falls
    let mut last = 0;
    for e in list {
        if !e.in_range() || e.deadline < last {
            return false;
        }
        last = e.deadline;
    }
    true
}

impl<'a> SoundList<'a> {
    // The list, unless it is unsound.
    #[tactic(auto, using(crate::specs::Soundness::unsound_many, crate::specs::Soundness::unsound_ordered))]
    pub(crate) fn new(entries: &'a [Entry]) -> Option<Self>
        ensures { MatchOption result (sound entries.now ≡ false) (λ list. list.entries.now ≡ entries.now) }
    {
        if entries.len() > MAX_ENTRIES || !is_ordered(entries) {
            return None;
        }
        let span = span_of(entries)?;
        Some(SoundList { entries, span })
    }

    // The list, unless it is unsound or the asked deadline out of range.
    pub(crate) fn asked(entries: &'a [Entry], d: u32) -> Option<Self>
        ensures { MatchOption result (askable entries.now d ≡ false) (λ list. (askable entries.now d ≡ true) × (list.entries.now ≡ entries.now)) }
    {
        if !(1..=MAX_TICKS).contains(&d) {
            return None;
        }
        SoundList::new(entries)
    }
}
