// Certifying a newcomer: its keys read and written are tested against the kept rows and the waiting rows of the lent table, where they stand. Nothing is copied.
#![tactic(auto)]

ghost use Rattle.std.specs.Prelude.{◌+◌, ◌-◌, ◌≤◌, ◌≡◌};
ghost use Rattle.std.specs.List.{list_any};
ghost use Rattle.rules.specs.Place.{place};
ghost use Rattle.laws.specs.Options.{given};
ghost use Rattle.laws.specs.Tabs.{tab};
ghost use Rattle.tables.specs.View.{waiting_words, kept_words};
ghost use Rattle.tables.specs.Tested.{row_clash, row_blocks, row_passes};
ghost use Rattle.certifying.specs.Places.{Reached};

use keys::Keys;
use masks::Partition;
use tables::{Kept, SoundRow, Waiting};

// What a newcomer touches: the keys that it reads and the keys that it writes.
#[derive(Clone, Copy)]
pub struct Newcomer<'r, 'k> {
    pub reads: Keys<'r>,
    pub keys: Keys<'k>,
}

impl Newcomer<'_, '_> {
    // The row "writes a key it reads".
    #[tactic(auto, unfolding(tables::specs::Tested::row_blocks))]
    fn is_blocked_by(self, row: SoundRow<'_>) -> bool
        ensures { result ≡ row_blocks self.entry.reads.list.now row.entry.row.words.now }
    {
        self.reads.meets(row.keys())
    }

    // "it read a key that the commit wrote; for a global one also, it writes a key that the commit read". Global or not is a flag: a local newcomer only
    // skips the second half of this one test, and two functions would be twins.
    #[tactic(auto, unfolding(tables::specs::Tested::row_clash, tables::specs::Tested::row_blocks))]
    fn clashes_with(self, row: SoundRow<'_>, global: bool) -> bool
        ensures { result ≡ row_clash global self.entry.reads.list.now self.entry.keys.list.now row.entry.row.words.now }
    {
        self.is_blocked_by(row) || global && self.keys.meets(row.reads())
    }

    // "is global, has DC <= rt, and has read no key that it writes": the row may be passed.
    #[tactic(auto, unfolding(tables::specs::Tested::row_passes))]
    fn may_pass(self, row: SoundRow<'_>, own: Partition, dc: u32) -> bool
        ensures { result ≡ row_passes own.number dc self.entry.keys.list.now row.entry.row.words.now }
    {
        !masks::is_local(row.row.set(), own) && dc <= row.row.rt() && !row.reads().meets(self.keys)
    }
}

// The newcomer clashes with a commit "of version st+1 to SC"; the newest is tested first. (`global` as in `clashes_with`, here and below.)
pub fn clashes_with_commits(
    kept: Kept<'_>,
    st: u32,
    newcomer: Newcomer<'_, '_>,
    global: bool,
) -> bool
    requires st_le_sc { st ≤ kept.sc }
    requires sc_bound { kept.sc ≤ st + 64 }
    ensures { result ≡ list_any (row_clash global newcomer.entry.reads.list.now newcomer.entry.keys.list.now) (tab (kept.entry.sc - st) (λ j. kept_words kept.entry.book.words.now (kept.entry.sc - j))) }
{
    (0..kept.sc - st).any(|j| newcomer.clashes_with(kept.row(kept.sc - j), global))
}

// "tested in the same two ways against every waiting entry"
pub fn clashes_with_waiting(waiting: Waiting<'_>, newcomer: Newcomer<'_, '_>, global: bool) -> bool
    ensures { result ≡ list_any (row_clash global newcomer.entry.reads.list.now newcomer.entry.keys.list.now) (tab waiting.entry.count (waiting_words waiting.entry.book.words.now)) }
{
    (0..waiting.count).any(|i| newcomer.clashes_with(waiting.row(i), global))
}

// One of the first n waiting entries "writes a key it reads".
fn is_blocked(waiting: Waiting<'_>, n: usize, newcomer: Newcomer<'_, '_>) -> bool
    requires { n ≤ waiting.count }
    ensures { result ≡ list_any (row_blocks newcomer.entry.reads.list.now) (tab n (waiting_words waiting.entry.book.words.now)) }
{
    (0..n).any(|i| newcomer.is_blocked_by(waiting.row(i)))
}

// Of the same four as the question itself (who waits, our own, DC, the newcomer), the walk back from the end of the list: the first place such that every entry from there on may be passed.
fn reach(waiting: Waiting<'_>, own: Partition, dc: u32, newcomer: Newcomer<'_, '_>) -> usize
    ensures { Reached (row_passes own.number dc newcomer.entry.keys.list.now) (tab waiting.entry.count (waiting_words waiting.entry.book.words.now)) result }
{
    (0..waiting.count)
        .rposition(|i| !newcomer.may_pass(waiting.row(i), own, dc))
        .map_or(0, |i| i + 1)
}

// "the smallest place i, from 0 to the list's length, such that no entry before i writes a key it reads, and every entry from i on" may be passed
#[tactic(auto, using(crate::specs::Answers::reached_most, crate::specs::Answers::free_at, crate::specs::Answers::blocked_nowhere))]
pub fn earliest_place(
    waiting: Waiting<'_>,
    own: Partition,
    dc: u32,
    newcomer: Newcomer<'_, '_>,
) -> Option<usize>
    ensures { result ≡ given (place (row_blocks newcomer.entry.reads.list.now) (row_passes own.number dc newcomer.entry.keys.list.now) (tab waiting.entry.count (waiting_words waiting.entry.book.words.now))) }
{
    let i = reach(waiting, own, dc, newcomer);
    if is_blocked(waiting, i, newcomer) {
        return None;
    }
    Some(i)
}
