// Is the state that two lent tables hold sound? Any words may stand in them: sizes are tested before the rows that they speak of are looked at.
#![tactic(auto)]

ghost use Rattle.std.specs.Prelude.{◌≤◌, ◌<◌, ◌≡◌, length, get_or};
ghost use Rattle.rules.specs.Lists.{member};
ghost use Rattle.rules.specs.Sizes.{most_dc};
ghost use Rattle.rules.specs.Ledger.{sizes_fit};
ghost use Rattle.rules.specs.Soundness.{sound};
ghost use Rattle.laws.specs.Cuts.{cut};
ghost use Rattle.tables.specs.Layout.{sums_words};
ghost use Rattle.tables.specs.View.{waiting_words, kept_words, view};
ghost use Rattle.checking.specs.Walks.{rest};
ghost use Rattle.checking.specs.GoodRows.{part_good, sets_good, row_good};
ghost use Rattle.checking.specs.Whole.{identity_at, counters_pass, kept_pass, identities_pass, waiting_pass};

use masks::Partition;
use tables::{Book, READ_KEYS, Row, Sizes, Sums, VERSIONS, WRITTEN_KEYS};

// 01, "The ledger's sizes": the limits of this check alone, so that a wrong one shows here.
const MOST_PARTITIONS: u32 = 8;

const MOST_KEYS: u32 = 8;

const MOST_WAITING: u32 = 32;

const MOST_K: u32 = 31;

const MOST_DC: u32 = 4000000000;

// What an opened engine's entries are held to: how many partitions there are, which is our own, and how far DC is.
#[derive(Clone, Copy)]
struct Opened {
    partitions: u32,
    own: Partition,
    dc: u32,
    ghost few: { partitions ≤ 8 },
    ghost dc_fits: { dc ≤ most_dc },
}

// "Partitions | 1 to 8", our own one of them, "Threshold k | 0 to 31"
#[tactic(auto, unfolding(rules::specs::Ledger::sizes_fit))]
pub fn sizes_fit(sizes: Sizes) -> bool
    ensures { result ≡ sizes_fit sizes.partitions sizes.own sizes.k }
{
    (1..=MOST_PARTITIONS).contains(&sizes.partitions)
        && sizes.own < sizes.partitions
        && sizes.k <= MOST_K
}

// "sizes fit the table", "SC plus waiting is at most DC"
#[tactic(auto, unfolding(crate::specs::Counters::counters_fit))]
fn counters_fit(book: Book<'_>) -> bool
    ensures { result ≡ counters_pass book.entry.words.now }
{
    let dc = book.dc();
    let waiting = book.waiting();
    sizes_fit(book.sizes())
        && dc <= MOST_DC
        && waiting <= MOST_WAITING
        && u64::from(book.sc()) + u64::from(waiting) <= u64::from(dc)
}

// "every stored set is within its limits and ascending", of so many keys that stand in a row from a place on. Where they are too many, none is looked at.
#[tactic(auto, using(crate::specs::GoodRows::few_keys), unfolding(crate::specs::GoodRows::part_good))]
fn is_part_good(row: Row<'_>, at: usize, count: u32) -> bool
    requires { at ≤ 16 }
    ensures { result ≡ part_good count (cut at count row.entry.words.now) }
{
    count <= MOST_KEYS && !keys::is_bad(&row.words[at..at + count as usize])
}

// The two sets of a row: the keys read, and the keys written.
#[tactic(auto, using(crate::specs::GoodRows::sets_parts))]
fn are_sets_good(row: Row<'_>) -> bool
    ensures { result ≡ sets_good row.entry.words.now }
{
    is_part_good(row, READ_KEYS, row.read_count())
        && is_part_good(row, WRITTEN_KEYS, row.written_count())
}

// Of one waiting row: its sets are good, its identity is nonzero, its partition set holds our own and none beyond the number opened, stored votes come
// from other involved partitions, and its rt is at most DC + 31.
#[tactic(auto, using(crate::specs::GoodRows::row_tests, crate::specs::GoodRows::set_byte))]
fn is_entry_good(row: Row<'_>, opened: Opened) -> bool
    ensures { result ≡ row_good opened.partitions opened.own.number opened.dc row.entry.words.now }
{
    let set = row.set();
    are_sets_good(row)
        && row.identity() != 0
        && !masks::is_bad_set(set, opened.partitions, opened.own.number)
        && masks::are_from_others(set as u8, opened.own, row.ayes())
        && masks::are_from_others(set as u8, opened.own, row.nays())
        && row.rt() <= opened.dc + MOST_K
}

// So many rows of the waiting list, whatever stands in them: tables' `Waiting` before it is known to be good. Nested in that one it would make each use a step longer.
#[derive(Clone, Copy)]
struct AnyRows<'a> {
    book: Book<'a>,
    count: usize,
    ghost few: { count ≤ 32 },
}

impl AnyRows<'_> {
    // Every waiting row.
    fn are_good(self, opened: Opened) -> bool
        ensures { result ≡ waiting_pass opened.partitions opened.own.number opened.dc self.entry.count self.entry.book.words.now }
    {
        (0..self.count).all(|i| is_entry_good(self.book.waiting_row(i), opened))
    }

    // An identity stands in one of the rows from a place on.
    fn have(self, identity: u32, from: usize) -> bool
        ensures { result ≡ member identity (rest self.entry.count (identity_at self.entry.book.words.now) from) }
    {
        (from..self.count).any(|i| identity == self.book.waiting_row(i).identity())
    }

    // "waiting identities are .. different": none stands in a later row too.
    fn differ(self) -> bool
        ensures { result ≡ identities_pass self.entry.count self.entry.book.words.now }
    {
        (0..self.count).all(|i| !self.have(self.book.waiting_row(i).identity(), i + 1))
    }
}

// Every kept row, from the newest version on: as many as "the smaller of SC and 64".
fn kept_good(book: Book<'_>, sc: u32) -> bool
    ensures { result ≡ kept_pass sc book.entry.words.now }
{
    (0..sc.min(VERSIONS)).all(|j| are_sets_good(book.kept_row(sc - j)))
}

// "A state is sound when", of the state that the tables hold. Amounts never matter to it.
// Never inlined: inside a caller whose `Result` goes through memory the compiler looks at the tables again at each call, where by itself it answers a `bool` and
// one look serves a run of reads of tables that nothing changes.
#[inline(never)]
#[tactic(auto, using(crate::specs::Whole::sound_laws))]
pub fn is_sound(book: Book<'_>, sums: Sums<'_>) -> bool
    ensures { result ≡ sound (view book.entry.words.now sums.entry.amounts.now) }
{
    // Counters that fit bound all that follows, so they are tested before anything is built on them.
    if !counters_fit(book) {
        return false;
    }
    let waiting = AnyRows {
        book,
        count: book.waiting() as usize,
    };
    let opened = Opened {
        partitions: book.partitions(),
        own: Partition { number: book.own() },
        dc: book.dc(),
    };
    kept_good(book, book.sc()) && waiting.differ() && waiting.are_good(opened)
}
