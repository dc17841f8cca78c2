// The kept commits: the head's row becomes the newest kept row, and the commit that stood there goes into the values; and the value of a key at a snapshot.
#![tactic(auto)]

ghost use Rattle.std.specs.Prelude.{◌+◌, ◌-◌, ◌%◌, ◌≤◌, ◌<◌, ◌≡◌, eqb, length, position, IfSome};
ghost use Rattle.rules.specs.Read.{put_at, read_at};
ghost use Rattle.laws.specs.Options.{given};
ghost use Rattle.tables.specs.Layout.{sums_words};
ghost use Rattle.tables.specs.View.{commit_at, books_view};
ghost use Rattle.tables.specs.Keeping.{folded_sums, evicted_sums, committed_book, committed_sums};
ghost use Rattle.tables.specs.Good.{KeptGood};

use moves::move_within;
use tables::{
    AMOUNTS, Book, COUNTERS, KEPT_AMOUNTS, KEPT_ROWS, Kept, Ledger, ROW, Sums, VERSIONS,
    WAITING_AMOUNTS,
};

// Which of the 64 kept rows a version has: asked for its amounts, as `Book::kept_row` gives the row itself.
fn slot(version: u32) -> usize
    ensures { result ≡ version % 64 }
{
    (version % VERSIONS) as usize
}

// The writes of the oldest kept version go into the values, from the last to the first: each under the writes stored before.
fn fold_oldest(kept: Kept<'_>, sums: &mut [i64])
    requires long { sums_words ≤ length sums.old }
    requires full { 64 ≤ kept.sc }
    ensures { sums.new ≡ folded_sums kept.entry.book.words.now sums.old (kept.entry.sc - 64 + 1) }
{
    let version = kept.sc - VERSIONS + 1;
    let keys = kept.row(version).keys().list;
    let amounts = KEPT_AMOUNTS + AMOUNTS * slot(version);
    // by place: it names the key in one table and the amount in the other, which is written meanwhile
    for j in (0..keys.len()).rev() {
        sums[keys[j] as usize] = sums[amounts + j];
    }
}

// "one older than the newest 64 is folded into the values at the floor": the oldest, where version SC + 1 will be kept.
#[tactic(auto, using(crate::specs::Folding::none_evicted, crate::specs::Folding::one_evicted))]
fn evict(kept: Kept<'_>, sums: &mut [i64])
    requires { sums_words ≤ length sums.old }
    ensures { sums.new ≡ evicted_sums kept.entry.book.words.now sums.old kept.entry.sc }
{
    if VERSIONS <= kept.sc {
        fold_oldest(kept, sums);
    }
}

// The head's row becomes the kept row of version sc + 1.
#[tactic(auto, using(crate::specs::Folding::row_kept, crate::specs::Folding::sums_kept))]
pub fn keep(ledger: &mut Ledger<'_>, sc: u32)
    requires kept_good { KeptGood sc ledger.old.book.now }
    requires sc_bound { sc < 4000000000 }
    ensures same_book { ledger.new.book.ghost_name ≡ ledger.old.book.ghost_name }
    ensures same_sums { ledger.new.sums.ghost_name ≡ ledger.old.sums.ghost_name }
    ensures book_after { ledger.new.book.now ≡ committed_book ledger.old.book.now sc }
    ensures sums_after { ledger.new.sums.now ≡ committed_sums ledger.old.book.now ledger.old.sums.now sc }
{
    let words = &mut *ledger.book; // by a name of its own: of a field lent to be read, only the length is known afterwards
    let book = Book { words };
    evict(Kept { book, sc }, ledger.sums);
    let newest = slot(sc + 1);
    move_within(words, COUNTERS, KEPT_ROWS + ROW * newest, ROW);
    move_within(
        ledger.sums,
        WAITING_AMOUNTS,
        KEPT_AMOUNTS + AMOUNTS * newest,
        AMOUNTS,
    );
}

// The first place of a key in a list of keys.
fn find(keys: &[u32], key: u32) -> Option<usize>
    ensures place { result ≡ position (eqb key) keys.now }
    ensures bound { IfSome result (λ i. i < length keys.now) }
{
    keys.iter().position(|written| key == *written)
}

// What a version put at a key, if it wrote it. Rows and amounts come side by side: the amounts are read here, and written where a commit is folded in.
#[tactic(auto, using(crate::specs::Places::put_nothing, crate::specs::Places::put_value))]
fn value_put(kept: Kept<'_>, sums: Sums<'_>, version: u32, key: u32) -> Option<i64>
    requires from_first { 1 ≤ version }
    requires up_to_sc { version ≤ kept.sc }
    requires among_the_newest { kept.sc < version + 64 }
    ensures { result ≡ given (put_at key (commit_at kept.entry.book.words.now sums.entry.amounts.now version).writes) }
{
    let place = find(kept.row(version).keys().list, key)?;
    Some(sums.amounts[KEPT_AMOUNTS + AMOUNTS * slot(version) + place])
}

// "the value of the newest version that is at most st": the kept rows are looked at from version st down to the floor, which is "SC - 64, or 0 if SC is smaller".
#[tactic(auto, using(crate::specs::Reading::read_start, crate::specs::Reading::read_hit, crate::specs::Reading::read_miss, crate::specs::Reading::read_end))]
pub fn read_at(kept: Kept<'_>, sums: Sums<'_>, key: u32, st: u32) -> i64
    requires key_bound { key < 1024 }
    requires st_le_sc { st ≤ kept.sc }
    requires sc_bound { kept.sc ≤ st + 64 }
    ensures { result ≡ read_at key st (books_view kept.entry.sc kept.entry.book.words.now sums.entry.amounts.now) }
{
    let floor = kept.sc.saturating_sub(VERSIONS);
    // a `find_map` over the versions was tried, and the proof of what it returns did not close
    for version in (floor + 1..=st).rev() {
        if let Some(value) = value_put(kept, sums, version, key) {
            return value;
        }
    }
    sums.amounts[key as usize]
}
