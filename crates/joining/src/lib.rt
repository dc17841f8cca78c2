// Rows in and out of the waiting list, the finish entry of a head that is taken off, the counters, and a vote stored. Each function says what the lent tables are afterwards.
#![tactic(auto)]

ghost use Rattle.std.specs.Prelude.{◌+◌, ◌*◌, ◌≤◌, ◌<◌, [], ◌∷◌, ◌≡◌, length, get_or, set};
ghost use Rattle.std.specs.Option.{unwrap_or};
ghost use Rattle.rules.specs.Partitions.{with_partition};
ghost use Rattle.laws.specs.Cuts.{put};
ghost use Rattle.masks.specs.Ballots.{says_yes};
ghost use Rattle.tables.specs.Layout.{book_words};
ghost use Rattle.tables.specs.NewRow.{first_words, with_row};
ghost use Rattle.tables.specs.Joined.{joined_book, joined_sums};
ghost use Rattle.tables.specs.TakenOff.{off_book, off_sums};
ghost use Rattle.tables.specs.Voted.{voted_book};

use masks::{Ballot, Partition};
use moves::{lay, move_within};
use tables::{
    AMOUNTS, COUNTERS, Ledger, READ_KEYS, ROW, Transaction, WAITING_AMOUNTS, WRITTEN_KEYS,
};

// A newcomer's row: the eight words, without votes, then the keys read, then the keys written.
#[tactic(auto, unfolding(tables::specs::NewRow::with_row))]
fn lay_row(book: &mut [u32], at: usize, rt: u32, t: Transaction<'_>)
    requires fits { at + 24 ≤ length book.old }
    requires few_reads { length t.reads.now ≤ 8 }
    requires few_keys { length t.keys.now ≤ 8 }
    ensures { book.new ≡ with_row book.old at (first_words t.entry.identity t.entry.set t.entry.st rt t.entry.reads.now t.entry.keys.now) t.entry.reads.now t.entry.keys.now }
{
    let reads = t.reads.len() as u32;
    let keys = t.keys.len() as u32;
    lay(book, at, &[t.identity, t.set, t.st, rt, 0, 0, reads, keys]);
    lay(book, at + READ_KEYS, t.reads);
    lay(book, at + WRITTEN_KEYS, t.keys);
}

// A newcomer joins the n that wait (the book's own counter is stored at the end, with the others), at place i (they meet nowhere else): the rows and amounts from there on move up by one.
#[tactic(auto, using(crate::specs::Stores::row_joined, crate::specs::Stores::sums_joined))]
pub fn join(ledger: &mut Ledger<'_>, n: usize, i: usize, rt: u32, t: Transaction<'_>)
    requires n_bound { n < 32 }
    requires i_le_n { i ≤ n }
    requires reads_len_bound { length t.reads.now ≤ 8 }
    requires keys_len_bound { length t.keys.now ≤ 8 }
    requires amounts_len { length t.amounts.now ≡ length t.keys.now }
    ensures same_book { ledger.new.book.ghost_name ≡ ledger.old.book.ghost_name }
    ensures same_sums { ledger.new.sums.ghost_name ≡ ledger.old.sums.ghost_name }
    ensures book_after { ledger.new.book.now ≡ joined_book ledger.old.book.now n i (first_words t.entry.identity t.entry.set t.entry.st rt t.entry.reads.now t.entry.keys.now) t.entry.reads.now t.entry.keys.now }
    ensures sums_after { ledger.new.sums.now ≡ joined_sums ledger.old.sums.now n i t.entry.amounts.now }
{
    let row = COUNTERS + ROW * i;
    let amounts = WAITING_AMOUNTS + AMOUNTS * i;
    move_within(ledger.book, row, row + ROW, ROW * (n - i));
    lay_row(ledger.book, row, rt, t);
    move_within(ledger.sums, amounts, amounts + AMOUNTS, AMOUNTS * (n - i));
    lay(ledger.sums, amounts, t.amounts);
}

// The head goes, and the n rows behind it move down by one; the book's own counter is stored at the end, with the others.
#[tactic(auto, unfolding(tables::specs::TakenOff::off_book, tables::specs::TakenOff::off_sums))]
pub fn take_off(ledger: &mut Ledger<'_>, n: usize)
    requires n_bound { n < 32 }
    ensures same_book { ledger.new.book.ghost_name ≡ ledger.old.book.ghost_name }
    ensures same_sums { ledger.new.sums.ghost_name ≡ ledger.old.sums.ghost_name }
    ensures book_after { ledger.new.book.now ≡ off_book ledger.old.book.now n }
    ensures sums_after { ledger.new.sums.now ≡ off_sums ledger.old.sums.now n }
{
    move_within(ledger.book, COUNTERS + ROW, COUNTERS, ROW * n);
    move_within(
        ledger.sums,
        WAITING_AMOUNTS + AMOUNTS,
        WAITING_AMOUNTS,
        AMOUNTS * n,
    );
}

// A finish entry behind the m that are written: identity, and version or 0 for an abort. Two words of a list that C lends, and no struct.
pub fn tell(finishes: &mut [u32], m: usize, identity: u32, version: Option<u32>)
    requires { 2 * m + 2 ≤ length finishes.old }
    ensures { finishes.new ≡ put finishes.old (2 * m) (identity ∷ unwrap_or version 0 ∷ []) }
{
    lay(finishes, 2 * m, &[identity, version.unwrap_or(0)]);
}

// The counters that an event changes: SC, DC, k, and how many wait; they go together nowhere else.
pub fn store_counters(book: &mut [u32], sc: u32, dc: u32, k: u32, waiting: u32)
    requires { book_words ≤ length book.old }
    ensures { book.new ≡ put book.old 2 (sc ∷ dc ∷ k ∷ waiting ∷ []) }
{
    lay(book, 2, &[sc, dc, k, waiting]);
}

// Partition p put into the set at a place.
fn add_voter(book: &mut [u32], at: usize, p: Partition)
    requires in_bounds { at < length book.old }
    requires is_byte { get_or book.old at 0 < 256 }
    ensures { book.new ≡ set book.old at (with_partition p.number (get_or book.old at 0)) }
{
    book[at] = u32::from(masks::with(book[at] as u8, p));
}

// "It is stored." Those who said yes stand in word 4 of the row, those who said no in word 5.
#[tactic(auto, using(crate::specs::Stores::aye_stored, crate::specs::Stores::nay_stored))]
pub fn store_vote(book: &mut [u32], i: usize, p: Partition, ballot: Ballot)
    requires book_words_in_bounds { book_words ≤ length book.old }
    requires i_bound { i < 32 }
    requires ayes_byte { get_or book.old (6 + 24 * i + 4) 0 < 256 }
    requires nays_byte { get_or book.old (6 + 24 * i + 5) 0 < 256 }
    ensures { book.new ≡ voted_book book.old i p.number (says_yes ballot) }
{
    let row = COUNTERS + ROW * i;
    match ballot {
        Ballot::Yes => add_voter(book, row + 4, p), // the ayes
        Ballot::No => add_voter(book, row + 5, p),
    }
}
