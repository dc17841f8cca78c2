// What is lent: the two tables of a ledger, and a transaction that is delivered.
ghost use Rattle.std.specs.Prelude.{◌≤◌, ◌≡◌, true, length};
ghost use Rattle.rules.specs.Soundness.{sound};
ghost use Rattle.tables.specs.Layout.{book_words, sums_words};
ghost use Rattle.tables.specs.View.{view};

use crate::Book;

// What an engine is opened with: so many partitions, our own one of them, and the threshold k.
#[derive(Clone, Copy)]
pub struct Sizes {
    pub partitions: u32,
    pub own: u32,
    pub k: u32,
}

// Two tables to read, of any length and with anything in them. Who has looked at them already, and found a sound state there, says so: they aren't looked at again.
#[derive(Clone, Copy)]
pub struct Lent<'a> {
    pub book: &'a [u32],
    pub sums: &'a [i64],
    pub looked: bool,
    pub ghost found: { looked ≡ true → sound (view book.now sums.now) ≡ true },
}

// Two tables to change, long enough for a state. Whoever takes it promises that it still lends the same two (`same_book`, `same_sums`): only so do callers know what
// became of what they lent.
#[derive(Drop)]
pub struct Ledger<'a> {
    pub book: &'a mut [u32],
    pub sums: &'a mut [i64],
    pub ghost long: { book_words ≤ length book.now },
    pub ghost long_sums: { sums_words ≤ length sums.now },
}

impl Ledger<'_> {
    // Its book, to read.
    pub fn as_book(&self) -> Book<'_>
        ensures { result.words.now ≡ self.now.book.now }
    {
        Book { words: self.book }
    }
}

// A transaction as it is delivered: the keys read, the keys written, and an amount for each key written.
// Keys and amounts stand side by side, as C lends them, and in no list of pairs: lists of different lengths are refused.
#[derive(Clone, Copy)]
pub struct Transaction<'a> {
    pub identity: u32,
    pub set: u32,
    pub st: u32,
    pub reads: &'a [u32],
    pub keys: &'a [u32],
    pub amounts: &'a [i64],
}
