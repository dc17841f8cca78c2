// Rows, whatever stands in them; rows whose keys are known to be good; and the two lists of those that a sound state holds.
ghost use Rattle.std.specs.Prelude.{◌≤◌, ◌<◌, ◌+◌, ◌≡◌, length, get_or};
ghost use Rattle.tables.specs.Rows.{row_reads, row_keys};
ghost use Rattle.tables.specs.View.{waiting_words, kept_words};
ghost use Rattle.tables.specs.Good.{GoodRow, WaitingGood, KeptGood};

use crate::{Book, READ_KEYS, WRITTEN_KEYS};
use keys::Keys;

// A row of 24 words, whatever stands in them: identity, partition set, st, rt, who said yes, who said no, how many keys read, how many written; 8 keys
// read; 8 keys written.
#[derive(Clone, Copy)]
pub struct Row<'a> {
    pub words: &'a [u32],
    pub ghost whole: { length words.now ≡ 24 },
}

// The words by their names: a function for each, since a name says more than a place.
impl Row<'_> {
    pub fn identity(self) -> u32
        ensures { result ≡ get_or self.entry.words.now 0 0 }
    {
        self.words[0]
    }

    // Its partition set.
    pub fn set(self) -> u32
        ensures { result ≡ get_or self.entry.words.now 1 0 }
    {
        self.words[1]
    }

    pub fn rt(self) -> u32
        ensures { result ≡ get_or self.entry.words.now 3 0 }
    {
        self.words[3]
    }

    // Who said yes.
    pub fn ayes(self) -> u32
        ensures { result ≡ get_or self.entry.words.now 4 0 }
    {
        self.words[4]
    }

    // Who said no.
    pub fn nays(self) -> u32
        ensures { result ≡ get_or self.entry.words.now 5 0 }
    {
        self.words[5]
    }

    // How many keys it read.
    pub fn read_count(self) -> u32
        ensures { result ≡ get_or self.entry.words.now 6 0 }
    {
        self.words[6]
    }

    // How many keys it writes.
    pub fn written_count(self) -> u32
        ensures { result ≡ get_or self.entry.words.now 7 0 }
    {
        self.words[7]
    }
}

// A row whose two sets of keys are known to be good.
#[derive(Clone, Copy)]
pub struct SoundRow<'a> {
    pub row: Row<'a>,
    pub ghost good: { GoodRow row.words.now },
}

impl<'a> SoundRow<'a> {
    // The keys that it read.
    #[tactic(auto, using(crate::specs::Good::reads_taken, crate::specs::Good::reads_of_row_ascend))]
    pub fn reads(self) -> Keys<'a>
        ensures { result.list.now ≡ row_reads self.entry.row.words.now }
    {
        let count = self.row.read_count() as usize;
        Keys {
            list: &self.row.words[READ_KEYS..READ_KEYS + count],
        }
    }

    // The keys that it writes: a function of its own beside `reads`, since one of both places would need to be told which, and promise both.
    #[tactic(auto, using(crate::specs::Good::keys_taken, crate::specs::Good::keys_of_row_ascend))]
    pub fn keys(self) -> Keys<'a>
        ensures { result.list.now ≡ row_keys self.entry.row.words.now }
    {
        let count = self.row.written_count() as usize;
        Keys {
            list: &self.row.words[WRITTEN_KEYS..WRITTEN_KEYS + count],
        }
    }
}

// So many rows wait, and each is good.
#[derive(Clone, Copy)]
pub struct Waiting<'a> {
    pub book: Book<'a>,
    pub count: usize,
    pub ghost few: { count ≤ 32 },
    pub ghost good: { WaitingGood count book.words.now },
}

impl<'a> Waiting<'a> {
    pub fn row(self, i: usize) -> SoundRow<'a>
        requires { i < self.count }
        ensures { result.row.words.now ≡ waiting_words self.entry.book.words.now i }
    {
        SoundRow {
            row: self.book.waiting_row(i),
        }
    }
}

// The rows of the newest 64 versions up to SC, each good.
#[derive(Clone, Copy)]
pub struct Kept<'a> {
    pub book: Book<'a>,
    pub sc: u32,
    pub ghost good: { KeptGood sc book.words.now },
}

impl<'a> Kept<'a> {
    pub fn row(self, version: u32) -> SoundRow<'a>
        requires from_first { 1 ≤ version }
        requires up_to_sc { version ≤ self.sc }
        requires among_the_newest { self.sc < version + 64 }
        ensures { result.row.words.now ≡ kept_words self.entry.book.words.now version }
    {
        SoundRow {
            row: self.book.kept_row(version),
        }
    }
}
