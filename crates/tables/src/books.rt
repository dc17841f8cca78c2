// The words of a ledger: six counters, then the rows of the waiting list, then the kept rows; and its amounts.
ghost use Rattle.std.specs.Prelude.{◌≤◌, ◌<◌, ◌≡◌, length, get_or};
ghost use Rattle.tables.specs.Layout.{book_words, sums_words, partitions_at, own_at, sc_at, dc_at, k_at, waiting_at};
ghost use Rattle.tables.specs.View.{waiting_words, kept_words};

use crate::{COUNTERS, KEPT_ROWS, ROW, Row, Sizes, VERSIONS};

// Words that are long enough for every counter and row, whatever stands in them.
#[derive(Clone, Copy)]
pub struct Book<'a> {
    pub words: &'a [u32],
    pub ghost long: { book_words ≤ length words.now },
}

// The counters by their names: a function for each, since a name says more than a place.
impl<'a> Book<'a> {
    // How many partitions were opened.
    pub fn partitions(self) -> u32
        ensures { result ≡ get_or self.entry.words.now partitions_at 0 }
    {
        self.words[0]
    }

    // Our own partition.
    pub fn own(self) -> u32
        ensures { result ≡ get_or self.entry.words.now own_at 0 }
    {
        self.words[1]
    }

    pub fn sc(self) -> u32
        ensures { result ≡ get_or self.entry.words.now sc_at 0 }
    {
        self.words[2]
    }

    pub fn dc(self) -> u32
        ensures { result ≡ get_or self.entry.words.now dc_at 0 }
    {
        self.words[3]
    }

    pub fn k(self) -> u32
        ensures { result ≡ get_or self.entry.words.now k_at 0 }
    {
        self.words[4]
    }

    pub fn sizes(self) -> Sizes
        ensures partitions { result.partitions ≡ get_or self.entry.words.now partitions_at 0 }
        ensures own { result.own ≡ get_or self.entry.words.now own_at 0 }
        ensures k { result.k ≡ get_or self.entry.words.now k_at 0 }
    {
        Sizes {
            partitions: self.partitions(),
            own: self.own(),
            k: self.k(),
        }
    }

    // How many wait.
    pub fn waiting(self) -> u32
        ensures { result ≡ get_or self.entry.words.now waiting_at 0 }
    {
        self.words[5]
    }

    // Row i of the waiting list.
    #[tactic(auto, using(laws::specs::Cuts::part_cut), unfolding(crate::specs::View::waiting_words))]
    pub fn waiting_row(self, i: usize) -> Row<'a>
        requires { i < 32 }
        ensures { result.words.now ≡ waiting_words self.entry.words.now i }
    {
        let at = COUNTERS + ROW * i;
        Row {
            words: &self.words[at..at + ROW],
        }
    }

    // The row that keeps a version: one of 64.
    #[tactic(auto, using(laws::specs::Cuts::part_cut), unfolding(crate::specs::View::kept_words))]
    pub fn kept_row(self, version: u32) -> Row<'a>
        ensures { result.words.now ≡ kept_words self.entry.words.now version }
    {
        let at = KEPT_ROWS + ROW * (version % VERSIONS) as usize;
        Row {
            words: &self.words[at..at + ROW],
        }
    }
}

// Amounts that are long enough for every value and row.
#[derive(Clone, Copy)]
pub struct Sums<'a> {
    pub amounts: &'a [i64],
    pub ghost long: { sums_words ≤ length amounts.now },
}
