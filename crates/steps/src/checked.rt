// Tables that hold a sound state, to read: what the steps that look at rows go by.
ghost use Rattle.std.specs.Prelude.{◌≡◌, IfSome, get_or};
ghost use Rattle.tables.specs.Layout.{sc_at};
ghost use Rattle.checking.specs.SoundTables.{SoundTables};

use certifying::Newcomer;
use masks::Partition;
use tables::{BOOK, Book, Kept, SUMS, Sums, VERSIONS, Waiting};

#[derive(Clone, Copy)]
pub struct Checked<'a> {
    pub book: Book<'a>,
    pub sums: Sums<'a>,
    pub ghost sound: { SoundTables book.words.now sums.amounts.now },
}

// Does a newcomer clash, where it is local, and where it is global.
#[derive(Clone, Copy, Debug)]
pub struct Clash {
    pub as_local: bool,
    pub as_global: bool,
}

// Tables of any length with anything in them: they may hold no sound state.
pub fn check<'a>(words: &'a [u32], amounts: &'a [i64]) -> Option<Checked<'a>>
    ensures { IfSome result (λ c. (c.book.words.now ≡ words.now) × (c.sums.amounts.now ≡ amounts.now)) }
{
    if words.len() < BOOK || amounts.len() < SUMS {
        return None;
    }
    let book = Book { words };
    let sums = Sums { amounts };
    if !checking::is_sound(book, sums) {
        return None;
    }
    Some(Checked { book, sums })
}

impl<'a> Checked<'a> {
    fn waiting(self) -> Waiting<'a> {
        Waiting {
            book: self.book,
            count: self.book.waiting() as usize,
        }
    }

    fn kept(self) -> Kept<'a>
        ensures book { result.book.words.now ≡ self.entry.book.words.now }
        ensures sc { result.sc ≡ get_or self.entry.book.words.now sc_at 0 }
    {
        Kept {
            book: self.book,
            sc: self.book.sc(),
        }
    }

    // Where a local newcomer may stand.
    pub fn place(self, newcomer: Newcomer<'_, '_>) -> Option<usize> {
        let own = Partition {
            number: self.book.own(),
        };
        certifying::earliest_place(self.waiting(), own, self.book.dc(), newcomer)
    }

    // One of those that wait clashes.
    pub fn clashes_with_waiting(self, newcomer: Newcomer<'_, '_>) -> Clash {
        Clash {
            as_local: certifying::clashes_with_waiting(self.waiting(), newcomer, false),
            as_global: certifying::clashes_with_waiting(self.waiting(), newcomer, true),
        }
    }

    // One of the commits since a snapshot clashes; nothing is said of a snapshot that isn't kept.
    pub fn clashes_with_commits(self, st: u32, newcomer: Newcomer<'_, '_>) -> Option<Clash> {
        let sc = self.book.sc();
        if sc < st || VERSIONS < sc - st {
            return None;
        }
        Some(Clash {
            as_local: certifying::clashes_with_commits(self.kept(), st, newcomer, false),
            as_global: certifying::clashes_with_commits(self.kept(), st, newcomer, true),
        })
    }

    // The value of a key at a snapshot that is kept.
    pub fn read(self, key: u32, st: u32) -> Option<i64> {
        let sc = self.book.sc();
        if 1023 < key || sc < st || VERSIONS < sc - st {
            return None;
        }
        Some(keeping::read_at(self.kept(), self.sums, key, st))
    }
}
