// Closing: while the head of the waiting list is ready it is taken off, and the next head is looked at.
#![tactic(auto)]

mod head;

ghost use Rattle.std.specs.Prelude.{◌-◌, ◌≡◌, get_or};
ghost use Rattle.tables.specs.Closed.{Desk, Fit, head_off};
ghost use Rattle.tables.specs.Settled.{Ready, closed_desk, settled_book};
ghost use Rattle.tables.specs.Layout.{sc_at, waiting_at};
ghost use Rattle.tables.specs.View.{clock_view};
ghost use Rattle.closing.specs.Desks.{clock_of, desk_of};

use head::Head;
use masks::Partition;
use tables::{Book, Ledger};

// The counters that a delivery and a change touch, and the sizes at opening. Clock and tally are two structs by who changes them: closing changes the
// tally alone.
#[derive(Clone, Copy)]
pub struct Clock {
    pub partitions: u32,
    pub own: u32,
    pub dc: u32,
    pub k: u32,
}

impl Clock {
    // The clock that a book holds.
    #[tactic(auto, unfolding(tables::specs::View::clock_view))]
    pub fn of(book: Book<'_>) -> Clock
        ensures { clock_of result ≡ clock_view book.entry.words.now }
    {
        Clock {
            partitions: book.partitions(),
            own: book.own(),
            dc: book.dc(),
            k: book.k(),
        }
    }
}

// What closing changes beside the tables: SC, how many wait, how many finishes were written.
#[derive(Clone, Copy)]
pub struct Tally {
    pub sc: u32,
    pub waiting: u32,
    pub finished: u32,
}

impl Tally {
    // The tally that a book holds: nothing is finished yet.
    pub fn of(book: Book<'_>) -> Tally
        ensures sc { result.sc ≡ get_or book.entry.words.now sc_at 0 }
        ensures waiting { result.waiting ≡ get_or book.entry.words.now waiting_at 0 }
        ensures none_finished { result.finished ≡ 0 }
    {
        Tally {
            sc: book.sc(),
            waiting: book.waiting(),
            finished: 0,
        }
    }
}

// The head goes: it commits or aborts, and its finish is told. What closing works on is no struct of four, here
// and below: nested in one, a ledger is lost to the proofs of those who lent it; and opening and reading have no finish list that a ledger could hold.
#[tactic(auto, using(crate::specs::Off::left_committed, crate::specs::Off::left_aborted))]
fn take_head(c: Clock, t: Tally, ledger: &mut Ledger<'_>, finishes: &mut [u32]) -> Tally
    requires fit { Fit (clock_of c) (desk_of t ledger.old.book.now ledger.old.sums.now finishes.old) }
    requires some_wait { t.waiting ≡ 0 → ⊥ }
    ensures same_book { ledger.new.book.ghost_name ≡ ledger.old.book.ghost_name }
    ensures same_sums { ledger.new.sums.ghost_name ≡ ledger.old.sums.ghost_name }
    ensures after { desk_of result ledger.new.book.now ledger.new.sums.now finishes.new ≡ head_off (clock_of c) (t.waiting - 1) (desk_of t ledger.old.book.now ledger.old.sums.now finishes.old) }
{
    let head = Head {
        row: ledger.as_book().waiting_row(0),
        own: Partition { number: c.own },
    };
    let identity = head.row.identity();
    let told = t.finished as usize;
    let left = t.waiting - 1;
    let next = Tally {
        waiting: left,
        finished: t.finished + 1,
        ..t
    };
    if head.is_commit() {
        let version = t.sc + 1;
        joining::tell(finishes, told, identity, Some(version));
        keeping::keep(ledger, t.sc);
        joining::take_off(ledger, left as usize);
        return Tally {
            sc: version,
            ..next
        };
    }
    joining::tell(finishes, told, identity, None);
    joining::take_off(ledger, left as usize);
    next
}

// "while the head of the list is ready it is taken off, and the next head is looked at": closing calls itself on the list without its head.
#[tactic(auto, using(crate::specs::Off::closed_none, crate::specs::Off::closed_rest, crate::specs::Off::closed_more))]
pub fn close(c: Clock, t: Tally, ledger: &mut Ledger<'_>, finishes: &mut [u32]) -> Tally
    requires { Fit (clock_of c) (desk_of t ledger.old.book.now ledger.old.sums.now finishes.old) }
    ensures same_book { ledger.new.book.ghost_name ≡ ledger.old.book.ghost_name }
    ensures same_sums { ledger.new.sums.ghost_name ≡ ledger.old.sums.ghost_name }
    ensures after { desk_of result ledger.new.book.now ledger.new.sums.now finishes.new ≡ closed_desk (clock_of c) (desk_of t ledger.old.book.now ledger.old.sums.now finishes.old) }
{
    if t.waiting == 0 {
        return t;
    }
    let head = Head {
        row: ledger.as_book().waiting_row(0),
        own: Partition { number: c.own },
    };
    if !head.is_ready(c.dc) {
        return t;
    }
    let next = take_head(c, t, ledger, finishes);
    close(c, next, ledger, finishes)
}

// Closing, and the counters stored: how many finishes were written.
pub fn settle(c: Clock, t: Tally, ledger: &mut Ledger<'_>, finishes: &mut [u32]) -> u32
    requires { Ready (clock_of c) (desk_of t ledger.old.book.now ledger.old.sums.now finishes.old) }
    ensures same_book { ledger.new.book.ghost_name ≡ ledger.old.book.ghost_name }
    ensures same_sums { ledger.new.sums.ghost_name ≡ ledger.old.sums.ghost_name }
    ensures value { result ≡ (closed_desk (clock_of c) (desk_of t ledger.old.book.now ledger.old.sums.now finishes.old)).finished }
    ensures book_after { ledger.new.book.now ≡ settled_book (clock_of c) (desk_of t ledger.old.book.now ledger.old.sums.now finishes.old) }
    ensures sums_after { ledger.new.sums.now ≡ (closed_desk (clock_of c) (desk_of t ledger.old.book.now ledger.old.sums.now finishes.old)).sums }
    ensures finishes_after { finishes.new ≡ (closed_desk (clock_of c) (desk_of t ledger.old.book.now ledger.old.sums.now finishes.old)).finishes }
{
    let closed = close(c, t, ledger, finishes);
    joining::store_counters(ledger.book, closed.sc, c.dc, c.k, closed.waiting);
    closed.finished
}
