// What becomes of a newcomer: the three numbered rules in their order.
ghost use Rattle.std.specs.Prelude.{◌≡◌, get_or};
ghost use Rattle.rules.specs.Place.{place};
ghost use Rattle.rules.specs.Delivery.{placed};
ghost use Rattle.laws.specs.Tabs.{tab};
ghost use Rattle.tables.specs.Layout.{own_at, sc_at, waiting_at};
ghost use Rattle.tables.specs.View.{waiting_words};
ghost use Rattle.tables.specs.Tested.{row_blocks, row_passes};
ghost use Rattle.tables.specs.Judged.{row_fate};
ghost use Rattle.engine.specs.Fates.{fate_of};
ghost use Rattle.engine.specs.Judging.{Judgeable};

use crate::Reason;
use certifying::Newcomer;
use masks::Partition;
use tables::{Book, Kept, Transaction, Waiting};

// "A local one takes the smallest place i [..] If none exists: aborted, reason 3."
fn place_local(
    waiting: Waiting<'_>,
    own: Partition,
    dc: u32,
    newcomer: Newcomer<'_, '_>,
) -> Result<usize, Reason>
    ensures { result ≡ fate_of (placed (place (row_blocks newcomer.entry.reads.list.now) (row_passes own.number dc newcomer.entry.keys.list.now) (tab waiting.entry.count (waiting_words waiting.entry.book.words.now)))) }
{
    certifying::earliest_place(waiting, own, dc, newcomer).ok_or(Reason::NoPlace)
}

// The place that a newcomer takes among those that wait, or why it is aborted.
pub fn judge(
    book: Book<'_>,
    dc: u32,
    t: Transaction<'_>,
    newcomer: Newcomer<'_, '_>,
) -> Result<usize, Reason>
    requires { Judgeable (get_or book.words.now own_at 0) (get_or book.words.now sc_at 0) (get_or book.words.now waiting_at 0) t.st book.words.now }
    ensures { result ≡ fate_of (row_fate (get_or book.entry.words.now own_at 0) dc (get_or book.entry.words.now sc_at 0) (get_or book.entry.words.now waiting_at 0) t.entry.set t.entry.st newcomer.entry.reads.list.now newcomer.entry.keys.list.now book.entry.words.now) }
{
    let own = Partition { number: book.own() };
    let kept = Kept {
        book,
        sc: book.sc(),
    };
    let waiting = Waiting {
        book,
        count: book.waiting() as usize,
    };
    let local = masks::is_local(t.set, own);
    if certifying::clashes_with_commits(kept, t.st, newcomer, !local) {
        return Err(Reason::Commit);
    }
    if local {
        return place_local(waiting, own, dc, newcomer);
    }
    if certifying::clashes_with_waiting(waiting, newcomer, true) {
        return Err(Reason::Waiting);
    }
    Ok(waiting.count)
}
