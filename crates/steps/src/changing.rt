// The steps that change a ledger. Each answers false, or none, where what it is given is not what the step asks.
ghost use Rattle.std.specs.Prelude.{◌≡◌};

use crate::checked;
use closing::{Clock, Tally};
use masks::{Ballot, Partition};
use tables::{Ledger, Transaction};

// A transaction is laid in at a place, and counted.
pub fn join(ledger: &mut Ledger<'_>, place: usize, rt: u32, t: Transaction<'_>) -> bool
    ensures same_book { ledger.new.book.ghost_name ≡ ledger.old.book.ghost_name }
    ensures same_sums { ledger.new.sums.ghost_name ≡ ledger.old.sums.ghost_name }
{
    if 8 < t.reads.len() || 8 < t.keys.len() || t.amounts.len() != t.keys.len() {
        return false;
    }
    let c = Clock::of(ledger.as_book());
    let tally = Tally::of(ledger.as_book());
    if 31 < tally.waiting || place > tally.waiting as usize || 1000 < c.dc {
        return false;
    }
    joining::join(ledger, tally.waiting as usize, place, rt, t);
    joining::store_counters(ledger.book, tally.sc, c.dc + 1, c.k, tally.waiting + 1);
    true
}

// The counter of deliveries goes on.
pub fn raise_dc(ledger: &mut Ledger<'_>, dc: u32)
    ensures same_book { ledger.new.book.ghost_name ≡ ledger.old.book.ghost_name }
    ensures same_sums { ledger.new.sums.ghost_name ≡ ledger.old.sums.ghost_name }
{
    let c = Clock::of(ledger.as_book());
    let tally = Tally::of(ledger.as_book());
    joining::store_counters(ledger.book, tally.sc, dc, c.k, tally.waiting);
}

// A vote is stored in row i.
pub fn hear(ledger: &mut Ledger<'_>, i: usize, from: Partition, ballot: Ballot) -> bool
    ensures same_book { ledger.new.book.ghost_name ≡ ledger.old.book.ghost_name }
    ensures same_sums { ledger.new.sums.ghost_name ≡ ledger.old.sums.ghost_name }
{
    if 31 < i {
        return false;
    }
    let words = &mut *ledger.book;
    if 255 < words[6 + 24 * i + 4] || 255 < words[6 + 24 * i + 5] {
        return false;
    }
    joining::store_vote(words, i, from, ballot);
    true
}

// Closing, from a sound state on: how many finishes were written.
pub fn settle(ledger: &mut Ledger<'_>, finishes: &mut [u32]) -> Option<u32>
    ensures same_book { ledger.new.book.ghost_name ≡ ledger.old.book.ghost_name }
    ensures same_sums { ledger.new.sums.ghost_name ≡ ledger.old.sums.ghost_name }
{
    if finishes.len() < 64 {
        return None;
    }
    let words = &mut *ledger.book;
    let amounts = &mut *ledger.sums;
    let checked = checked::check(words, amounts)?;
    let c = Clock::of(checked.book);
    let tally = Tally::of(checked.book);
    Some(closing::settle(c, tally, ledger, finishes))
}
