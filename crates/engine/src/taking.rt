// The operations once nothing refuses them.
ghost use Rattle.std.specs.Prelude.{◌≡◌, eqb, Ok, is_ok};
ghost use Rattle.rules.specs.Partitions.{only};
ghost use Rattle.rules.specs.Events.{with_k};
ghost use Rattle.tables.specs.View.{clock_view};
ghost use Rattle.tables.specs.Settled.{Ready};
ghost use Rattle.closing.specs.Desks.{clock_of, desk_of};
ghost use Rattle.engine.specs.Operations.{left, delivered_on};
ghost use Rattle.engine.specs.Delivering.{Accepting, delivered_result};
ghost use Rattle.masks.specs.Ballots.{says_yes};
ghost use Rattle.engine.specs.Fates.{send_if};
ghost use Rattle.engine.specs.Voting.{desk_before, voted_desk, settled_result};
ghost use Rattle.engine.specs.Storing.{Votable};

use crate::{Delivered, Reason, judging};
use certifying::Newcomer;
use closing::{Clock, Tally};
use keys::Keys;
use masks::{Ballot, Partition};
use tables::{Ledger, Transaction};

// The vote to send: none for a local transaction, else yes where it joins.
fn vote_for(set: u32, own: Partition, fate: Result<u32, Reason>) -> Option<Ballot>
    ensures { result ≡ send_if (eqb set (only own.number)) (is_ok fate) }
{
    if masks::is_local(set, own) {
        return None;
    }
    match fate {
        Ok(_) => Some(Ballot::Yes),
        Err(_) => Some(Ballot::No),
    }
}

// A delivery whose fate is known: closing. Clock, tally, ledger and list are closing's own four (see there); set and fate go with them nowhere else.
fn settle_delivery(
    c: Clock,
    t: Tally,
    set: u32,
    fate: Result<u32, Reason>,
    ledger: &mut Ledger<'_>,
    finishes: &mut [u32],
) -> Delivered
    requires { Ready (clock_of c) (desk_of t ledger.old.book.now ledger.old.sums.now finishes.old) }
    ensures same_book { ledger.new.book.ghost_name ≡ ledger.old.book.ghost_name }
    ensures same_sums { ledger.new.sums.ghost_name ≡ ledger.old.sums.ghost_name }
    ensures after { left (Ok result) ledger.new.book.now ledger.new.sums.now finishes.new ≡ delivered_result (clock_of c) set fate (desk_of t ledger.old.book.now ledger.old.sums.now finishes.old) }
{
    let own = Partition { number: c.own };
    let send = vote_for(set, own, fate);
    let told = closing::settle(c, t, ledger, finishes);
    Delivered {
        dc: c.dc,
        fate,
        send,
        finishes: told,
    }
}

// A delivery that nothing refuses.
pub fn take_delivery(t: Transaction<'_>, ledger: &mut Ledger<'_>, finishes: &mut [u32]) -> Delivered
    requires { Accepting t.identity t.set t.st t.reads.now t.keys.now t.amounts.now ledger.old.book.now ledger.old.sums.now finishes.old }
    ensures same_book { ledger.new.book.ghost_name ≡ ledger.old.book.ghost_name }
    ensures same_sums { ledger.new.sums.ghost_name ≡ ledger.old.sums.ghost_name }
    ensures after { left (Ok result) ledger.new.book.now ledger.new.sums.now finishes.new ≡ delivered_on t.entry.identity t.entry.set t.entry.st t.entry.reads.now t.entry.keys.now t.entry.amounts.now ledger.old.book.now ledger.old.sums.now finishes.old }
{
    let book = ledger.as_book();
    let before = Clock::of(book);
    let c = Clock {
        dc: before.dc + 1,
        ..before
    };
    let tally = Tally::of(book);
    let newcomer = Newcomer {
        reads: Keys { list: t.reads },
        keys: Keys { list: t.keys },
    };
    match judging::judge(book, c.dc, t, newcomer) {
        Err(reason) => settle_delivery(c, tally, t.set, Err(reason), ledger, finishes),
        Ok(i) => {
            joining::join(ledger, tally.waiting as usize, i, c.dc + c.k, t);
            let joined = Tally {
                waiting: tally.waiting + 1,
                ..tally
            };
            settle_delivery(c, joined, t.set, Ok(i as u32), ledger, finishes)
        }
    }
}

// A vote that nothing refuses, on the entry of row i: how many finishes were written. Row, partition and ballot are handed on as they came.
pub fn take_vote(
    i: usize,
    from: Partition,
    ballot: Ballot,
    ledger: &mut Ledger<'_>,
    finishes: &mut [u32],
) -> u32
    requires { Votable i from.number (says_yes ballot) ledger.old.book.now ledger.old.sums.now finishes.old }
    ensures same_book { ledger.new.book.ghost_name ≡ ledger.old.book.ghost_name }
    ensures same_sums { ledger.new.sums.ghost_name ≡ ledger.old.sums.ghost_name }
    ensures after { left (Ok result) ledger.new.book.now ledger.new.sums.now finishes.new ≡ settled_result (clock_view ledger.old.book.now) (voted_desk i from.number (says_yes ballot) ledger.old.book.now ledger.old.sums.now finishes.old) }
{
    let c = Clock::of(ledger.as_book());
    let tally = Tally::of(ledger.as_book());
    joining::store_vote(ledger.book, i, from, ballot);
    closing::settle(c, tally, ledger, finishes)
}

// A change that nothing refuses: how many finishes were written.
pub fn take_change(k: u32, ledger: &mut Ledger<'_>, finishes: &mut [u32]) -> u32
    requires { Ready (with_k k (clock_view ledger.old.book.now)) (desk_before ledger.old.book.now ledger.old.sums.now finishes.old) }
    ensures same_book { ledger.new.book.ghost_name ≡ ledger.old.book.ghost_name }
    ensures same_sums { ledger.new.sums.ghost_name ≡ ledger.old.sums.ghost_name }
    ensures after { left (Ok result) ledger.new.book.now ledger.new.sums.now finishes.new ≡ settled_result (with_k k (clock_view ledger.old.book.now)) (desk_before ledger.old.book.now ledger.old.sums.now finishes.old) }
{
    let c = Clock {
        k,
        ..Clock::of(ledger.as_book())
    };
    let tally = Tally::of(ledger.as_book());
    closing::settle(c, tally, ledger, finishes)
}
