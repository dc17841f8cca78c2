// The operations on tables that the caller may have looked at before: where it found a sound state in them, they aren't looked at again. What each gives is what the public
// operation gives, which never trusts its caller.
ghost use Rattle.std.specs.Prelude.{◌≡◌, true};
ghost use Rattle.rules.specs.Soundness.{sound};
ghost use Rattle.tables.specs.View.{view};
ghost use Rattle.masks.specs.Ballots.{says_yes};
ghost use Rattle.engine.specs.Operations.{left, delivering, voting, changing, reading};

use crate::{Delivered, Reading, taking};
use masks::{Ballot, Partition};
use refusing::Refusal;
use tables::{Book, Kept, Ledger, Lent, Sums, Transaction};

pub fn deliver(
    t: Transaction<'_>,
    book: &mut [u32],
    sums: &mut [i64],
    finishes: &mut [u32],
    looked: bool,
) -> Result<Delivered, Refusal>
    requires { looked ≡ true → sound (view book.old sums.old) ≡ true }
    ensures { left result book.new sums.new finishes.new ≡ delivering t.entry.identity t.entry.set t.entry.st t.entry.reads.now t.entry.keys.now t.entry.amounts.now book.old sums.old finishes.old }
{
    refusing::check_delivery(t, Lent { book, sums, looked }, finishes.len())?;
    let mut ledger = Ledger { book, sums };
    Ok(taking::take_delivery(t, &mut ledger, finishes))
}

pub fn vote(
    identity: u32,
    partition: u32,
    ballot: Ballot,
    book: &mut [u32],
    sums: &mut [i64],
    finishes: &mut [u32],
    looked: bool,
) -> Result<u32, Refusal>
    requires { looked ≡ true → sound (view book.old sums.old) ≡ true }
    ensures { left result book.new sums.new finishes.new ≡ voting identity partition (says_yes ballot) book.old sums.old finishes.old }
{
    let i = refusing::check_vote(
        identity,
        partition,
        Lent { book, sums, looked },
        finishes.len(),
    )?;
    let from = Partition { number: partition };
    let mut ledger = Ledger { book, sums };
    Ok(taking::take_vote(i, from, ballot, &mut ledger, finishes))
}

pub fn change(
    k: u32,
    book: &mut [u32],
    sums: &mut [i64],
    finishes: &mut [u32],
    looked: bool,
) -> Result<u32, Refusal>
    requires { looked ≡ true → sound (view book.old sums.old) ≡ true }
    ensures { left result book.new sums.new finishes.new ≡ changing k book.old sums.old finishes.old }
{
    refusing::check_change(k, Lent { book, sums, looked }, finishes.len())?;
    let mut ledger = Ledger { book, sums };
    Ok(taking::take_change(k, &mut ledger, finishes))
}

pub fn read(key: u32, st: Option<u32>, book: &[u32], sums: &[i64], looked: bool) -> Reading
    requires { looked ≡ true → sound (view book.now sums.now) ≡ true }
    ensures { result ≡ reading key st book.now sums.now }
{
    match refusing::check_read(key, st, Lent { book, sums, looked }) {
        Err(refusal) => Reading::Refused(refusal),
        Ok(version) => {
            let book = Book { words: book };
            let kept = Kept {
                book,
                sc: book.sc(),
            };
            let sums = Sums { amounts: sums };
            Reading::Value(keeping::read_at(kept, sums, key, version), version)
        }
    }
}
