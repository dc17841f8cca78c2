// One event, answered: the operation on the lent tables, its own line, and a line for each finish.
ghost use Rattle.std.specs.Prelude.{ℕ, List, ◌≡◌, ◌≤◌, ◌+◌, true, length};
ghost use Rattle.rules.specs.Events.{delivery, vote, change, read};
ghost use Rattle.tables.specs.Voted.{ballot};
ghost use Rattle.masks.specs.Ballots.{says_yes};
ghost use Rattle.refusing.specs.Snapshots.{asked};
ghost use Rattle.engine.specs.Answers.{delivered_finishes, finishes_told};
ghost use Rattle.answers.specs.declared.TheConstants.{LONGEST};
ghost use Rattle.feed.specs.Answering.{Usable, Answered, memory, delivery_of};

use engine::{Delivered, Refusal, Transaction, looking};
use masks::Ballot;
use records::Delivery;

// How many finishes a delivery wrote.
fn finishes_of(answer: Result<Delivered, Refusal>) -> u32
    ensures { result ≡ delivered_finishes answer }
{
    match answer {
        Ok(taken) => taken.finishes,
        Err(_) => 0,
    }
}

// How many a vote or a change wrote.
fn count_of(answer: Result<u32, Refusal>) -> u32
    ensures { result ≡ finishes_told answer }
{
    match answer {
        Ok(finishes) => finishes,
        Err(_) => 0,
    }
}

// "Delivery."
pub fn answer_delivery(
    d: &Delivery,
    known: bool,
    book: &mut [u32],
    sums: &mut [i64],
    finishes: &mut [u32],
    out: &mut [u8],
    at: usize,
) -> usize
    requires known { known ≡ true → Usable book.old sums.old }
    requires list { length finishes.old ≡ 64 }
    requires room { at + LONGEST ≤ length out.old }
    ensures { Answered (delivery (delivery_of d.now)) (memory book.old sums.old finishes.old) (memory book.new sums.new finishes.new) out.old at out.new result }
{
    let t = Transaction {
        identity: d.identity,
        set: d.set,
        st: d.st,
        reads: d.reads(),
        keys: d.keys(),
        amounts: d.amounts(),
    };
    let answer = looking::deliver(t, book, sums, finishes, known);
    let behind = answers::write_delivered(out, at, d.identity, answer);
    answers::write_finishes(out, behind, finishes, finishes_of(answer))
}

// "Vote."
pub fn answer_vote(
    identity: u32,
    partition: u32,
    heard: Ballot,
    known: bool,
    book: &mut [u32],
    sums: &mut [i64],
    finishes: &mut [u32],
    out: &mut [u8],
    at: usize,
) -> usize
    requires known { known ≡ true → Usable book.old sums.old }
    requires list { length finishes.old ≡ 64 }
    requires room { at + LONGEST ≤ length out.old }
    ensures { Answered (vote identity partition (ballot (says_yes heard))) (memory book.old sums.old finishes.old) (memory book.new sums.new finishes.new) out.old at out.new result }
{
    let answer = looking::vote(identity, partition, heard, book, sums, finishes, known);
    let behind = answers::write_voted(out, at, identity, partition, answer);
    answers::write_finishes(out, behind, finishes, count_of(answer))
}

// "Threshold change."
pub fn answer_change(
    k: u32,
    known: bool,
    book: &mut [u32],
    sums: &mut [i64],
    finishes: &mut [u32],
    out: &mut [u8],
    at: usize,
) -> usize
    requires known { known ≡ true → Usable book.old sums.old }
    requires list { length finishes.old ≡ 64 }
    requires room { at + LONGEST ≤ length out.old }
    ensures { Answered (change k) (memory book.old sums.old finishes.old) (memory book.new sums.new finishes.new) out.old at out.new result }
{
    let answer = looking::change(k, book, sums, finishes, known);
    let behind = answers::write_changed(out, at, k, answer);
    answers::write_finishes(out, behind, finishes, count_of(answer))
}

// "Read."
pub fn answer_read(
    key: u32,
    st: Option<u32>,
    known: bool,
    book: &[u32],
    sums: &[i64],
    out: &mut [u8],
    at: usize,
) -> usize
    requires known { known ≡ true → Usable book.now sums.now }
    requires room { at + LONGEST ≤ length out.old }
    ensures { (fin : List ℕ) → Answered (read key (asked st)) (memory book.now sums.now fin) (memory book.now sums.now fin) out.old at out.new result }
{
    answers::write_reading(out, at, key, looking::read(key, st, book, sums, known))
}
