// The public operations on lent tables. None has a `requires`: any table, any number, any state gets an answer, and a refusal leaves every lent
// byte as it was. The tables come as slices, as C lends them too, of any length; a struct of
// `&mut` would be taken apart again, or lost to the proofs (see `Ledger`).
#![tactic(auto)]

mod answers;
mod judging;
pub mod looking;
mod taking;

ghost use Rattle.std.specs.Prelude.{[], ◌≡◌};
ghost use Rattle.masks.specs.Ballots.{says_yes};
ghost use Rattle.engine.specs.Operations.{left, delivering, voting, changing, reading, opened};

pub use answers::{Delivered, Reading, Reason};
pub use masks::Ballot;
pub use refusing::Refusal;
pub use tables::{Sizes, Transaction};
use tables::{Ledger, Lent};

// "Delivery."
pub fn deliver(
    t: Transaction<'_>,
    book: &mut [u32],
    sums: &mut [i64],
    finishes: &mut [u32],
) -> Result<Delivered, Refusal>
    ensures { left result book.new sums.new finishes.new ≡ delivering t.entry.identity t.entry.set t.entry.st t.entry.reads.now t.entry.keys.now t.entry.amounts.now book.old sums.old finishes.old }
{
    looking::deliver(t, book, sums, finishes, false)
}

// "Vote. Yes or no, from another partition of a waiting global transaction." How many finishes were written.
pub fn vote(
    identity: u32,
    partition: u32,
    ballot: Ballot,
    book: &mut [u32],
    sums: &mut [i64],
    finishes: &mut [u32],
) -> Result<u32, Refusal>
    ensures { left result book.new sums.new finishes.new ≡ voting identity partition (says_yes ballot) book.old sums.old finishes.old }
{
    looking::vote(identity, partition, ballot, book, sums, finishes, false)
}

// "Threshold change. The new k holds for later deliveries only." How many finishes were written.
pub fn change(
    k: u32,
    book: &mut [u32],
    sums: &mut [i64],
    finishes: &mut [u32],
) -> Result<u32, Refusal>
    ensures { left result book.new sums.new finishes.new ≡ changing k book.old sums.old finishes.old }
{
    looking::change(k, book, sums, finishes, false)
}

// "Read of a key at st: the value of the newest version that is at most st. It changes nothing." Without a st it is read at SC.
pub fn read(key: u32, st: Option<u32>, book: &[u32], sums: &[i64]) -> Reading
    ensures { result ≡ reading key st book.now sums.now }
{
    looking::read(key, st, book, sums, false)
}

// Opening: so many partitions, our own one of them, the threshold k. The tables may hold anything before.
pub fn open(sizes: Sizes, book: &mut [u32], sums: &mut [i64]) -> Result<(), Refusal>
    ensures { left result book.new sums.new [] ≡ opened sizes.partitions sizes.own sizes.k book.old sums.old }
{
    refusing::check_opening(
        sizes,
        Lent {
            book,
            sums,
            looked: false,
        },
    )?;
    let mut ledger = Ledger { book, sums };
    opening::open_tables(&mut ledger, sizes);
    Ok(())
}
