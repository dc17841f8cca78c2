// The operations of the engine. None has a `requires`: any numbers and any tables get an answer, and a refusal leaves every lent byte as it was.
ghost use Rattle.std.specs.Prelude.{[], ◌≡◌, Some, None};
ghost use Rattle.masks.specs.Ballots.{says_yes};
ghost use Rattle.refusing.specs.Told.{told};
ghost use Rattle.engine.specs.Operations.{left, opened, delivering, voting, changing, reading};
ghost use Rattle.host.specs.Faces.{flagged, delivered_face, settled_face, reading_face};
ghost use Rattle.host.specs.Left.{faced};

use crate::faces::{
    DeliveredFace, ReadingFace, SettledFace, delivered_face, flagged, reading_face, settled_face,
    told,
};
use engine::{Ballot, Sizes, Transaction};

// "Vote. Yes or no"
fn ballot_of(yes: u32) -> Ballot
    ensures { says_yes result ≡ flagged yes }
{
    if flagged(yes) {
        return Ballot::Yes;
    }
    Ballot::No
}

// Opening: 0, or the number that refuses it.
#[unsafe(no_mangle)]
pub extern "C" fn telvrang_open_lent(
    partitions: u32,
    own: u32,
    k: u32,
    book: &mut [u32],
    sums: &mut [i64],
) -> u32
    ensures { left result book.new sums.new [] ≡ faced told (opened partitions own k book.old sums.old) }
{
    let sizes = Sizes { partitions, own, k };
    told(engine::open(sizes, book, sums))
}

// "Delivery."
#[unsafe(no_mangle)]
pub extern "C" fn telvrang_deliver_lent(
    identity: u32,
    set: u32,
    st: u32,
    reads: &[u32],
    keys: &[u32],
    amounts: &[i64],
    book: &mut [u32],
    sums: &mut [i64],
    finishes: &mut [u32],
) -> DeliveredFace
    ensures { left result book.new sums.new finishes.new ≡ faced delivered_face (delivering identity set st reads.now keys.now amounts.now book.old sums.old finishes.old) }
{
    let t = Transaction {
        identity,
        set,
        st,
        reads,
        keys,
        amounts,
    };
    delivered_face(engine::deliver(t, book, sums, finishes))
}

// "Vote."
#[unsafe(no_mangle)]
pub extern "C" fn telvrang_vote_lent(
    identity: u32,
    partition: u32,
    yes: u32,
    book: &mut [u32],
    sums: &mut [i64],
    finishes: &mut [u32],
) -> SettledFace
    ensures { left result book.new sums.new finishes.new ≡ faced settled_face (voting identity partition (flagged yes) book.old sums.old finishes.old) }
{
    settled_face(engine::vote(identity, partition, ballot_of(yes), book, sums, finishes))
}

// "Threshold change."
#[unsafe(no_mangle)]
pub extern "C" fn telvrang_change_lent(
    k: u32,
    book: &mut [u32],
    sums: &mut [i64],
    finishes: &mut [u32],
) -> SettledFace
    ensures { left result book.new sums.new finishes.new ≡ faced settled_face (changing k book.old sums.old finishes.old) }
{
    settled_face(engine::change(k, book, sums, finishes))
}

// "Read of a key at st"
#[unsafe(no_mangle)]
pub extern "C" fn telvrang_read_lent(key: u32, st: u32, book: &[u32], sums: &[i64]) -> ReadingFace
    ensures { result ≡ reading_face (reading key (Some st) book.now sums.now) }
{
    reading_face(engine::read(key, Some(st), book, sums))
}

// A read at SC.
#[unsafe(no_mangle)]
pub extern "C" fn telvrang_read_newest_lent(key: u32, book: &[u32], sums: &[i64]) -> ReadingFace
    ensures { result ≡ reading_face (reading key None book.now sums.now) }
{
    reading_face(engine::read(key, None, book, sums))
}
