// The inner steps, run one after the other on tables that begin as garbage and are longer than needed; what each gives is printed.
#![tactic(auto)]

mod changing;
mod checked;

ghost use Rattle.std.specs.Prelude.{◌≡◌};

use certifying::Newcomer;
use checked::Checked;
use keys::Keys;
use masks::{Ballot, Partition, Votes};
use std::io;
use tables::{BOOK, Book, Ledger, SUMS, Sizes, Transaction};

fn key_lists(rt: &impl Print) -> io::Result<()> {
    println!(rt;
        "[1, 4, 9] ascends: {}, [4, 4]: {}",
        keys::is_ascending(&[1, 4, 9]),
        keys::is_ascending(&[4, 4])
    )?;
    println!(rt;
        "[1023] is bad: {}, [1024]: {}",
        keys::is_bad(&[1023]),
        keys::is_bad(&[1024])
    )?;
    shared(rt, &[1, 4, 9], &[2, 4, 9])?;
    shared(rt, &[1, 4, 9], &[2, 5, 10])?;
    shared(rt, &[1, 4, 9], &[4, 4])
}

fn shared(rt: &impl Print, one: &[u32], other: &[u32]) -> io::Result<()> {
    if !keys::is_ascending(one) || !keys::is_ascending(other) {
        return println!(rt; "not ascending");
    }
    println!(rt;
        "smallest shared: {:?}",
        Keys { list: one }.smallest_shared(Keys { list: other })
    )
}

// Partitions 0, 1 and 2 are involved, and 0 is our own.
fn votes(rt: &impl Print, ayes: u8, nays: u8) -> io::Result<()> {
    let votes = Votes {
        involved: 7,
        own: Partition { number: 0 },
        ayes,
        nays,
    };
    println!(rt;
        "ayes {}, nays {}: outstanding {}, none {}, every vote yes {}",
        ayes,
        nays,
        votes.outstanding(),
        votes.none_outstanding(),
        votes.every_vote_yes()
    )
}

fn report(rt: &impl Print, book: Book<'_>) -> io::Result<()> {
    println!(rt;
        "{} partitions, own {}, k {}, SC {}, DC {}, {} wait",
        book.partitions(),
        book.own(),
        book.k(),
        book.sc(),
        book.dc(),
        book.waiting()
    )?;
    for i in 0..book.waiting().min(32) as usize {
        let row = book.waiting_row(i);
        println!(rt;
            "  {}: set {}, rt {}, ayes {}, nays {}, reads {}, writes {}",
            row.identity(),
            row.set(),
            row.rt(),
            row.ayes(),
            row.nays(),
            row.read_count(),
            row.written_count()
        )?;
    }
    Ok(())
}

// A newcomer that reads one key and writes one, with its snapshot: its place, and whom it clashes with.
#[tactic(auto, using(crate::specs::Settling::one_ascends))]
fn newcomer(rt: &impl Print, checked: Checked<'_>, of: (u32, u32, u32)) -> io::Result<()> {
    let (read, written, st) = of;
    let newcomer = Newcomer {
        reads: Keys { list: &[read] },
        keys: Keys { list: &[written] },
    };
    println!(rt;
        "reads {}, writes {}, st {}: place {:?}",
        read,
        written,
        st,
        checked.place(newcomer)
    )?;
    println!(rt;
        "  clashes with those that wait: {:?}, with commits: {:?}",
        checked.clashes_with_waiting(newcomer),
        checked.clashes_with_commits(st, newcomer)
    )
}

// What stands on the tables, where they hold a sound state: each newcomer judged, and each key read at a version.
fn look(
    rt: &impl Print,
    ledger: &mut Ledger<'_>,
    newcomers: &[(u32, u32, u32)],
    reads: &[(u32, u32)],
) -> io::Result<()>
    ensures same_book { ledger.new.book.ghost_name ≡ ledger.old.book.ghost_name }
    ensures same_sums { ledger.new.sums.ghost_name ≡ ledger.old.sums.ghost_name }
{
    let words = &mut *ledger.book;
    let amounts = &mut *ledger.sums;
    let Some(checked) = checked::check(words, amounts) else {
        return println!(rt; "not sound");
    };
    for of in newcomers {
        newcomer(rt, checked, *of)?;
    }
    for read in reads {
        let (key, st) = *read;
        println!(rt; "key {} at {}: {:?}", key, st, checked.read(key, st))?;
    }
    Ok(())
}

// Closing, and the first three entries of the finish list.
fn settled(rt: &impl Print, ledger: &mut Ledger<'_>, finishes: &mut [u32; 66]) -> io::Result<()>
    ensures same_book { ledger.new.book.ghost_name ≡ ledger.old.book.ghost_name }
    ensures same_sums { ledger.new.sums.ghost_name ≡ ledger.old.sums.ghost_name }
{
    let told = changing::settle(ledger, finishes);
    println!(rt;
        "finishes {:?}: {} {} {} {} {} {}",
        told, finishes[0], finishes[1], finishes[2], finishes[3], finishes[4], finishes[5]
    )
}

// Three deliveries: a global one, a local one that passes it, and a global one behind.
fn three_join(ledger: &mut Ledger<'_>) -> bool
    ensures same_book { ledger.new.book.ghost_name ≡ ledger.old.book.ghost_name }
    ensures same_sums { ledger.new.sums.ghost_name ≡ ledger.old.sums.ghost_name }
{
    let a = Transaction {
        identity: 101,
        set: 3,
        st: 0,
        reads: &[5],
        keys: &[6],
        amounts: &[-40],
    };
    let b = Transaction {
        identity: 102,
        set: 1,
        st: 0,
        reads: &[1],
        keys: &[2, 9],
        amounts: &[10, 20],
    };
    let c = Transaction {
        identity: 103,
        set: 7,
        st: 0,
        reads: &[11],
        keys: &[30],
        amounts: &[7],
    };
    changing::join(ledger, 0, 3, a)
        && changing::join(ledger, 0, 4, b)
        && changing::join(ledger, 2, 5, c)
}

// A local transaction that writes key 1, joined and closed.
fn one_more(ledger: &mut Ledger<'_>, amount: u32, finishes: &mut [u32]) -> bool
    ensures same_book { ledger.new.book.ghost_name ≡ ledger.old.book.ghost_name }
    ensures same_sums { ledger.new.sums.ghost_name ≡ ledger.old.sums.ghost_name }
{
    let t = Transaction {
        identity: 200 + amount % 100,
        set: 1,
        st: 0,
        reads: &[],
        keys: &[1],
        amounts: &[i64::from(amount)],
    };
    changing::join(ledger, 0, 0, t) && changing::settle(ledger, finishes) == Some(1)
}

// Tables of garbage are opened, and three join.
fn opened(rt: &impl Print, ledger: &mut Ledger<'_>) -> io::Result<()>
    ensures same_book { ledger.new.book.ghost_name ≡ ledger.old.book.ghost_name }
    ensures same_sums { ledger.new.sums.ghost_name ≡ ledger.old.sums.ghost_name }
{
    let sizes = Sizes {
        partitions: 3,
        own: 0,
        k: 2,
    };
    opening::open_tables(ledger, sizes);
    report(rt, ledger.as_book())?;
    let joined = three_join(ledger);
    println!(rt; "joined: {}", joined)?;
    report(rt, ledger.as_book())
}

// One vote comes: the local head commits, and so does the global one behind it.
fn two_commit(rt: &impl Print, ledger: &mut Ledger<'_>, finishes: &mut [u32; 66]) -> io::Result<()>
    ensures same_book { ledger.new.book.ghost_name ≡ ledger.old.book.ghost_name }
    ensures same_sums { ledger.new.sums.ghost_name ≡ ledger.old.sums.ghost_name }
{
    let heard = changing::hear(ledger, 1, Partition { number: 1 }, Ballot::Yes);
    println!(rt; "heard: {}", heard)?;
    settled(rt, ledger, finishes)?;
    report(rt, ledger.as_book())
}

// Both votes come, one of them no: the last one waits for its threshold, and aborts.
fn one_aborts(rt: &impl Print, ledger: &mut Ledger<'_>, finishes: &mut [u32; 66]) -> io::Result<()>
    ensures same_book { ledger.new.book.ghost_name ≡ ledger.old.book.ghost_name }
    ensures same_sums { ledger.new.sums.ghost_name ≡ ledger.old.sums.ghost_name }
{
    let nay = changing::hear(ledger, 0, Partition { number: 1 }, Ballot::No);
    let aye = changing::hear(ledger, 0, Partition { number: 2 }, Ballot::Yes);
    println!(rt; "heard: {}, {}", nay, aye)?;
    report(rt, ledger.as_book())?;
    changing::raise_dc(ledger, 4);
    settled(rt, ledger, finishes)?;
    changing::raise_dc(ledger, 5);
    settled(rt, ledger, finishes)
}

fn many_commit(
    rt: &impl Print,
    ledger: &mut Ledger<'_>,
    finishes: &mut [u32; 66],
) -> io::Result<()> {
    let mut committed = 0u32;
    for n in 1..66u32 {
        if one_more(ledger, n, finishes) {
            committed = committed.saturating_add(1);
        }
    }
    println!(rt; "committed: {}", committed)?;
    report(rt, ledger.as_book())
}

fn main(rt: HostRuntime) -> io::Result<()> {
    key_lists(&rt)?;
    votes(&rt, 2, 0)?;
    votes(&rt, 6, 0)?;
    votes(&rt, 2, 4)?;
    votes(&rt, 1, 0)?;
    let mut book = [7u32; BOOK + 2];
    let mut sums = [-7i64; SUMS + 2];
    let mut finishes = [7u32; 66];
    let mut ledger = Ledger {
        book: &mut book,
        sums: &mut sums,
    };
    look(&rt, &mut ledger, &[], &[])?;
    opened(&rt, &mut ledger)?;
    look(
        &rt,
        &mut ledger,
        &[
            (2, 3, 0),
            (6, 3, 0),
            (6, 11, 0),
            (1, 11, 0),
            (1, 5, 0),
            (9, 40, 0),
        ],
        &[],
    )?;
    two_commit(&rt, &mut ledger, &mut finishes)?;
    look(
        &rt,
        &mut ledger,
        &[(9, 40, 0), (9, 40, 1), (8, 5, 1), (8, 5, 3)],
        &[(2, 0), (2, 1), (9, 2), (6, 1), (6, 2), (6, 3), (1024, 2)],
    )?;
    one_aborts(&rt, &mut ledger, &mut finishes)?;
    many_commit(&rt, &mut ledger, &mut finishes)?;
    // beyond 64 commits the oldest are folded into the values
    look(
        &rt,
        &mut ledger,
        &[],
        &[(2, 3), (9, 3), (6, 3), (1, 2), (1, 3), (1, 4), (1, 67)],
    )?;
    println!(rt;
        "behind the tables: {} {}, {} {}",
        book[BOOK],
        book[BOOK + 1],
        sums[SUMS],
        sums[SUMS + 1]
    )?;
    println!(rt; "behind the finishes: {} {}", finishes[64], finishes[65])
}
