// One line, taken: read as a record, and answered as it stands to the engine.
ghost use Rattle.std.specs.Prelude.{ℕ, List, ◌≡◌, ◌≤◌, ◌+◌, true, false, length};
ghost use Rattle.answers.specs.declared.TheConstants.{LONGEST};
ghost use Rattle.records.specs.Said.{one_said};
ghost use Rattle.feed.specs.Feeding.{recorded, line_record};
ghost use Rattle.feed.specs.Answering.{Usable, memory};
ghost use Rattle.rules.specs.Records.{opens};
ghost use Rattle.feed.specs.Taking.{Gave, Took};

use crate::answering::{answer_change, answer_delivery, answer_read, answer_vote};
use engine::{Refusal, Sizes};
use records::Record;

// What a line leaves: where the answers end, whether an engine is opened, and whether its tables are known to be long enough and to hold a sound state.
#[derive(Clone, Copy)]
pub struct Line {
    pub at: usize,
    pub opened: bool,
    pub known: bool,
}

// "O partitions, own, k", before any engine is opened.
fn open(sizes: Sizes, book: &mut [u32], sums: &mut [i64], out: &mut [u8], at: usize) -> Line
    requires room { at + LONGEST ≤ length out.old }
    ensures { (fin : List ℕ) → Took (recorded (opens sizes.partitions sizes.own sizes.k) false (memory book.old sums.old fin)) (memory book.new sums.new fin) out.old at out.new result }
{
    match engine::open(sizes, book, sums) {
        Err(refusal) => Line {
            at: answers::write_refusal(out, at, refusal),
            opened: false,
            known: false,
        },
        Ok(()) => Line {
            at: answers::write_opened(out, at, sizes),
            opened: true,
            known: true,
        },
    }
}

// "program: event before opening"
fn take_first(said: &Record, book: &mut [u32], sums: &mut [i64], out: &mut [u8], at: usize) -> Line
    requires room { at + LONGEST ≤ length out.old }
    ensures { (fin : List ℕ) → Took (recorded (one_said said.now) false (memory book.old sums.old fin)) (memory book.new sums.new fin) out.old at out.new result }
{
    let Record::Opening(sizes) = said else {
        return Line {
            at: answers::write_refusal(out, at, Refusal::Unusable),
            opened: false,
            known: false,
        };
    };
    open(*sizes, book, sums, out, at)
}

// An event's answers; or "a second opening".
fn take_next(
    said: &Record,
    known: bool,
    book: &mut [u32],
    sums: &mut [i64],
    finishes: &mut [u32],
    out: &mut [u8],
    at: usize,
) -> usize
    requires known { known ≡ true → Usable book.old sums.old }
    requires list { length finishes.old ≡ 64 }
    requires room { at + LONGEST ≤ length out.old }
    ensures { Gave (recorded (one_said said.now) true (memory book.old sums.old finishes.old)) (memory book.new sums.new finishes.new) out.old at out.new result }
{
    match said {
        Record::Opening(_) => answers::write_refusal(out, at, Refusal::Unusable),
        Record::Delivery(d) => answer_delivery(d, known, book, sums, finishes, out, at),
        Record::Vote {
            identity,
            partition,
            ballot,
        } => answer_vote(
            *identity, *partition, *ballot, known, book, sums, finishes, out, at,
        ),
        Record::Change { k } => answer_change(*k, known, book, sums, finishes, out, at),
        Record::Read { key, st } => answer_read(*key, *st, known, book, sums, out, at),
    }
}

// A record, whether an engine is opened or not.
fn take_record(
    said: &Record,
    opened: bool,
    known: bool,
    book: &mut [u32],
    sums: &mut [i64],
    finishes: &mut [u32],
    out: &mut [u8],
    at: usize,
) -> Line
    requires known { known ≡ true → Usable book.old sums.old }
    requires list { length finishes.old ≡ 64 }
    requires room { at + LONGEST ≤ length out.old }
    ensures { Took (recorded (one_said said.now) opened (memory book.old sums.old finishes.old)) (memory book.new sums.new finishes.new) out.old at out.new result }
{
    if !opened {
        return take_first(said, book, sums, out, at);
    }
    Line {
        at: take_next(said, known, book, sums, finishes, out, at),
        opened: true,
        known,
    }
}

// "The program looks at 14 first."
pub fn take_line(
    line: &[u8],
    opened: bool,
    known: bool,
    book: &mut [u32],
    sums: &mut [i64],
    finishes: &mut [u32],
    out: &mut [u8],
    at: usize,
) -> Line
    requires known { known ≡ true → Usable book.old sums.old }
    requires list { length finishes.old ≡ 64 }
    requires room { at + LONGEST ≤ length out.old }
    ensures { Took (recorded (line_record line.now) opened (memory book.old sums.old finishes.old)) (memory book.new sums.new finishes.new) out.old at out.new result }
{
    match records::read_record(line) {
        None => Line {
            at: answers::write_refusal(out, at, Refusal::Unreadable),
            opened,
            known,
        },
        Some(said) => take_record(&said, opened, known, book, sums, finishes, out, at),
    }
}
