// What is printed of an event: its answer, its finishes and the state after it, or the number that refuses it and whether anything changed.
use crate::desks::{Desk, Lengths};
use crate::events::{Answer, Event};
use engine::{Ballot, Delivered};
use std::io;
use tables::Book;

// Those that wait, by name where they are few.
fn waiting(rt: &impl Print, book: Book<'_>) -> io::Result<()> {
    let count = book.waiting().min(32) as usize;
    if count == 0 {
        return println!(rt; "nobody waits");
    }
    if 5 < count {
        return println!(rt; "{count} wait");
    }
    print!(rt; "waiting")?;
    for i in 0..count {
        print!(rt; " {}", book.waiting_row(i).identity())?;
    }
    println!(rt)
}

// The counters, and those that wait.
pub fn state(rt: &impl Print, desk: &Desk) -> io::Result<()> {
    let book = Book { words: &desk.book };
    print!(rt; "SC {}, DC {}, k {}, ", book.sc(), book.dc(), book.k())?;
    waiting(rt, book)
}

fn delivered(rt: &impl Print, d: Delivered) -> io::Result<()> {
    match d.fate {
        Ok(place) => print!(rt; "place {place}")?,
        Err(reason) => print!(rt; "reason {}", reason.number())?,
    }
    print!(rt; ", DC {}", d.dc)?;
    match d.send {
        None => Ok(()),
        Some(Ballot::Yes) => print!(rt; ", send yes"),
        Some(Ballot::No) => print!(rt; ", send no"),
    }
}

// A finish: "identity, and version", or an abort.
fn finish(rt: &impl Print, identity: u32, version: u32) -> io::Result<()> {
    if version == 0 {
        return print!(rt; " {identity} aborts");
    }
    print!(rt; " {identity} version {version}")
}

// The first finishes of the list.
fn finishes(rt: &impl Print, desk: &Desk, count: usize) -> io::Result<()> {
    match count {
        0 => print!(rt; "; no finish")?,
        1 => print!(rt; "; 1 finish:")?,
        _ => print!(rt; "; {count} finishes:")?,
    }
    for i in 0..count.min(32) {
        if 0 < i {
            print!(rt; ",")?;
        }
        finish(rt, desk.finishes[2 * i], desk.finishes[2 * i + 1])?;
    }
    Ok(())
}

// The end of the line of an event that was taken: nothing that stands behind the tables and the finishes may have changed.
fn taken(rt: &impl Print, before: &Desk, desk: &Desk, count: usize) -> io::Result<()> {
    if !desk.is_same_behind(before, count) {
        print!(rt; ", AND WHAT STANDS BEHIND CHANGED")?;
    }
    print!(rt; "; ")?;
    state(rt, desk)
}

fn finished(rt: &impl Print, before: &Desk, desk: &Desk, count: u32) -> io::Result<()> {
    finishes(rt, desk, count as usize)?;
    taken(rt, before, desk, count as usize)
}

fn kept(before: &Desk, desk: &Desk) -> &'static str {
    if desk.is_same(before) {
        "nothing changed"
    } else {
        "SOMETHING CHANGED"
    }
}

// What an event answered, and what it made of the desk that was before.
pub fn tell(rt: &impl Print, before: &Desk, desk: &Desk, answer: Answer) -> io::Result<()> {
    match answer {
        Answer::Refused(refusal) => println!(rt; "{}, {}", refusal.number(), kept(before, desk)),
        Answer::Opened => {
            print!(rt; "opened, {} keys hold 0", desk.zeros())?;
            taken(rt, before, desk, 0)
        }
        Answer::Delivered(d) => {
            delivered(rt, d)?;
            finished(rt, before, desk, d.finishes)
        }
        Answer::Voted(count) => {
            print!(rt; "voted")?;
            finished(rt, before, desk, count)
        }
        Answer::Changed(count) => {
            print!(rt; "changed")?;
            finished(rt, before, desk, count)
        }
        Answer::Value(value, version) => println!(rt; "{value} at {version}"),
    }
}
