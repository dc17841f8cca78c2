// An event of each kind, each on tables of its own that are the same: is it taken, or which number refuses it.
use crate::desks::{Desk, Lengths};
use crate::events::{Answer, Event};
use std::io;

fn name(event: &Event) -> &'static str {
    match event {
        Event::Opening(..) => "opening",
        Event::Delivery(_) => "delivery",
        Event::Vote(..) => "vote",
        Event::Change(_) => "change",
        Event::Read(..) => "read",
    }
}

fn one(rt: &impl Print, event: &Event, answer: Answer) -> io::Result<()> {
    match answer {
        Answer::Refused(refusal) => print!(rt; " {} {}", name(event), refusal.number()),
        _ => print!(rt; " {} taken", name(event)),
    }
}

// What is said of those that were refused, if any were.
fn rest(refused: bool, changed: bool) -> &'static str {
    match (refused, changed) {
        (false, _) => "",
        (true, false) => "; nothing changed",
        (true, true) => "; SOMETHING CHANGED",
    }
}

pub fn tell(rt: &impl Print, before: &Desk, lent: Lengths, events: &[Event]) -> io::Result<()> {
    let mut refused = false;
    let mut changed = false;
    for (i, event) in events.iter().enumerate() {
        let mut desk = *before;
        let answer = desk.put(lent, event);
        if answer.is_refusal() {
            refused = true;
            changed = changed || !desk.is_same(before);
        }
        if 0 < i {
            print!(rt; ",")?;
        }
        one(rt, event, answer)?;
    }
    println!(rt; "{}", rest(refused, changed))
}
