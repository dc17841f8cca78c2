// What is lent to the engine: its two tables and a finish list, each longer than needed.
use crate::events::{Answer, Event};
use engine::{Reading, Sizes};
use tables::{BOOK, SUMS};

pub const WORDS: usize = BOOK + 2;

pub const AMOUNTS: usize = SUMS + 2;

pub const ROOM: usize = 64; // 32 finishes, two words each

pub const FINISHES: usize = ROOM + 4;

#[derive(Clone, Copy)]
pub struct Desk {
    pub book: [u32; WORDS],
    pub sums: [i64; AMOUNTS],
    pub finishes: [u32; FINISHES],
}

// How much of each is lent: its first words or amounts.
#[derive(Clone, Copy)]
pub struct Lengths {
    pub book: usize,
    pub sums: usize,
    pub finishes: usize,
}

pub const ALL: Lengths = Lengths {
    book: WORDS,
    sums: AMOUNTS,
    finishes: FINISHES,
};

// The public operation of an event.
fn answer(event: &Event, book: &mut [u32], sums: &mut [i64], finishes: &mut [u32]) -> Answer {
    match event {
        Event::Opening(partitions, own, k) => {
            let sizes = Sizes {
                partitions: *partitions,
                own: *own,
                k: *k,
            };
            engine::open(sizes, book, sums).map_or_else(Answer::Refused, |_| Answer::Opened)
        }
        Event::Delivery(delivery) => {
            engine::deliver(delivery.transaction(), book, sums, finishes).map_or_else(
                Answer::Refused,
                Answer::Delivered,
            )
        }
        Event::Vote(identity, partition, ballot) => {
            engine::vote(*identity, *partition, *ballot, book, sums, finishes).map_or_else(
                Answer::Refused,
                Answer::Voted,
            )
        }
        Event::Change(k) => {
            engine::change(*k, book, sums, finishes).map_or_else(Answer::Refused, Answer::Changed)
        }
        Event::Read(key, st) => match engine::read(*key, *st, book, sums) {
            Reading::Refused(refusal) => Answer::Refused(refusal),
            Reading::Value(value, version) => Answer::Value(value, version),
        },
    }
}

impl Desk {
    // What stands in the tables before an opening: anything.
    pub fn of_words(word: u32) -> Desk {
        Desk {
            book: [word; WORDS],
            sums: [-7; AMOUNTS],
            finishes: [7; FINISHES],
        }
    }

    // A word written into the book, as no operation does it. None: there is no such place.
    pub fn write(&mut self, at: usize, word: u32) -> Option<()> {
        *self.book.get_mut(at)? = word;
        Some(())
    }

    // An event on as much of the tables as is lent. Each table by a name of its own: of one value only one field can be lent to be changed.
    pub fn put(&mut self, lent: Lengths, event: &Event) -> Answer {
        let mut book = self.book;
        let mut sums = self.sums;
        let mut finishes = self.finishes;
        let answer = answer(
            event,
            &mut book[..lent.book.min(WORDS)],
            &mut sums[..lent.sums.min(AMOUNTS)],
            &mut finishes[..lent.finishes.min(FINISHES)],
        );
        self.book = book;
        self.sums = sums;
        self.finishes = finishes;
        answer
    }

    // "Keys | 0 to 1,023, all holding 0 at opening, version 0": how many hold 0 at SC 0.
    pub fn zeros(&self) -> usize {
        (0..1024u32)
            .filter(|key| engine::read(*key, None, &self.book, &self.sums) == Reading::Value(0, 0))
            .count()
    }

    // Every word and amount is the same.
    pub fn is_same(&self, other: &Desk) -> bool {
        &self.book[..] == &other.book[..]
            && &self.sums[..] == &other.sums[..]
            && &self.finishes[..] == &other.finishes[..]
    }

    // What stands behind the tables of a state and behind the first finishes is the same.
    pub fn is_same_behind(&self, other: &Desk, finishes: usize) -> bool {
        let from = (2 * finishes.min(32)).min(FINISHES);
        &self.book[BOOK..] == &other.book[BOOK..]
            && &self.sums[SUMS..] == &other.sums[SUMS..]
            && &self.finishes[from..] == &other.finishes[from..]
    }
}
