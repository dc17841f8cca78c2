// The events that are put to the engine, and its answers to them.
use engine::{Ballot, Delivered, Refusal, Transaction};

// A transaction with its lists.
#[derive(Drop)]
pub struct Delivery {
    pub identity: u32,
    pub set: u32,
    pub st: u32,
    pub reads: Vec<u32>,
    pub keys: Vec<u32>,
    pub amounts: Vec<i64>,
}

impl Delivery {
    pub fn transaction(&self) -> Transaction<'_> {
        Transaction {
            identity: self.identity,
            set: self.set,
            st: self.st,
            reads: self.reads.as_slice(),
            keys: self.keys.as_slice(),
            amounts: self.amounts.as_slice(),
        }
    }
}

// Partitions, own, k; a delivery; identity, partition and a vote; k; key and st.
#[derive(Drop)]
pub enum Event {
    Opening(u32, u32, u32),
    Delivery(Delivery),
    Vote(u32, u32, Ballot),
    Change(u32),
    Read(u32, Option<u32>),
}

// A vote and a change answer how many finishes were written; a read answers a value and the version that it was read at.
#[derive(Clone, Copy)]
pub enum Answer {
    Refused(Refusal),
    Opened,
    Delivered(Delivered),
    Voted(u32),
    Changed(u32),
    Value(i64, u32),
}

impl Answer {
    pub fn is_refusal(self) -> bool {
        matches!(self, Answer::Refused(_))
    }
}
