// What the operations answer.
ghost use Rattle.std.specs.Prelude.{◌≡◌};
ghost use Rattle.engine.specs.Fates.{reason_number};

use masks::Ballot;
use refusing::Refusal;

// Why a delivery is aborted; each reason's number is the one that the answer gives.
#[derive(Clone, Copy, Debug, PartialEq, Eq)]
pub enum Reason {
    Commit = 1, // it clashes with a commit that its snapshot misses
    Waiting = 2, // a global one clashes with a waiting entry
    NoPlace = 3, // a local one finds no lawful place
}

impl Reason {
    // As `Refusal::number`: a line of each enum's own is plainer than a trait over both.
    pub fn number(self) -> u32
        ensures { result ≡ reason_number self }
    {
        self as u32
    }
}

// A delivery that was taken: it waits at a place (the one before closing) or is aborted for a reason, at a DC; "which vote to send", of a global
// one; how many finishes were written.
#[derive(Clone, Copy, Debug, PartialEq, Eq)]
pub struct Delivered {
    pub dc: u32,
    pub fate: Result<u32, Reason>,
    pub send: Option<Ballot>,
    pub finishes: u32,
}

// A value, and the version that it was read at. An enum of its own and no Result: document 01 names this form, `let Reading::Value(..) = .. else`.
#[derive(Clone, Copy, Debug, PartialEq, Eq)]
pub enum Reading {
    Refused(Refusal),
    Value(i64, u32),
}
