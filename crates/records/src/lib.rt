// One line of the log as text, and the record that it is.
#![tactic(auto)]

mod fields;
mod items;
mod kinds;
mod lists;
mod parts;

ghost use Rattle.std.specs.Prelude.{◌≡◌};
ghost use Rattle.rules.specs.Records.{record_of};
ghost use Rattle.records.specs.Short.{short_record};
ghost use Rattle.records.specs.Said.{record_said};
ghost use Rattle.records.specs.Letters.{LetterOf};

pub use items::{Delivery, ITEMS, Keys, Writes};
pub use masks::Ballot;
pub use tables::Sizes;

// A record, as a line says it. A read without a st is at SC.
#[derive(Clone, Copy)]
pub enum Record {
    Opening(Sizes),
    Delivery(Delivery),
    Vote {
        identity: u32,
        partition: u32,
        ballot: Ballot,
    },
    Change {
        k: u32,
    },
    Read {
        key: u32,
        st: Option<u32>,
    },
}

// "A line over 512 bytes without its newline"
pub const LINE: usize = 512;

// Behind the letter and its tab.
const FIELDS: usize = 2;

// The letter in front of the other fields.
#[tactic(auto, using(crate::specs::Letters::first_letters))]
fn first_letter(line: &[u8]) -> Option<u8>
    ensures { LetterOf result line.now }
{
    let end = parts::part_end(line, 0, b'\t')?;
    if end != 1 {
        return None;
    }
    Some(line[0])
}

// The record that a line is, its newline left out: the rules' record, with the first nine items of a delivery's lists. "The first letter picks the record"
#[tactic(auto, using(crate::specs::Letters::letters))]
pub fn read_record(line: &[u8]) -> Option<Record>
    ensures { record_said result ≡ short_record (record_of line.now) }
{
    if line.len() > LINE {
        return None;
    }
    match first_letter(line)? {
        b'O' => kinds::read_opening(line, FIELDS),
        b'D' => kinds::read_delivery(line, FIELDS),
        b'V' => kinds::read_vote(line, FIELDS),
        b'K' => kinds::read_change(line, FIELDS),
        b'R' => kinds::read_read(line, FIELDS),
        _ => None,
    }
}
