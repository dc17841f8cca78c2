// The kinds of record, each by its fields: where the first, the second .. ends, and then what they are. "Each field is a part of the line, handed on from where it starts."
ghost use Rattle.std.specs.Prelude.{◌≤◌, ◌≡◌, length, drop};
ghost use Rattle.rules.specs.Bytes.{split, tab_byte};
ghost use Rattle.rules.specs.Records.{opening_fields, delivery_fields, vote_fields, change_fields, read_fields};
ghost use Rattle.records.specs.Said.{record_said};
ghost use Rattle.records.specs.Kinds.{by_rule};

use crate::fields::{BYTE, KEY, WORD, read_ballot, read_field, read_snapshot};
use crate::lists::{read_keys, read_writes};
use crate::parts::{is_last, part_end};
use crate::{Delivery, Record};
use tables::Sizes;

const TAB: u8 = b'\t';

// "O partitions, own, k"
#[tactic(auto, using(crate::specs::Kinds::openings))]
pub fn read_opening(line: &[u8], from: usize) -> Option<Record>
    requires { from ≤ length line.now }
    ensures { record_said result ≡ by_rule opening_fields (split tab_byte (drop from line.now)) }
{
    let first = part_end(line, from, TAB)?;
    let second = part_end(line, first + 1, TAB)?;
    if !is_last(line, second + 1, TAB) {
        return None;
    }
    let partitions = read_field(&line[from..first], BYTE)?;
    let own = read_field(&line[first + 1..second], BYTE)?;
    let k = read_field(&line[second + 1..], KEY)?;
    Some(Record::Opening(Sizes { partitions, own, k }))
}

// "D identity, partition set, st, reads, writes as key=value"
#[tactic(auto, using(crate::specs::Kinds::deliveries))]
pub fn read_delivery(line: &[u8], from: usize) -> Option<Record>
    requires { from ≤ length line.now }
    ensures { record_said result ≡ by_rule delivery_fields (split tab_byte (drop from line.now)) }
{
    let first = part_end(line, from, TAB)?;
    let second = part_end(line, first + 1, TAB)?;
    let third = part_end(line, second + 1, TAB)?;
    let fourth = part_end(line, third + 1, TAB)?;
    if !is_last(line, fourth + 1, TAB) {
        return None;
    }
    let identity = read_field(&line[from..first], WORD)?;
    let set = read_field(&line[first + 1..second], BYTE)?;
    let st = read_field(&line[second + 1..third], WORD)?;
    let reads = read_keys(&line[third + 1..fourth])?;
    let writes = read_writes(&line[fourth + 1..])?;
    Some(Record::Delivery(Delivery {
        identity,
        set,
        st,
        reads,
        writes,
    }))
}

// "V identity, partition, Y or N"
#[tactic(auto, using(crate::specs::Kinds::votes))]
pub fn read_vote(line: &[u8], from: usize) -> Option<Record>
    requires { from ≤ length line.now }
    ensures { record_said result ≡ by_rule vote_fields (split tab_byte (drop from line.now)) }
{
    let first = part_end(line, from, TAB)?;
    let second = part_end(line, first + 1, TAB)?;
    if !is_last(line, second + 1, TAB) {
        return None;
    }
    let identity = read_field(&line[from..first], WORD)?;
    let partition = read_field(&line[first + 1..second], BYTE)?;
    let ballot = read_ballot(&line[second + 1..])?;
    Some(Record::Vote {
        identity,
        partition,
        ballot,
    })
}

// "K k"
#[tactic(auto, using(crate::specs::Kinds::changes))]
pub fn read_change(line: &[u8], from: usize) -> Option<Record>
    requires { from ≤ length line.now }
    ensures { record_said result ≡ by_rule change_fields (split tab_byte (drop from line.now)) }
{
    if !is_last(line, from, TAB) {
        return None;
    }
    let k = read_field(&line[from..], KEY)?;
    Some(Record::Change { k })
}

// "R key, st (`-` means SC)"
#[tactic(auto, using(crate::specs::Kinds::reads))]
pub fn read_read(line: &[u8], from: usize) -> Option<Record>
    requires { from ≤ length line.now }
    ensures { record_said result ≡ by_rule read_fields (split tab_byte (drop from line.now)) }
{
    let first = part_end(line, from, TAB)?;
    if !is_last(line, first + 1, TAB) {
        return None;
    }
    let key = read_field(&line[from..first], KEY)?;
    let st = read_snapshot(&line[first + 1..])?;
    Some(Record::Read { key, st })
}
