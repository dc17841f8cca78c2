// The places of the book by name, so that words can be written into it: `DC`, or `waiting.0.rt` of the head, or `kept.1.reads` of version 1.
use crate::records::number;
use tables::{COUNTERS, KEPT_ROWS, READ_KEYS, ROW, WRITTEN_KEYS};

fn counter(text: &str) -> Option<usize> {
    match text {
        "partitions" => Some(0),
        "own" => Some(1),
        "SC" => Some(2),
        "DC" => Some(3),
        "k" => Some(4),
        "waiting" => Some(5),
        _ => None,
    }
}

// The place of a word in its row.
fn word(text: &str) -> Option<usize> {
    match text {
        "identity" => Some(0),
        "set" => Some(1),
        "rt" => Some(3),
        "ayes" => Some(4),
        "nays" => Some(5),
        "read-count" => Some(6),
        "written-count" => Some(7),
        "reads" => Some(READ_KEYS),
        "writes" => Some(WRITTEN_KEYS),
        _ => None,
    }
}

// Where the rows of a table begin.
fn rows(text: &str) -> Option<usize> {
    match text {
        "waiting" => Some(COUNTERS),
        "kept" => Some(KEPT_ROWS),
        _ => None,
    }
}

pub fn place(text: &str) -> Option<usize> {
    let Some((table, rest)) = text.split_once('.') else {
        return counter(text);
    };
    let (row, name) = rest.split_once('.')?;
    let row = (number(row)? % 64) as usize;
    rows(table)?
        .checked_add(ROW * row)?
        .checked_add(word(name)?)
}
