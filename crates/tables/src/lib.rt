// The lent tables: how long they are, where things stand in them, and what is lent. Document 01, "The ledger's sizes", gives every number.
// The tables are words and amounts at fixed places, and no structs: C lends them, and their memory is fixed (there is no heap).
#![tactic(auto)]

mod books;
mod ledgers;
mod rows;

pub use books::{Book, Sums};
pub use ledgers::{Ledger, Lent, Sizes, Transaction};
pub use rows::{Kept, Row, SoundRow, Waiting};

pub const COUNTERS: usize = 6; // partitions, own, SC, DC, k, how many wait

pub const ROW: usize = 24; // eight words, 8 keys read, 8 keys written

pub const READ_KEYS: usize = 8; // where a row has the keys read: behind its eight words

pub const WRITTEN_KEYS: usize = 16; // where it has the keys written: behind 8 keys read

pub const AMOUNTS: usize = 8; // amounts of a row, one for each key written

pub const WAITING_AMOUNTS: usize = 1024; // where the amounts of waiting rows begin: behind the values, one for each of 1,024 keys

pub const KEPT_AMOUNTS: usize = 1280; // where those of kept rows begin: behind the amounts of 32 waiting rows

pub const KEPT_ROWS: usize = 774; // where the kept rows begin: behind the counters and 32 waiting rows

pub const VERSIONS: u32 = 64; // so many commits are kept

pub const BOOK: usize = 2310; // the counters, 32 waiting rows and 64 kept rows

pub const SUMS: usize = 1792; // 1,024 values, 8 amounts for each of 32 waiting rows and of 64 kept rows
