// Lists, parted by commas: every item is read, and the first nine are kept.
ghost use Rattle.std.specs.Prelude.{◌≡◌};
ghost use Rattle.rules.specs.Bytes.{split, comma, number};
ghost use Rattle.rules.specs.Records.{key_limit, each_part, list_of, a_write};
ghost use Rattle.rules.specs.Records as text;
ghost use Rattle.records.specs.Kept.{keys_said, write_said, writes_said};
ghost use Rattle.records.specs.Said.{said};
ghost use Rattle.records.specs.Lists.{short_list};

use crate::items::Write;
use crate::{Keys, Writes, fields, parts};
use numerals::{find, read_signed};

// A key, alone.
fn read_key(s: &[u8]) -> Option<u32>
    ensures { said result ≡ number key_limit s.now }
{
    fields::read_field(s, fields::KEY)
}

// Keys, at least one.
#[tactic(auto, using(crate::specs::Lists::keeping))]
fn each_key(s: &[u8]) -> Option<Keys>
    ensures { keys_said result ≡ short_list (each_part (number key_limit) (split comma s.now)) }
{
    let mut keys = Keys::none();
    let mut from = 0;
    while from <= s.len() {
        let end = find(s, from, b',');
        let key = read_key(&s[from..end])?;
        keys = keys.with(key);
        from = end + 1;
    }
    Some(keys)
}

// "lists parted by commas, `-` for an empty list": keys read.
#[tactic(auto, using(crate::specs::Lists::lists))]
pub fn read_keys(s: &[u8]) -> Option<Keys>
    ensures { keys_said result ≡ short_list (list_of (number key_limit) s.now) }
{
    if fields::is_dash(s) {
        return Some(Keys::none());
    }
    each_key(s)
}

// "writes as key=value"
#[tactic(auto, using(crate::specs::Writes::writes))]
fn read_write(s: &[u8]) -> Option<Write>
    ensures { write_said result ≡ a_write s.now }
{
    let end = parts::part_end(s, 0, b'=')?;
    if !parts::is_last(s, end + 1, b'=') {
        return None;
    }
    let key = fields::read_field(&s[0..end], fields::KEY)?;
    let amount = read_signed(&s[end + 1..])?;
    Some(Write { key, amount })
}

// Writes, at least one.
#[tactic(auto, using(crate::specs::Lists::keeping))]
fn each_write(s: &[u8]) -> Option<Writes>
    ensures { writes_said result ≡ short_list (each_part a_write (split comma s.now)) }
{
    let mut writes = Writes::none();
    let mut from = 0;
    while from <= s.len() {
        let end = find(s, from, b',');
        let write = read_write(&s[from..end])?;
        writes = writes.with(write);
        from = end + 1;
    }
    Some(writes)
}

// "lists parted by commas, `-` for an empty list": keys written, with their amounts.
#[tactic(auto, using(crate::specs::Lists::lists))]
pub fn read_writes(s: &[u8]) -> Option<Writes>
    ensures { writes_said result ≡ short_list (list_of a_write s.now) }
{
    if fields::is_dash(s) {
        return Some(Writes::none());
    }
    each_write(s)
}
