// An event from a line of text, in the form of the log with `|` for the tab. None: the text is no event.
use crate::events::{Delivery, Event};
use engine::Ballot;
use std::alloc::Global;

// A number; unlike in a log it may have zeros in front.
pub fn number(text: &str) -> Option<u32> {
    text.parse::<u32>().ok()
}

// Two parts, and what stands behind them.
fn parts(text: &str) -> Option<(&str, &str, &str)> {
    let (first, rest) = text.split_once('|')?;
    let (second, rest) = rest.split_once('|')?;
    Some((first, second, rest))
}

fn reads(alloc: Global, text: &str) -> Option<Vec<u32>> {
    let mut keys = Vec::new(alloc);
    if text == "-" {
        return Some(keys);
    }
    for key in text.split(',') {
        keys.push(number(key)?).ok()?;
    }
    Some(keys)
}

// "writes as key=value"; here also a key without its value, `7`, or a value without its key, `=500`.
fn write(delivery: &mut Delivery, text: &str) -> Option<()> {
    let (key, amount) = text.split_once('=').unwrap_or((text, ""));
    if !key.is_empty() {
        delivery.keys.push(number(key)?).ok()?;
    }
    if !amount.is_empty() {
        delivery.amounts.push(amount.parse::<i64>().ok()?).ok()?;
    }
    Some(())
}

fn delivery(alloc: Global, text: &str) -> Option<Delivery> {
    let (identity, set, rest) = parts(text)?;
    let (st, keys, writes) = parts(rest)?;
    let mut delivery = Delivery {
        identity: number(identity)?,
        set: number(set)?,
        st: number(st)?,
        reads: reads(alloc, keys)?,
        keys: Vec::new(alloc),
        amounts: Vec::new(alloc),
    };
    if writes != "-" {
        for text in writes.split(',') {
            write(&mut delivery, text)?;
        }
    }
    Some(delivery)
}

fn opening(text: &str) -> Option<Event> {
    let (partitions, own, k) = parts(text)?;
    Some(Event::Opening(number(partitions)?, number(own)?, number(k)?))
}

fn vote(text: &str) -> Option<Event> {
    let (identity, partition, vote) = parts(text)?;
    let ballot = match vote {
        "Y" => Ballot::Yes,
        "N" => Ballot::No,
        _ => return None,
    };
    Some(Event::Vote(number(identity)?, number(partition)?, ballot))
}

// "st (`-` means SC)"
fn read(text: &str) -> Option<Event> {
    let (key, st) = text.split_once('|')?;
    let key = number(key)?;
    if st == "-" {
        return Some(Event::Read(key, None));
    }
    Some(Event::Read(key, Some(number(st)?)))
}

// "The first letter picks the record"
pub fn event(alloc: Global, text: &str) -> Option<Event> {
    let (letter, rest) = text.split_once('|')?;
    match letter {
        "O" => opening(rest),
        "D" => Some(Event::Delivery(delivery(alloc, rest)?)),
        "V" => vote(rest),
        "K" => Some(Event::Change(number(rest)?)),
        "R" => read(rest),
        _ => None,
    }
}
