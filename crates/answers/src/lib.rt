// The text of an answer, written into a lent buffer: the event's own line, then a line for each finish.
#![tactic(auto)]

ghost use Rattle.std.specs.Prelude.{[], ◌∷◌, ◌≡◌, ◌+◌, ◌*◌, ◌≤◌, length};
ghost use Rattle.rules.specs.Bytes.{decimal_text, tab_byte};
ghost use Rattle.rules.specs.Events.{value};
ghost use Rattle.rules.specs.AnswerText.{end, refusal_text, opened_text, outcome_text, delivery_text, vote_text, change_text, read_text};
ghost use Rattle.numerals.specs.Writing.{Wrote};
ghost use Rattle.refusing.specs.Told.{numbered};
ghost use Rattle.engine.specs.Answers.{delivered_said, voted_said, changed_said, reading_said};
ghost use Rattle.answers.specs.Lines.{numbers_text};
ghost use Rattle.answers.specs.Finishes.{outcome_of, words_text};
ghost use Rattle.answers.specs.Reads.{number_said};

use engine::{Delivered, Reading, Refusal};
use numerals::{write_byte, write_number, write_signed};
use tables::Sizes;

// Room for a line. The longest has 45 bytes: `R`, a tab and 10 digits twice, a tab and 20 bytes, a newline; and a number is written where 20 bytes are free.
pub const HEAD: usize = 64;

// More than the longest answer of one event: its own line, 32 finish lines of at most 24 bytes, and room for a line behind them.
pub const LONGEST: usize = 1024;

// A number behind a tab.
fn write_field(out: &mut [u8], at: usize, n: u32) -> usize
    requires { at + 21 ≤ length out.old }
    ensures wrote { Wrote out.old at (tab_byte ∷ decimal_text n) out.new result }
    ensures ends { result ≤ at + 11 }
{
    let number = write_byte(out, at, b'\t');
    write_number(out, number, u64::from(n))
}

// A letter, and numbers behind it.
#[tactic(auto, using(crate::specs::Lines::number_by_number))]
fn write_numbers(out: &mut [u8], at: usize, letter: u8, numbers: &[u32]) -> usize
    requires few { length numbers.now ≤ 3 }
    requires room { at + HEAD ≤ length out.old }
    ensures wrote { Wrote out.old at (letter ∷ numbers_text numbers.now []) out.new result }
    ensures ends { result ≤ at + 1 + 11 * length numbers.now }
{
    let mut place = write_byte(out, at, letter);
    for n in numbers {
        place = write_field(out, place, *n);
    }
    place
}

// A line of a letter and numbers.
fn write_line(out: &mut [u8], at: usize, letter: u8, numbers: &[u32]) -> usize
    requires few { length numbers.now ≤ 3 }
    requires room { at + HEAD ≤ length out.old }
    ensures wrote { Wrote out.old at (letter ∷ numbers_text numbers.now end) out.new result }
    ensures ends { result ≤ at + 2 + 11 * length numbers.now }
{
    let place = write_numbers(out, at, letter, numbers);
    write_byte(out, place, b'\n')
}

// "X number"
#[tactic(auto, unfolding(rules::specs::AnswerText::refusal_text))]
pub fn write_refusal(out: &mut [u8], at: usize, refusal: Refusal) -> usize
    requires { at + HEAD ≤ length out.old }
    ensures wrote { Wrote out.old at (refusal_text (numbered refusal)) out.new result }
    ensures ends { result ≤ at + HEAD }
{
    write_line(out, at, b'X', &[refusal.number()])
}

// "O [..] repeated"
#[tactic(auto, unfolding(rules::specs::AnswerText::opened_text))]
pub fn write_opened(out: &mut [u8], at: usize, sizes: Sizes) -> usize
    requires { at + HEAD ≤ length out.old }
    ensures wrote { Wrote out.old at (opened_text sizes.partitions sizes.own sizes.k) out.new result }
    ensures ends { result ≤ at + HEAD }
{
    write_line(out, at, b'O', &[sizes.partitions, sizes.own, sizes.k])
}

// "W identity, DC, place; A identity, DC, reason"
#[tactic(auto, unfolding(rules::specs::AnswerText::delivery_text))]
pub fn write_delivered(
    out: &mut [u8],
    at: usize,
    identity: u32,
    answer: Result<Delivered, Refusal>,
) -> usize
    requires { at + HEAD ≤ length out.old }
    ensures wrote { Wrote out.old at (delivery_text identity (delivered_said answer)) out.new result }
    ensures ends { result ≤ at + HEAD }
{
    match answer {
        Err(refusal) => write_refusal(out, at, refusal),
        Ok(taken) => match taken.fate {
            Ok(place) => write_line(out, at, b'W', &[identity, taken.dc, place]),
            Err(reason) => write_line(out, at, b'A', &[identity, taken.dc, reason.number()]),
        },
    }
}

// "V (identity, partition) [..] repeated"
#[tactic(auto, unfolding(rules::specs::AnswerText::vote_text))]
pub fn write_voted(
    out: &mut [u8],
    at: usize,
    identity: u32,
    partition: u32,
    answer: Result<u32, Refusal>,
) -> usize
    requires { at + HEAD ≤ length out.old }
    ensures wrote { Wrote out.old at (vote_text identity partition (voted_said answer)) out.new result }
    ensures ends { result ≤ at + HEAD }
{
    match answer {
        Err(refusal) => write_refusal(out, at, refusal),
        Ok(_) => write_line(out, at, b'V', &[identity, partition]),
    }
}

// "K repeated"
#[tactic(auto, unfolding(rules::specs::AnswerText::change_text))]
pub fn write_changed(out: &mut [u8], at: usize, k: u32, answer: Result<u32, Refusal>) -> usize
    requires { at + HEAD ≤ length out.old }
    ensures wrote { Wrote out.old at (change_text k (changed_said answer)) out.new result }
    ensures ends { result ≤ at + HEAD }
{
    match answer {
        Err(refusal) => write_refusal(out, at, refusal),
        Ok(_) => write_line(out, at, b'K', &[k]),
    }
}

// "R key, st, value"
fn write_value(out: &mut [u8], at: usize, key: u32, st: u32, amount: i64) -> usize
    requires { at + HEAD ≤ length out.old }
    ensures wrote { Wrote out.old at (read_text key (value st amount)) out.new result }
    ensures ends { result ≤ at + HEAD }
{
    let place = write_numbers(out, at, b'R', &[key, st]);
    let sign = write_byte(out, place, b'\t');
    let last = write_signed(out, sign, amount);
    write_byte(out, last, b'\n')
}

// The number of a reading that is refused; 0 of a value.
fn number_of(answer: Reading) -> u32
    ensures { result ≡ number_said answer }
{
    match answer {
        Reading::Refused(refusal) => refusal.number(),
        Reading::Value(..) => 0,
    }
}

// "Every refusal returns its number alone"
#[tactic(auto, unfolding(rules::specs::AnswerText::read_text))]
pub fn write_reading(out: &mut [u8], at: usize, key: u32, answer: Reading) -> usize
    requires { at + HEAD ≤ length out.old }
    ensures wrote { Wrote out.old at (read_text key (reading_said answer)) out.new result }
    ensures ends { result ≤ at + HEAD }
{
    let Reading::Value(amount, st) = answer else {
        return write_line(out, at, b'X', &[number_of(answer)]);
    };
    write_value(out, at, key, st, amount)
}

// "C identity, version; or B identity", from the two words of a finish entry.
#[tactic(auto, unfolding(rules::specs::AnswerText::outcome_text))]
fn write_finish(out: &mut [u8], at: usize, identity: u32, version: u32) -> usize
    requires { at + HEAD ≤ length out.old }
    ensures wrote { Wrote out.old at (outcome_text identity (outcome_of version)) out.new result }
    ensures ends { result ≤ at + 24 }
{
    if version == 0 {
        return write_line(out, at, b'B', &[identity]);
    }
    write_line(out, at, b'C', &[identity, version])
}

// "After its event, one line a finish": the finish entries that the event wrote.
#[tactic(auto, using(crate::specs::Finishes::told_room))]
pub fn write_finishes(out: &mut [u8], at: usize, finishes: &[u32], count: u32) -> usize
    requires entries { 2 * count ≤ length finishes.now }
    requires room { at + 24 * count + HEAD ≤ length out.old }
    ensures wrote { Wrote out.old at (words_text count finishes.now) out.new result }
    ensures ends { result ≤ at + 24 * count }
{
    let mut place = at;
    for i in 0..count as usize {
        place = write_finish(out, place, finishes[2 * i], finishes[2 * i + 1]);
    }
    place
}
