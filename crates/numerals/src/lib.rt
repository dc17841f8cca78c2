// Numbers and parts of text, on lent bytes: where a part ends, what number a part is, and a number written into a buffer.
#![tactic(auto)]

ghost use Rattle.std.specs.List.{position};
ghost use Rattle.std.specs.Prelude.{◌==◌, ◌+◌, ◌≤◌, ◌<◌, ◌^◌, [], ◌∷◌, ◌≡◌, pos, length, drop};
ghost use Rattle.std.proofs.Math.Option.{map};
ghost use Rattle.rules.specs.Bytes.{well_led, number, signed, below_zero, decimal_text, signed_text};
ghost use Rattle.laws.specs.Options.{given};
ghost use Rattle.numerals.specs.Parts.{until};
ghost use Rattle.numerals.specs.Reading.{read_from};
ghost use Rattle.numerals.specs.Writing.{Wrote};

// The largest and the least signed 64-bit value, without their signs.
const LARGEST: u64 = i64::MAX as u64;

const LEAST: u64 = i64::MAX as u64 + 1;

// The place of the first c, if there is one: the library's `position`, and by itself what `find` goes by.
fn first_place(s: &[u8], c: u8) -> Option<usize>
    ensures { result ≡ position (λ b. b == c) s.now }
{
    s.iter().position(|b| *b == c)
}

// The place of the first byte c from i on, or the length where there is none: where the part that begins at i ends. No Option: a part ends in either case, and
// callers are promised where.
#[tactic(auto, using(crate::specs::Parts::found_some, crate::specs::Parts::found_none))]
pub fn find(s: &[u8], i: usize, c: u8) -> usize
    requires { i ≤ length s.now }
    ensures { (result ≡ i + until c (drop i s.now)) × (result ≤ length s.now) }
{
    match first_place(&s[i..], c) {
        Some(k) => i + k,
        None => s.len(),
    }
}

// "with no leading zeros"
#[tactic(auto, using(crate::specs::Reading::leading))]
fn is_well_led(s: &[u8]) -> bool
    ensures { result ≡ well_led s.now }
{
    match s {
        [] => false,
        [_] => true,
        [first, ..] => *first != b'0',
    }
}

// The digits from the left on. By hand: the library's `parse` reads text and takes a `+`, and the tests for leading zeros and for
// the field's limit would stand beside it all the same. The limit is tested before each product and sum, and guards them: a value that it lets through fits 64 bits.
#[tactic(auto, using(crate::specs::Reading::reading))]
fn digits(s: &[u8], limit: u64) -> Option<u64>
    ensures { result ≡ given (read_from limit 0 s.now) }
{
    let mut v: u64 = 0;
    for b in s {
        if !b.is_ascii_digit() {
            return None;
        }
        let d = u64::from(*b - b'0');
        if limit / 10 < v || limit - v * 10 < d {
            return None;
        }
        v = v * 10 + d;
    }
    Some(v)
}

// An unsigned decimal number without leading zeros and within its field's limit. All of s is the number.
#[tactic(auto, using(crate::specs::Reading::number_led, crate::specs::Reading::number_unled))]
pub fn read_number(s: &[u8], limit: u64) -> Option<u64>
    ensures { result ≡ given (number limit s.now) }
{
    if !is_well_led(s) {
        return None;
    }
    digits(s, limit)
}

// What has no minus in front. Its limit makes the cast exact.
#[tactic(auto, using(crate::specs::Answers::value_within, crate::specs::Answers::plain_value))]
fn plain(s: &[u8]) -> Option<i64>
    ensures { result ≡ given (map pos (number 9_223_372_036_854_775_807 s.now)) }
{
    let m = read_number(s, LARGEST)?;
    Some(m as i64)
}

// What stands behind a minus. "`-0` is unreadable."
#[tactic(auto, using(crate::specs::Answers::value_within, crate::specs::Answers::below_value, crate::specs::Answers::negative_value))]
fn negative(s: &[u8]) -> Option<i64>
    ensures { result ≡ given (below_zero (number 9_223_372_036_854_775_808 s.now)) }
{
    let m = read_number(s, LEAST)?;
    if m == 0 {
        return None;
    }
    0i64.checked_sub_unsigned(m)
}

// A signed 64-bit value: a minus may stand first.
#[tactic(auto, using(crate::specs::Amounts::first_byte))]
pub fn read_signed(s: &[u8]) -> Option<i64>
    ensures { result ≡ given (signed s.now) }
{
    match s {
        [] => None,
        [b'-', rest @ ..] => negative(rest),
        [_, ..] => plain(s),
    }
}

// Bytes laid over a buffer from a place on; each writer gives the place behind what it wrote.
// Each takes the buffer and the place as they are: the buffer is lent and of fixed size (no heap), and a cursor struct would have to promise in each method that it still lends the same buffer, so it is no plainer.

// One byte.
#[tactic(auto, using(crate::specs::Writing::wrote_byte))]
pub fn write_byte(out: &mut [u8], at: usize, b: u8) -> usize
    requires { at < length out.old }
    ensures { Wrote out.old at (b ∷ []) out.new result }
{
    out[at] = b;
    at + 1
}

// A digit's byte, for the writers, which write bytes and no text.
fn digit(d: u64) -> u8
    requires { d < 10 }
    ensures { result ≡ 48 + d }
{
    b'0' + (d as u8)
}

// The digits before the last one first, by the same function, where there are any.
#[tactic(auto, using(crate::specs::Writing::digit_by_digit))]
fn write_digits(out: &mut [u8], at: usize, v: u64) -> usize
    requires { at + length (decimal_text v) ≤ length out.old }
    ensures { Wrote out.old at (decimal_text v) out.new result }
{
    if v < 10 {
        return write_byte(out, at, digit(v));
    }
    let last = write_digits(out, at, v / 10);
    write_byte(out, last, digit(v % 10))
}

// A number in decimal, which has at most 20 digits.
#[tactic(auto, using(crate::specs::Writing::room_number))]
pub fn write_number(out: &mut [u8], at: usize, v: u64) -> usize
    requires { at + 20 ≤ length out.old }
    ensures { Wrote out.old at (decimal_text v) out.new result }
{
    write_digits(out, at, v)
}

// A signed 64-bit value in decimal, behind a minus where it is below zero.
#[tactic(auto, using(crate::specs::Writing::behind_a_minus))]
pub fn write_signed(out: &mut [u8], at: usize, v: i64) -> usize
    requires { at + 20 ≤ length out.old }
    ensures { Wrote out.old at (signed_text v) out.new result }
{
    if v < 0 {
        let first = write_byte(out, at, b'-');
        return write_digits(out, first, v.unsigned_abs());
    }
    write_digits(out, at, v.unsigned_abs())
}
