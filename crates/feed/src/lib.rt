// A chunk of text over lent memory: the lines in it are taken one after the other, each answered into a lent buffer.
#![tactic(auto)]

mod answering;
mod ending;
mod taking;
mod walking;

ghost use Rattle.std.specs.Prelude.{◌≡◌, ◌≤◌, ◌<◌, ◌+◌, true, false, length};
ghost use Rattle.answers.specs.declared.TheConstants.{LONGEST};
ghost use Rattle.feed.specs.Feeding.{fed};
ghost use Rattle.feed.specs.Answering.{Usable};
ghost use Rattle.feed.specs.Ending.{leaves};

use tables::{BOOK, Book, SUMS, Sums};
use walking::Place;

// How a log stands between two chunks: whether an engine is opened, and whether the text stands inside a line that is too long.
#[derive(Clone, Copy, Debug, PartialEq, Eq)]
pub struct Standing {
    pub opened: bool,
    pub skipping: bool,
}

// How far a chunk was taken, how many bytes of answers were written, whether it stopped for want of room for more of them, and how the log then stands.
#[derive(Clone, Copy, Debug, PartialEq, Eq)]
pub struct Fed {
    pub taken: usize,
    pub wrote: usize,
    pub full: bool,
    pub standing: Standing,
}

// The tables are long enough and hold a sound state: looked at once for a chunk.
fn is_usable(book: &[u32], sums: &[i64]) -> bool
    ensures { result ≡ true → Usable book.now sums.now }
{
    if book.len() < BOOK || sums.len() < SUMS {
        return false;
    }
    checking::is_sound(Book { words: book }, Sums { amounts: sums })
}

// Takes the lines of a chunk while the buffer of answers has room for the longest answer of one event (`answers::LONGEST`). What isn't taken is to be given again, in front of what
// comes next: where there was room, it is the beginning of one line. At the end of the log, `at_end`, the last line needs no newline, and where there was room nothing is left. Where
// there was none (`full`), fewer bytes than the longest answer are free behind what was written.
pub fn feed(
    input: &[u8],
    at_end: bool,
    standing: Standing,
    book: &mut [u32],
    sums: &mut [i64],
    out: &mut [u8],
) -> Fed
    ensures fed { leaves result book.new sums.new out.new ≡ fed at_end standing input.now book.old sums.old out.old }
    ensures taken { result.taken ≤ length input.now }
    ensures wrote { result.wrote ≤ length out.old }
    ensures left { result.full ≡ false → length input.now ≤ result.taken + 512 }
    ensures at_end { result.full ≡ false → at_end ≡ true → result.taken ≡ length input.now }
    ensures full { result.full ≡ true → length out.old < result.wrote + LONGEST }
    ensures goes_on { result.full ≡ true → LONGEST ≤ length out.old → 0 < result.taken }
{
    let known = standing.opened && is_usable(book, sums);
    let mut finishes = [0; 64];
    let start = Place {
        from: 0,
        at: 0,
        standing,
        known,
    };
    let stop = walking::take_lines(input, start, book, sums, &mut finishes, out);
    if stop.full {
        return ending::leave(stop.place, true);
    }
    let tail = &input[stop.place.from..];
    ending::take_tail(
        tail,
        at_end,
        input.len(),
        stop.place,
        book,
        sums,
        &mut finishes,
        out,
    )
}
