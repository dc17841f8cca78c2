// What stands behind the last newline of a chunk.
ghost use Rattle.std.specs.Prelude.{◌≡◌, ◌≤◌, ◌<◌, ◌+◌, true, false, length};
ghost use Rattle.answers.specs.declared.TheConstants.{LONGEST};
ghost use Rattle.feed.specs.Feeding.{is_left};
ghost use Rattle.feed.specs.Answering.{Usable, memory};
ghost use Rattle.feed.specs.Ending.{Ended};

use crate::taking::take_line;
use crate::walking::Place;
use crate::{Fed, Standing};
use answers::LONGEST;
use engine::Refusal;
use records::LINE;

// It is left for the next chunk where it isn't too long, and the log goes on, or there is nothing of it.
fn is_left(tail: &[u8], at_end: bool) -> bool
    ensures { result ≡ is_left at_end tail.now }
{
    tail.len() <= LINE && (!at_end || tail.is_empty())
}

// Nothing of it is taken.
pub fn leave(place: Place, full: bool) -> Fed
    ensures { result ≡ record { taken = place.from; wrote = place.at; full = full; standing = place.standing } }
{
    Fed {
        taken: place.from,
        wrote: place.at,
        full,
        standing: place.standing,
    }
}

// It is skipped, if the line it belongs to is too long already; "A line over 512 bytes without its newline (skipped whole)" is refused, and what comes of it later is skipped; at
// the end of the log it is the last line, which "may lack its newline"; else it is left for the next chunk.
pub fn take_tail(
    tail: &[u8],
    at_end: bool,
    end: usize,
    place: Place,
    book: &mut [u32],
    sums: &mut [i64],
    finishes: &mut [u32],
    out: &mut [u8],
) -> Fed
    requires ends { end ≡ place.from + length tail.now }
    requires room { place.at ≤ length out.old }
    requires known { place.known ≡ true → Usable book.old sums.old }
    requires list { length finishes.old ≡ 64 }
    ensures within { (place.from ≤ result.taken) × (result.taken ≤ end) × (result.wrote ≤ length out.old) }
    ensures left { result.full ≡ false → end ≤ result.taken + 512 }
    ensures at_end { result.full ≡ false → at_end ≡ true → result.taken ≡ end }
    ensures full { result.full ≡ true → (result.wrote ≡ place.at) × (length out.old < place.at + LONGEST) }
    ensures ended { Ended at_end tail.now place (memory book.old sums.old finishes.old) out.old result (memory book.new sums.new finishes.new) out.new }
{
    if place.standing.skipping {
        return Fed {
            taken: end,
            wrote: place.at,
            full: false,
            standing: place.standing,
        };
    }
    if is_left(tail, at_end) {
        return leave(place, false);
    }
    if out.len() - place.at < LONGEST {
        return leave(place, true);
    }
    if tail.len() > LINE {
        return Fed {
            taken: end,
            wrote: answers::write_refusal(out, place.at, Refusal::Unreadable),
            full: false,
            standing: Standing {
                opened: place.standing.opened,
                skipping: true,
            },
        };
    }
    let taken = take_line(
        tail,
        place.standing.opened,
        place.known,
        book,
        sums,
        finishes,
        out,
        place.at,
    );
    Fed {
        taken: end,
        wrote: taken.at,
        full: false,
        standing: Standing {
            opened: taken.opened,
            skipping: false,
        },
    }
}
