// The lines of a chunk, one after the other.
ghost use Rattle.std.specs.Prelude.{◌≡◌, ◌≤◌, ◌+◌, ◌-◌, ◌||◌, true, false, length};
ghost use Rattle.answers.specs.declared.TheConstants.{LONGEST};
ghost use Rattle.feed.specs.Feeding.{has_room, whole_given};
ghost use Rattle.feed.specs.Answering.{Usable, memory};
ghost use Rattle.feed.specs.Walking.{Came, Stopped};

use crate::Standing;
use crate::taking::take_line;
use answers::LONGEST;
use numerals::find;

// How far a chunk is taken: where the next line starts, where the answers end, how the log stands there, and whether the tables are known to be long enough and to hold a sound
// state.
#[derive(Clone, Copy)]
pub struct Place {
    pub from: usize,
    pub at: usize,
    pub standing: Standing,
    pub known: bool,
}

// A line with its newline, and where the next one starts: the end of a line that is skipped, or a line to answer.
fn take_whole(
    line: &[u8],
    next: usize,
    place: Place,
    book: &mut [u32],
    sums: &mut [i64],
    finishes: &mut [u32],
    out: &mut [u8],
) -> Place
    requires known { place.known ≡ true → Usable book.old sums.old }
    requires list { length finishes.old ≡ 64 }
    requires room { place.standing.skipping ≡ false → place.at + LONGEST ≤ length out.old }
    ensures { Came (whole_given place.standing.skipping line.now place.standing.opened (memory book.old sums.old finishes.old)) (memory book.new sums.new finishes.new) out.old place.at out.new next result }
{
    if place.standing.skipping {
        return Place {
            from: next,
            standing: Standing {
                opened: place.standing.opened,
                skipping: false,
            },
            ..place
        };
    }
    let taken = take_line(
        line,
        place.standing.opened,
        place.known,
        book,
        sums,
        finishes,
        out,
        place.at,
    );
    Place {
        from: next,
        at: taken.at,
        standing: Standing {
            opened: taken.opened,
            skipping: false,
        },
        known: taken.known,
    }
}

// A line that is skipped needs no room; any other has room for the longest answer of one event.
fn may_go_on(place: Place, room: usize) -> bool
    requires { place.at ≤ room }
    ensures { result ≡ (place.standing.skipping || has_room (room - place.at)) }
{
    place.standing.skipping || LONGEST <= room - place.at
}

// Where the walk stopped, and whether it was for want of room.
#[derive(Clone, Copy)]
pub struct Stop {
    pub place: Place,
    pub full: bool,
}

// Whole lines, while there is room.
pub fn take_lines(
    input: &[u8],
    start: Place,
    book: &mut [u32],
    sums: &mut [i64],
    finishes: &mut [u32],
    out: &mut [u8],
) -> Stop
    requires begins { (start.from ≡ 0) × (start.at ≡ 0) }
    requires known { start.known ≡ true → Usable book.old sums.old }
    requires list { length finishes.old ≡ 64 }
    ensures { Stopped input.now start.standing (memory book.old sums.old finishes.old) out.old result (memory book.new sums.new finishes.new) out.new }
{
    let mut place = start;
    let mut end = find(input, 0, b'\n');
    while end < input.len() && may_go_on(place, out.len()) {
        place = take_whole(
            &input[place.from..end],
            end + 1,
            place,
            book,
            sums,
            finishes,
            out,
        );
        end = find(input, place.from, b'\n');
    }
    Stop {
        place,
        full: end < input.len(),
    }
}
